// From what the walk has noted to the reply, as theory: no code. The edges of a sentence do not conflict, the table has room, an accepted list is well-formed.
#![tactic(auto)]
