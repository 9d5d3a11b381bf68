// The Newick text of a list, as theory: no code. How a vertex's text is made of its children's, and how long a text can be.
#![tactic(auto)]
