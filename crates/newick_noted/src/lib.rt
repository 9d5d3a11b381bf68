// What the walk over a sentence has noted, as theory: no code. Which taxa it met, which edges it entered, each cluster once.
#![tactic(auto)]
