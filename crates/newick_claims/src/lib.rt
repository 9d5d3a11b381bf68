// What is promised of Newick text, over the replies of the calls: no code. Statements in specs/, proofs in proofs/.
#![tactic(auto)]
