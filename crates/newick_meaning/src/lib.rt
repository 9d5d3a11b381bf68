// What a Newick text means: no code. The reply to any text is in specs/, that the grammar alone settles it in proofs/.
#![tactic(auto)]
