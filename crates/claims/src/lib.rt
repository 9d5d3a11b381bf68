// The claims: what the box promises, stated in specs/ in the words of its three demands and proved in proofs/. No code.
#![tactic(auto)]
