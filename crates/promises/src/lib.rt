// No code: what the engine promises its users, demands 1 to 3, as theorems in specs/ and proofs/.
#![tactic(auto)]
