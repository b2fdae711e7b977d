// Demand 3 and the check's definition agree: what the contract of check cites stands in specs/, the proof in proofs/.
#![tactic(auto)]
