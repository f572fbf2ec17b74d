// Definitions only: what the engine's contracts and the theorems mean stands in specs/, the laws about it in proofs/.
#![tactic(auto)]
