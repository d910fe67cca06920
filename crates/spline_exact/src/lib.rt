// Evaluation without rounding, on whole knots: definitions in specs/, theorems in proofs/.
#![tactic(auto)]
