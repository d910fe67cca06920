// The promises of the call of many parameters, of its contract as a caller gets it: proofs/.
#![tactic(auto)]
