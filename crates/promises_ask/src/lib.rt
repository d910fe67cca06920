// What a sheet without a fault promises: proofs/.
#![tactic(auto)]
