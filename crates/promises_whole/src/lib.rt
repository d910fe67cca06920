// The promises of the calls in whole numbers, of their contracts as callers get them: proofs/.
#![tactic(auto)]
