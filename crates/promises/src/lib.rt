// The promises of the library's calls, of their contracts as callers get them: proofs/.
#![tactic(auto)]
