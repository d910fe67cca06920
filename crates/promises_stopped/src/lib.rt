// What is promised of a stopped job's depth, of the contracts of the call and of its export as callers get them: proofs/.
#![tactic(auto)]
