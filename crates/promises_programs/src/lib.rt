// What the programs over lines print, of the contracts of their calls as callers get them: proofs/.
#![tactic(auto)]
