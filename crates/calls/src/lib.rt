// What can be said of a call by its contract: specs/.
#![tactic(auto)]
