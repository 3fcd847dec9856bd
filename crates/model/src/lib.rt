// What a line is and does, for every store and every payload.
#![tactic(auto)]
