// Specifications only: a stretch of places that a loop writes, in specs/.
#![tactic(auto)]
