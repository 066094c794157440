// What is proved of the single-particle cell beyond its contracts, in specs/. No code.
#![tactic(auto)]
