// What is proved of a particle's calls beyond their contracts, in specs/. No code.
#![tactic(auto)]
