// What is proved of the calls from C beyond their contracts, in specs/. No code.
#![tactic(auto)]
