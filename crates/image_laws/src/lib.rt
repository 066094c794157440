// What is proved of images beyond the contracts of the calls that read and write them, in specs/. No code.
#![tactic(auto)]
