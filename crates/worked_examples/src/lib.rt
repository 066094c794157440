// The worked examples as one theorem, in specs/. No code.
#![tactic(auto)]
