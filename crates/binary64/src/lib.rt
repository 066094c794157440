// Laws of binary64 arithmetic, in specs/. No code.
#![tactic(auto)]
