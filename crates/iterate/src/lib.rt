// What a loop leaves after so many turns, in specs/. No code.
#![tactic(auto)]
