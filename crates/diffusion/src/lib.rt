// Diffusion in a particle: the sub-step in binary64 and in exact fractions, and how near they stay, in specs/. No code.
#![tactic(auto)]
