// What is proved of the summaries that runs leave, and of the search on them, in specs/. No code.
#![tactic(auto)]
