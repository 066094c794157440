// Specifications only: a cell that a step leaves passes the checks again, in specs/.
#![tactic(auto)]
