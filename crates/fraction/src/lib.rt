// Definitions and laws only: specs/Lib.antt says what is here.
#![tactic(auto)]
