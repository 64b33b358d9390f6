// Moves that tally alike. No code: definitions and theorems.
#![tactic(auto)]
