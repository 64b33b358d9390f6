// A log of moves replayed on a plan. No code: definitions and theorems.
#![tactic(auto)]
