// The first of a plan's shortest runs in dictionary order of move numbers. No code: definitions and theorems.
#![tactic(auto)]
