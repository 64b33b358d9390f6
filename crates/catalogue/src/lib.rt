// The prime forms of a norm, listed in dictionary order: definitions and theorems, no code.
#![tactic(auto)]
