// Two tables joined, and plans of the one beside plans of the other. No code: definitions and theorems.
#![tactic(auto)]
