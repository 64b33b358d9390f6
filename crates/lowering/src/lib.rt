// Rules that lower the norm of their job by one, and the runs by them. No code: definitions and theorems.
#![tactic(auto)]
