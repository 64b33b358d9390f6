// Tables without a choice of outcome, and plans with the same complete runs. No code.
#![tactic(auto)]
