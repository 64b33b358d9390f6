// What a plan can become: whether that is finite, and which jobs it has. No code.
#![tactic(auto)]
