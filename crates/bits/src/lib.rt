// Numbers as sets of places: the bits that are set. No code.
#![tactic(auto)]
