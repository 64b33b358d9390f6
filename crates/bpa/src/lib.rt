// Normed context-free processes (BPA): the meaning of tables and plans, the method of 000 as definitions on lists, and the
// theorems that join the two. There is no code in this crate.
#![tactic(auto)]
