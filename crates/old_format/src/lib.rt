// The format of images before moves had two bytes: what its reader and its writer refused, and the table that they saw, as definitions; and the
// theorems that join them to those of today. There is no code in this crate, and none is held to it.
#![tactic(auto)]
