// Drawing, as far as any block format draws: the keys by which pixels are looked up in a palette. What a palette holds is its format's.

#![tactic(auto)]

pub mod keys;
