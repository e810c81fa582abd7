// Which blocks are opaque, by what is visible of them: definitions and theorems, no code. The crate `opacity` has it.

#![tactic(auto)]
