// What reading one pixel means, and the format's page in the order in which it is read aloud, letter by letter and bit by bit: definitions
// and theorems, no code. The crate `bc7_plain` has it.

#![tactic(auto)]
