// What the functions for C promise, as definitions (specs/) with what holds them (proofs/), and no code: the answer, and every lent byte at
// exit.

#![tactic(auto)]
