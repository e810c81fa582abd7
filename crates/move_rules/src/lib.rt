// Moves of a sheet between its forms, as definitions (specs/) and their theorems (proofs/), and no code: why a move is refused, what it
// leaves, and that there and back restores the bytes.

#![tactic(auto)]
