// What a sheet of blocks means (specs/) and what holds of it (proofs/), and no code: a row of blocks as scanlines, the
// rows together as the picture, where a block stands, and what any sequence of calls leaves of a sheet.

#![tactic(auto)]
