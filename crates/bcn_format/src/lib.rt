// What block formats share, as definitions (specs/) and their laws (proofs/), and no code: the bits of a block, partitions with their
// subsets and anchors, indexes as they are stored, weights and drawing. Nothing here knows a format.

#![tactic(auto)]
