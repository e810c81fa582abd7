// What a block shows, straight from the bits that its fields stand at (specs/): what decoders compute, and no code. Nothing here has to be
// believed: that it is what `bc7_format` says of the same block is proved (proofs/Showing).

#![tactic(auto)]
