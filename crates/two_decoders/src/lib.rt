// That the two decoders give the same: theorems over what `decode_bc7_block` (crate bc7) and `pixel_of` (crate bc7_plain) promise, and no
// code. It stands above both, so that neither names the other.

#![tactic(auto)]
