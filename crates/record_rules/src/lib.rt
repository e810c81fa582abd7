// The record of a block as definitions (specs/) and their laws (proofs/), and no code. The record holds everything that a block
// stores, in the order of document 01; demand 2 is proved here, of what taking apart and packing are.

#![tactic(auto)]

use bc7_format::Split;

// Endpoint e has channel c (red, green, blue, alpha) at 4 * e + c. The index set that is stored first is the first.
#[derive(Clone, Copy)]
pub struct Record {
    pub mode: u8,
    pub split: Split,
    pub endpoints: [u8; 24],
    pub p: [u8; 6],
    pub first: [u8; 16],
    pub second: [u8; 16],
}
