// What the bit chart of a block is: the names of its fields, and the text. There is no code here: the crate `chart` has it.

#![tactic(auto)]

use refusals::Refusal;

// The answer to an input: why it is refused, where it is, and the text that is printed of it, zeros behind. A refused one has a text too.
#[derive(Clone, Copy)]
pub struct Chart {
    pub refusal: Option<Refusal>,
    pub length: usize,
    pub text: [u8; 609],
}
