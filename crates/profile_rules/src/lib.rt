// The profile of the hand-held unit, as definitions (specs/) and their laws (proofs/), and no code: which blocks and which sheets it takes, what
// checking a sheet answers, and what its small decoder shows of a block and of a row of a sheet.

#![tactic(auto)]

use refusals::Refusal;

// Why a sheet doesn't keep the profile: a refusal, or the number of the first block that breaks it, which is refused with 20.
#[derive(Clone, Copy, PartialEq, Eq)]
pub enum Breach {
    Refused(Refusal),
    Block(u32),
}
