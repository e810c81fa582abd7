// What a listing says of a sheet, and the states of the machine that says it of a sheet that comes in pieces. There is no code
// here: the crate `listing` has it.

#![tactic(auto)]

use head_rules::HeadReader;

// What the machine is at: the head, a run of blocks, the end of the input behind the last one; or it has listed the sheet, or
// refused it, and wants nothing more.
#[derive(Clone, Copy)]
pub enum Phase {
    Head,
    Blocks,
    End,
    Listed,
    Refused,
}

// The reader of the head, which keeps it while blocks come, and how many blocks have come.
#[derive(Clone, Copy)]
pub struct Machine {
    pub phase: Phase,
    pub reader: HeadReader,
    pub from: u32,
}
