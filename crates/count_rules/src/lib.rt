// Counts kept beside a sheet, as definitions (specs/) and their theorems (proofs/), and no code: how many blocks have each mode and how many are
// opaque, why a call that comes with counts is refused, what it leaves of sheet and counts, and that counts once true stay true.

#![tactic(auto)]

// How many blocks of a sheet have mode 0, 1, .., 8, where 8 is reserved; and how many are opaque by what is shown of them.
#[derive(Clone, Copy)]
pub struct Counts {
    pub modes: [u32; 9],
    pub opaque: u32,
}
