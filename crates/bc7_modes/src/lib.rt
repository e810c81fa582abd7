// The table of modes by rows, and the mode of a block.

#![tactic(auto)]

ghost use Rattle.std.specs.Prelude.{◌≡◌, ◌<◌};
ghost use Rattle.bc7_format.specs.Modes.{mode_of};
ghost use Rattle.bc7_modes.specs.Modes.{mode_row_as, mode_row_of};

// A row of the table. The kind of split: 0 whole, 1 two subsets, 2 three subsets, 3 vector and scalar. `indexes` asks for the number of
// fix-ups, and is told the kind: kinds 1 and 2 have as many, the others none.
#[derive(Clone, Copy)]
pub struct ModeRow {
    pub lines: u32,
    pub kind: u8,
    pub endpoints: usize,
    pub partition: u32,
    pub rotation: u32,
    pub index_mode: u32,
    pub colour: u32,
    pub alpha: u32,
    pub p: usize,
    pub first: u32,
    pub second: u32,
}

// A row, its columns in the order of the struct.
fn columns(
    lines: u32,
    kind: u8,
    endpoints: usize,
    partition: u32,
    rotation: u32,
    index_mode: u32,
    colour: u32,
    alpha: u32,
    p: usize,
    first: u32,
    second: u32,
) -> ModeRow
    ensures { result ≡ mode_row_as lines kind endpoints «partition» rotation index_mode colour alpha p first second }
{
    ModeRow {
        lines,
        kind,
        endpoints,
        partition,
        rotation,
        index_mode,
        colour,
        alpha,
        p,
        first,
        second,
    }
}

// The row of a mode. A `match` becomes a table in the program, where a constant array would be laid on the stack at each call.
pub fn mode_row(mode: u8) -> ModeRow
    requires { mode < 8 }
    ensures { result ≡ mode_row_of mode }
{
    match mode {
        // lines, kind, endpoints | partition, rotation, index mode | colour, alpha | p bits | index widths
        0 => columns(3, 2, 6, 4, 0, 0, 4, 0, 6, 3, 0),
        1 => columns(2, 1, 4, 6, 0, 0, 6, 0, 2, 3, 0),
        2 => columns(3, 2, 6, 6, 0, 0, 5, 0, 0, 2, 0),
        3 => columns(2, 1, 4, 6, 0, 0, 7, 0, 4, 2, 0),
        4 => columns(2, 3, 2, 0, 2, 1, 5, 6, 0, 2, 3),
        5 => columns(2, 3, 2, 0, 2, 0, 7, 8, 0, 2, 2),
        6 => columns(1, 0, 2, 0, 0, 0, 7, 7, 2, 4, 0),
        _ => columns(2, 1, 4, 6, 0, 0, 5, 5, 4, 2, 0),
    }
}

// The mode is the count of zero bits that byte 0 ends in, and 8 is reserved.
pub fn mode_of(block: [u8; 16]) -> u8
    ensures { result ≡ mode_of block }
{
    block[0].trailing_zeros() as u8
}
