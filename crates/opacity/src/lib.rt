// Is a block opaque, by what is visible of it? Modes 0 to 3 store no alpha, so their blocks are, and aren't decoded for it. Any other is
// drawn once, and looked at up to the first visible pixel whose alpha isn't 255.

#![tactic(auto)]

ghost use Rattle.head_rules.specs.Answers.{known};
ghost use Rattle.std.specs.Prelude.{◌≡◌, ltb};
ghost use Rattle.bc7_format.specs.Modes.{mode_of};
ghost use Rattle.opacity.specs.Drawn.{InSheet, alpha_passes, opaque_drawn};
ghost use Rattle.opacity_rules.specs.Opacity.{opaque_in};
ghost use Rattle.opacity_rules.specs.Promises.{TellsOpaque};
ghost use Rattle.sheet_head.specs.Asked.{BlockAsked};

use bc7::decode_bc7_block;
use bc7_modes::mode_of;
use head_rules::Head;
use sheet_head::geometry::{blocks_across, shown_in};

// Does pixel q pass: is its alpha 255, or does it lie beyond the first so many columns or rows?
fn passes(alpha: u8, q: usize, columns: usize, rows: usize) -> bool
    ensures { result ≡ alpha_passes columns rows alpha q }
{
    if alpha == 255 {
        return true;
    }
    if columns <= q % 4 {
        return true;
    }
    rows <= q / 4
}

// Has every visible pixel alpha 255? The first that hasn't ends the search.
fn all_pass(drawn: [[u8; 4]; 16], columns: usize, rows: usize) -> bool
    ensures { result ≡ opaque_drawn columns rows drawn }
{
    for (q, pixel) in drawn.iter().enumerate() {
        if !passes(pixel[3], q, columns, rows) {
            return false;
        }
    }
    true
}

// Modes 0 to 3 draw alpha 255 everywhere.
fn stores_no_alpha(block: [u8; 16]) -> bool
    ensures { result ≡ ltb (mode_of block) 4 }
{
    mode_of(block) < 4
}

// Is a block opaque of which the first so many columns and rows are visible? Above 4 counts as 4; where nothing is visible it is.
pub fn is_opaque(block: [u8; 16], columns: u32, rows: u32) -> bool
    ensures { TellsOpaque block columns rows result }
{
    if stores_no_alpha(block) {
        return true;
    }
    all_pass(decode_bc7_block(block), columns as usize, rows as usize)
}

// Is a block of a sheet opaque, whose pixels are drawn already? Blocks count row by row.
pub fn is_opaque_in(head: Head, number: u32, block: [u8; 16], drawn: [[u8; 4]; 16]) -> bool
    requires { InSheet (known head) number block drawn }
    ensures { result ≡ opaque_in head.width head.height number block }
{
    if stores_no_alpha(block) {
        return true;
    }
    let n = number as usize;
    let across = blocks_across(head.width) as usize;
    let columns = shown_in(head.width as usize, n % across);
    let rows = shown_in(head.height as usize, n / across);
    all_pass(drawn, columns, rows)
}

// The same of a block that isn't drawn yet; where the mode tells, it isn't drawn at all.
pub fn is_opaque_at(head: Head, number: u32, block: [u8; 16]) -> bool
    requires { BlockAsked (known head) number }
    ensures { result ≡ opaque_in head.width head.height number block }
{
    if stores_no_alpha(block) {
        return true;
    }
    is_opaque_in(head, number, block, decode_bc7_block(block))
}
