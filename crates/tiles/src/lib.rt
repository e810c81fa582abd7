// Tile order: from the number of a block to its stored number, and back. In a whole tile a block's slot is its column and row
// interleaved; only at the edges, where slots are skipped, it takes more than that. All numbers are below 2 ^ 32, and divided so:
// for longer ones the processor is asked first how long they are.

#![tactic(auto)]

ghost use Rattle.std.specs.Prelude.{◌≡◌, ◌*◌, ◌≤◌, ◌<◌};
ghost use Rattle.tile_rules.specs.Computed.{ahead, left, order_in_tile};
ghost use Rattle.tile_rules.specs.Tiles.{column_of_slot, number_in_tiles, row_of_slot, slot_in, stored_in_tiles, tile_blocks};
ghost use Rattle.tiles.specs.Parts.{Below, CellFound, InTile, Inside, Numbered, SpotFound, drawn, spread};

use tile_rules::Cell;

// Bits 0, 1 and 2 to bits 0, 2 and 4.
fn apart(v: u8) -> u8
    ensures { result ≡ spread v }
{
    (((v >> 2) & 1) << 4) | (((v >> 1) & 1) << 2) | (v & 1)
}

// Bits 0, 2 and 4 to bits 0, 1 and 2.
fn together(v: u8) -> u8
    ensures { result ≡ drawn v }
{
    (((v >> 4) & 1) << 2) | (((v >> 2) & 1) << 1) | (v & 1)
}

// Column and row of a block in its tile interleaved to a slot: its even bits are the column's, its odd bits the row's.
pub fn interleave(column: u8, row: u8) -> u8
    ensures { result ≡ slot_in column row }
{
    (apart(row) << 1) | apart(column)
}

// And parted again.
pub fn column_of_slot(slot: u8) -> u8
    ensures { result ≡ column_of_slot slot }
{
    together(slot)
}

pub fn row_of_slot(slot: u8) -> u8
    ensures { result ≡ row_of_slot slot }
{
    together(slot >> 1)
}

// Of n columns or rows of blocks, those of cell q of side s.
fn cell_side(s: usize, n: usize, q: usize) -> usize
    requires { s * q ≤ n }
    ensures { result ≡ left s n q }
{
    let rest = n - s * q;
    if rest < s { rest } else { s }
}

// Of w columns and h rows of blocks, those before the cell in column x and row y of cells of side s.
fn blocks_ahead(s: usize, w: usize, h: usize, x: usize, y: usize) -> usize
    requires { Inside s w h x y }
    ensures { Below (h * w) result (ahead s w h x y) }
{
    s * y * w + s * x * cell_side(s, h, y)
}

// How many of the w by h blocks of a tile are stored before the one in column x and row y.
fn order_in_tile(w: usize, h: usize, x: usize, y: usize) -> usize
    requires { InTile w h x y }
    ensures { Below tile_blocks result (order_in_tile w h x y) }
{
    let a = x / 4 % 2;
    let b = y / 4 % 2;
    let first = blocks_ahead(4, w, h, a, b);
    let w4 = cell_side(4, w, a);
    let h4 = cell_side(4, h, b);
    let d = x / 2 % 2;
    let e = y / 2 % 2;
    let second = blocks_ahead(2, w4, h4, d, e);
    first + second + y % 2 * cell_side(2, w4, d) + x % 2
}

// The stored number of a block. What stands before its tile is summed behind the question whether the tile is whole, which most are.
pub fn stored_in_tiles(columns: usize, rows: usize, block: usize) -> usize
    requires { Numbered columns rows block }
    ensures { result ≡ stored_in_tiles columns rows block }
{
    let x = (block as u32 % columns as u32) as usize;
    let y = (block as u32 / columns as u32) as usize;
    let w = cell_side(8, columns, x / 8);
    if w == 8 && cell_side(8, rows, y / 8) == 8 {
        let before = blocks_ahead(8, columns, rows, x / 8, y / 8);
        return before + interleave((x % 8) as u8, (y % 8) as u8) as usize;
    }
    let before = blocks_ahead(8, columns, rows, x / 8, y / 8);
    before + order_in_tile(w, cell_side(8, rows, y / 8), x % 8, y % 8)
}

// The cell of side s that holds the block with m stored before it, of w columns and h rows of blocks.
fn cell_at(s: usize, w: usize, h: usize, m: usize) -> Cell
    requires { (0 < s) × (s ≤ 8) × Numbered w h m }
    ensures { CellFound s w h m result }
{
    let line = s * w;
    let y = (m as u32 / line as u32) as usize;
    let past = (m as u32 % line as u32) as usize;
    let high = cell_side(s, h, y);
    let column = s * high;
    let x = (past as u32 / column as u32) as usize;
    Cell {
        x,
        y,
        w: cell_side(s, w, x),
        h: high,
        rest: (past as u32 % column as u32) as usize,
    }
}

// Column and row of a block in its tile.
#[derive(Clone, Copy)]
pub struct Spot {
    pub x: usize,
    pub y: usize,
}

// Those of the block with m stored before it, of the w by h of a tile.
fn spot_in_tile(w: usize, h: usize, m: usize) -> Spot
    requires { (w ≤ 8) × (h ≤ 8) × (m < h * w) }
    ensures { SpotFound w h m result }
{
    let b = cell_at(4, w, h, m);
    let d = cell_at(2, b.w, b.h, b.rest);
    let e = cell_at(1, d.w, d.h, d.rest);
    Spot {
        x: 4 * b.x + 2 * d.x + e.x,
        y: 4 * b.y + 2 * d.y + e.y,
    }
}

// The number of the block that has so many stored before it.
pub fn number_in_tiles(columns: usize, rows: usize, stored: usize) -> usize
    requires { Numbered columns rows stored }
    ensures { result ≡ number_in_tiles columns rows stored }
{
    let a = cell_at(8, columns, rows, stored);
    if a.w == 8 && a.h == 8 {
        let slot = a.rest as u8;
        return (8 * a.y + row_of_slot(slot) as usize) * columns
            + (8 * a.x + column_of_slot(slot) as usize);
    }
    let t = spot_in_tile(a.w, a.h, a.rest);
    (8 * a.y + t.y) * columns + (8 * a.x + t.x)
}
