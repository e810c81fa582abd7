// The pixels of a block, laid scanline by scanline into their column of a row of blocks. A block at the right edge shows only some of
// its columns, a block at the lower edge only some of its scanlines.
ghost use Rattle.std.specs.Prelude.{◌≡◌, ◌+◌, ◌*◌, ◌≤◌, length, get_or};
ghost use Rattle.laws.specs.Tables.{over};
ghost use Rattle.sheet.specs.Columns.{InColumn, InScanline, ShownInColumn, scanline_byte, with_column};

use sheet_head::geometry::shown_in;

fn put_pixel(pixel: [u8; 4], at: usize, out: &mut [u8])
    requires { at + 4 ≤ length out.old }
    ensures { out.new ≡ over out.old at 4 (λ j. get_or pixel j 0) }
{
    out[at..at + 4].copy_from_slice(&pixel);
}

// The first n pixels of scanline y of a block.
fn put_scanline(px: [[u8; 4]; 16], y: usize, n: usize, at: usize, out: &mut [u8])
    requires { InScanline y n at (length out.old) }
    ensures { out.new ≡ over out.old at (4 * n) (scanline_byte px y) }
{
    // The number says both which pixel it is and where its bytes go.
    for k in 0..n {
        put_pixel(px[4 * y + k], at + 4 * k, out);
    }
}

// The scanlines of a block, into its column c of a row of blocks that is w pixels wide; n pixels of each are shown.
fn put_scanlines(px: [[u8; 4]; 16], c: usize, w: usize, n: usize, scanlines: usize, out: &mut [u8])
    requires { ShownInColumn c w n scanlines (length out.old) }
    ensures { out.new ≡ with_column w px c out.old }
{
    let scanline = 4 * w;
    // The number says both which four pixels are meant and where in the output they go, a whole row of pixels apart.
    for y in 0..scanlines {
        put_scanline(px, y, n, y * scanline + 16 * c, out);
    }
}

// All that is shown of a block, into its column. Nearly every block is shown whole: its loops then have constant bounds, which
// is what makes rows fast.
pub fn put_block(px: [[u8; 4]; 16], c: usize, w: usize, scanlines: usize, out: &mut [u8])
    requires { InColumn c w scanlines (length out.old) }
    ensures { out.new ≡ with_column w px c out.old }
{
    let n = shown_in(w, c);
    if n < 4 {
        put_scanlines(px, c, w, n, scanlines, out);
        return;
    }
    if scanlines < 4 {
        put_scanlines(px, c, w, 4, scanlines, out);
        return;
    }
    put_scanlines(px, c, w, 4, 4, out);
}
