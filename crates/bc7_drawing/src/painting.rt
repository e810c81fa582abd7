// Painting: sixteen pixels, each looked up by its key in the palette of its block.
ghost use Rattle.std.specs.Prelude.{◌≡◌, [], ◌<◌, get_or};
ghost use Rattle.drawing.specs.Keys.{key_at};
ghost use Rattle.bc7_fields.specs.Painting.{painted};
ghost use Rattle.bc7_drawing.specs.Asked.{Keyed};

use drawing::keys::Keys;
use std::array;

// By indexes of W bits above subsets of S, so out of N colours, 2 ^ (W + S). With literal numbers for the three the compiler folds each key's
// place in its word.
pub fn paint<const W: u32, const S: u32, const N: usize>(
    p: [[u8; 4]; N],
    keys: Keys,
) -> [[u8; 4]; 16]
    requires { Keyed W S N }
    ensures { result ≡ painted (key_at W S keys) p.entry }
{
    array::from_fn(
        |q| -> [u8; 4]
            requires colours { Keyed W S N }
            requires pixel { q < 16 }
            ensures { result ≡ get_or p (key_at W S keys q) [] }
        { p[keys.key(W, S, q)] },
    )
}
