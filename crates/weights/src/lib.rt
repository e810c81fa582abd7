// The weight of an index: how much of the second endpoint its colour has. With n weights, weight i is the whole part of
// (64 i + h) / (n - 1), where h is the whole part of (n - 1) / 2: the last has the whole, and each index an equal part of it, rounded. No
// table of weights stands anywhere in the code; with a literal width and index the compiler folds the division away.

#![tactic(auto)]

ghost use Rattle.std.specs.Prelude.{◌≡◌, ◌*◌};
ghost use Rattle.bcn_format.specs.Drawing.{Weighed, weight_of};
ghost use Rattle.weights.specs.Weights.{Weight};

// Of 64, as the format prints it.
pub fn weight_64(bits: u32, index: u32) -> u32
    requires { Weighed bits index }
    ensures { Weight bits index result }
{
    let last = (1u32 << bits) - 1;
    (64 * index + last / 2) / last
}

// Of 256, as a channel is mixed by:
//
//     ((64 - w) * e0 + w * e1 + 32) / 64  =  ((256 - 4 * w) * e0 + 4 * w * e1 + 128) / 256
//
// The sum is still below 2^16, so it has room in a lane, and the channel is the upper byte of the lane, with no shift of its own.
pub fn weight_256(bits: u32, index: usize) -> u64
    requires { Weighed bits index }
    ensures { result ≡ 4 * weight_of bits index }
{
    4 * (weight_64(bits, index as u32) as u64)
}
