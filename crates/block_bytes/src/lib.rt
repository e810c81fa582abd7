// A block among bytes: taken from its place, and stored there. What the bytes are, a sheet or a part of one, isn't known here.

#![tactic(auto)]

ghost use Rattle.std.specs.Prelude.{◌≡◌, ◌+◌, ◌≤◌, length};
ghost use Rattle.bcn_format.specs.Block.{block_at, put_block};

// The block at a place.
pub fn load(s: &[u8], at: usize) -> [u8; 16]
    requires { at + 16 ≤ length s.now }
    ensures { result ≡ block_at s.now at }
{
    let mut block = [0u8; 16];
    let end = at + 16;
    block.copy_from_slice(&s[at..end]);
    block
}

// A block to a place.
pub fn store(s: &mut [u8], at: usize, block: [u8; 16])
    requires { at + 16 ≤ length s.old }
    ensures { s.new ≡ put_block s.old at block }
{
    let end = at + 16;
    s[at..end].copy_from_slice(&block);
}
