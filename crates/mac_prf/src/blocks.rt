//! Blocks of octets: written one after the other, and added.

ghost use Rattle.std.specs.Prelude.{◌≡◌, ◌≤◌, ◌++◌, ◌-◌, ◌+◌, take, length};
ghost use Rattle.aes_block.specs.Octets.{exclusive_or};

/// Writes the front of a block at a place, as far as there is room.
pub fn put_block(out: &mut [u8], at: usize, block: &[u8])
    requires { at ≤ length out.old }
    ensures front { take (at + length block.now) out.new
        ≡ take at out.old ++ take (length out.old - at) block.now }
    ensures len { length out.new ≡ length out.old }
{
    let count = block.len().min(out.len() - at);
    out[at..at + count].copy_from_slice(&block[..count]);
}

/// Adds octets to as many others, each to its own by exclusive or.
pub fn add<const N: usize>(sum: &mut [u8; N], octets: &[u8; N])
    ensures { sum.new ≡ exclusive_or sum.old octets.now }
{
    for i in 0..N {
        sum[i] ^= octets[i];
    }
}
