// The full blocks after the first, between the two passes (000, table 1, steps 24 to 32 and 36 to 39): a running mask that is doubled from
// block to block, and begun anew at every 128th after the first.
ghost use Rattle.std.specs.Prelude.{◌≡◌, ◌++◌, ◌+◌, ◌*◌, ◌≤◌, length, take, drop};
ghost use Rattle.block.specs.Blocks.{block_at, with_block, on_blocks};
ghost use Rattle.aes.specs.Aes.{crypted};
ghost use Rattle.mode.specs.Wide.{mask, ccc_of, middle};

use aes::{RoundKeys, crypt};
use block::xor;

// The full blocks of s from the second on, from the mask M1.
pub fn blocks(back: bool, keys: RoundKeys, m1: [u8; 16], s: &mut [u8])
    requires { 16 ≤ length s.old }
    ensures { s.new ≡ take 16 s.old ++ on_blocks (middle (crypted back keys.keys keys.rounds) m1 2 m1) (drop 16 s.old) }
{
    let mut m = m1;
    // A loop of its own beside field::mask: one walk that takes what is done to a block as a closure says of it a relation, and is no plainer.
    for k in 1..s.len() / 16 {
        // By `next`: the check makes no proof of a call that takes the array that its result is laid in.
        let next = one(back, keys, m1, m, s, k);
        m = next;
    }
}

// Block k of s, counted from 0, becomes its CCC; its mask is returned, from the mask m of the block before.
fn one(back: bool, keys: RoundKeys, m1: [u8; 16], m: [u8; 16], s: &mut [u8], k: usize) -> [u8; 16]
    requires { 16 * k + 16 ≤ length s.old }
    ensures { (result ≡ mask (crypted back keys.keys keys.rounds) m1 (k + 1) m (block_at s.old (16 * k)))
        × (s.new ≡ with_block s.old (16 * k) (ccc_of (crypted back keys.keys keys.rounds) m1 (k + 1) result (block_at s.old (16 * k)))) }
{
    let x = block::load(s, 16 * k);
    if k % 128 != 0 {
        let next = block::doubled(m);
        block::put(s, 16 * k, xor(x, next));
        return next;
    }
    let mp = xor(x, m1);
    let mc = crypt(back, keys, mp);
    block::put(s, 16 * k, xor(mc, m1));
    xor(mp, mc)
}
