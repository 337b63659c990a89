// The mixing between the two passes (000, table 1, steps 18 to 40), in place: each block then depends on all.
ghost use Rattle.std.specs.Prelude.{◌≡◌, cond, ◌++◌, ◌*◌, ◌≤◌, length, take, drop};
ghost use Rattle.block.specs.Xor.{◌⊕◌};
ghost use Rattle.block.specs.Blocks.{full, rest};
ghost use Rattle.aes.specs.Aes.{crypted};
ghost use Rattle.mode.specs.Wide.{is_short};
ghost use Rattle.wide.specs.Passes.{total_of, mixed};

use super::masks;
use aes::{RoundKeys, crypt};
use block::xor;

// Steps 18 to 40: from the PPPs, which stand in s, and the short block the CCCs and the short block enciphered.
pub fn mix(back: bool, keys: RoundKeys, t: [u8; 16], s: &mut [u8])
    requires { 16 ≤ length s.old }
    ensures { s.new ≡ mixed (crypted back keys.keys keys.rounds) t s.old }
{
    let mp = xor(total(block::load(s, 0), s), t);
    let mm = crypt(back, keys, mp);
    let c1 = mc1(back, keys, mm, s);
    masks::blocks(back, keys, xor(mp, c1), s);
    short(mm, s);
    block::put(s, 0, xor(total(c1, s), t));
}

// x xor the blocks of s after the first, in their order; a short last one is padded.
fn total(x: [u8; 16], s: &[u8]) -> [u8; 16]
    requires { 16 ≤ length s.now }
    ensures { result ≡ total_of x (drop 16 s.now) }
{
    let (full, rest) = s[16..].as_chunks::<16>();
    let mut sum = x;
    for b in full {
        // By `more`: the check makes no proof of a call that takes the array that its result is laid in.
        let more = xor(sum, *b);
        sum = more;
    }
    if rest.is_empty() {
        return sum;
    }
    xor(sum, block::padded(rest, 0))
}

// Steps 19 to 22: MC1 is MM, and where the last block is short what the permutation makes of MM.
fn mc1(back: bool, keys: RoundKeys, mm: [u8; 16], s: &[u8]) -> [u8; 16]
    ensures { result ≡ cond (is_short (rest s.now)) (crypted back keys.keys keys.rounds mm) mm }
{
    if s.len() % 16 == 0 {
        return mm;
    }
    crypt(back, keys, mm)
}

// Step 34: the bytes of s after its full blocks xored with MM.
fn short(mm: [u8; 16], s: &mut [u8])
    ensures { s.new ≡ take (full s.old * 16) s.old ++ (rest s.old ⊕ mm) }
{
    let from = s.len() / 16 * 16;
    // By place, which is the place in mm: over a zip one has to say of two iterators what each has left, which is no plainer.
    for (i, x) in s[from..].iter_mut().enumerate() {
        *x ^= mm[i];
    }
}
