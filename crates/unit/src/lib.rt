// A data unit under XTS (IEEE 1619-2007, 5.3 and 5.4) in place on lent bytes, over AES in one direction and the tweak of its block 0.
//
// `unit` and `under` ensure the definitions of `specs/Unit.antt`, where the standard's steps stand over any block function. That a unit is undone by
// the other direction, stealing included, and keeps its length is proved once over any two functions that undo each other (`proofs/Undo`); that a block
// that can be read alone needs no other, in `proofs/OneBlock`.
#![tactic(auto)]

ghost use Rattle.std.specs.Prelude.{◌≡◌, ◌⊎◌, ◌≤◌, ◌<◌, length, take, drop};
ghost use Rattle.block.specs.Blocks.{full, on_blocks};
ghost use Rattle.block.specs.Double.{doubles};
ghost use Rattle.aes.specs.Aes.{crypted};
ghost use Rattle.unit.specs.Unit.{alone, xts_block, xts_blocks, stolen, last_two, xts_unit};

use aes::RoundKeys;
use field::mask;

// A unit has a block at the least, which no type says of a slice.
//
// The unit s, of 16 bytes or more, enciphered, or with `back` deciphered. t is the tweak of its block 0.
pub fn unit(back: bool, keys: RoundKeys, t: [u8; 16], s: &mut [u8])
    requires { 16 ≤ length s.old }
    ensures { s.new ≡ xts_unit (crypted back keys.keys keys.rounds) back t s.old }
{
    let end = 16 * alone(s.len());
    let next = blocks(back, keys, t, &mut s[..end]);
    last_two(back, keys, next, &mut s[end..]);
}

// How many blocks of a unit of n bytes can be read alone.
pub fn alone(n: usize) -> usize
    requires { 16 ≤ n }
    ensures { result ≡ alone n }
{
    if n % 16 == 0 {
        return n / 16;
    }
    n / 16 - 1
}

// The block x under its tweak t.
pub fn under(back: bool, keys: RoundKeys, t: [u8; 16], x: [u8; 16]) -> [u8; 16]
    ensures { result ≡ xts_block (crypted back keys.keys keys.rounds) t x }
{
    block::xor(aes::crypt(back, keys, block::xor(x, t)), t)
}

// All full blocks of s, each under its tweak; t is the first one's, and the tweak after the last one's is returned.
fn blocks(back: bool, keys: RoundKeys, t: [u8; 16], s: &mut [u8]) -> [u8; 16]
    ensures { (result ≡ doubles (full s.old) t)
        × (s.new ≡ on_blocks (xts_blocks (crypted back keys.keys keys.rounds) t) s.old) }
{
    mask(s, t);
    aes::crypt_blocks(back, keys, s);
    mask(s, t)
}

// What is left of a unit after the blocks that can be read alone: nothing, or the last full block and the bytes after it. t is the tweak of
// the full one; enciphering has it first, and deciphering the next one. By an `if`: why the direction is a `bool`, `cipher::crypt` says.
fn last_two(back: bool, keys: RoundKeys, t: [u8; 16], s: &mut [u8])
    requires { (length s.old ≡ 0) ⊎ ((16 < length s.old) × (length s.old < 32)) }
    ensures { s.new ≡ last_two (crypted back keys.keys keys.rounds) back t s.old }
{
    if s.is_empty() {
        return;
    }
    let next = block::doubled(t);
    if back {
        steal(back, keys, next, t, s);
        return;
    }
    steal(back, keys, t, next, s);
}

// Ciphertext stealing on s, a full block and fewer than 16 bytes after it. The first bytes of what the first tweak makes of the block change places with
// those after it, and the block that comes of that goes under the second tweak.
fn steal(back: bool, keys: RoundKeys, first: [u8; 16], second: [u8; 16], s: &mut [u8])
    requires { (16 < length s.old) × (length s.old < 32) }
    ensures { s.new ≡ stolen (crypted back keys.keys keys.rounds) first second (take 16 s.old) (drop 16 s.old) }
{
    let cc = under(back, keys, first, block::load(s, 0));
    let m = s.len() - 16;
    let mut pp = cc;
    block::copy(&mut pp, 0, &s[16..]);
    block::copy(s, 16, &cc[..m]);
    block::put(s, 0, under(back, keys, second, pp));
}
