// FIPS 197, 5.1 and 5.3: Cipher and InvCipher. The round keys come by value from key setup, with the number of rounds.
//
// Contracts cite `specs/Cipher.antt`. That each direction undoes the other is in `proofs/`: `Undo`.
#![tactic(auto)]

ghost use Rattle.std.specs.Prelude.{◌≡◌, ◌++◌, map, ◌+◌, ◌≤◌, ◌<◌, length, take, drop};
ghost use Rattle.block.specs.Blocks.{on_blocks};
ghost use Rattle.cipher.specs.Cipher.{cipher, inv_cipher, crypted};

// Up to sixteen blocks at once.
mod lanes;

use block::xor;
use rounds::{RoundKeys, inv_mix_columns, inv_shift_rows, mix_columns, shift_rows};
use sbox::{inv_sub_bytes, sub_bytes};

// One block, enciphered, or with `back` deciphered. The direction is a `bool` here and above, since the definitions take one (`crypted back`) and keep
// their meaning; where it picks a step, an `if` does.
pub fn crypt(back: bool, keys: RoundKeys, b: [u8; 16]) -> [u8; 16]
    ensures { result ≡ crypted back keys.keys keys.rounds b }
{
    if back {
        inverse(keys, b)
    } else {
        forward(keys, b)
    }
}

// Every full block of s in place; the bytes after them are kept. Sixteen blocks at a time, and then those that are left if they are three
// or more: fewer are quicker one by one. By places: of what is written through the chunks that std lends (`as_chunks_mut`) a proof knows nothing.
pub fn crypt_blocks(back: bool, keys: RoundKeys, s: &mut [u8])
    ensures { s.new ≡ on_blocks (map (crypted back keys.keys keys.rounds)) s.old }
{
    let groups = s.len() / 256;
    for i in 0..groups {
        lanes::group(back, keys, s, 256 * i, 16);
    }
    let at = 256 * groups;
    let n = (s.len() - at) / 16;
    if n >= 3 {
        lanes::group(back, keys, s, at, n);
    } else {
        singly(back, keys, s, at);
    }
}

// Every full block of s from `at` on, one after the other; every other byte of s is kept.
fn singly(back: bool, keys: RoundKeys, s: &mut [u8], at: usize)
    requires { at ≤ length s.old }
    ensures { s.new ≡ take at s.old ++ on_blocks (map (crypted back keys.keys keys.rounds)) (drop at s.old) }
{
    for i in 0..(s.len() - at) / 16 {
        let x = block::load(s, at + 16 * i);
        block::put(s, at + 16 * i, crypt(back, keys, x));
    }
}

// Cipher.
fn forward(keys: RoundKeys, b: [u8; 16]) -> [u8; 16]
    ensures { result ≡ cipher keys.keys keys.rounds b }
{
    let mut s = xor(b, keys.keys[0]);
    for key in &keys.keys[1..keys.rounds] {
        s = xor(mix_columns(shift_rows(sub_bytes(s))), *key);
    }
    xor(shift_rows(sub_bytes(s)), keys.keys[keys.rounds])
}

// InvCipher.
fn inverse(keys: RoundKeys, b: [u8; 16]) -> [u8; 16]
    ensures { result ≡ inv_cipher keys.keys keys.rounds b }
{
    let mut s = xor(b, keys.keys[keys.rounds]);
    // By number, as 5.3 numbers the round keys: backwards over a part of the array, what is left goes by lengths, and is no plainer.
    for j in (1..keys.rounds).rev() {
        s = inv_mix_columns(xor(inv_sub_bytes(inv_shift_rows(s)), keys.keys[j]));
    }
    xor(inv_sub_bytes(inv_shift_rows(s)), keys.keys[0])
}
