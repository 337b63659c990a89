// FIPS 197, 5.1.1 and 5.3.2: the substitution of bytes and its inverse, worked out by the field's rule.
//
// Contracts cite `specs/`: `sub_bytes` and `inv_sub_bytes` of a state, `sub_word` of a word. The substitution is defined by its tables there;
// that they follow the rule and undo each other is proved there, once over the whole tables. The code reads no table: bytes are turned
// into planes of bits (`bits`), and the inverse in the field and the affine step are gates between planes.
#![tactic(auto)]

ghost use Rattle.std.specs.Prelude.{◌≡◌, ◌%◌, map, length};
ghost use Rattle.block.specs.Tab.{tab, byte};
ghost use Rattle.sbox.specs.Sub.{sub, inv_sub, sub_bytes, inv_sub_bytes, sub_word};
ghost use Rattle.sbox.specs.Directions.{directed};

// The affine step and the step undone.
mod affine_step;
// The inverse in the field.
mod field_inverse;
// Both, over planes of bits.
mod planewise;

use affine_step::affine;
use bits::{merged, shifted};
use field_inverse::{bottom, low_inverse, norm, products, top};
use planewise::substitute;

// SubBytes. It and the next are one function under FIPS 197's two names, which the rounds go by; so are `sub_all` and `inv_sub_all`.
pub fn sub_bytes(s: [u8; 16]) -> [u8; 16]
    ensures { result ≡ sub_bytes s }
{
    block_substituted(false, s)
}

// InvSubBytes.
pub fn inv_sub_bytes(s: [u8; 16]) -> [u8; 16]
    ensures { result ≡ inv_sub_bytes s }
{
    block_substituted(true, s)
}

// SubWord, of key setup. It composes the parts of `planewise::substituted` again: with a second caller that one would not be inlined.
pub fn sub_word(w: [u8; 4]) -> [u8; 4]
    ensures { result ≡ sub_word w }
{
    let y = top(shifted(u32::from_le_bytes(w)));
    let u = low_inverse(norm(y));
    merged(affine(bottom(products(u, y)))).to_le_bytes()
}

// SubBytes of every byte of s, however many.
pub fn sub_all(s: &mut [u8])
    ensures { s.new ≡ map sub s.old }
{
    all_substituted(false, s)
}

// InvSubBytes of every byte of s.
pub fn inv_sub_all(s: &mut [u8])
    ensures { s.new ≡ map inv_sub s.old }
{
    all_substituted(true, s)
}

// One block, or with `back` the inverse of it.
fn block_substituted(back: bool, s: [u8; 16]) -> [u8; 16]
    ensures { result ≡ tab 16 (λ i. directed back (byte s i)) }
{
    let mut group = bits::spread_block(&s);
    substitute(back, &mut group);
    bits::gather_block(&group)
}

// Every byte of s: 128 at a time, and a rest below that one by one. AES asks for 256.
fn all_substituted(back: bool, s: &mut [u8])
    ensures { s.new ≡ map (directed back) s.old }
{
    let whole = s.len() / 128 * 128;
    let (front, rest) = s.split_at_mut(whole);
    together(back, front);
    singly(back, rest);
}

// 128 bytes at a time. By place: of what is written through the chunks that std lends (`chunks_exact_mut`, `as_chunks_mut`) a proof knows nothing.
fn together(back: bool, s: &mut [u8])
    requires { length s.old % 128 ≡ 0 }
    ensures { s.new ≡ map (directed back) s.old }
{
    for i in 0..s.len() / 128 {
        chunk(back, &mut s[128 * i..128 * i + 128]);
    }
}

// 128 bytes. The array is made here, since of one that is made of a part of a slice in the loop a proof knows nothing either.
fn chunk(back: bool, s: &mut [u8])
    requires { length s.old ≡ 128 }
    ensures { s.new ≡ map (directed back) s.old }
{
    if let Some(bytes) = s.as_mut_array() {
        let mut group = [0; 32];
        bits::spread(bytes, &mut group);
        substitute(back, &mut group);
        bits::gather(&mut group, bytes);
    }
}

// The bytes of s one by one.
fn singly(back: bool, s: &mut [u8])
    ensures { s.new ≡ map (directed back) s.old }
{
    for x in s.iter_mut() {
        *x = single(back, *x);
    }
}

// One byte.
fn single(back: bool, x: u8) -> u8
    ensures { result ≡ directed back x }
{
    block_substituted(back, [x; 16])[0]
}
