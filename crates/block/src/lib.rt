// Bytes in blocks of 16, and slices of bytes.
//
// A block goes by value, as [u8; 16]. Contracts of the layers above cite `specs/`: `◌⊕◌` (Xor), `double`, `doubles` and `pad` (Double), `block_at`,
// `with_block` and `on_blocks` (Blocks), `tab` for a list given by its places (Tab), rows of any width (Rows), little-endian numbers
// (LittleEndian), `Bytes` and `Block` (Bytes). `proofs/Lib.antt` lists the laws about them.
#![tactic(auto)]

ghost use Rattle.std.specs.Prelude.{◌≡◌, ◌+◌, ◌<◌, ◌≤◌, ◌++◌, length, take, drop};
ghost use Rattle.block.specs.Xor.{◌⊕◌};
ghost use Rattle.block.specs.Blocks.{block_at, with_block};
ghost use Rattle.block.specs.Double.{carried, double, pad};

// a xor b.
pub fn xor(a: [u8; 16], b: [u8; 16]) -> [u8; 16]
    ensures { result ≡ a ⊕ b }
{
    std::array::from_fn(|i| a[i] ^ b[i])
}

// The block of s that starts at `at`. A slice and a place, here and in `put`, `copy` and `padded`: what a write leaves is said of the whole slice, which a
// part that is lent does not give back.
pub fn load(s: &[u8], at: usize) -> [u8; 16]
    requires { at + 16 ≤ length s.now }
    ensures { result ≡ block_at s.now at }
{
    let mut r = [0u8; 16];
    r.copy_from_slice(&s[at..at + 16]);
    r
}

// Puts b into s from `at` on. Every other byte of s is kept. It is `copy` of a block, in the words of `with_block`.
pub fn put(s: &mut [u8], at: usize, b: [u8; 16])
    requires { at + 16 ≤ length s.old }
    ensures { s.new ≡ with_block s.old at b }
{
    s[at..at + 16].copy_from_slice(&b);
}

// Puts the text into s from `at` on. Every other byte of s is kept.
pub fn copy(s: &mut [u8], at: usize, text: &[u8])
    requires { at + length text.now ≤ length s.old }
    ensures { s.new ≡ take at s.old ++ (text.now ++ drop (at + length text.now) s.old) }
{
    // By place: std's copy of one lent slice into another becomes a call of `memmove`, which no call for C makes.
    for i in 0..text.len() {
        s[at + i] = text[i];
    }
}

// Twice the block in the field of 2^128 elements (000, 5.1), byte 0 the low end. Byte i - 1 is carried into byte i, and byte 15 by 87 hex
// into byte 0.
pub fn doubled(x: [u8; 16]) -> [u8; 16]
    ensures { result ≡ double x }
{
    std::array::from_fn(|i| {
        let low = x[i].wrapping_add(x[i]);
        if i == 0 {
            low ^ carry(x[15], 0x87)
        } else {
            low + carry(x[i - 1], 1)
        }
    })
}

// The bytes of s from `at` on, fewer than 16, padded. `at` is 0 at both callers today; as `load` and `put` it takes any place.
// Out of line: inlined where a short block is known to be there, the zeros after the copy become a call of `memset`.
#[inline(never)]
pub fn padded(s: &[u8], at: usize) -> [u8; 16]
    requires { (at ≤ length s.now) × (length s.now < at + 16) }
    ensures { result ≡ pad (drop at s.now) }
{
    let mut r = [0u8; 16];
    copy(&mut r, 0, &s[at..]);
    r[s.len() - at] = 0x80;
    r
}

// x where y is above 127, and else 0. An `if` here, and no branch in the machine code: the gate looks (host/c/secret_test.sh).
fn carry(y: u8, x: u8) -> u8
    ensures { result ≡ carried y x }
{
    if y > 127 { x } else { 0 }
}
