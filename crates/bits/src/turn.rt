// How bytes are turned into planes of bits and back.
//
// Four words of bytes at a time: byte c of a word is what a plane has in its byte c. Eight words, turned by `flipped`, fill planes;
// one word alone is put into planes by shifts, and then one bit in eight of them counts.
ghost use Rattle.std.specs.Prelude.{◌≡◌, [], ◌∷◌, ◌+◌, ◌*◌, ◌≤◌, ◌<◌, length};
ghost use Rattle.block.specs.Tab.{byte};
ghost use Rattle.bits.specs.Planes.{words, planes_of, Flipped, Placed, Word, WordPut, Spread};
ghost use Rattle.bits.specs.Wires.{input, value, wired, lower, upper, flip_ones, flip_twos, flip_fours};

use super::{BitPlanes, over_planes, planes_at, put_planes};

// Two words with the bits that lie s apart exchanged: those of a above for those of b below, where m has a bit.
fn exchanged(a: u32, b: u32, s: u32, m: u32) -> (u32, u32)
    requires { s < 32 }
    ensures first { result.0 ≡ value (a ∷ b ∷ []) (lower s m (input 0) (input 1)) }
    ensures second { result.1 ≡ value (a ∷ b ∷ []) (upper s m (input 0) (input 1)) }
{
    let d = (a >> s ^ b) & m;
    (a ^ d << s, b ^ d)
}

// Exchanges bits in pairs: the odd ones of a word for the even ones of the next. Three functions, and not one over the distance: the words are fields,
// by name (`BitPlanes`).
fn flip_ones(q: BitPlanes) -> BitPlanes
    ensures { words result ≡ wired flip_ones (words q) }
{
    let (p0, p1) = exchanged(q.p0, q.p1, 1, 0x5555_5555);
    let (p2, p3) = exchanged(q.p2, q.p3, 1, 0x5555_5555);
    let (p4, p5) = exchanged(q.p4, q.p5, 1, 0x5555_5555);
    let (p6, p7) = exchanged(q.p6, q.p7, 1, 0x5555_5555);
    BitPlanes {
        p0,
        p1,
        p2,
        p3,
        p4,
        p5,
        p6,
        p7,
    }
}

// The same in pairs of bits, between words two apart.
fn flip_twos(q: BitPlanes) -> BitPlanes
    ensures { words result ≡ wired flip_twos (words q) }
{
    let (p0, p2) = exchanged(q.p0, q.p2, 2, 0x3333_3333);
    let (p1, p3) = exchanged(q.p1, q.p3, 2, 0x3333_3333);
    let (p4, p6) = exchanged(q.p4, q.p6, 2, 0x3333_3333);
    let (p5, p7) = exchanged(q.p5, q.p7, 2, 0x3333_3333);
    BitPlanes {
        p0,
        p1,
        p2,
        p3,
        p4,
        p5,
        p6,
        p7,
    }
}

// The same in halves of a byte, between words four apart.
fn flip_fours(q: BitPlanes) -> BitPlanes
    ensures { words result ≡ wired flip_fours (words q) }
{
    let (p0, p4) = exchanged(q.p0, q.p4, 4, 0x0f0f_0f0f);
    let (p1, p5) = exchanged(q.p1, q.p5, 4, 0x0f0f_0f0f);
    let (p2, p6) = exchanged(q.p2, q.p6, 4, 0x0f0f_0f0f);
    let (p3, p7) = exchanged(q.p3, q.p7, 4, 0x0f0f_0f0f);
    BitPlanes {
        p0,
        p1,
        p2,
        p3,
        p4,
        p5,
        p6,
        p7,
    }
}

// Eight words of bytes as planes, and planes as eight words of bytes: bit i of a byte of word j is exchanged for bit j of the same byte
// of word i.
fn flipped(q: BitPlanes) -> BitPlanes
    ensures { Flipped (words q) (words result) }
{
    flip_fours(flip_twos(flip_ones(q)))
}

// One word of bytes as planes: of each, bit 0 of every byte counts. A line for each field, here and in `merged`: a loop needs an array and a copy.
pub fn shifted(w: u32) -> BitPlanes
    ensures { Placed w (words result) }
{
    BitPlanes {
        p0: w,
        p1: w >> 1,
        p2: w >> 2,
        p3: w >> 3,
        p4: w >> 4,
        p5: w >> 5,
        p6: w >> 6,
        p7: w >> 7,
    }
}

// The word of bytes that bit 0 of every byte of the planes has.
pub fn merged(q: BitPlanes) -> u32
    ensures { Placed result (words q) }
{
    let low = q.p0 & 0x0101_0101
        ^ (q.p1 & 0x0101_0101) << 1
        ^ (q.p2 & 0x0101_0101) << 2
        ^ (q.p3 & 0x0101_0101) << 3;
    low ^ (q.p4 & 0x0101_0101) << 4
        ^ (q.p5 & 0x0101_0101) << 5
        ^ (q.p6 & 0x0101_0101) << 6
        ^ (q.p7 & 0x0101_0101) << 7
}

// The four bytes of s from `at` on as a word, the lowest first.
fn word(s: &[u8], at: usize) -> u32
    requires { at + 4 ≤ length s.now }
    ensures { Word result s.now at }
{
    u32::from_le_bytes([s[at], s[at + 1], s[at + 2], s[at + 3]])
}

// Puts the bytes of the word into s from `at` on.
fn put_word(s: &mut [u8], at: usize, w: u32)
    requires { at + 4 ≤ length s.old }
    ensures { WordPut w s.old at s.new }
{
    s[at..at + 4].copy_from_slice(&w.to_le_bytes());
}

// 16 bytes as a group of planes. By shifts, which cost a fraction of what `flipped` does, and by place, as `over_planes`.
pub fn spread_block(s: &[u8; 16]) -> [u32; 32]
    ensures { Spread 1 s.now result }
{
    let mut group = [0; 32];
    for t in 0..4 {
        put_planes(&mut group, t, shifted(word(s, 4 * t)));
    }
    group
}

// And back.
pub fn gather_block(group: &[u32; 32]) -> [u8; 16]
    ensures { Spread 1 result group.now }
{
    let mut s = [0; 16];
    for t in 0..4 {
        put_word(&mut s, 4 * t, merged(planes_at(group, t)));
    }
    s
}

// 128 bytes as a group of planes. The group is lent, and the bytes of `gather` are: returned, each would be copied, a tenth of the time that the
// substitution of 128 bytes takes.
pub fn spread(s: &[u8; 128], group: &mut [u32; 32])
    ensures { Spread 8 s.now group.new }
{
    *group = std::array::from_fn(|i| word(s, 4 * i));
    over_planes(group, flipped);
}

// And back.
pub fn gather(group: &mut [u32; 32], s: &mut [u8; 128])
    ensures { Spread 8 s.new group.old }
{
    over_planes(group, flipped);
    for (i, w) in group.iter().enumerate() {
        put_word(s, 4 * i, *w);
    }
}
