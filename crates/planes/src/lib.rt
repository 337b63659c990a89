// The steps of a round on sixteen blocks at once, in planes: plane p has byte p of each of the blocks, so that a step goes through
// whole planes, ShiftRows only picks them, and nothing moves within one.
//
// Contracts cite `specs/Lanes.antt`: what a step makes of each of the blocks is what FIPS 197's step makes of one.
#![tactic(auto)]

ghost use Rattle.std.specs.Prelude.{◌≡◌, List, cond, ◌++◌, ℕ, ◌+◌, ◌*◌, ◌%◌, ◌≤◌, ◌<◌, ltb, length, take, drop, replicate};
ghost use Rattle.block.specs.Tab.{tab, byte};
ghost use Rattle.block.specs.Xor.{◌⊕◌};
ghost use Rattle.block.specs.Blocks.{block_at, join};
ghost use Rattle.sbox.specs.Sub.{sub_bytes, inv_sub_bytes};
ghost use Rattle.rounds.specs.Steps.{shift_rows, inv_shift_rows, columns_times, mix_columns, inv_mix_columns};
ghost use Rattle.planes.specs.Lanes.{lane, Lanewise};
ghost use Rattle.planes.specs.Planes.{Plane, EachPlane, below, picked};

use block::{load, put, xor};
use rounds::each_times_x;

// SubBytes, then ShiftRows. This and the next stay two functions under FIPS 197's names: a flag would be longer, and what they share is `pick`.
pub fn sub_shift(s: &[u8; 256], d: &mut [u8; 256])
    ensures { Lanewise (λ b. shift_rows (sub_bytes b)) s.now d.new }
{
    pick(4, s, d);
    sbox::sub_all(d);
}

// InvShiftRows, then InvSubBytes.
pub fn inv_shift_sub(s: &[u8; 256], d: &mut [u8; 256])
    ensures { Lanewise (λ b. inv_sub_bytes (inv_shift_rows b)) s.now d.new }
{
    pick(12, s, d);
    sbox::inv_sub_all(d);
}

// MixColumns. The products are those of `rounds`, over planes: one for both would need a trait of what can be xored, multiplied by x and turned.
pub fn mix(s: &[u8; 256], d: &mut [u8; 256])
    ensures { Lanewise mix_columns s.now d.new }
{
    each_plane(
        d,
        |p, _| -> [u8; 16]
            requires { p < 16 }
            ensures { Plane p (λ l. mix_columns (lane s.entry.now l)) result }
        {
            let x = row(s, p, 0);
            let y = row(s, p, 1);
            let z = xor(each_times_x(y), y);
            xor(each_times_x(x), xor(z, xor(row(s, p, 2), row(s, p, 3))))
        },
    );
}

// InvMixColumns: (0e, 0b, 0d, 09) is (02, 03, 01, 01) times (05, 00, 04, 00).
pub fn inv_mix(s: &[u8; 256], d: &mut [u8; 256])
    ensures { Lanewise inv_mix_columns s.now d.new }
{
    let mut t = [0u8; 256];
    prepare(s, &mut t);
    mix(&t, d);
}

// AddRoundKey.
pub fn add(s: &mut [u8; 256], k: [u8; 16])
    ensures { Lanewise (λ b. b ⊕ k) s.old s.new }
{
    each_plane(
        s,
        |p, x| -> [u8; 16]
            requires { p < 16 }
            ensures { result ≡ x ⊕ replicate 16 (byte k p) }
        { xor(x, [k[p]; 16]) },
    );
}

// The n blocks of s from `at` on, in planes; the lanes after them hold zeros.
pub fn spread(s: &[u8], at: usize, n: usize, d: &mut [u8; 256])
    requires { (n ≤ 16) × (at + 16 * n ≤ length s.now) }
    ensures { (l : ℕ) → l < n → lane d.new l ≡ block_at s.now (at + 16 * l) }
{
    each_plane(
        d,
        |p, _| -> [u8; 16]
            requires { (p < 16) × (n ≤ 16) × (at + 16 * n ≤ length s.now) }
            ensures { result ≡ tab 16 (λ i. cond (ltb i n) (byte s.entry.now (at + p + 16 * i)) 0) }
        { strided(s, at + p, n) },
    );
}

// The first n lanes as blocks back in their place in d. Every other byte of d is kept. By places, as in `cipher`.
pub fn gather(s: &[u8; 256], d: &mut [u8], at: usize, n: usize)
    requires { (n ≤ 16) × (at + 16 * n ≤ length d.old) }
    ensures { d.new ≡ take at d.old ++ join (tab n (lane s.now)) ++ drop (at + 16 * n) d.old }
{
    for l in 0..n {
        put(d, at + 16 * l, strided(s, l, 16));
    }
}

// Puts what `plane` makes of p and of plane p, in the place of each plane p of d.
fn each_plane<F: Fn(usize, [u8; 16]) -> [u8; 16]>(d: &mut [u8; 256], plane: F)
    requires { (p : ℕ) (x : List ℕ) → p < 16 → F.pre plane p x }
    ensures { EachPlane (F.post plane) d.old d.new }
{
    for p in 0..16 {
        let x = load(d, 16 * p);
        put(d, 16 * p, plane(p, x));
    }
}

// Plane p of d is the plane of s that is k rows' worth further, for each row that p is down: what ShiftRows (4) and its inverse (12)
// pick.
fn pick(k: usize, s: &[u8; 256], d: &mut [u8; 256])
    requires { k < 16 }
    ensures { Lanewise (picked k) s.now d.new }
{
    each_plane(
        d,
        |p, _| -> [u8; 16]
            requires { (p < 16) × (k < 16) }
            ensures { result ≡ block_at s.entry.now (16 * ((p + k * (p % 4)) % 16)) }
        { load(s, 16 * ((p + k * (p % 4)) % 16)) },
    );
}

// Each column times (05, 00, 04, 00).
fn prepare(s: &[u8; 256], d: &mut [u8; 256])
    ensures { Lanewise (columns_times 5 0 4 0) s.now d.new }
{
    each_plane(
        d,
        |p, _| -> [u8; 16]
            requires { p < 16 }
            ensures { Plane p (λ l. columns_times 5 0 4 0 (lane s.entry.now l)) result }
        {
            let x = row(s, p, 0);
            let both = xor(x, row(s, p, 2));
            xor(x, each_times_x(each_times_x(both)))
        },
    );
}

// The plane that stands k rows below plane p in its column.
fn row(s: &[u8; 256], p: usize, k: usize) -> [u8; 16]
    requires { (p < 16) × (k < 4) }
    ensures { Plane (below p k) (lane s.now) result }
{
    load(s, 16 * (p / 4 * 4 + (p % 4 + k) % 4))
}

// Every sixteenth byte of s from `at` on, n of them, then zeros. By place: `from_fn` with a test of the place was tried, and its proof did not close.
fn strided(s: &[u8], at: usize, n: usize) -> [u8; 16]
    requires { (n ≤ 16) × (at + 16 * n < length s.now + 16) }
    ensures { result ≡ tab 16 (λ i. cond (ltb i n) (byte s.now (at + 16 * i)) 0) }
{
    let mut r = [0u8; 16];
    for i in 0..n {
        r[i] = s[at + 16 * i];
    }
    r
}
