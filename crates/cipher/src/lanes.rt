// Up to sixteen blocks at once, in planes (crate `planes`).
ghost use Rattle.std.specs.Prelude.{◌≡◌, ◌++◌, map, ◌+◌, ◌*◌, ◌≤◌, ◌<◌, length, take, drop};
ghost use Rattle.block.specs.Blocks.{blocks, join};
ghost use Rattle.planes.specs.Lanes.{Lanewise};
ghost use Rattle.cipher.specs.Cipher.{cipher, inv_cipher, crypted};

use rounds::RoundKeys;

// The n blocks of s from `at` on. Every other byte of s is kept. A place and a count, and no part of s: what the loop over groups leaves is said of the
// whole slice (`on_group`), and of a part it is no plainer.
pub fn group(back: bool, keys: RoundKeys, s: &mut [u8], at: usize, n: usize)
    requires { (n ≤ 16) × (at + 16 * n ≤ length s.old) }
    ensures { s.new
        ≡ take at s.old ++ join (map (crypted back keys.keys keys.rounds) (blocks n (drop at s.old))) ++ drop (at + 16 * n) s.old }
{
    let mut b = [0u8; 256];
    let mut a = [0u8; 256];
    planes::spread(s, at, n, &mut b);
    crypt_lanes(back, keys, &mut b, &mut a);
    planes::gather(&a, s, at, n);
}

// What a holds afterwards is each of b's blocks, enciphered, or with `back` deciphered (why the direction is a `bool`: `crypt`).
fn crypt_lanes(back: bool, keys: RoundKeys, b: &mut [u8; 256], a: &mut [u8; 256])
    ensures { Lanewise (crypted back keys.keys keys.rounds) b.old a.new }
{
    if back {
        inverse(keys, b, a);
    } else {
        forward(keys, b, a);
    }
}

// Cipher. This and `inverse` are lib.rt's over planes; one for both, over a trait, would need the steps twice, as long as these two functions.
fn forward(keys: RoundKeys, b: &mut [u8; 256], a: &mut [u8; 256])
    ensures { Lanewise (cipher keys.keys keys.rounds) b.old a.new }
{
    planes::add(b, keys.keys[0]);
    for key in &keys.keys[1..keys.rounds] {
        planes::sub_shift(b, a);
        planes::mix(a, b);
        planes::add(b, *key);
    }
    planes::sub_shift(b, a);
    planes::add(a, keys.keys[keys.rounds]);
}

// InvCipher.
fn inverse(keys: RoundKeys, b: &mut [u8; 256], a: &mut [u8; 256])
    ensures { Lanewise (inv_cipher keys.keys keys.rounds) b.old a.new }
{
    planes::add(b, keys.keys[keys.rounds]);
    // (by number: lib.rt)
    for j in (1..keys.rounds).rev() {
        planes::inv_shift_sub(b, a);
        planes::add(a, keys.keys[j]);
        planes::inv_mix(a, b);
    }
    planes::inv_shift_sub(b, a);
    planes::add(a, keys.keys[0]);
}
