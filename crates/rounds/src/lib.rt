// FIPS 197, 5.1 and 5.3: the steps of a round and of an inverse round, on a state by value, and the round keys that the rounds take.
//
// Contracts cite `specs/Steps.antt`. SubBytes and its inverse are the crate `sbox`'s, AddRoundKey is `block::xor`. That each step is
// undone by its inverse, and that a block stays a block, is in `proofs/`: `Undo`. What the columns' products are made of, also for
// a layer that goes through many blocks at once, is in `Columns`.
#![tactic(auto)]

ghost use Rattle.std.specs.Prelude.{◌≡◌, ◌<◌};
ghost use Rattle.sbox.specs.Field.{xtime};
ghost use Rattle.rounds.specs.Steps.{shift_rows, inv_shift_rows, mix_columns, inv_mix_columns, each_times_x, columns_turned};

use block::xor;

// The round keys of a key, 0 to `rounds`, which is the number of rounds; those after them are not used. They go by value from key setup to the
// block function, for both directions. The direction is no part of them: T_star is enciphered under the keys that a message is deciphered under.
#[derive(Clone, Copy)]
pub struct RoundKeys {
    pub keys: [[u8; 16]; 15],
    pub rounds: usize,
    ghost few: { (0 < rounds) × (rounds < 15) },
}

// ShiftRows. The places are written out, here, in the inverse and in `turned`, as FIPS 197 prints them: by arithmetic on the place they are one
// function, and no plainer.
pub fn shift_rows(s: [u8; 16]) -> [u8; 16]
    ensures { result ≡ shift_rows s }
{
    [
        s[0], s[5], s[10], s[15], s[4], s[9], s[14], s[3], s[8], s[13], s[2], s[7], s[12], s[1],
        s[6], s[11],
    ]
}

// InvShiftRows.
pub fn inv_shift_rows(s: [u8; 16]) -> [u8; 16]
    ensures { result ≡ inv_shift_rows s }
{
    [
        s[0], s[13], s[10], s[7], s[4], s[1], s[14], s[11], s[8], s[5], s[2], s[15], s[12], s[9],
        s[6], s[3],
    ]
}

// MixColumns: 02 is x, 03 is x and 1, and the row k below is a column turned k times.
pub fn mix_columns(s: [u8; 16]) -> [u8; 16]
    ensures { result ≡ mix_columns s }
{
    let x2 = each_times_x(s);
    let last = xor(s, turned(s));
    xor(x2, turned(xor(xor(x2, s), turned(last))))
}

// InvMixColumns: (0e, 0b, 0d, 09) is (02, 03, 01, 01) times (05, 00, 04, 00).
pub fn inv_mix_columns(s: [u8; 16]) -> [u8; 16]
    ensures { result ≡ inv_mix_columns s }
{
    let both = xor(s, turned(turned(s)));
    let x4 = each_times_x(each_times_x(both));
    mix_columns(xor(s, x4))
}

// Each column moved up by one row: what stood in the row below.
fn turned(s: [u8; 16]) -> [u8; 16]
    ensures { result ≡ columns_turned s }
{
    [
        s[1], s[2], s[3], s[0], s[5], s[6], s[7], s[4], s[9], s[10], s[11], s[8], s[13], s[14],
        s[15], s[12],
    ]
}

// Each byte times x.
pub fn each_times_x(s: [u8; 16]) -> [u8; 16]
    ensures { result ≡ each_times_x s }
{
    std::array::from_fn(|i| times_x(s[i]))
}

// A byte times x, without a branch: 0x1b is what x^8 leaves.
fn times_x(b: u8) -> u8
    ensures { result ≡ xtime b }
{
    (b << 1) ^ ((b >> 7) * 0x1b)
}
