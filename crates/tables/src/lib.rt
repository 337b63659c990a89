// FIPS 197, 5.1.1 and 5.3.2: the substitution of bytes and its inverse looked up in their tables, for tests alone: the running code works
// them out (`sbox`) and reads no table at a place that depends on a key or a text. `kat` and `probe` compare the two.
//
// Contracts are those of `sbox`'s functions of the same names, and cite its `specs/`. That the tables follow the field's rule and undo each
// other is proved there, once over the whole tables.
#![tactic(auto)]

ghost use Rattle.std.specs.Prelude.{◌≡◌, map};
ghost use Rattle.block.specs.Tab.{byte};
ghost use Rattle.sbox.specs.Sub.{sub, inv_sub, sub_bytes, inv_sub_bytes, sub_word, looked_up};

// The two tables, a file each.
mod inverse_table;
mod table;

use inverse_table::INV_SBOX;
use table::SBOX;

// SubBytes. The names are those of `sbox`, each over one function, so that `kat` and `probe` take either.
//
// The table is copied to a local once and lent: a constant that is indexed is copied at every look-up.
pub fn sub_bytes(s: [u8; 16]) -> [u8; 16]
    ensures { result ≡ sub_bytes s }
{
    let t = SBOX;
    looked_up(&t, s)
}

// InvSubBytes.
pub fn inv_sub_bytes(s: [u8; 16]) -> [u8; 16]
    ensures { result ≡ inv_sub_bytes s }
{
    let t = INV_SBOX;
    looked_up(&t, s)
}

// SubWord, of key setup.
pub fn sub_word(w: [u8; 4]) -> [u8; 4]
    ensures { result ≡ sub_word w }
{
    let t = SBOX;
    looked_up(&t, w)
}

// SubBytes of every byte of s, however many.
pub fn sub_all(s: &mut [u8])
    ensures { s.new ≡ map sub s.old }
{
    let t = SBOX;
    all_looked_up(&t, s)
}

// InvSubBytes of every byte of s.
pub fn inv_sub_all(s: &mut [u8])
    ensures { s.new ≡ map inv_sub s.old }
{
    let t = INV_SBOX;
    all_looked_up(&t, s)
}

// What the table has for each byte of an array.
fn looked_up<const N: usize>(t: &[u8; 256], s: [u8; N]) -> [u8; N]
    ensures { result ≡ looked_up N t.now s.entry }
{
    let mut r = s;
    all_looked_up(t, &mut r);
    r
}

// What the table has for each byte of s, in its place.
fn all_looked_up(t: &[u8; 256], s: &mut [u8])
    ensures { s.new ≡ map (byte t.now) s.old }
{
    for x in s.iter_mut() {
        *x = t[*x as usize];
    }
}
