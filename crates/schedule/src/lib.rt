// FIPS 197, 5.2: key setup, over the number of words of the key.
//
// Contracts cite `specs/`: `key_size`, and `round_keys` of a key, which the code makes in a buffer of 60 words.
#![tactic(auto)]

ghost use Rattle.std.specs.Prelude.{◌≡◌, true, ◌++◌, ◌+◌, ◌-◌, ◌*◌, ◌/◌, ◌≤◌, ◌<◌, length, take, drop};
ghost use Rattle.block.specs.Tab.{tab};
ghost use Rattle.block.specs.Blocks.{block_at};
ghost use Rattle.schedule.specs.Size.{key_size};
ghost use Rattle.schedule.specs.KeyExpansion.{temp, next_word, word, expanded, round_keys};

use rounds::RoundKeys;

// The ten round constants.
const RCON: [u8; 10] = [0x01, 0x02, 0x04, 0x08, 0x10, 0x20, 0x40, 0x80, 0x1b, 0x36];

// Whether a key of n bytes is of a size that 01 takes.
pub fn key_size(n: usize) -> bool
    ensures { result ≡ key_size n }
{
    n == 16 || n == 32
}

// The rounds under a key of n bytes.
pub fn rounds_of(n: usize) -> usize
    ensures { result ≡ n / 4 + 6 }
{
    n / 4 + 6
}

// The round keys, for both directions, and how many rounds there are; the keys past the last round are 0.
pub fn key_setup(key: &[u8]) -> RoundKeys
    requires { key_size (length key.now) ≡ true }
    ensures keys { result.keys ≡ round_keys key.now }
    ensures rounds { result.rounds ≡ length key.now / 4 + 6 }
{
    let mut w = [0u8; 240];
    let n = key.len();
    w[..n].copy_from_slice(key);
    expand(&mut w, n / 4);
    RoundKeys {
        keys: round_keys(&w),
        rounds: rounds_of(n),
    }
}

// The words after the key's nk, up to those of the last round. That nk is 4 at the least is asked for by three functions: 5.2 speaks of Nk, and a type of
// its two sizes would have to give the number back at each place.
fn expand(w: &mut [u8; 240], nk: usize)
    requires { (4 ≤ nk) × (nk ≤ 8) }
    ensures { w.new ≡ expanded nk (take (4 * nk) w.old) (3 * nk + 28) ++ drop (4 * (4 * nk + 28)) w.old }
{
    let end = 4 * nk + 28;
    for i in nk..end {
        let t = next_word(w, nk, i);
        w[4 * i..4 * i + 4].copy_from_slice(&t);
    }
}

// w[i], from the words before it.
fn next_word(w: &[u8], nk: usize, i: usize) -> [u8; 4]
    requires { (4 ≤ nk) × (nk ≤ i) × (i < 11 * nk) × (4 * i ≤ length w.now) }
    ensures { result ≡ next_word nk i w.now }
{
    let t = changed(nk, i, word_at(w, i - 1));
    let a = word_at(w, i - nk);
    std::array::from_fn(|j| a[j] ^ t[j])
}

// w[i - 1], changed where 5.2 says so.
fn changed(nk: usize, i: usize, t: [u8; 4]) -> [u8; 4]
    requires { (4 ≤ nk) × (nk ≤ i) × (i < 11 * nk) }
    ensures { result ≡ temp nk i t }
{
    if i % nk == 0 {
        let r = sbox::sub_word([t[1], t[2], t[3], t[0]]);
        return [r[0] ^ RCON[i / nk - 1], r[1], r[2], r[3]];
    }
    if nk <= 6 {
        return t;
    }
    if i % nk == 4 {
        return sbox::sub_word(t);
    }
    t
}

// Word i of w. No `block::load` over the width: its clause is `block_at`'s, and a word's is `word`.
fn word_at(w: &[u8], i: usize) -> [u8; 4]
    requires { 4 * i + 4 ≤ length w.now }
    ensures { result ≡ word w.now i }
{
    let mut t = [0u8; 4];
    t.copy_from_slice(&w[4 * i..4 * i + 4]);
    t
}

// The words as round keys, four words each.
fn round_keys(w: &[u8; 240]) -> [[u8; 16]; 15]
    ensures { result ≡ tab 15 (λ j. block_at w.now (16 * j)) }
{
    let mut keys = [[0u8; 16]; 15];
    keys.copy_from_slice(w.as_chunks().0);
    keys
}
