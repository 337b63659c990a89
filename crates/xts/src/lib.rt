// XTS-AES (IEEE 1619-2007) as 02's order 3 scopes it: keys of 32 and 64 bytes, a 64-bit number of the data unit, units of 16 to 65,536 bytes with
// ciphertext stealing for odd lengths.
//
// `encipher` and `decipher` take any key, number and unit and refuse with 15 and 16; `block_alone` deciphers a single block, and refuses with 17 one
// that can't be read alone. What is proved of every unit is in `proofs/Promise.antt`: the length is kept, each direction undoes the other, and a block
// that is read alone is that block of the deciphered unit.
#![tactic(auto)]

ghost use Rattle.std.specs.Prelude.{true, false, ◌≡◌, ◌+◌, ◌/◌, ◌≤◌, length};
ghost use Rattle.numbers.specs.Numbers.{answer_paper};
ghost use Rattle.aes.specs.Aes.{round_keys};
ghost use Rattle.xts.specs.Xts.{Key1, key_taken, number, number_block, tweak, xts, block_under};
ghost use Rattle.xts.specs.Calls.{Called, BlockCalled};

use aes::RoundKeys;
use numbers::Refusal;

// Overwrites the unit with its encipherment under the key and the unit's number. Two names over `call`, as 02 has them.
pub fn encipher(key: &[u8], number: u64, unit: &mut [u8]) -> Result<(), Refusal>
    ensures { Called false key.now number unit.old result unit.new }
{
    call(false, key, number, unit)
}

// Overwrites the unit with its decipherment under the key and the unit's number.
pub fn decipher(key: &[u8], number: u64, unit: &mut [u8]) -> Result<(), Refusal>
    ensures { Called true key.now number unit.old result unit.new }
{
    call(true, key, number, unit)
}

// Block k of the unit deciphered, without the ones before it: of the unit its 16 bytes are loaded, and nothing else.
pub fn block_alone(key: &[u8], number: u64, unit: &[u8], k: u64) -> Result<[u8; 16], Refusal>
    ensures { BlockCalled key.now number unit.now k result }
{
    let n = unit.len();
    tested(key.len(), n)?;
    if k >= (unit::alone(n) as u64) {
        return Err(Refusal::BlockNotAlone);
    }
    let at = 16 * (k as usize);
    Ok(block_under(key, number, k, block::load(unit, at)))
}

// 02, order 3: the key's length is tested first, then the unit's.
#[tactic(auto, using(crate::proofs::Bounds::refusals))]
pub fn tested(key: usize, unit: usize) -> Result<(), Refusal>
    ensures { answer_paper result ≡ number key unit }
{
    if !key_taken(key) {
        return Err(Refusal::XtsKeyLength);
    }
    // The two bounds apart: an edit that must fail turns each by itself.
    if unit < 16 {
        return Err(Refusal::UnitLength);
    }
    if unit > 65536 {
        return Err(Refusal::UnitLength);
    }
    Ok(())
}

// Key and number are two parameters, as in the interface for C.
fn call(back: bool, key: &[u8], number: u64, unit: &mut [u8]) -> Result<(), Refusal>
    ensures { Called back key.now number unit.old result unit.new }
{
    tested(key.len(), unit.len())?;
    transform(back, key, number, unit);
    Ok(())
}

// Whether a key of n bytes is taken: 32 or 64, by name.
fn key_taken(n: usize) -> bool
    ensures { result ≡ key_taken n }
{
    n == 32 || n == 64
}

// XTS-AES itself.
fn transform(back: bool, key: &[u8], number: u64, unit: &mut [u8])
    requires { (key_taken (length key.now) ≡ true) × (16 ≤ length unit.old) }
    ensures { unit.new ≡ xts back key.now number unit.old }
{
    let t = tweak(key, number);
    unit::unit(back, key1(key), t, unit);
}

// The round keys of the first half of the key. That the key is taken stands in four clauses: a struct about it would hold the slice, and each clause
// its field, which is no plainer.
fn key1(key: &[u8]) -> RoundKeys
    requires { key_taken (length key.now) ≡ true }
    ensures keys { result.keys ≡ round_keys (Key1 key.now) }
    ensures rounds { result.rounds ≡ length (Key1 key.now) / 4 + 6 }
{
    aes::key_setup(&key[..key.len() / 2])
}

// The tweak of block 0 of the unit with this number, made with Enc in both directions.
fn tweak(key: &[u8], number: u64) -> [u8; 16]
    requires { key_taken (length key.now) ≡ true }
    ensures { result ≡ tweak key.now number }
{
    let keys = aes::key_setup(&key[key.len() / 2..]);
    aes::crypt(false, keys, number_block(number))
}

// The number's block, its low byte first.
fn number_block(number: u64) -> [u8; 16]
    ensures { result ≡ number_block number }
{
    let mut b = [0u8; 16];
    b[..8].copy_from_slice(&number.to_le_bytes());
    b
}

// The block c, as block k of the unit with this number, deciphered: its tweak is alpha^k, found by halving k, times that of block 0.
fn block_under(key: &[u8], number: u64, k: u64, c: [u8; 16]) -> [u8; 16]
    requires { key_taken (length key.now) ≡ true }
    ensures { result ≡ block_under key.now number k c }
{
    let t = field::product(field::power(k), tweak(key, number));
    unit::under(true, key1(key), t, c)
}
