// EME2-AES (000) as 01 scopes it: keys of 48 and 64 bytes, associated data up to 1,024, messages of 16 to 65,536.
//
// `encipher` and `decipher` are the calls of 01: they take any key, associated data and message, and refuse with 1, 2 and 3. What is
// proved of every message is in `proofs/Promise.antt`: the length is kept, and each direction undoes the other.
#![tactic(auto)]

ghost use Rattle.std.specs.Prelude.{true, false, ◌≡◌, ◌≤◌, length};
ghost use Rattle.eme2.specs.Transform.{key_taken, eme2};
ghost use Rattle.eme2.specs.Calls.{Called};

use numbers::Refusal;

// Overwrites the message with its encipherment under the key and the associated data. Two names over `call`, as 01 has them.
pub fn encipher(key: &[u8], ad: &[u8], message: &mut [u8]) -> Result<(), Refusal>
    ensures { Called false key.now ad.now message.old result message.new }
{
    call(false, key, ad, message)
}

// Overwrites the message with its decipherment under the key and the associated data.
pub fn decipher(key: &[u8], ad: &[u8], message: &mut [u8]) -> Result<(), Refusal>
    ensures { Called true key.now ad.now message.old result message.new }
{
    call(true, key, ad, message)
}

// 01, numbers: the key is tested first, then the message, then the associated data.
#[tactic(auto, using(crate::proofs::Ladder::refusals))]
fn call(back: bool, key: &[u8], ad: &[u8], message: &mut [u8]) -> Result<(), Refusal>
    ensures { Called back key.now ad.now message.old result message.new }
{
    if !key_taken(key) {
        return Err(Refusal::KeyLength);
    }
    // The two bounds apart: an edit that must fail turns each by itself.
    if message.len() < 16 {
        return Err(Refusal::MessageLength);
    }
    if message.len() > 65536 {
        return Err(Refusal::MessageLength);
    }
    if ad.len() > 1024 {
        return Err(Refusal::DataLength);
    }
    transform(back, key, ad, message);
    Ok(())
}

// Whether the key is 48 or 64 bytes: what is left of it before Key2 and Key3 is a key of AES.
pub fn key_taken(key: &[u8]) -> bool
    ensures { result ≡ key_taken key.now }
{
    let n = key.len();
    if n < 32 {
        return false;
    }
    aes::key_size(n - 32)
}

// EME2-AES itself; T_star is made with Enc in both directions.
fn transform(back: bool, key: &[u8], ad: &[u8], message: &mut [u8])
    requires { (key_taken key.now ≡ true) × (16 ≤ length message.old) }
    ensures { message.new ≡ eme2 back key.now ad.now message.old }
{
    let end = key.len() - 32;
    let keys = aes::key_setup(&key[..end]);
    let t = wide::t_star(keys, block::load(key, end + 16), ad);
    wide::wide(back, keys, block::load(key, end), t, message);
}
