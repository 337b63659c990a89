// AES with keys of 16 and 32 bytes, both ways (FIPS 197, whose sections `specs/Lib.antt` lists).
//
// `encipher` and `decipher` are the calls of 01: they take any key and any block, and refuse with 1 and 2. The layers above use four more, which
// the rooms below offer: `key_size`, which keys are taken; `key_setup`, of a key that is taken; and `crypt` and `crypt_blocks`, one block and all full
// blocks, under the `RoundKeys` of `key_setup`. `rounds_of`, how many rounds a key has, is passed on for whoever wants the number alone. Contracts above
// cite the names of `specs/Aes.antt`, and proofs go by `specs/Promise.antt` alone.
#![tactic(auto)]

ghost use Rattle.aes.specs.Calls.{Called};
ghost use Rattle.std.specs.Prelude.{true, false};

pub use cipher::{crypt, crypt_blocks};
use numbers::Refusal;
pub use rounds::RoundKeys;
pub use schedule::{key_setup, key_size, rounds_of};

// Overwrites the block with its encipherment under the key. Two names over `call`, as 01 has them.
pub fn encipher(key: &[u8], block: &mut [u8]) -> Result<(), Refusal>
    ensures { Called false key.now block.old result block.new }
{
    call(false, key, block)
}

// Overwrites the block with its decipherment under the key.
pub fn decipher(key: &[u8], block: &mut [u8]) -> Result<(), Refusal>
    ensures { Called true key.now block.old result block.new }
{
    call(true, key, block)
}

// 01, AES: the key is tested first, then the block, which is the message here.
fn call(back: bool, key: &[u8], block: &mut [u8]) -> Result<(), Refusal>
    ensures { Called back key.now block.old result block.new }
{
    if !key_size(key.len()) {
        return Err(Refusal::KeyLength);
    }
    if block.len() != 16 {
        return Err(Refusal::MessageLength);
    }
    let b = block::load(block, 0);
    block::put(block, 0, crypt(back, key_setup(key), b));
    Ok(())
}
