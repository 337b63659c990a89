// The calls of `lagunedo` as a static library for C: each export makes the call of its name, and has its clauses.
// The interface for C names each direction and each pointer; and a crate is a library or a static library, so the calls stand twice.
#![tactic(auto)]

ghost use Rattle.std.specs.Prelude.{true, false};
ghost use Rattle.lagunedo.specs.Calls.{AesCalled, Eme2Called};

// The step over a job that is lent.
mod job;
// The store's calls.
mod store_calls;
// The calls of XTS-AES.
mod xts_calls;

// Overwrites the block with its encipherment under the key; 1, 2.
#[unsafe(no_mangle)]
pub extern "C" fn lagunedo_aes_encipher(key: &[u8], block: &mut [u8]) -> u32
    ensures { AesCalled false key.now block.old result block.new }
{
    lagunedo::lagunedo_aes_encipher(key, block)
}

// Overwrites the block with its decipherment under the key; 1, 2.
#[unsafe(no_mangle)]
pub extern "C" fn lagunedo_aes_decipher(key: &[u8], block: &mut [u8]) -> u32
    ensures { AesCalled true key.now block.old result block.new }
{
    lagunedo::lagunedo_aes_decipher(key, block)
}

// Overwrites the message with its encipherment under the key and the associated data; 1, 2, 3.
#[unsafe(no_mangle)]
pub extern "C" fn lagunedo_eme2_encipher(key: &[u8], ad: &[u8], message: &mut [u8]) -> u32
    ensures { Eme2Called false key.now ad.now message.old result message.new }
{
    lagunedo::lagunedo_eme2_encipher(key, ad, message)
}

// Overwrites the message with its decipherment under the key and the associated data; 1, 2, 3.
#[unsafe(no_mangle)]
pub extern "C" fn lagunedo_eme2_decipher(key: &[u8], ad: &[u8], message: &mut [u8]) -> u32
    ensures { Eme2Called true key.now ad.now message.old result message.new }
{
    lagunedo::lagunedo_eme2_decipher(key, ad, message)
}
