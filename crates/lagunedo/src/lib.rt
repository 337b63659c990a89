// The calls for C: thin, over numbers and byte slices. Each answers 0, or 01's number of the refusal, and its contract gives the
// number and every byte of each lent slice afterwards, for every input. `host/include/lagunedo.h` is their manual.
#![tactic(auto)]

ghost use Rattle.std.specs.Prelude.{true, false};
ghost use Rattle.lagunedo.specs.Calls.{AesCalled, Eme2Called};
// The step over a job that is lent.
mod job;
// The store's calls.
mod store_calls;
// The calls of XTS-AES.
mod xts_calls;

pub use job::{Job, lagunedo_job_step};
use numbers::answer_number;
pub use store_calls::{
    lagunedo_add, lagunedo_add_xts, lagunedo_check, lagunedo_read, lagunedo_remove,
    lagunedo_revise, lagunedo_step,
};
pub use xts_calls::{lagunedo_xts_block, lagunedo_xts_decipher, lagunedo_xts_encipher};

// Overwrites the block with its encipherment under the key; 1, 2.
pub fn lagunedo_aes_encipher(key: &[u8], block: &mut [u8]) -> u32
    ensures { AesCalled false key.now block.old result block.new }
{
    answer_number(aes::encipher(key, block))
}

// Overwrites the block with its decipherment under the key; 1, 2.
pub fn lagunedo_aes_decipher(key: &[u8], block: &mut [u8]) -> u32
    ensures { AesCalled true key.now block.old result block.new }
{
    answer_number(aes::decipher(key, block))
}

// Overwrites the message with its encipherment under the key and the associated data; 1, 2, 3.
pub fn lagunedo_eme2_encipher(key: &[u8], ad: &[u8], message: &mut [u8]) -> u32
    ensures { Eme2Called false key.now ad.now message.old result message.new }
{
    answer_number(eme2::encipher(key, ad, message))
}

// Overwrites the message with its decipherment under the key and the associated data; 1, 2, 3.
pub fn lagunedo_eme2_decipher(key: &[u8], ad: &[u8], message: &mut [u8]) -> u32
    ensures { Eme2Called true key.now ad.now message.old result message.new }
{
    answer_number(eme2::decipher(key, ad, message))
}
