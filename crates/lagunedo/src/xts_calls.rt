// The calls for C of XTS-AES: a data unit both ways, and a single block of one.
ghost use Rattle.std.specs.Prelude.{true, false};
ghost use Rattle.lagunedo.specs.Calls.{XtsCalled, XtsBlockCalled};

use numbers::answer_number;

// Overwrites the unit with its encipherment under the key and the unit's number; 15, 16.
pub fn lagunedo_xts_encipher(key: &[u8], number: u64, unit: &mut [u8]) -> u32
    ensures { XtsCalled false key.now number unit.old result unit.new }
{
    answer_number(xts::encipher(key, number, unit))
}

// Overwrites the unit with its decipherment under the key and the unit's number; 15, 16.
pub fn lagunedo_xts_decipher(key: &[u8], number: u64, unit: &mut [u8]) -> u32
    ensures { XtsCalled true key.now number unit.old result unit.new }
{
    answer_number(xts::decipher(key, number, unit))
}

// Block k of the unit, deciphered by itself; 15, 16, 17.
#[tactic(auto, using(crate::proofs::XtsLaws::block_given, crate::proofs::XtsLaws::block_kept))]
pub fn lagunedo_xts_block(key: &[u8], number: u64, unit: &[u8], k: u64, block: &mut [u8; 16]) -> u32
    ensures { XtsBlockCalled key.now number unit.now k block.old result block.new }
{
    match xts::block_alone(key, number, unit, k) {
        Ok(b) => {
            *block = b;
            0
        }
        Err(x) => u32::from(x),
    }
}
