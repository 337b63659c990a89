// The calls of XTS-AES: a data unit both ways, and a single block of one.
ghost use Rattle.std.specs.Prelude.{true, false};
ghost use Rattle.lagunedo.specs.Calls.{XtsCalled, XtsBlockCalled};

// Overwrites the unit with its encipherment under the key and the unit's number; 15, 16.
#[unsafe(no_mangle)]
pub extern "C" fn lagunedo_xts_encipher(key: &[u8], number: u64, unit: &mut [u8]) -> u32
    ensures { XtsCalled false key.now number unit.old result unit.new }
{
    lagunedo::lagunedo_xts_encipher(key, number, unit)
}

// Overwrites the unit with its decipherment under the key and the unit's number; 15, 16.
#[unsafe(no_mangle)]
pub extern "C" fn lagunedo_xts_decipher(key: &[u8], number: u64, unit: &mut [u8]) -> u32
    ensures { XtsCalled true key.now number unit.old result unit.new }
{
    lagunedo::lagunedo_xts_decipher(key, number, unit)
}

// Block k of the unit, deciphered by itself; 15, 16, 17.
#[unsafe(no_mangle)]
pub extern "C" fn lagunedo_xts_block(
    key: &[u8],
    number: u64,
    unit: &[u8],
    k: u64,
    block: &mut [u8; 16],
) -> u32
    ensures { XtsBlockCalled key.now number unit.now k block.old result block.new }
{
    lagunedo::lagunedo_xts_block(key, number, unit, k, block)
}
