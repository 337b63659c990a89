// A window for tests and benchmarks on calls that the layers use among themselves and the interface for C does not show: AES over
// all full blocks of a buffer, and the wide block under any L and T_star; the substitution of bytes, as the running code has it and as it
// is looked up in its tables. Nothing of the job server links it.
// The numbers 1 and 2 are what C is answered: no `Result` goes through the interface.
#![tactic(auto)]

ghost use Rattle.probe.specs.Calls.{BlocksCalled, WideCalled, SubstitutionCalled};

// Enciphers, or with `back` deciphers, every full block of the buffer; the bytes after them are kept. 1 where the key is not of a
// size that AES takes, and the buffer is then kept.
#[unsafe(no_mangle)]
pub extern "C" fn lagunedo_probe_aes_blocks(key: &[u8], back: bool, buffer: &mut [u8]) -> u32
    ensures { BlocksCalled back key.now buffer.old result buffer.new }
{
    if !aes::key_size(key.len()) {
        return 1;
    }
    aes::crypt_blocks(back, aes::key_setup(key), buffer);
    0
}

// The wide block of the message under L and T_star, over AES under the key; with `back`, over its inverse. 1 where the key is not of a
// size that AES takes; 2 where L or T_star is not a block, or the message is below 16 bytes. The message is then kept.
#[tactic(auto, unfolding(crate::specs::Calls::wide_number, crate::specs::Calls::wide_afterwards))]
#[unsafe(no_mangle)]
pub extern "C" fn lagunedo_probe_wide(
    key: &[u8],
    back: bool,
    l: &[u8],
    t: &[u8],
    message: &mut [u8],
) -> u32
    ensures { WideCalled back key.now l.now t.now message.old result message.new }
{
    if !aes::key_size(key.len()) {
        return 1;
    }
    let Some(l) = l.as_array() else { return 2 };
    let Some(t) = t.as_array() else { return 2 };
    if message.len() < 16 {
        return 2;
    }
    wide::wide(back, aes::key_setup(key), *l, *t, message);
    0
}

// The substitution of every byte of the buffer, or with `back` its inverse, as the running code has it.
#[tactic(auto, unfolding(crate::specs::Calls::substituted_back))]
#[unsafe(no_mangle)]
pub extern "C" fn lagunedo_probe_substitute(back: bool, buffer: &mut [u8]) -> u32
    ensures { SubstitutionCalled back buffer.old result buffer.new }
{
    if back {
        sbox::inv_sub_all(buffer);
    } else {
        sbox::sub_all(buffer);
    }
    0
}

// The same, looked up in the tables: every byte is read from a place that depends on the byte before.
// The interface for C has both; a body for both would take the two functions and a clause about each, and be no plainer.
#[tactic(auto, unfolding(crate::specs::Calls::substituted_back))]
#[unsafe(no_mangle)]
pub extern "C" fn lagunedo_probe_look_up(back: bool, buffer: &mut [u8]) -> u32
    ensures { SubstitutionCalled back buffer.old result buffer.new }
{
    if back {
        tables::inv_sub_all(buffer);
    } else {
        tables::sub_all(buffer);
    }
    0
}
