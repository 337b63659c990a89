// The store's calls for C, over keys and numbers one by one, as C lends them. Each makes the call with what stands behind its pointers, and writes back
// what is to stand there.
ghost use Rattle.answers.specs.Sheets.{CheckedForC, ReadForC, AddForC, AddXtsForC, ReviseForC, RemoveForC, StepForC};

use checking::Counts;
use sheets::Keys;
use store::Text;

// The five counts of a sound store; 256 and the lowest faulty slot; 4.
pub fn lagunedo_check(
    store: &[u8],
    fault: &mut u32,
    used: &mut u32,
    free: &mut u32,
    clear: &mut u32,
    old: &mut u32,
    new: &mut u32,
) -> u32
    ensures { CheckedForC store.now fault.old used.old free.old clear.old
        old.old new.old result fault.new used.new free.new clear.new
        old.new new.new }
{
    let counts = Counts {
        used: *used,
        free: *free,
        clear: *clear,
        old: *old,
        new: *new,
    };
    let a = answers::check(store, *fault, counts);
    *fault = a.fault;
    *used = a.counts.used;
    *free = a.counts.free;
    *clear = a.counts.clear;
    *old = a.counts.old;
    *new = a.counts.new;
    a.number
}

// The text of a sheet in clear to the front of the buffer; 1, 4, 5, 7, 12, 13, 14.
pub fn lagunedo_read(
    old: &[u8],
    new: &[u8],
    store: &[u8],
    sheet: u32,
    text: &mut [u8],
    length: &mut u32,
    revision: &mut u32,
) -> u32
    ensures { ReadForC old.now new.now store.now sheet text.old length.old
        revision.old result text.new length.new revision.new }
{
    let before = Text {
        length: *length,
        revision: *revision,
    };
    let a = answers::read(Keys { old, new }, store, sheet, text, before);
    *length = a.behind.length;
    *revision = a.behind.revision;
    a.number
}

// A new sheet at revision 1; 1, 4, 5, 6, 11, 10.
pub fn lagunedo_add(
    old: &[u8],
    new: &[u8],
    store: &mut [u8],
    sheet: u32,
    text: &[u8],
    revision: &mut u32,
) -> u32
    ensures { AddForC old.now new.now store.old sheet text.now revision.old result
        store.new revision.new }
{
    let a = answers::add(Keys { old, new }, store, sheet, text, *revision);
    *revision = a.behind;
    a.number
}

// A new sheet from a data unit under XTS-AES; 15, 16, then add's own.
pub fn lagunedo_add_xts(
    key: &[u8],
    number: u64,
    unit: &[u8],
    old: &[u8],
    new: &[u8],
    store: &mut [u8],
    sheet: u32,
    revision: &mut u32,
) -> u32
    ensures { AddXtsForC key.now number unit.now old.now new.now store.old sheet
        revision.old result store.new revision.new }
{
    let keys = Keys { old, new };
    let a = answers::add_xts(key, number, unit, keys, store, sheet, *revision);
    *revision = a.behind;
    a.number
}

// A sheet's text replaced whole, its revision one higher than the one seen; 1, 4, 5, 6, 7, 12, 8, 9.
pub fn lagunedo_revise(
    old: &[u8],
    new: &[u8],
    store: &mut [u8],
    sheet: u32,
    seen: u32,
    text: &[u8],
    revision: &mut u32,
) -> u32
    ensures { ReviseForC old.now new.now store.old sheet seen text.now
        revision.old result store.new revision.new }
{
    let a = answers::revise(Keys { old, new }, store, sheet, seen, text, *revision);
    *revision = a.behind;
    a.number
}

// A sheet's slot zeroed; 4, 5, 7.
pub fn lagunedo_remove(store: &mut [u8], sheet: u32) -> u32
    ensures { RemoveForC store.old sheet result store.new }
{
    answers::remove(store, sheet)
}

// One step of the rekeying job at its place; 1, 4.
pub fn lagunedo_step(
    old: &[u8],
    new: &[u8],
    store: &mut [u8],
    place: &mut usize,
    outcome: &mut u32,
) -> u32
    ensures { StepForC old.now new.now store.old place.old outcome.old result
        store.new place.new outcome.new }
{
    let a = answers::step(Keys { old, new }, store, *place, *outcome);
    *place = a.place;
    *outcome = a.outcome;
    a.number
}
