// What the store's calls answer, by value: 01's number, and for each pointer of the call what is to stand behind it. The calls for C then only write
// it there.
#![tactic(auto)]

ghost use Rattle.std.specs.Prelude.{◌≡◌};
ghost use Rattle.answers.specs.Sheets.{CheckedForC, ReadForC, AddForC, AddXtsForC, ReviseForC, RemoveForC, StepForC};
ghost use Rattle.answers.specs.Sheets.{number_of, value_or};

use checking::{Checked, Counts};
use numbers::{Refusal, answer_number};
use sheets::Keys;
use store::Text;

// A number and what is to stand behind the pointers is the form of the C interface: every call of it returns the one and writes the other.
#[derive(Clone, Copy)]
pub struct Values<T> {
    pub number: u32,
    pub behind: T,
}

// The check's fault and counts are no one value: a fault leaves the counts as they were, and the counts the fault.
#[derive(Clone, Copy)]
pub struct CheckValues {
    pub number: u32,
    pub fault: u32,
    pub counts: Counts,
}

// No Values of a Went: its outcome is an enum, and what stands behind the pointer is a number.
#[derive(Clone, Copy)]
pub struct StepValues {
    pub number: u32,
    pub place: usize,
    pub outcome: u32,
}

// What a call gave, or if it was refused what stood there before.
fn given<T: Copy>(a: Result<T, Refusal>, before: T) -> Values<T>
    ensures { (result.number ≡ number_of a) × (result.behind ≡ value_or before a) }
{
    match a {
        Ok(behind) => Values { number: 0, behind },
        Err(x) => Values {
            number: u32::from(x),
            behind: before,
        },
    }
}

pub fn check(store: &[u8], fault: u32, counts: Counts) -> CheckValues
    ensures { CheckedForC store.now fault counts.used counts.free counts.clear counts.old counts.new result.number result.fault
        result.counts.used result.counts.free result.counts.clear result.counts.old result.counts.new }
{
    match checking::check(store) {
        Err(x) => CheckValues {
            number: u32::from(x),
            fault,
            counts,
        },
        // 256 is what C is answered for a faulty slot, and no refusal.
        Ok(Checked::Fault(fault)) => CheckValues {
            number: 256,
            fault,
            counts,
        },
        Ok(Checked::Counts(counts)) => CheckValues {
            number: 0,
            fault,
            counts,
        },
    }
}

pub fn read(keys: Keys, store: &[u8], sheet: u32, text: &mut [u8], before: Text) -> Values<Text>
    ensures { ReadForC keys.entry.old.now keys.entry.new.now store.now sheet text.old before.length before.revision result.number text.new
        result.behind.length result.behind.revision }
{
    given(store::read(keys, store, sheet, text), before)
}

pub fn add(keys: Keys, store: &mut [u8], sheet: u32, text: &[u8], before: u32) -> Values<u32>
    ensures { AddForC keys.entry.old.now keys.entry.new.now store.old sheet text.now before result.number store.new
        result.behind }
{
    given(store::add(keys, store, sheet, text), before)
}

pub fn add_xts(
    key: &[u8],
    number: u64,
    unit: &[u8],
    keys: Keys,
    store: &mut [u8],
    sheet: u32,
    before: u32,
) -> Values<u32>
    ensures { AddXtsForC key.now number unit.now keys.entry.old.now keys.entry.new.now store.old sheet before
        result.number store.new result.behind }
{
    given(
        takeover::add_xts(key, number, unit, keys, store, sheet),
        before,
    )
}

pub fn revise(
    keys: Keys,
    store: &mut [u8],
    sheet: u32,
    seen: u32,
    text: &[u8],
    before: u32,
) -> Values<u32>
    ensures { ReviseForC keys.entry.old.now keys.entry.new.now store.old sheet seen text.now before result.number
        store.new result.behind }
{
    given(store::revise(keys, store, sheet, seen, text), before)
}

pub fn remove(store: &mut [u8], sheet: u32) -> u32
    ensures { RemoveForC store.old sheet result store.new }
{
    answer_number(store::remove(store, sheet))
}

pub fn step(keys: Keys, store: &mut [u8], place: usize, outcome: u32) -> StepValues
    ensures { StepForC keys.entry.old.now keys.entry.new.now store.old place outcome result.number store.new result.place
        result.outcome }
{
    match store::step_at(keys, store, place) {
        Err(x) => StepValues {
            number: u32::from(x),
            place,
            outcome,
        },
        Ok(went) => StepValues {
            number: 0,
            place: went.place,
            outcome: u32::from(went.outcome),
        },
    }
}
