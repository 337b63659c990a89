// Check, the call of 01 that looks at a whole store: the lowest faulty slot, or the five counts.
//
// Contracts cite `specs/Check.antt`.
#![tactic(auto)]

ghost use Rattle.std.specs.Prelude.{◌≡◌, ◌<◌, ◌≤◌};
ghost use Rattle.records.specs.Marks.{mark_byte};
ghost use Rattle.slots.specs.Slots.{slots};
ghost use Rattle.checking.specs.Check.{faulty, fault, used, marked, counted, five, CheckCalled};

use numbers::Refusal;
use records::RECORD_SIZE;
use records::marks::Mark;
use slots::{bad_size, count, record_at, records_of};

// How many slots are used and free, and how many are used with each mark.
#[derive(Clone, Copy, PartialEq, Eq)]
pub struct Counts {
    pub used: u32,
    pub free: u32,
    pub clear: u32,
    pub old: u32,
    pub new: u32,
}

// What check answers: the five counts of a sound store, or the lowest faulty slot. No `Result`: a faulty slot is an answer of check, and
// no refusal.
#[derive(Clone, Copy, PartialEq, Eq)]
pub enum Checked {
    Counts(Counts),
    Fault(u32),
}

pub fn check(store: &[u8]) -> Result<Checked, Refusal>
    ensures { CheckCalled store.now result }
{
    if bad_size(store) {
        return Err(Refusal::StoreLength);
    }
    match first_fault(store) {
        Some(k) => Ok(Checked::Fault(k as u32)),
        None => Ok(Checked::Counts(five_counts(store))),
    }
}

// The lowest faulty slot.
fn first_fault(store: &[u8]) -> Option<usize>
    ensures { result ≡ fault store.now }
{
    (0..count(store)).find(|k| is_faulty(store, *k))
}

// Whether slot k is unsound, or repeats a lower slot's number other than 0.
fn is_faulty(store: &[u8], k: usize) -> bool
    requires { k < slots store.now }
    ensures { result ≡ faulty store.now k }
{
    let r = record_at(store, k);
    if !records::is_sound(r) {
        return true;
    }
    let n = records::number(r);
    if n == 0 {
        return false;
    }
    slots::find(store, n).is_some_and(|lowest| lowest < k)
}

fn five_counts(store: &[u8]) -> Counts
    requires { slots store.now ≤ 1024 }
    ensures { result ≡ five store.now }
{
    let used = used_slots(store);
    Counts {
        used: used as u32,
        free: (count(store) - used) as u32,
        clear: marked_slots(store, Mark::Clear) as u32,
        old: marked_slots(store, Mark::Old) as u32,
        new: marked_slots(store, Mark::New) as u32,
    }
}

// How many slots are used.
fn used_slots(store: &[u8]) -> usize
    ensures { result ≡ counted used store.now }
{
    records_of(store).iter().filter(|r| is_used(r)).count()
}

// How many slots are used with mark m.
fn marked_slots(store: &[u8], m: Mark) -> usize
    ensures { result ≡ counted (marked (mark_byte m)) store.now }
{
    records_of(store).iter().filter(|r| has_mark(r, m)).count()
}

fn is_used(r: &[u8; RECORD_SIZE]) -> bool
    ensures { result ≡ used r.now }
{
    records::number(r) != 0
}

fn has_mark(r: &[u8; RECORD_SIZE], m: Mark) -> bool
    ensures { result ≡ marked (mark_byte m) r.now }
{
    is_used(r) && records::mark(r) == u8::from(m)
}
