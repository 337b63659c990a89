// The ladders of refusals (01, numbers returned in place of a result): each only reads, and tests in 01's order.
ghost use Rattle.std.specs.Prelude.{◌≡◌, ◌<◌};
ghost use Rattle.records.specs.Record.{num};
ghost use Rattle.slots.specs.Slots.{slots, slot};
ghost use Rattle.plans.specs.Plans.{read_at_plan, revise_at_plan};
ghost use Rattle.plans.specs.Plans.{read_plan, add_plan, revise_plan, remove_plan, step_plan};

use super::rungs::{fits, named, opened, sized, slot_of};
use numbers::Refusal;
use records::GREATEST_REVISION;
use sheets::Keys;
use slots::{find, record_at};

// 1, 4.
#[tactic(auto, unfolding(crate::specs::Plans::guard, crate::specs::Plans::opened))]
pub fn step_plan(keys: Keys, store: &[u8], place: usize) -> Result<usize, Refusal>
    ensures { result
        ≡ step_plan keys.entry.old.now keys.entry.new.now store.now place }
{
    opened(keys, store)?;
    Ok(place)
}

// 1, 4, 5, 7, 12, 13. There is no test for 14: a text's length does not change in deciphering.
#[tactic(auto, using(crate::proofs::PlanLaws::searched), unfolding(crate::specs::Plans::guard, crate::specs::Plans::opened, crate::specs::Plans::read_from))]
pub fn read_plan(keys: Keys, store: &[u8], sheet: u32, room: usize) -> Result<usize, Refusal>
    ensures { result
        ≡ read_plan keys.entry.old.now keys.entry.new.now store.now sheet room }
{
    opened(keys, store)?;
    named(sheet)?;
    let k = slot_of(store, sheet)?;
    read_at_plan(keys.old, keys.new, store, room, k)
}

// 12, 13, of the slot that was found, which has a number. The keys come apart: the proof that 14 cannot come needs that they are bytes, which is known of
// a slice that is a parameter, and did not close of a field.
#[tactic(auto, unfolding(crate::specs::Plans::guard, crate::specs::Plans::read_at_plan))]
pub fn read_at_plan(
    old: &[u8],
    new: &[u8],
    store: &[u8],
    room: usize,
    k: usize,
) -> Result<usize, Refusal>
    requires { (k < slots store.now) × (num (slot store.now k) ≡ 0 → ⊥) }
    ensures { result
        ≡ read_at_plan old.now new.now (slot store.now k) room k }
{
    let r = record_at(store, k);
    if !records::is_sound(r) {
        return Err(Refusal::SlotUnsound);
    }
    if room < records::text_length(r) {
        return Err(Refusal::BufferLength);
    }
    Ok(k)
}

// 1, 4, 5, 6, 11, 10.
#[tactic(auto, using(crate::proofs::PlanLaws::searched), unfolding(crate::specs::Plans::guard, crate::specs::Plans::opened, crate::specs::Plans::add_from))]
pub fn add_plan(keys: Keys, store: &[u8], sheet: u32, text: &[u8]) -> Result<usize, Refusal>
    ensures { result
        ≡ add_plan keys.entry.old.now keys.entry.new.now store.now sheet text.now }
{
    opened(keys, store)?;
    named(sheet)?;
    fits(text)?;
    if find(store, sheet).is_some() {
        return Err(Refusal::SheetPresent);
    }
    find(store, 0).ok_or(Refusal::NoFreeSlot)
}

// 1, 4, 5, 6, 7, 12, 8, 9.
#[tactic(auto, using(crate::proofs::PlanLaws::searched), unfolding(crate::specs::Plans::guard, crate::specs::Plans::opened, crate::specs::Plans::revise_from))]
pub fn revise_plan(
    keys: Keys,
    store: &[u8],
    sheet: u32,
    seen: u32,
    text: &[u8],
) -> Result<usize, Refusal>
    ensures { result
        ≡ revise_plan keys.entry.old.now keys.entry.new.now store.now sheet seen text.now }
{
    opened(keys, store)?;
    named(sheet)?;
    fits(text)?;
    let k = slot_of(store, sheet)?;
    revise_at_plan(store, seen, k)
}

// 12, 8, 9, of the slot that was found.
#[tactic(auto, unfolding(crate::specs::Plans::guard, crate::specs::Plans::revise_at_plan))]
pub fn revise_at_plan(store: &[u8], seen: u32, k: usize) -> Result<usize, Refusal>
    requires { k < slots store.now }
    ensures { result ≡ revise_at_plan (slot store.now k) seen k }
{
    let r = record_at(store, k);
    if !records::is_sound(r) {
        return Err(Refusal::SlotUnsound);
    }
    let v = records::revision(r);
    if seen != v {
        return Err(Refusal::OtherRevision);
    }
    if v == GREATEST_REVISION {
        return Err(Refusal::LastRevision);
    }
    Ok(k)
}

// 4, 5, 7.
#[tactic(auto, unfolding(crate::specs::Plans::guard, crate::specs::Plans::remove_plan, crate::specs::Plans::remove_from))]
pub fn remove_plan(store: &[u8], sheet: u32) -> Result<usize, Refusal>
    ensures { result ≡ remove_plan store.now sheet }
{
    sized(store)?;
    named(sheet)?;
    slot_of(store, sheet)
}
