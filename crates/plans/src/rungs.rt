// The rungs that several ladders share: each a test, and what it refuses with. By name, and not one function of a test and a refusal, so that a ladder
// reads as 01's row of numbers does.
ghost use Rattle.std.specs.Prelude.{cond, ◌≡◌, eqb, Ok, Err};
ghost use Rattle.slots.specs.Slots.{slots, slot, find, bad_size};
ghost use Rattle.plans.specs.Plans.{bad_keys, bad_text, absent};

use super::faults::{bad_keys, bad_length};
use numbers::Refusal;
use sheets::Keys;

// 1, 4.
pub fn opened(keys: Keys, store: &[u8]) -> Result<(), Refusal>
    ensures { result
        ≡ cond (bad_keys keys.entry.old.now keys.entry.new.now) (Err Refusal.KeyLength)
        (cond (bad_size store.now) (Err Refusal.StoreLength) (Ok tt)) }
{
    if bad_keys(keys) {
        return Err(Refusal::KeyLength);
    }
    sized(store)
}

// 4.
pub fn sized(store: &[u8]) -> Result<(), Refusal>
    ensures { result ≡ cond (bad_size store.now) (Err Refusal.StoreLength) (Ok tt) }
{
    if slots::bad_size(store) {
        return Err(Refusal::StoreLength);
    }
    Ok(())
}

// 5.
pub fn named(sheet: u32) -> Result<(), Refusal>
    ensures { result ≡ cond (eqb sheet 0) (Err Refusal.SheetZero) (Ok tt) }
{
    if sheet == 0 {
        return Err(Refusal::SheetZero);
    }
    Ok(())
}

// 6.
pub fn fits(text: &[u8]) -> Result<(), Refusal>
    ensures { result ≡ cond (bad_text text.now) (Err Refusal.TextLength) (Ok tt) }
{
    if bad_length(text.len()) {
        return Err(Refusal::TextLength);
    }
    Ok(())
}

// 7: the sheet's slot.
#[tactic(auto, using(crate::proofs::PlanLaws::searched))]
pub fn slot_of(store: &[u8], sheet: u32) -> Result<usize, Refusal>
    ensures { result
        ≡ cond (absent (slots store.now) (slot store.now) sheet) (Err Refusal.NoSheet) (Ok (find store.now sheet)) }
{
    slots::find(store, sheet).ok_or(Refusal::NoSheet)
}
