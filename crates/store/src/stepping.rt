// One step of the rekeying job, its place by value.
ghost use Rattle.std.specs.Prelude.{◌≡◌};
ghost use Rattle.store.specs.Calls.{record_outcome, outcome_at, moved_from, converted_at, StepCalled};

use super::{Outcome, Went};
use numbers::Refusal;
use plans::step_plan;
use records::RECORD_SIZE;
use records::marks::Mark;
use sheets::Keys;
use slots::{count, record_at};

pub fn step_at(keys: Keys, store: &mut [u8], place: usize) -> Result<Went, Refusal>
    ensures { StepCalled keys.entry.old.now keys.entry.new.now store.old place result store.new }
{
    let k = step_plan(keys, store, place)?;
    Ok(step_slot(keys, store, k))
}

// The slot at place k. The place is moved on by one, but where no slot is left.
#[tactic(auto, unfolding(crate::specs::Calls::outcome_at))]
pub fn step_slot(keys: Keys, store: &mut [u8], k: usize) -> Went
    ensures { (result ≡ record { outcome = outcome_at store.old k; place = moved_from k (outcome_at store.old k) })
        × (store.new
        ≡ converted_at keys.entry.old.now keys.entry.new.now store.old k (outcome_at store.old k)) }
{
    if k >= count(store) {
        return Went {
            outcome: Outcome::Done,
            place: k,
        };
    }
    let outcome = outcome_of(record_at(store, k));
    if outcome == Outcome::Converted {
        sheets::rekey_at(store, k, keys);
    }
    Went {
        outcome,
        place: k + 1,
    }
}

// What a step comes to on a slot with the record r.
#[tactic(auto, unfolding(crate::specs::Calls::record_outcome))]
fn outcome_of(r: &[u8; RECORD_SIZE]) -> Outcome
    ensures { result ≡ record_outcome r.now }
{
    if records::number(r) == 0 {
        return Outcome::Free;
    }
    if !records::is_sound(r) {
        return Outcome::Damaged;
    }
    if records::mark(r) == u8::from(Mark::New) {
        return Outcome::Already;
    }
    Outcome::Converted
}
