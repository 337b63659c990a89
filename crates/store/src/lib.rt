// The sheet store of 01 in lent bytes: read, add, revise, remove, and one step of the rekeying job, by value.
//
// Every call answers any bytes, keys and numbers. Its ladder of refusals is a function that only reads (crate `plans`), and the call does what the plan
// says. Contracts cite `specs/Calls.antt`: what a call answers and the bytes afterwards, by equations.
#![tactic(auto)]

ghost use Rattle.std.specs.Prelude.{◌≡◌};
ghost use Rattle.store.specs.Calls.{outcome_number};
// Read.
mod reading;
// One step of the rekeying job.
mod stepping;
// Add, revise and remove.
mod writing;

pub use reading::{read, read_slot};
pub use stepping::{step_at, step_slot};
pub use writing::{add, remove, revise};

// What read gives beside the text.
#[derive(Clone, Copy)]
pub struct Text {
    pub length: u32,
    pub revision: u32,
}

// The outcomes of a step, in 01's order.
#[derive(Clone, Copy, PartialEq, Eq)]
pub enum Outcome {
    Done,
    Free,
    Damaged,
    Already,
    Converted,
}

// The number of an outcome, which the calls for C answer: a row for each, as in `numbers`.
impl From<Outcome> for u32 {
    ghost from_gives = { λ x n. n ≡ outcome_number x };

    fn from(x: Outcome) -> u32 {
        match x {
            Outcome::Done => 0,
            Outcome::Free => 1,
            Outcome::Damaged => 2,
            Outcome::Already => 3,
            Outcome::Converted => 4,
        }
    }
}

// What a step comes to: its outcome, and the job's place afterwards.
#[derive(Clone, Copy)]
pub struct Went {
    pub outcome: Outcome,
    pub place: usize,
}
