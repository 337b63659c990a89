// The ladders of refusals (01, numbers returned in place of a result): what a call of the store comes to before it does anything.
//
// Each ladder only reads. Contracts cite `specs/Plans.antt`: the tests in 01's order, and at their end the slot to work on. The calls
// that do what a plan says are a room above.
#![tactic(auto)]

// What is wrong with keys and text by their lengths.
mod faults;
// A ladder for each call.
mod ladders;
// The rungs that several ladders share.
mod rungs;

pub use ladders::{
    add_plan, read_at_plan, read_plan, remove_plan, revise_at_plan, revise_plan, step_plan,
};
