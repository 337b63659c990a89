// The rekeying job as a struct that is lent: the thin step over it, above the step by value.
ghost use Rattle.answers.specs.Sheets.{StepForC};

use sheets::Keys;

// The rekeying job: the place that its next step works on. A new copy starts at 0.
#[repr(C)]
#[derive(Clone, Copy)]
pub struct Job {
    pub place: usize,
}

// One step of the job at its place; 1, 4.
pub fn lagunedo_job_step(
    job: &mut Job,
    old: &[u8],
    new: &[u8],
    store: &mut [u8],
    outcome: &mut u32,
) -> u32
    ensures { StepForC old.now new.now store.old job.old.place outcome.old result
        store.new job.new.place outcome.new }
{
    let a = answers::step(Keys { old, new }, store, job.place, *outcome);
    job.place = a.place;
    *outcome = a.outcome;
    a.number
}
