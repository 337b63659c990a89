// The step over the rekeying job that is lent.
ghost use Rattle.answers.specs.Sheets.{StepForC};

use lagunedo::Job;

// One step of the job at its place; 1, 4.
#[unsafe(no_mangle)]
pub extern "C" fn lagunedo_job_step(
    job: &mut Job,
    old: &[u8],
    new: &[u8],
    store: &mut [u8],
    outcome: &mut u32,
) -> u32
    ensures { StepForC old.now new.now store.old job.old.place outcome.old result
        store.new job.new.place outcome.new }
{
    lagunedo::lagunedo_job_step(job, old, new, store, outcome)
}
