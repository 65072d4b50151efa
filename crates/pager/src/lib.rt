// Commit and checkpoint of the store: the next step, and either in one call, its steps run to the end.
// A step does one store and names it, for a host to carry to the disk. Every public function is total.
#![tactic(auto)]

ghost use Rattle.std.specs.Prelude.{◌≡◌, true, ◌-◌};
ghost use Rattle.pager_state.specs.World.{world};
ghost use Rattle.pager_state.specs.Steps.{answer_of, step_answer, stepped, steps, most_steps, commit_answer, commit_world, checkpoint_answer, checkpoint_world};
ghost use Rattle.pager.specs.Jobs.{is_commit_job};

use header::DbHeader;
use pager_state::{Areas, CheckpointStart, Job, Outcome, Pager, Step};
use refusal::Refusal;

// More steps than any commit or checkpoint has.
const MOST_STEPS: usize = 2_200;

// Whether what is part done is a commit that has not committed yet.
fn is_commit(job: Job) -> bool
    ensures { result ≡ is_commit_job job }
{
    matches!(job, Job::Commit { .. })
}

// Does the next store of the commit or checkpoint that is part done, and no other.
pub fn next_step<'a>(
    pager: Pager,
    table: &mut [u32],
    log: &mut [u8],
    main: &mut [u8],
    staging: &'a [u8],
) -> Outcome<Step>
    ensures answer_value { let w = world pager table.old log.old main.old in
        result.answer ≡ step_answer staging.now w }
    ensures later_after { let w = world pager table.old log.old main.old in
        let later = world result.pager table.new log.new main.new in
        later ≡ stepped staging.now w }
{
    if !pager_state::are_fine(pager, table.len(), log.len(), main.len(), staging.len()) {
        return Outcome {
            answer: Err(Refusal::Area),
            pager,
        };
    }
    if is_commit(pager.job) {
        return pager_commit::commit_step(pager, table, log, main, staging);
    }
    pager_checkpoint::checkpoint_step(pager, table, log, main)
}

// Runs the steps to the end, `done` of which are done already.
fn run_steps<'a>(
    pager: Pager,
    done: usize,
    table: &mut [u32],
    log: &mut [u8],
    main: &mut [u8],
    staging: &'a [u8],
) -> Pager
    ensures { let w = world pager table.old log.old main.old in
        let later = world result table.new log.new main.new in
        later ≡ steps staging.now (most_steps - done) w }
{
    let mut p = pager;
    for _ in done..MOST_STEPS {
        if !pager_state::is_busy(p.job) {
            return p;
        }
        p = next_step(p, table, log, main, staging).pager;
    }
    p
}

// The answer that the last store gives.
fn answer_of(job: Job) -> usize
    ensures { result ≡ answer_of job }
{
    match job {
        Job::Idle => 0,
        Job::Commit { answer, .. }
        | Job::Checkpoint { answer, .. }
        | Job::MainLength { answer, .. }
        | Job::LogLength { answer, .. }
        | Job::LogHeader { answer, .. } => answer,
    }
}

// A commit in one call; answers the number of differing pages.
pub fn commit<'a>(
    pager: Pager,
    table: &mut [u32],
    log: &mut [u8],
    main: &mut [u8],
    staging: &'a [u8],
    new_header: DbHeader,
    salt: u32,
) -> Outcome<usize>
    ensures answer_value { let w = world pager table.old log.old main.old in
        result.answer ≡ commit_answer staging.now w new_header }
    ensures later_after { let w = world pager table.old log.old main.old in
        let later = world result.pager table.new log.new main.new in
        later ≡ commit_world staging.now w new_header salt }
{
    let run = pager_commit::commit_frames(pager, table, log, main, staging, new_header, salt);
    let Ok(pages) = run.answer else {
        return run;
    };
    if !pager_state::is_busy(run.pager.job) {
        return run;
    }
    let end = run_steps(run.pager, pages + 1, table, log, main, staging);
    Outcome { pager: end, ..run }
}

// A checkpoint in one call; answers the number of pages written.
pub fn checkpoint<'a>(
    pager: Pager,
    table: &mut [u32],
    log: &mut [u8],
    main: &mut [u8],
    staging: &'a [u8],
    salt: u32,
) -> Outcome<usize>
    ensures answer_value { let w = world pager table.old log.old main.old in
        result.answer ≡ checkpoint_answer staging.now w }
    ensures later_after { let w = world pager table.old log.old main.old in
        let later = world result.pager table.new log.new main.new in
        later ≡ checkpoint_world staging.now w salt }
{
    let areas = Areas {
        table,
        log,
        main,
        staging,
    };
    let begun = pager_checkpoint::begin_checkpoint(pager, areas, salt);
    match begun.answer {
        Ok(CheckpointStart::Begun) => {
            let pages = answer_of(begun.pager.job);
            let end = run_steps(begun.pager, 0, table, log, main, staging);
            Outcome {
                answer: Ok(pages),
                pager: end,
            }
        }
        Ok(CheckpointStart::Nothing) => Outcome {
            answer: Ok(0),
            pager: begun.pager,
        },
        Err(refusal) => Outcome {
            answer: Err(refusal),
            pager: begun.pager,
        },
    }
}
