// The tally of a run, the verdicts on its cycles, and the numbers of the `sum` row.
#![tactic(auto)]

ghost use Rattle.std.specs.Prelude.{◌≡◌, ◌<◌, ◌≤◌};
ghost use Rattle.model.specs.Cycles.{managing, line_of};
ghost use Rattle.report.specs.Rows.{sum_numbers};
ghost use Rattle.prepared.specs.Held.{held};
ghost use Rattle.tally.specs.Tallies.{ruled_by, ruling_by, after_wait, after_sm, after_step, lines_of, after_row, begun_with, began, most_count, Roomy, sum_of};

use model::{State, Task, TaskStep};
use prepared::Component;
use report::Cycle;

// What is counted beside a run: accepted steps, `state` rows, cycles opened, kept and dropped, the steps since the last wait, and the most of
// the stretches that a wait has ended. How much a count may still grow, the caller knows by what is left of the log: each step asks for it.
#[derive(Clone, Copy, Default)]
pub struct Tally {
    pub steps: u64,
    pub rows: u64,
    pub opened: u64,
    pub kept: u64,
    pub dropped: u64,
    pub since: u64,
    pub most: u64,
}

impl Tally {
    // How many lines were accepted: steps and `state` rows.
    pub fn lines(&self) -> u64
        requires { lines_of self.now ≤ most_count }
        ensures { result ≡ lines_of self.now }
    {
        self.steps + self.rows
    }
}

// The verdict that a step gives: none, or on the cycle that it closes.
#[derive(Clone, Copy)]
pub enum Ruling {
    Open,
    Kept(Cycle),
    Dropped,
}

// "kept if close date minus open date is at least the task's keep, or missed is at least 1; else dropped"
fn ruled(component: &Component, task: usize, date: u64, x: Task) -> Ruling
    requires { (task < (held component.now).ntasks) × (x.opened ≤ date) }
    ensures { result ≡ ruled_by (held component.now) task date x }
{
    if component.keep_of(task) <= date - x.opened || x.missed >= 1 {
        Ruling::Kept(Cycle {
            task,
            cycle: x.cycle,
            opened: x.opened,
            closed: date,
            missed: x.missed,
            longest: x.longest,
        })
    } else {
        Ruling::Dropped
    }
}

// The verdict that an accepted step of a task gives: only `fm` gives one.
pub fn ruling_of(component: &Component, task: usize, step: TaskStep, date: u64, x: Task) -> Ruling
    requires { (task < (held component.now).ntasks) × (x.opened ≤ date) }
    ensures { result ≡ ruling_by (held component.now) task step date x }
{
    match step {
        TaskStep::St => Ruling::Open,
        TaskStep::Fm => ruled(component, task, date, x),
    }
}

// The tally after a wait: a stretch ends.
pub fn after_wait(tally: Tally) -> Tally
    requires { Roomy tally 1 }
    ensures { result ≡ after_wait tally }
{
    Tally {
        steps: tally.steps + 1,
        since: 0,
        most: tally.most.max(tally.since),
        ..tally
    }
}

// The tally after an `sm`: a cycle is opened.
pub fn after_sm(tally: Tally) -> Tally
    requires { Roomy tally 1 }
    ensures { result ≡ after_sm tally }
{
    Tally {
        steps: tally.steps + 1,
        opened: tally.opened + 1,
        since: tally.since + 1,
        ..tally
    }
}

// The tally after any other step, by its verdict.
pub fn after_step(tally: Tally, ruling: Ruling) -> Tally
    requires { Roomy tally 1 }
    ensures { result ≡ after_step tally ruling }
{
    let counted = Tally {
        steps: tally.steps + 1,
        since: tally.since + 1,
        ..tally
    };
    match ruling {
        Ruling::Open => counted,
        Ruling::Kept(_) => Tally {
            kept: tally.kept + 1,
            ..counted
        },
        Ruling::Dropped => Tally {
            dropped: tally.dropped + 1,
            ..counted
        },
    }
}

// The tally after a `state` row that equals the state reached: a line, no step.
pub fn after_row(tally: Tally) -> Tally
    requires { Roomy tally 1 }
    ensures { result ≡ after_row tally }
{
    Tally {
        rows: tally.rows + 1,
        ..tally
    }
}

// How many tasks manage.
fn count_managing(component: &Component, s: State) -> u64
    ensures { result ≡ managing (held component.now) s }
{
    let tasks = &s.tasks[..component.tasks()];
    tasks.iter().filter(|x| x.managing).count() as u64
}

// The tally of a log whose first line, a `state` row, sets the state: "managing tasks at the start count as opened".
pub fn begun_with(opened: u64) -> Tally
    ensures { result ≡ begun_with opened }
{
    Tally {
        rows: 1,
        opened,
        ..Tally::default()
    }
}

// The same by that state.
pub fn begun_at(component: &Component, s: State) -> Tally
    ensures { result ≡ began (held component.now) s }
{
    begun_with(count_managing(component, s))
}

// "Lines count from the first line of table or log. .. No refusal: 0 and 0."
fn line_of(refusal: u64, lines: u64) -> u64
    requires { lines ≤ most_count }
    ensures { result ≡ line_of refusal lines }
{
    if refusal == 0 { 0 } else { lines + 1 }
}

// The numbers of the `sum` row where judging ends with a refusal, 0 for none. The refusal stays a number here: the row is promised for any. It stays a call:
// it is handed the state whole, which need not lie on the stack while a log is judged.
#[inline(never)]
pub fn sum_numbers(component: &Component, s: State, tally: Tally, refusal: u64) -> [u64; 9]
    requires { lines_of tally ≤ most_count }
    ensures { result ≡ sum_numbers (sum_of (held component.now) s tally refusal) }
{
    [
        tally.steps,
        s.date,
        tally.opened,
        tally.kept,
        tally.dropped,
        count_managing(component, s),
        tally.most.max(tally.since),
        refusal,
        line_of(refusal, tally.lines()),
    ]
}
