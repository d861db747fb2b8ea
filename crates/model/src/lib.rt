// The component as document 01 sees it while it runs: the state, and the steps that change it. The rules are in specs/, and what is
// proved of them in proofs/; the only code here is a limit's test.
#![tactic(auto)]

ghost use Rattle.std.specs.Prelude.{◌≡◌};
ghost use Rattle.model.specs.Limits.{in_range};

pub use refusal::Refusal;
use text::Set;

mod refusal;

// How many tasks a table may have.
pub const MOST_TASKS: usize = 16;

// How many activities a table may have.
pub const MOST_ACTS: usize = 64;

// How many codels a table may have.
pub const MOST_CODELS: usize = 256;

// How many edges a table may have.
pub const MOST_EDGES: usize = 512;

// How many mutex rows a table may have.
pub const MOST_MUTEXES: usize = 512;

// "Period, keep and limit are 1 to 1,000,000,000"; so is the d of a wait.
pub const MOST_TICKS: u64 = 1000000000;

// "date at most 1,000,000,000,000"
pub const CEILING: u64 = 1000000000000;

// Where an activity is, or where an edge or a step leads: ether or a codel.
#[derive(Clone, Copy, PartialEq, Eq)]
pub enum Place {
    Ether,
    Codel(usize),
}

// Who holds a task: its manager or one of its activities.
#[derive(Clone, Copy, PartialEq, Eq)]
pub enum Holder {
    Manager,
    Activity(usize),
}

// One task's record.
#[derive(Clone, Copy, PartialEq, Eq)]
pub struct Task {
    pub timer: u64,
    pub signal: bool,
    pub managing: bool,
    pub holder: Holder,
    pub cycle: u64,
    pub opened: u64,
    pub missed: u64,
    pub longest: u64,
}

// One activity's record; `run` says that it is in its task's set N, `halt` that it is in R.
#[derive(Clone, Copy, PartialEq, Eq)]
pub struct Act {
    pub place: Place,
    pub executing: bool,
    pub clock: u64,
    pub run: bool,
    pub halt: bool,
}

// The state of a component; rows past the table's counts are fresh.
#[derive(Clone, Copy)]
pub struct State {
    pub date: u64,
    pub tasks: [Task; MOST_TASKS],
    pub acts: [Act; MOST_ACTS],
}

// What a step of a task alone does.
#[derive(Clone, Copy, PartialEq, Eq)]
pub enum TaskStep {
    St,
    Fm,
}

// What a step of an activity does; `lm` names the task that lets it run, `ea` and `fa` where it goes.
#[derive(Clone, Copy, PartialEq, Eq)]
pub enum ActStep {
    Lm(usize),
    Ia,
    Ea(Place),
    Cx,
    Fa(Place),
}

// A step, with the numbers and sets of its log line: what it is of, and then which.
#[derive(Clone, Copy)]
pub enum Step {
    Wait(u64),
    Sm(usize, Set, Set),
    OfTask(usize, TaskStep),
    OfAct(usize, ActStep),
}

// Is it a period, a keep, a limit, or the d of a wait?
pub fn in_range(n: u64) -> bool
    ensures { result ≡ in_range n }
{
    (1..=MOST_TICKS).contains(&n)
}
