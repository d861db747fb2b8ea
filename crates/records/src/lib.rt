// The records of the state: what can be asked of one and done on one without a table. They go in by value and come back.
#![tactic(auto)]

ghost use Rattle.std.specs.Prelude.{◌≡◌, not, ◌≤◌, leb};
ghost use Rattle.model.specs.Tests.{◌and◌, ◌or◌};
ghost use Rattle.model.specs.Limits.{most_ticks, ceiling};
ghost use Rattle.model.specs.Tables.{is_ether};
ghost use Rattle.model.specs.States.{no_task, no_act, fresh, held_by, by_manager};
ghost use Rattle.model.specs.Records.{with_holder, with_place, with_executing, with_clock, in_lists};
ghost use Rattle.model.specs.Rules.{rested, held, signalled, managed, out_of_r, begun, closed, aged};
ghost use Rattle.model.specs.declared.Place.TheVariants.{Codel};

use model::{Act, Holder, Place, State, Task};

// Is a place ether?
pub fn is_ether(p: Place) -> bool
    ensures { result ≡ is_ether p }
{
    p == Place::Ether
}

// Does the manager hold?
pub fn is_manager(h: Holder) -> bool
    ensures { result ≡ by_manager h }
{
    h == Holder::Manager
}

// Does an activity hold?
pub fn is_held(h: Holder, a: usize) -> bool
    ensures { result ≡ held_by h a }
{
    h == Holder::Activity(a)
}

// "A holds and is not in R"
pub fn may_run(h: Holder, a: usize, halt: bool) -> bool
    ensures { result ≡ held_by h a and not halt }
{
    is_held(h, a) && !halt
}

// "`ea` from a codel, and `fa`, need a clock of at least 1"
pub fn may_end(y: Act) -> bool
    ensures { result ≡ is_ether y.place or leb 1 y.clock }
{
    is_ether(y.place) || 1 <= y.clock
}

// By its cases: copied whole, a record's holder and place cost up to 0.4 % more instructions a line.
fn holder_anew(h: Holder) -> Holder
    ensures { result ≡ h }
{
    match h {
        Holder::Manager => Holder::Manager,
        Holder::Activity(a) => Holder::Activity(a),
    }
}

fn place_anew(p: Place) -> Place
    ensures { result ≡ p }
{
    match p {
        Place::Ether => Place::Ether,
        Place::Codel(c) => Place::Codel(c),
    }
}

// A task's record as it is in the fresh state.
fn fresh_task() -> Task
    ensures { result ≡ no_task }
{
    Task {
        timer: 0,
        signal: false,
        managing: false,
        holder: Holder::Manager,
        cycle: 0,
        opened: 0,
        missed: 0,
        longest: 0,
    }
}

// An activity's record as it is in the fresh state.
fn fresh_act() -> Act
    ensures { result ≡ no_act }
{
    Act {
        place: Place::Ether,
        executing: false,
        clock: 0,
        run: false,
        halt: false,
    }
}

// "Fresh: everything 0 or empty, managers waiting and holding, activities at ether."
pub fn fresh_state() -> State
    ensures { result ≡ fresh }
{
    State {
        date: 0,
        tasks: [fresh_task(); model::MOST_TASKS],
        acts: [fresh_act(); model::MOST_ACTS],
    }
}

// A task's record made anew, field by field: a copy would also carry the bytes that lie between its fields, and was tried: it cost 3 % more
// instructions a line.
pub fn task_anew(x: Task) -> Task
    ensures { result ≡ x }
{
    Task {
        holder: holder_anew(x.holder),
        ..x
    }
}

// The same for an activity's record.
pub fn act_anew(y: Act) -> Act
    ensures { result ≡ y }
{
    Act {
        place: place_anew(y.place),
        ..y
    }
}

// A task's record with another holder, its longest at least k.
pub fn with_holder(x: Task, h: Holder, k: u64) -> Task
    ensures { result ≡ held h k x }
{
    Task {
        holder: h,
        longest: x.longest.max(k),
        ..x
    }
}

// "Give back": an activity's record at a place.
pub fn at_rest(p: Place) -> Act
    ensures { result ≡ rested p }
{
    Act {
        place: p,
        ..fresh_act()
    }
}

// "Enter c": an activity's record at a codel, executing if that is thread safe.
pub fn entered(y: Act, c: usize, safe: bool) -> Act
    ensures { result ≡ with_place (Codel c) (with_executing safe (with_clock 0 y)) }
{
    Act {
        place: Place::Codel(c),
        executing: safe,
        clock: 0,
        ..y
    }
}

// An activity's record with its places in N and R.
pub fn in_lists(y: Act, run: bool, halt: bool) -> Act
    ensures { result ≡ in_lists run halt y }
{
    Act { run, halt, ..y }
}

// "Timer 0, signal set"; "missed grows at each `st` accepted while the cycle is open, set or not".
fn fired(x: Task) -> Task
    requires { x.missed ≤ ceiling }
    ensures { result ≡ signalled x }
{
    Task {
        timer: 0,
        signal: true,
        missed: x.missed + u64::from(x.managing),
        ..x
    }
}

// The same on a task's record that is lent: document 01 names this form, a thin function above one by value.
fn fire(x: &mut Task)
    requires { x.old.missed ≤ ceiling }
    ensures { x.new ≡ signalled x.old }
{
    *x = fired(*x);
}

// A record by value, lent to `fire` and handed back: callers need no reference to a record.
pub fn signalled_task(x: Task) -> Task
    requires { x.missed ≤ ceiling }
    ensures { result ≡ signalled x }
{
    let mut u = x;
    fire(&mut u);
    u
}

// "Signal cleared, managing, .. cycle number up by 1, open date = date."
pub fn opened_task(date: u64, x: Task) -> Task
    requires { x.cycle ≤ ceiling }
    ensures { result ≡ managed date x }
{
    Task {
        signal: false,
        managing: true,
        cycle: x.cycle + 1,
        opened: date,
        ..x
    }
}

// `ia` with a stop codel: "A leaves R".
pub fn out_of_r(y: Act) -> Act
    ensures { result ≡ out_of_r y }
{
    Act { halt: false, ..y }
}

// "It executes, clock 0."
pub fn started(y: Act) -> Act
    ensures { result ≡ begun y }
{
    Act {
        executing: true,
        clock: 0,
        ..y
    }
}

// "Waiting; the cycle closes; open date, missed and longest become 0."
pub fn finished(x: Task) -> Task
    ensures { result ≡ closed x }
{
    Task {
        managing: false,
        opened: 0,
        missed: 0,
        longest: 0,
        ..x
    }
}

// An executing clock grows by d.
pub fn older_clock(y: Act, d: u64) -> u64
    requires { (y.clock ≤ most_ticks) × (d ≤ most_ticks) }
    ensures { result ≡ aged y.executing d y.clock }
{
    if y.executing { y.clock + d } else { y.clock }
}
