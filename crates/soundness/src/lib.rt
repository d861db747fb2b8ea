// The test for a sound state, sentence by sentence as document 01 has it, in one pass over the rows of the table and the state.
#![tactic(auto)]

ghost use Rattle.std.specs.Prelude.{◌≡◌, ℕ, Bool, drop, ◌<◌, T, leb};
ghost use Rattle.std.specs.List.{list_all};
ghost use Rattle.model.specs.Tests.{◌and◌, ◌implies◌, one, each};
ghost use Rattle.model.specs.Limits.{most_tasks, most_acts};
ghost use Rattle.model.specs.Tables.{known};
ghost use Rattle.model.specs.States.{task_at, act_at, runs};
ghost use Rattle.model.specs.Sound.{at_own, may_rest, sets_while_managing, rests_unless_running, listed_at_ether, still_at_ether, executes_when_safe, clock_ok, fine_place, fine_act, holder_ok, waiting_ok, counts_ok, missed_ok, fine_numbers, fine_task, apart, is_fresh_task, is_fresh_act, fresh_past, sound};
ghost use Rattle.prepared.specs.Held.{held};
ghost use Rattle.soundness.specs.Marks.{pause_marks};

use model::{Act, Holder, Place, State, Task};
use prepared::Component;

// The codels of a component that a pause leads to.
#[derive(Clone, Copy)]
struct Pauses<'a> {
    component: &'a Component,
    marks: [bool; model::MOST_CODELS],
    ghost marked: { marks ≡ pause_marks (held component.now) (held component.now).nedges },
}

impl<'a> Pauses<'a> {
    // Marks them.
    fn new(component: &'a Component) -> Self
        ensures { held result.component.now ≡ held component.now }
    {
        let mut marks = [false; model::MOST_CODELS];
        for e in 0..component.edge_count() {
            if let Place::Codel(c) = component.pause_of(e) {
                marks[c] = true;
            }
        }
        Pauses { component, marks }
    }

    // "at ether or at the target of a pause"
    fn may_rest(&self, p: Place) -> bool
        requires { T (known (held self.now.component.now) p) }
        ensures { result ≡ may_rest (held self.now.component.now) p }
    {
        match p {
            Place::Ether => true,
            Place::Codel(c) => self.marks[c],
        }
    }

    // "an activity that is not the holder is at ether or at the target of a pause, not executing; so is a holder in R"
    fn rests_unless_running(&self, a: usize, x: Task, y: Act) -> bool
        requires { T (known (held self.now.component.now) y.place) }
        ensures { result ≡ rests_unless_running (held self.now.component.now) a x y }
    {
        records::may_run(x.holder, a, y.halt) || self.may_rest(y.place) && !y.executing
    }
}

// "the holder is the manager or one of the task's activities"
fn holder_ok(component: &Component, t: usize, h: Holder) -> bool
    ensures { result ≡ holder_ok (held component.now) t h }
{
    match h {
        Holder::Manager => true,
        Holder::Activity(a) => a < component.acts() && component.task_of(a) == t,
    }
}

// "open date, missed and longest are 0 while waiting", and "a waiting manager holds"
fn waiting_ok(x: Task) -> bool
    ensures { result ≡ waiting_ok x }
{
    x.managing || records::is_manager(x.holder) && x.opened == 0 && x.missed == 0 && x.longest == 0
}

// "cycle number plus signal is at most date minus timer", which "is not below 0"; each is taken off the date in turn.
fn counts_ok(date: u64, x: Task) -> bool
    ensures { result ≡ counts_ok date x }
{
    x.timer <= date && x.cycle <= date - x.timer && x.signal as u64 <= date - x.timer - x.cycle
}

// "and so is missed"
fn missed_ok(date: u64, x: Task) -> bool
    ensures { result ≡ missed_ok date x }
{
    x.timer <= date && x.missed <= date - x.timer
}

// The sentences that ask the task's numbers and the date alone.
fn fine_numbers(date: u64, x: Task) -> bool
    ensures { result ≡ fine_numbers date x }
{
    counts_ok(date, x) && missed_ok(date, x) && x.longest <= model::MOST_TICKS && x.opened <= date
}

// The sentences on one task.
fn fine_task(component: &Component, date: u64, t: usize, x: Task) -> bool
    requires { (t < (held component.now).ntasks) }
    ensures { result ≡ fine_task (held component.now) date t x }
{
    x.timer <= component.period_of(t)
        && holder_ok(component, t, x.holder)
        && waiting_ok(x)
        && fine_numbers(date, x)
}

// "each activity at ether or a codel of its own"
fn at_own(component: &Component, a: usize, p: Place) -> bool
    ensures { result ≡ at_own (held component.now) a p }
{
    match p {
        Place::Ether => true,
        Place::Codel(c) => c < component.codels() && component.owner_of(c) == a,
    }
}

// "a waiting manager .. has N and R empty"
fn sets_while_managing(x: Task, y: Act) -> bool
    ensures { result ≡ sets_while_managing x y }
{
    x.managing || !(y.run || y.halt)
}

// "a holder at ether is in N or R"
fn listed_at_ether(a: usize, x: Task, y: Act) -> bool
    ensures { result ≡ listed_at_ether a x y }
{
    !(records::is_held(x.holder, a) && records::is_ether(y.place)) || y.run || y.halt
}

// "nothing executes at ether"
fn still_at_ether(y: Act) -> bool
    ensures { result ≡ still_at_ether y }
{
    !(records::is_ether(y.place) && y.executing)
}

// "a holder not in R at a thread-safe codel executes"
fn executes_when_safe(component: &Component, a: usize, x: Task, y: Act) -> bool
    requires { T (known (held component.now) y.place) }
    ensures { result ≡ executes_when_safe (held component.now) a x y }
{
    match y.place {
        Place::Ether => true,
        Place::Codel(c) => {
            !(records::may_run(x.holder, a, y.halt) && component.is_safe(c)) || y.executing
        }
    }
}

// "an executing clock is at most the limit, every other clock is 0"
fn clock_ok(component: &Component, y: Act) -> bool
    requires { T (known (held component.now) y.place) }
    ensures { result ≡ clock_ok (held component.now) y }
{
    match y.place {
        Place::Codel(c) if y.executing => y.clock <= component.limit_of(c),
        _ => !y.executing && y.clock == 0,
    }
}

// The sentences on one activity that ask who holds, or what the rows say of its place, which has a row.
fn fine_place(pauses: &Pauses, a: usize, x: Task, y: Act) -> bool
    requires { T (known (held pauses.now.component.now) y.place) }
    ensures { result ≡ fine_place (held pauses.now.component.now) a x y }
{
    pauses.rests_unless_running(a, x, y)
        && listed_at_ether(a, x, y)
        && still_at_ether(y)
        && executes_when_safe(pauses.component, a, x, y)
        && clock_ok(pauses.component, y)
}

// The sentences on one activity, whose task's record is x.
fn fine_act(pauses: &Pauses, a: usize, x: Task, y: Act) -> bool
    ensures { result ≡ fine_act (held pauses.now.component.now) a x y }
{
    at_own(pauses.component, a, y.place) && sets_while_managing(x, y) && fine_place(pauses, a, x, y)
}

// Does a test hold of each number below n?
fn all_below<F: Fn(usize) -> bool>(n: usize, test: F) -> bool
    requires { (k : ℕ) → k < n → F.pre test k }
    ensures { (p : ℕ → Bool) → ((k : ℕ) (r : Bool) → k < n → F.post test k r → r ≡ p k) → result ≡ each n p }
{
    for k in 0..n {
        if !test(k) {
            return false;
        }
    }
    true
}

fn tasks_fine(component: &Component, s: &State) -> bool
    ensures { result ≡ each (held component.now).ntasks (λ t. fine_task (held component.now) s.now.date t (task_at s.now t)) }
{
    all_below(
        component.tasks(),
        |t|
            requires { t < (held component.now).ntasks }
        { fine_task(component, s.date, t, s.tasks[t]) },
    )
}

fn acts_fine(component: &Component, s: &State) -> bool
    ensures { result ≡ each (held component.now).nacts (λ a. fine_act (held component.now) a (task_at s.now ((held component.now).task a)) (act_at s.now a)) }
{
    let pauses = Pauses::new(component);
    all_below(
        component.acts(),
        |a|
            requires { a < (held component.now).nacts }
        { fine_act(&pauses, a, s.tasks[component.task_of(a)], s.acts[a]) },
    )
}

// Does an activity execute the codel c?
fn is_running(y: Act, c: usize) -> bool
    ensures { result ≡ runs y c }
{
    match y.place {
        Place::Ether => false,
        Place::Codel(d) => y.executing && d == c,
    }
}

// "no executing conflict pair"
fn pairs_apart(component: &Component, s: &State) -> bool
    ensures { result ≡ each (held component.now).nmutex (apart (held component.now) s.now) }
{
    all_below(
        component.mutex_count(),
        |m|
            requires { m < (held component.now).nmutex }
        {
            let c = component.lower_of(m);
            let d = component.upper_of(m);
            let y = s.acts[component.owner_of(c)];
            let z = s.acts[component.owner_of(d)];
            !(is_running(y, c) && is_running(z, d))
        },
    )
}

fn is_fresh_task(x: &Task) -> bool
    ensures { result ≡ is_fresh_task x.now }
{
    x.timer == 0
        && !x.signal
        && !x.managing
        && records::is_manager(x.holder)
        && x.cycle == 0
        && x.opened == 0
        && x.missed == 0
        && x.longest == 0
}

fn is_fresh_act(y: &Act) -> bool
    ensures { result ≡ is_fresh_act y.now }
{
    records::is_ether(y.place) && !y.executing && y.clock == 0 && !y.run && !y.halt
}

// Are the task rows past the first n fresh?
fn tasks_fresh(tasks: &[Task], n: usize) -> bool
    ensures { result ≡ list_all is_fresh_task (drop n tasks.now) }
{
    tasks.iter().skip(n).all(is_fresh_task)
}

// Are the activity rows past the first n fresh?
fn acts_fresh(acts: &[Act], n: usize) -> bool
    ensures { result ≡ list_all is_fresh_act (drop n acts.now) }
{
    acts.iter().skip(n).all(is_fresh_act)
}

// Are the rows past the table's counts fresh?
fn fresh_past(component: &Component, s: &State) -> bool
    ensures { result ≡ fresh_past (held component.now) s.now }
{
    tasks_fresh(&s.tasks, component.tasks()) && acts_fresh(&s.acts, component.acts())
}

// Is a state sound?
#[tactic(auto, unfolding(model::specs::Sound::sound))]
pub fn is_sound(component: &Component, s: State) -> bool
    ensures { result ≡ sound (held component.now) s }
{
    s.date <= model::CEILING
        && tasks_fine(component, &s)
        && acts_fine(component, &s)
        && pairs_apart(component, &s)
        && fresh_past(component, &s)
}
