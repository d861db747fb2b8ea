// The steps on the records that they touch: a task's, or a task's and an activity's, go in by value and come back.
#![tactic(auto)]

ghost use Rattle.std.specs.Prelude.{◌≡◌, ◌<◌, ◌≤◌, T};
ghost use Rattle.model.specs.Limits.{ceiling};
ghost use Rattle.model.specs.Refusals.{numbered};
ghost use Rattle.model.specs.Tables.{known};
ghost use Rattle.model.specs.States.{stands};
ghost use Rattle.model.specs.Rules.{entered, again, ea_allowed, fa_allowed};
ghost use Rattle.model.specs.declared.Place.TheVariants.{Codel};
ghost use Rattle.prepared.specs.Held.{held};
ghost use Rattle.rules.specs.Local.{told_task_by, told_by, st_local, fm_local, task_local, task_told, lm_local, ia_local, ea_local, cx_local, fa_local, local, naming, row_in, task_in};

use model::{Act, ActStep, Holder, Place, Refusal, Task, TaskStep};
use prepared::Component;

// "Enter c".
fn enter(component: &Component, c: usize, act: Act) -> Act
    requires { c < (held component.now).ncodels }
    ensures { result ≡ entered (held component.now) c act }
{
    records::entered(act, c, component.is_safe(c))
}

// An activity that comes to hold enters its codel again, unless it is in R.
fn enter_again(component: &Component, act: Act) -> Act
    requires { T (known (held component.now) act.place) }
    ensures { result ≡ again (held component.now) act.halt act.place act }
{
    if act.halt {
        return act;
    }
    match act.place {
        Place::Ether => act,
        Place::Codel(c) => enter(component, c, act),
    }
}

// The row of a state that a number reads: its own where it is below n, else the first. A step that names no row is refused, whatever was read.
pub fn row_in(i: usize, n: usize) -> usize
    ensures { result ≡ row_in i n }
{
    if i < n { i } else { 0 }
}

fn do_st(component: &Component, t: usize, task: Task) -> Result<Task, Refusal>
    requires { (t < (held component.now).ntasks) × (task.missed ≤ ceiling) }
    ensures { told_task_by result task ≡ st_local (held component.now) t task }
{
    if task.timer != component.period_of(t) {
        return Err(Refusal::TooEarly);
    }
    Ok(records::signalled_task(task))
}

fn do_fm(empty: bool, task: Task) -> Result<Task, Refusal>
    ensures { told_task_by result task ≡ fm_local empty task }
{
    if !(task.managing && records::is_manager(task.holder) && empty) {
        return Err(Refusal::NotAllowed);
    }
    Ok(records::finished(task))
}

// `st` and `fm` on their task's record, or why not: where there is no such task it is unknown; empty is whether N and R are, for `fm`.
#[tactic(auto, unfolding(crate::specs::Local::task_local))]
pub fn task_step(
    component: &Component,
    t: usize,
    step: TaskStep,
    empty: bool,
    task: Task,
) -> Result<Task, Refusal>
    requires { task.missed ≤ ceiling }
    ensures { told_task_by result task ≡ task_told (held component.now) t step empty task }
{
    if component.tasks() <= t {
        return Err(Refusal::Unknown);
    }
    let task = match step {
        TaskStep::St => do_st(component, t, task),
        TaskStep::Fm => do_fm(empty, task),
    }?;
    // made anew, as `task_anew` says
    Ok(records::task_anew(task))
}

fn do_lm(
    component: &Component,
    t: usize,
    a: usize,
    task: Task,
    act: Act,
) -> Result<(Task, Act), Refusal>
    requires { (a < (held component.now).nacts) × T (known (held component.now) act.place) }
    ensures { told_by result task act ≡ lm_local (held component.now) t a task act }
{
    if !(task.managing
        && records::is_manager(task.holder)
        && component.task_of(a) == t
        && (act.run || act.halt))
    {
        return Err(Refusal::NotAllowed);
    }
    Ok((
        records::with_holder(task, Holder::Activity(a), 0),
        enter_again(component, act),
    ))
}

#[tactic(auto, using(crate::proofs::Named::rows))]
fn do_ia(component: &Component, a: usize, task: Task, act: Act) -> Result<(Task, Act), Refusal>
    requires { a < (held component.now).nacts }
    ensures { told_by result task act ≡ ia_local (held component.now) a task act }
{
    if !(records::is_held(task.holder, a) && act.halt) {
        return Err(Refusal::NotAllowed);
    }
    match component.stop_of(a) {
        Place::Ether => Ok((
            records::with_holder(task, Holder::Manager, 0),
            records::at_rest(Place::Ether),
        )),
        Place::Codel(c) => Ok((task, enter(component, c, records::out_of_r(act)))),
    }
}

// "at ether and c its start; or executing, with a `run` edge to codel c"
fn may_enter(component: &Component, a: usize, c: usize, act: Act) -> bool
    requires { (a < (held component.now).nacts) × (c < (held component.now).ncodels) × T (known (held component.now) act.place) }
    ensures { result ≡ ea_allowed (held component.now) act a c act.place }
{
    match act.place {
        Place::Ether => component.is_start(a, c),
        Place::Codel(d) => act.executing && component.has_edge(d, Place::Codel(c), false),
    }
}

fn do_ea(
    component: &Component,
    a: usize,
    c: usize,
    task: Task,
    act: Act,
) -> Result<(Task, Act), Refusal>
    requires { (a < (held component.now).nacts) × (c < (held component.now).ncodels) × T (known (held component.now) act.place) }
    ensures { told_by result task act ≡ ea_local (held component.now) a (Codel c) task act }
{
    if !(records::may_run(task.holder, a, act.halt) && may_enter(component, a, c, act)) {
        return Err(Refusal::NotAllowed);
    }
    if !records::may_end(act) {
        return Err(Refusal::TooEarly);
    }
    Ok((
        records::with_holder(task, task.holder, act.clock),
        enter(component, c, act),
    ))
}

// Does an activity stand before its codel, as far as its own record tells?
fn is_standing(component: &Component, act: Act) -> bool
    requires { T (known (held component.now) act.place) }
    ensures { result ≡ stands (held component.now) act act.place }
{
    match act.place {
        Place::Ether => false,
        Place::Codel(c) => !component.is_safe(c) && !act.executing,
    }
}

fn do_cx(
    component: &Component,
    a: usize,
    clear: bool,
    task: Task,
    act: Act,
) -> Result<(Task, Act), Refusal>
    requires { T (known (held component.now) act.place) }
    ensures { told_by result task act ≡ cx_local (held component.now) a clear task act }
{
    if !(records::may_run(task.holder, a, act.halt) && is_standing(component, act)) {
        return Err(Refusal::NotAllowed);
    }
    if !clear {
        return Err(Refusal::InConflict);
    }
    Ok((task, records::started(act)))
}

// "with a `pause` edge to the target or a `run` edge to ether"
fn may_leave(component: &Component, from: Place, to: Place) -> bool
    requires { T (known (held component.now) from) × T (known (held component.now) to) }
    ensures { result ≡ fa_allowed (held component.now) from to }
{
    match from {
        Place::Ether => false,
        Place::Codel(d) => {
            component.has_edge(d, to, true)
                || records::is_ether(to) && component.has_edge(d, Place::Ether, false)
        }
    }
}

fn do_fa(
    component: &Component,
    a: usize,
    place: Place,
    task: Task,
    act: Act,
) -> Result<(Task, Act), Refusal>
    requires { T (known (held component.now) act.place) × T (known (held component.now) place) }
    ensures { told_by result task act ≡ fa_local (held component.now) a place task act }
{
    if !(records::is_held(task.holder, a)
        && act.executing
        && may_leave(component, act.place, place))
    {
        return Err(Refusal::NotAllowed);
    }
    if act.clock < 1 {
        return Err(Refusal::TooEarly);
    }
    Ok((
        records::with_holder(task, Holder::Manager, act.clock),
        records::at_rest(place),
    ))
}

// `lm`, `ia`, `ea`, `cx` and `fa` on the activity's record and its task's, or why not; clear is whether no conflicting codel executes, for `cx`.
// A step is taken apart by nested match, here and in `check_names`: the page names this form.
#[tactic(auto, using(crate::proofs::Named::rows), unfolding(crate::specs::Local::local))]
pub fn local_step(
    component: &Component,
    a: usize,
    step: ActStep,
    clear: bool,
    task: Task,
    act: Act,
) -> Result<(Task, Act), Refusal>
    requires { (naming (held component.now) a step ≡ 0) × T (known (held component.now) act.place) }
    ensures { told_by result task act ≡ local (held component.now) a step clear task act }
{
    let (task, act) = match step {
        ActStep::Lm(t) => do_lm(component, t, a, task, act),
        ActStep::Ia => do_ia(component, a, task, act),
        ActStep::Ea(place) => match place {
            Place::Ether => Err(Refusal::NoStep),
            Place::Codel(c) => do_ea(component, a, c, task, act),
        },
        ActStep::Cx => do_cx(component, a, clear, task, act),
        ActStep::Fa(place) => do_fa(component, a, place, task, act),
    }?;
    // made anew, as `task_anew` says
    Ok((records::task_anew(task), records::act_anew(act)))
}

// What is tested first of an activity's step: `ea` to ether is no step, and where a row that a step names does not exist it is unknown.
#[tactic(auto, unfolding(crate::specs::Local::naming))]
pub fn check_names(component: &Component, a: usize, step: ActStep) -> Result<(), Refusal>
    ensures { numbered result ≡ naming (held component.now) a step }
{
    let known = a < component.acts();
    let there = match step {
        ActStep::Lm(t) => known && t < component.tasks(),
        ActStep::Ia => known,
        ActStep::Ea(place) => match place {
            Place::Ether => return Err(Refusal::NoStep),
            Place::Codel(c) => known && c < component.codels(),
        },
        ActStep::Cx => known,
        ActStep::Fa(place) => match place {
            Place::Ether => known,
            Place::Codel(c) => known && c < component.codels(),
        },
    };
    if there { Ok(()) } else { Err(Refusal::Unknown) }
}

// The task whose record an activity's step touches: `lm` names it, else it is the activity's.
#[tactic(auto, using(crate::proofs::Named::rows))]
pub fn task_in(component: &Component, a: usize, step: ActStep) -> usize
    requires { naming (held component.now) a step ≡ 0 }
    ensures { result ≡ task_in (held component.now) a step }
{
    match step {
        ActStep::Lm(t) => t,
        _ => component.task_of(a),
    }
}
