// A step taken by what a run carries, which it changes in place.
#![tactic(auto)]

ghost use Rattle.std.specs.Prelude.{◌≡◌, ◌<◌, ◌≤◌, MatchResult};
ghost use Rattle.text.specs.Fields.{ether_value};
ghost use Rattle.model.specs.Limits.{most_ticks, ceiling};
ghost use Rattle.model.specs.States.{task_at, act_at};
ghost use Rattle.waits.specs.Waits.{held_in, hinders_by, room_by};
ghost use Rattle.model.specs.Refusals.{numbered};
ghost use Rattle.model.specs.Rules.{wait_refusal, wait_next};
ghost use Rattle.model.specs.declared.Step.TheVariants.{Wait, Sm, OfTask, OfAct};
ghost use Rattle.prepared.specs.Held.{held};
ghost use Rattle.tally.specs.declared.Ruling.TheVariants.{Open};
ghost use Rattle.engine.specs.Steps.{with_state, Small, Finds, Takes, Refuses};

use crate::Going;
use model::{ActStep, Holder, Refusal, Step, TaskStep};
use prepared::Component;
use tally::Ruling;
use text::Set;

// 16 of a task: does it hinder a wait, by its manager's marks or by the activity that holds it?
fn hinders(component: &Component, going: &Going, t: usize) -> bool
    requires { Finds (held component.now) going.now × (t < (held component.now).ntasks) }
    ensures { let x = task_at going.now.state t in result ≡ hinders_by (held component.now) going.now.busy x x.holder (act_at going.now.state (held_in x.holder)) }
{
    let x = going.state.tasks[t];
    match x.holder {
        Holder::Manager => x.managing || x.signal,
        Holder::Activity(a) => { waits::act_hinders(component, &going.busy, going.state.acts[a]) }
    }
}

// 17 of a task: has its timer room for a wait of d ticks, and the clock of the activity that holds it?
fn has_room(component: &Component, going: &Going, d: u64, t: usize) -> bool
    requires { Finds (held component.now) going.now × (d < ether_value) × (t < (held component.now).ntasks) }
    ensures { let x = task_at going.now.state t in result ≡ room_by (held component.now) d t x (act_at going.now.state (held_in x.holder)) }
{
    let x = going.state.tasks[t];
    if !waits::timer_room(component, d, t, x.timer) {
        return false;
    }
    match x.holder {
        Holder::Manager => true,
        Holder::Activity(a) => waits::act_room(component, d, going.state.acts[a]),
    }
}

// Is a wait of d ticks accepted?
fn check_wait(component: &Component, going: &Going, d: u64) -> Result<(), Refusal>
    requires { Finds (held component.now) going.now × (d < ether_value) }
    ensures { numbered result ≡ wait_refusal (held component.now) going.now.state d }
{
    let mut room = true;
    for t in 0..component.tasks() {
        if hinders(component, going, t) {
            return waits::check_wait(false, room, going.state.date, d);
        }
        room = room && has_room(component, going, d, t);
    }
    waits::check_wait(true, room, going.state.date, d)
}

// The date, the timers and the holders' clocks as they are behind a wait that is accepted.
fn grow_older(component: &Component, going: &mut Going, d: u64)
    requires { Finds (held component.now) going.old × (wait_refusal (held component.now) going.old.state d ≡ 0) }
    ensures { going.new ≡ with_state going.old (wait_next (held component.now) going.old.state d) }
{
    for t in 0..component.tasks() {
        let holder = going.state.tasks[t].holder;
        going.state.tasks[t].timer += d;
        if let Holder::Activity(a) = holder {
            going.state.acts[a].clock = records::older_clock(going.state.acts[a], d);
        }
    }
    going.state.date += d;
}

fn wait(component: &Component, going: &mut Going, d: u64) -> Result<(), Refusal>
    requires { Finds (held component.now) going.old × (d < ether_value) }
    ensures { MatchResult result (λ _. Takes (held component.now) going.old (Wait d) Open going.new) (λ refusal. Refuses (held component.now) going.old (Wait d) refusal going.new) }
{
    check_wait(component, going, d)?;
    grow_older(component, going, d);
    going.tally = tally::after_wait(going.tally);
    Ok(())
}

fn sm(component: &Component, going: &mut Going, t: usize, n: Set, r: Set) -> Result<(), Refusal>
    requires { Finds (held component.now) going.old }
    ensures { MatchResult result (λ _. Takes (held component.now) going.old (Sm t n r) Open going.new) (λ refusal. Refuses (held component.now) going.old (Sm t n r) refusal going.new) }
{
    let i = rules::row_in(t, component.tasks());
    let x = going.state.tasks[i];
    managing::check_sm(component, t, n, r, x)?;
    for a in component.acts_begin(i)..component.acts_end(i) {
        let y = managing::flag(n, r, a, going.state.acts[a]);
        going.state.acts[a] = y;
        going.listed[a] = managing::listed_of(y);
    }
    going.state.tasks[i] = records::opened_task(going.state.date, x);
    going.tally = tally::after_sm(going.tally);
    Ok(())
}

fn task_step(
    component: &Component,
    going: &mut Going,
    t: usize,
    k: TaskStep,
) -> Result<Ruling, Refusal>
    requires { Finds (held component.now) going.old }
    ensures { MatchResult result (λ v. Takes (held component.now) going.old (OfTask t k) v going.new) (λ refusal. Refuses (held component.now) going.old (OfTask t k) refusal going.new) }
{
    let i = rules::row_in(t, component.tasks());
    let x = going.state.tasks[i];
    let empty = managing::is_empty_for(component, &going.listed, i, k);
    let task = rules::task_step(component, t, k, empty, x)?;
    going.state.tasks[i] = task;
    let ruling = tally::ruling_of(component, i, k, going.state.date, x);
    going.tally = tally::after_step(going.tally, ruling);
    Ok(ruling)
}

fn act_step(component: &Component, going: &mut Going, a: usize, k: ActStep) -> Result<(), Refusal>
    requires { Finds (held component.now) going.old }
    ensures { MatchResult result (λ _. Takes (held component.now) going.old (OfAct a k) Open going.new) (λ refusal. Refuses (held component.now) going.old (OfAct a k) refusal going.new) }
{
    rules::check_names(component, a, k)?;
    let t = rules::task_in(component, a, k);
    let x = going.state.tasks[t];
    let y = going.state.acts[a];
    let clear = conflicts::is_clear_for(component, &going.busy, k, y.place);
    let (task, act) = rules::local_step(component, a, k, clear, x, y)?;
    going.state.tasks[t] = task;
    going.put_act(a, act);
    going.tally = tally::after_step(going.tally, Ruling::Open);
    Ok(())
}

// Takes a step: its verdict, or why it is refused; what is carried then stays as it came.
pub fn step(component: &Component, going: &mut Going, x: Step) -> Result<Ruling, Refusal>
    requires { Finds (held component.now) going.old × Small x }
    ensures { MatchResult result (λ v. Takes (held component.now) going.old x v going.new) (λ refusal. Refuses (held component.now) going.old x refusal going.new) }
{
    match x {
        Step::Wait(d) => wait(component, going, d)?,
        Step::Sm(t, n, r) => sm(component, going, t, n, r)?,
        Step::OfTask(t, k) => return task_step(component, going, t, k),
        Step::OfAct(a, k) => act_step(component, going, a, k)?,
    }
    Ok(Ruling::Open)
}
