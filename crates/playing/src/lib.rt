// A log played with its `state` rows: the engine plays up to one that does not go by, here it is taken or refused, and the engine plays on.
#![tactic(auto)]

ghost use Rattle.std.specs.Prelude.{◌≡◌, ◌-◌, ◌≤◌, length};
ghost use Rattle.model.specs.Limits.{most_tasks, most_acts};
ghost use Rattle.prepared.specs.Held.{held};
ghost use Rattle.tally.specs.Tallies.{Roomy, lines_of};
ghost use Rattle.engine.specs.Play.{Ready};
ghost use Rattle.playing.specs.Plays.{resumed_by, Resumes, Begins, Plays};

use engine::{Going, Ran, Stop};
use model::Refusal;
use prepared::Component;

// Takes a `state` row's line on line 1, without its newline, or answers its refusal: it sets the state, and what manages there counts as opened.
// This, `take_later` and `begin` change what is carried in place and stay calls, so that a run has the stack.
#[inline(never)]
fn take_first(component: &Component, line: &[u8], going: &mut Going) -> Result<(), Refusal>
    requires { Ready (held component.now) going.old × (lines_of going.old.tally ≡ 0) }
    ensures { Resumes (held component.now) going.old line.now (resumed_by going.new result) }
{
    let state = entries::read_sound(component, line)?;
    *going = engine::going_at(state, tally::begun_at(component, state));
    Ok(())
}

// The same on any later line, where it must equal the state reached.
#[inline(never)]
fn take_later(component: &Component, line: &[u8], going: &mut Going) -> Result<(), Refusal>
    requires { Ready (held component.now) going.old × Roomy going.old.tally 1 × (lines_of going.old.tally ≡ 0 → ⊥) }
    ensures { Resumes (held component.now) going.old line.now (resumed_by going.new result) }
{
    entries::later_number(component, line, going.state)?;
    going.tally = tally::after_row(going.tally);
    Ok(())
}

// Takes a `state` row's line, on whichever line it stands.
fn resume(component: &Component, line: &[u8], going: &mut Going) -> Result<(), Refusal>
    requires { Ready (held component.now) going.old × Roomy going.old.tally 1 }
    ensures { Resumes (held component.now) going.old line.now (resumed_by going.new result) }
{
    if going.tally.lines() == 0 {
        take_first(component, line, going)
    } else {
        take_later(component, line, going)
    }
}

// Takes a `state` row on line 1: it is read in place, field after field, straight into a state, which is then tested. The answer is the place
// where the log goes on, with what is carried there; whatever else stands there is left where it is.
#[inline(never)]
fn begin(component: &Component, log: &[u8], from: usize, going: &mut Going) -> usize
    requires { Ready (held component.now) going.old × (from ≤ length log.now) × Roomy going.old.tally (length log.now - from) × (length going.old.state.tasks ≡ most_tasks) × (length going.old.busy ≡ most_acts) }
    ensures { Begins (held component.now) log.now from going.old going.new result }
{
    if going.tally.lines() != 0 {
        return from;
    }
    let date = saved::date_at(log, from);
    let mut p = date.end;
    if log.len() <= p {
        return from;
    }
    let mut begun = *going;
    // N and R as numbers, a bit for each activity, until their activities are read. By index, since each part begins where the one before ends.
    let mut runs = [0u64; model::MOST_TASKS];
    let mut halts = [0u64; model::MOST_TASKS];
    let mut opened: u64 = 0;
    begun.state.date = date.value;
    for t in 0..component.tasks() {
        let read = saved::task_at(component, log, p, t);
        begun.state.tasks[t] = read.task;
        runs[t] = read.run;
        halts[t] = read.halt;
        opened += read.task.managing as u64;
        p = read.end;
    }
    for a in 0..component.acts() {
        let k = component.task_of(a);
        let read = saved::act_at(log, p, a, runs[k], halts[k]);
        begun.put_act(a, read.act);
        p = read.end;
    }
    if log.len() <= p || log[p] != text::NEWLINE || !soundness::is_sound(component, begun.state) {
        return from;
    }
    begun.tally = tally::begun_with(opened);
    *going = begun;
    p + 1
}

// Plays a log from a place on up to its end or the first refusal, as `engine::run` does, and takes each `state` row on the way.
pub fn play(
    component: &Component,
    log: &[u8],
    from: usize,
    g: Going,
    buf: &mut [u8],
    place: usize,
) -> Ran
    requires { Ready (held component.now) g × (from ≤ length log.now) × Roomy g.tally (length log.now - from) × (place ≤ length buf.old) }
    ensures { Plays (held component.now) log.now from g buf.old place result buf.new }
{
    let mut going = g;
    let mut at = begin(component, log, from, &mut going);
    let mut filled = place;
    // How many rows there are is not known before.
    loop {
        let ran = engine::run(component, log, at, going, buf, filled);
        let Stop::Row = ran.stop else {
            return ran;
        };
        at = ran.at;
        filled = ran.filled;
        let e = text::next_byte(log, at, text::NEWLINE);
        going = ran.going;
        if let Err(refusal) = resume(component, &log[at..e], &mut going) {
            return Ran {
                going,
                at,
                filled,
                stop: Stop::Refused(refusal.number()),
            };
        }
        at = e + 1;
    }
}
