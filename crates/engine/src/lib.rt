// The engine: a log played line after line on a state that is changed in place.
#![tactic(auto)]

ghost use Rattle.std.specs.Prelude.{◌≡◌, ◌+◌, ◌++◌, ◌-◌, ◌<◌, ◌≤◌, false, true, length, MatchOption};
ghost use Rattle.prepared.specs.Held.{held};
ghost use Rattle.tally.specs.Tallies.{Roomy};
ghost use Rattle.model.specs.Limits.{most_acts};
ghost use Rattle.engine.specs.Steps.{with_act, Finds};
ghost use Rattle.engine.specs.Play.{Ready, Pauses};
ghost use Rattle.std.proofs.lemmas.List.Edits.{sets};
ghost use Rattle.report.specs.Rows.{cycle_text};
ghost use Rattle.text.specs.Parts.{first_at};
ghost use Rattle.text.specs.Standing.{past};
ghost use Rattle.saved.specs.Rows.{row_line};
ghost use Rattle.saved.specs.Written.{tasks_text};
ghost use Rattle.saved.specs.Standing.{head_text};
ghost use Rattle.engine.specs.Turns.{line_at, passes_at, row_or};
ghost use Rattle.engine.specs.Starts.{going_at, going_from, fresh_going};

use model::{Act, State, Step};
use prepared::Component;
use report::Cycle;
use tally::{Ruling, Tally};

mod steps;

// Why a run stopped: the log's end, a refused line, a kept cycle whose row has no room, or a `state` row that does not go
// by, which is for the caller to take.
#[derive(Clone, Copy)]
pub enum Stop {
    End,
    Refused(u64),
    Closed(Cycle),
    Row,
}

// What is carried from run to run: the state, beside it the codel that each activity executes and in which of N and R it is, and the tally.
#[derive(Clone, Copy)]
pub struct Going {
    pub state: State,
    pub busy: [usize; model::MOST_ACTS],
    pub listed: [usize; model::MOST_ACTS],
    pub tally: Tally,
}

impl Going {
    // Puts an activity's record in its row, and beside the state what is kept of it.
    pub fn put_act(&mut self, a: usize, y: Act)
        requires { a < most_acts }
        ensures { self.new ≡ with_act self.old a y }
    {
        self.state.acts[a] = y;
        self.busy[a] = conflicts::busy_of(y);
        self.listed[a] = managing::listed_of(y);
    }
}

// A run: what it came to, the place in the log behind the last accepted line, the place behind the rows written, and why it stopped. A
// cycle that it stopped at is not told yet: its row has no room.
#[derive(Clone, Copy)]
pub struct Ran {
    pub going: Going,
    pub at: usize,
    pub filled: usize,
    pub stop: Stop,
}

// The line from a place up to the newline at e; none where the log ends first.
fn line_at(log: &[u8], at: usize, e: usize) -> Option<Step>
    requires { (at ≤ e) × (e ≤ length log.now) }
    ensures { result ≡ line_at log.now at e }
{
    if e == log.len() {
        return None;
    }
    logs::read_step(&log[at..e], logs::SET_DIGITS)
}

// Why a run stops at a line that is no step and no row that goes by, the line up to the newline at e: a `state` row is for the caller to take.
fn unread(log: &[u8], at: usize, e: usize) -> Stop
    requires { (at ≤ e) × (e ≤ length log.now) }
    ensures { result ≡ row_or log.now at e 11 }
{
    if e < log.len() && saved::begins_row(&log[at..e]) {
        Stop::Row
    } else {
        Stop::Refused(11)
    }
}

// The place behind the head and the tasks of the state's row, where they stand at a place of the log; else the log's end.
fn past_tasks(component: &Component, log: &[u8], at: usize, going: &Going) -> usize
    requires { Finds (held component.now) going.now × (at ≤ length log.now) }
    ensures { result ≡ past log.now at (head_text going.now.state.date ++ tasks_text (held component.now) going.now.state (held component.now).ntasks) }
{
    let mut p = saved::past_date(log, at, going.state.date);
    for t in 0..component.tasks() {
        let x = going.state.tasks[t];
        p = saved::past_task(component, log, p, &going.listed, t, x);
    }
    p
}

// The place behind the whole row, from that behind its tasks.
fn past_acts(component: &Component, log: &[u8], at: usize, going: &Going) -> usize
    requires { Finds (held component.now) going.now × (at ≤ length log.now) }
    ensures { result ≡ past log.now at (row_line (held component.now) going.now.state) }
{
    let mut p = past_tasks(component, log, at, going);
    for a in 0..component.acts() {
        p = saved::past_act(log, p, going.state.acts[a]);
    }
    p
}

// Where the newline of a `state` row stands that goes by: one behind line 1 that equals the state reached. Like `tell` it stays a call, for the
// sake of the loop over lines.
#[cold]
#[inline(never)]
fn row_end(component: &Component, log: &[u8], at: usize, going: &Going) -> Option<usize>
    requires { Finds (held component.now) going.now × (at ≤ length log.now) }
    ensures { MatchOption result (passes_at (held component.now) going.now.state going.now.tally log.now at (first_at log.now at 10) ≡ false) (λ p. (passes_at (held component.now) going.now.state going.now.tally log.now at (first_at log.now at 10) ≡ true) × (p ≡ first_at log.now at 10)) }
{
    if going.tally.lines() == 0 {
        return None;
    }
    let p = past_acts(component, log, at, going);
    if p < log.len() && log[p] == text::NEWLINE {
        Some(p)
    } else {
        None
    }
}

// Writes the row of a kept cycle at a place, and answers the place behind it; none where it has no room. It stays a call: worked into the loop
// over lines, the compiler finds the date's width at each line, which costs 75 instructions.
#[inline(never)]
fn tell(buf: &mut [u8], at: usize, cycle: Cycle) -> Option<usize>
    ensures { MatchOption result ((length buf.old < at + length (cycle_text cycle)) × (buf.new ≡ buf.old)) (λ end. (at + length (cycle_text cycle) ≤ length buf.old) × (end ≡ at + length (cycle_text cycle)) × (buf.new ≡ sets buf.old at (cycle_text cycle))) }
{
    let end = report::put_cycle(buf, at, cycle);
    if end == at { None } else { Some(end) }
}

// Plays a log from a place on, line after line, up to its end, the first refusal or a `state` row that does not go by, and writes the row of each
// cycle that is kept as it closes, as long as there is room. A `state` row behind line 1 that equals the state reached goes by.
pub fn run(
    component: &Component,
    log: &[u8],
    from: usize,
    g: Going,
    buf: &mut [u8],
    place: usize,
) -> Ran
    requires { Ready (held component.now) g × (from ≤ length log.now) × Roomy g.tally (length log.now - from) × (place ≤ length buf.old) }
    ensures { Pauses (held component.now) log.now from g buf.old place result buf.new }
{
    let mut going = g;
    let mut at = from;
    let mut filled = place;
    // A loop with a value: how many lines there are is not known before, and each way out says why the run stops.
    let stop = loop {
        if at >= log.len() {
            break Stop::End;
        }
        let e = text::next_byte(log, at, text::NEWLINE);
        let Some(x) = line_at(log, at, e) else {
            let Some(end) = row_end(component, log, at, &going) else {
                break unread(log, at, e);
            };
            going.tally = tally::after_row(going.tally);
            at = end + 1;
            continue;
        };
        match steps::step(component, &mut going, x) {
            Ok(ruling) => {
                at = e + 1;
                if let Ruling::Kept(cycle) = ruling {
                    let Some(more) = tell(buf, filled, cycle) else {
                        break Stop::Closed(cycle);
                    };
                    filled = more;
                }
            }
            // The number, as the `sum` row has it: `judging::refusal_of` is promised for any.
            Err(refusal) => break Stop::Refused(refusal.number()),
        }
    };
    Ran {
        going,
        at,
        filled,
        stop,
    }
}

// What a run carries that starts at a state and a tally. It stays a call, as `fresh_going` does: what they keep is off the stack when a run begins.
#[inline(never)]
pub fn going_at(s: State, c: Tally) -> Going
    ensures { result ≡ going_at s c }
{
    let mut busy = [0usize; model::MOST_ACTS];
    let mut listed = [0usize; model::MOST_ACTS];
    // By index: what `map` over the activities promises did not prove the contract.
    for a in 0..model::MOST_ACTS {
        busy[a] = conflicts::busy_of(s.acts[a]);
        listed[a] = managing::listed_of(s.acts[a]);
    }
    Going {
        state: s,
        busy,
        listed,
        tally: c,
    }
}

// The same with nothing counted yet.
pub fn going_from(s: State) -> Going
    ensures { result ≡ going_from s }
{
    going_at(s, Tally::default())
}

// Where every log starts.
#[inline(never)]
pub fn fresh_going() -> Going
    ensures { result ≡ fresh_going }
{
    going_from(records::fresh_state())
}
