// The `state` row: every field of a state in one line of a log, read and written. Which fields a task's part and an activity's part have is
// described once; a table's counts say how many parts there are.
#![tactic(auto)]

ghost use Rattle.std.specs.Prelude.{◌≡◌, ℕ, slice_index, [], ◌∷◌, ◌+◌, ◌<◌, ◌≤◌, length, T};
ghost use Rattle.std.proofs.lemmas.List.Edits.{sets};
ghost use Rattle.text.specs.Standing.{past};
ghost use Rattle.model.specs.Tests.{one};
ghost use Rattle.model.specs.Limits.{most_tasks, most_acts};
ghost use Rattle.model.specs.States.{act_at};
ghost use Rattle.model.specs.Sound.{sound};
ghost use Rattle.logs.specs.Lines.{longest_row};
ghost use Rattle.prepared.specs.Held.{held};
ghost use Rattle.managing.specs.Listed.{listed_of};
ghost use Rattle.fields.specs.Forms.{a_holder, a_set, a_place, form_text};
ghost use Rattle.fields.specs.Fields.{fields_text};
ghost use Rattle.saved.specs.Rows.{tasks_said, acts_said, task_forms, task_fields, act_forms, act_fields, most_values, holder_of, place_of, holder_value, place_value, set_at, task_from, act_from, state_from, own_lists, sets_within, read_by, read_state, bit_of, task_values, act_values, begins_row, row_text};
ghost use Rattle.saved.specs.Written.{whole_values, tasks_text, acts_text, longest_tasks, longest_acts};
ghost use Rattle.saved.specs.Listed.{run_by, halt_by, ListsOf};
ghost use Rattle.saved.specs.Reading.{as_set, read_date, read_list, read_task, read_act};
ghost use Rattle.saved.specs.Standing.{holder_fits, place_fits, is_idle, Unlisted, head_text};

use fields::Stood;
use model::{Act, Holder, Place, Refusal, State, Task};
use prepared::Component;
use text::Set;

// The date's field, then for each task timer, signal, manager, holder, N, R, cycle, open date, missed and longest, then for each activity
// place, executing and clock.
const DATE_FORMS: [usize; 1] = [fields::A_NUMBER];

const TASK_FIELDS: usize = 10;

const TASK_FORMS: [usize; TASK_FIELDS] = [
    fields::A_NUMBER,
    fields::A_YES,
    fields::A_YES,
    fields::A_HOLDER,
    fields::A_SET,
    fields::A_SET,
    fields::A_NUMBER,
    fields::A_NUMBER,
    fields::A_NUMBER,
    fields::A_NUMBER,
];

const ACT_FIELDS: usize = 3;

const ACT_FORMS: [usize; ACT_FIELDS] = [fields::A_PLACE, fields::A_YES, fields::A_NUMBER];

// Where N and R stand in a task's part.
const RUN_FIELD: usize = 4;

const HALT_FIELD: usize = 5;

// How many values a row has at most.
const MOST_VALUES: usize = 1 + model::MOST_TASKS * TASK_FIELDS + model::MOST_ACTS * ACT_FIELDS;

// Does a line begin with `state` and a tab? Then it is no step.
pub fn begins_row(line: &[u8]) -> bool
    ensures { result ≡ begins_row line.now }
{
    line.starts_with(b"state\t")
}

// The values of the fields of a row's line behind its word, where they are just those that the table's counts ask for; zeros behind them.
#[tactic(auto, using(prepared::proofs::Stored::most_tasks_lem))]
fn read_values(component: &Component, line: &[u8]) -> Option<[u64; MOST_VALUES]>
    ensures { result ≡ whole_values (held component.now) line.now }
{
    if logs::LONGEST_ROW <= line.len() || !begins_row(line) {
        return None;
    }
    let mut values = [0; MOST_VALUES];
    let nt = component.tasks();
    let na = component.acts();
    let p = fields::read_fields(line, 5, &DATE_FORMS, &mut values, 0)?;
    let q = fields::read_parts(line, p, &TASK_FORMS, nt, &mut values, 1)?;
    let e = fields::read_parts(line, q, &ACT_FORMS, na, &mut values, 1 + nt * TASK_FIELDS)?;
    if e == line.len() {
        return Some(values);
    }
    None
}

// Who holds, as a value says it. A holder and a place are types of their own, each with its word: what serves both is longer than the two.
fn holder_of(v: u64) -> Holder
    ensures { result ≡ holder_of v }
{
    match v {
        fields::NO_NUMBER => Holder::Manager,
        a => Holder::Activity(a as usize),
    }
}

// Where an activity is, as a value says it.
fn place_of(v: u64) -> Place
    ensures { result ≡ place_of v }
{
    match v {
        fields::NO_NUMBER => Place::Ether,
        c => Place::Codel(c as usize),
    }
}

// A set as a value says it.
fn as_set(v: u64) -> Set
    ensures { result ≡ as_set v }
{
    Set { low: v, high: 0 }
}

// The set that stands at a place among the values.
fn set_at(values: &[u64], i: usize) -> Set
    requires { i < length values.now }
    ensures { result ≡ set_at values.now i }
{
    as_set(values[i])
}

// The record of a task, whose values stand from a place on.
fn task_from(values: &[u64], at: usize) -> Task
    requires { at + task_fields ≤ length values.now }
    ensures { result ≡ task_from values.now at }
{
    Task {
        timer: values[at],
        signal: values[at + 1] == 1,
        managing: values[at + 2] == 1,
        holder: holder_of(values[at + 3]),
        cycle: values[at + 6],
        opened: values[at + 7],
        missed: values[at + 8],
        longest: values[at + 9],
    }
}

// The record of the activity a, whose values stand from a place on, with its task's sets N and R.
fn act_from(values: &[u64], at: usize, a: usize, n: Set, r: Set) -> Act
    requires { at + act_fields ≤ length values.now }
    ensures { result ≡ act_from values.now at a n r }
{
    Act {
        place: place_of(values[at]),
        executing: values[at + 1] == 1,
        clock: values[at + 2],
        run: n.has_member(a),
        halt: r.has_member(a),
    }
}

// A state's tasks: the table's as the values say, behind them as they were.
#[tactic(auto, using(prepared::proofs::Stored::most_tasks_lem))]
fn tasks_said(
    component: &Component,
    values: &[u64],
    mut tasks: [Task; model::MOST_TASKS],
) -> [Task; model::MOST_TASKS]
    requires { (length values.now ≡ most_values) }
    ensures { result ≡ tasks_said values.now (held component.now).ntasks tasks }
{
    for t in 0..component.tasks() {
        tasks[t] = task_from(values, 1 + t * TASK_FIELDS);
    }
    tasks
}

// A state's activities: the table's as the values say, behind them as they were.
#[tactic(auto, using(prepared::proofs::Stored::most_tasks_lem, prepared::proofs::Stored::most_acts_lem))]
fn acts_said(
    component: &Component,
    values: &[u64],
    mut acts: [Act; model::MOST_ACTS],
) -> [Act; model::MOST_ACTS]
    requires { (length values.now ≡ most_values) }
    ensures { result ≡ acts_said (held component.now) values.now (held component.now).nacts acts }
{
    let begin = 1 + component.tasks() * TASK_FIELDS;
    for a in 0..component.acts() {
        let part = 1 + component.task_of(a) * TASK_FIELDS;
        let n = set_at(values, part + RUN_FIELD);
        let r = set_at(values, part + HALT_FIELD);
        acts[a] = act_from(values, begin + a * ACT_FIELDS, a, n, r);
    }
    acts
}

// The state that the values of a row say. It stays a call: the rows on the way to the state are off the stack when it is tested.
#[inline(never)]
fn state_from(component: &Component, values: &[u64]) -> State
    requires { (length values.now ≡ most_values) }
    ensures { result ≡ state_from (held component.now) values.now }
{
    let fresh = records::fresh_state();
    State {
        date: values[0],
        tasks: tasks_said(component, values, fresh.tasks),
        acts: acts_said(component, values, fresh.acts),
    }
}

// Is each member of N and of R of a task one of its activities?
#[tactic(auto, using(prepared::proofs::Stored::most_tasks_lem))]
fn has_own_lists(component: &Component, values: &[u64], t: usize) -> bool
    requires { (t < (held component.now).ntasks) × (length values.now ≡ most_values) }
    ensures { result ≡ own_lists (held component.now) values.now t }
{
    let part = 1 + t * TASK_FIELDS;
    managing::is_within(component, t, set_at(values, part + RUN_FIELD))
        && managing::is_within(component, t, set_at(values, part + HALT_FIELD))
}

// Is it so of each task? Any other member could not be kept in a state.
fn sets_within(component: &Component, values: &[u64]) -> bool
    requires { (length values.now ≡ most_values) }
    ensures { result ≡ sets_within (held component.now) values.now }
{
    for t in 0..component.tasks() {
        if !has_own_lists(component, values, t) {
            return false;
        }
    }
    true
}

// The state that a line says as a row, without its newline: no step where it does not read, and not sound where no state can be that. Whether
// the state is sound is not asked here.
pub fn read_state(component: &Component, line: &[u8]) -> Result<State, Refusal>
    ensures { read_by result ≡ read_state (held component.now) line.now }
{
    let Some(values) = read_values(component, line) else {
        return Err(Refusal::NoStep);
    };
    if !sets_within(component, &values) {
        return Err(Refusal::Unsound);
    }
    Ok(state_from(component, &values))
}

fn holder_value(h: Holder) -> u64
    ensures { result ≡ holder_value h }
{
    match h {
        Holder::Manager => fields::NO_NUMBER,
        Holder::Activity(a) => a as u64,
    }
}

fn place_value(p: Place) -> u64
    ensures { result ≡ place_value p }
{
    match p {
        Place::Ether => fields::NO_NUMBER,
        Place::Codel(c) => c as u64,
    }
}

// The bit of an activity in a set, where it is a member.
fn bit_of(b: bool, a: usize) -> u64
    requires { a < most_acts }
    ensures { result ≡ bit_of b a }
{
    if b {
        return 1u64 << a;
    }
    0
}

// N and R of one task as numbers, bit a for activity a.
#[derive(Clone, Copy)]
struct Lists {
    run: u64,
    halt: u64,
}

// N and R of a task, by what stands beside the state.
fn lists_of(component: &Component, listed: &[usize], t: usize) -> Lists
    requires { (t < (held component.now).ntasks) × ((held component.now).nacts ≤ length listed.now) }
    ensures { ListsOf (held component.now) listed.now t result }
{
    let mut run = 0;
    let mut halt = 0;
    for a in component.acts_begin(t)..component.acts_end(t) {
        let k = listed[a];
        run += bit_of(k % 2 == 1, a);
        halt += bit_of(2 <= k, a);
    }
    Lists { run, halt }
}

// The values of a task's part, N and R given.
fn task_values(x: Task, lists: Lists) -> [u64; TASK_FIELDS]
    ensures { result ≡ task_values x lists.run lists.halt }
{
    [
        x.timer,
        x.signal as u64,
        x.managing as u64,
        holder_value(x.holder),
        lists.run,
        lists.halt,
        x.cycle,
        x.opened,
        x.missed,
        x.longest,
    ]
}

// The values of an activity's part.
fn act_values(y: Act) -> [u64; ACT_FIELDS]
    ensures { result ≡ act_values y }
{
    [place_value(y.place), y.executing as u64, y.clock]
}

// In which of N and R each activity of a state is.
fn listed_in(s: &State) -> [usize; model::MOST_ACTS]
    ensures { (a : ℕ) → a < most_acts → slice_index result a ≡ listed_of (act_at s.now a) }
{
    s.acts.map(managing::listed_of)
}

// Writes the tasks' parts at a place, and answers the place after them.
#[tactic(auto, using(prepared::proofs::Stored::most_tasks_lem))]
fn put_tasks(component: &Component, buf: &mut [u8], at: usize, s: &State) -> usize
    requires { T (sound (held component.now) s.now) × (at + longest_tasks ≤ length buf.old) }
    ensures { (result ≡ at + length (tasks_text (held component.now) s.now (held component.now).ntasks)) × (buf.new ≡ sets buf.old at (tasks_text (held component.now) s.now (held component.now).ntasks)) }
{
    let listed = listed_in(s);
    let mut p = at;
    for t in 0..component.tasks() {
        let values = task_values(s.tasks[t], lists_of(component, &listed, t));
        p = fields::put_fields(buf, p, &TASK_FORMS, &values);
    }
    p
}

// Writes the activities' parts at a place, and answers the place after them.
#[tactic(auto, using(prepared::proofs::Stored::most_acts_lem))]
fn put_acts(component: &Component, buf: &mut [u8], at: usize, s: &State) -> usize
    requires { T (sound (held component.now) s.now) × (at + longest_acts ≤ length buf.old) }
    ensures { (result ≡ at + length (acts_text s.now (held component.now).nacts)) × (buf.new ≡ sets buf.old at (acts_text s.now (held component.now).nacts)) }
{
    let mut p = at;
    for a in 0..component.acts() {
        p = fields::put_fields(buf, p, &ACT_FORMS, &act_values(s.acts[a]));
    }
    p
}

// Writes a sound state's row at the front of a buffer that has room for any, and answers its length.
pub fn put_state(component: &Component, s: State, buf: &mut [u8]) -> usize
    requires { T (sound (held component.now) s) × (longest_row ≤ length buf.old) }
    ensures { (result ≡ length (row_text (held component.now) s)) × (buf.new ≡ sets buf.old 0 (row_text (held component.now) s)) }
{
    let w = text::put_bytes(buf, 0, b"state");
    let p = fields::put_fields(buf, w, &DATE_FORMS, &[s.date]);
    let q = put_tasks(component, buf, p, &s);
    let e = put_acts(component, buf, q, &s);
    buf[e] = text::NEWLINE;
    e + 1
}

// The place behind who holds, with the tab before it, where it stands at a place; the end where it does not.
fn past_holder(log: &[u8], at: usize, h: Holder) -> usize
    requires { (at ≤ length log.now) × T (holder_fits h) }
    ensures { result ≡ past log.now at (9 ∷ form_text a_holder (holder_value h)) }
{
    match h {
        Holder::Manager => text::past_bytes(log, at, b"\tmanager"),
        Holder::Activity(a) => fields::past_number(log, at, a as u64),
    }
}

// The same of where an activity is.
fn past_place(log: &[u8], at: usize, p: Place) -> usize
    requires { (at ≤ length log.now) × T (place_fits p) }
    ensures { result ≡ past log.now at (9 ∷ form_text a_place (place_value p)) }
{
    match p {
        Place::Ether => text::past_bytes(log, at, b"\tether"),
        Place::Codel(c) => fields::past_number(log, at, c as u64),
    }
}

// The same of a row's word and its date.
pub fn past_date(log: &[u8], at: usize, date: u64) -> usize
    requires { at ≤ length log.now }
    ensures { result ≡ past log.now at (head_text date) }
{
    let p = text::past_bytes(log, at, b"state");
    fields::past_number(log, p, date)
}

// Does an activity rest at ether, as most do?
fn is_idle(y: Act) -> bool
    ensures { result ≡ is_idle y }
{
    records::is_ether(y.place) && !y.executing && y.clock == 0
}

// The place behind an activity's part where it stands at a place; the end where it does not.
pub fn past_act(log: &[u8], at: usize, y: Act) -> usize
    requires { (at ≤ length log.now) × T (place_fits y.place) }
    ensures { result ≡ past log.now at (fields_text act_forms (act_values y)) }
{
    if is_idle(y) {
        return text::past_bytes(log, at, b"\tether\t0\t0");
    }
    let a = past_place(log, at, y.place);
    let b = fields::past_number(log, a, y.executing as u64);
    fields::past_number(log, b, y.clock)
}

// The same of N and R of a task, by what stands beside the state.
fn past_lists(
    component: &Component,
    log: &[u8],
    at: usize,
    listed: &[usize],
    t: usize,
    managing: bool,
) -> usize
    requires { (t < (held component.now).ntasks) × ((held component.now).nacts ≤ length listed.now) × (at ≤ length log.now) × Unlisted (held component.now) listed.now t managing }
    ensures { result ≡ past log.now at (fields_text (a_set ∷ a_set ∷ []) (run_by (held component.now) listed.now t (held component.now).nacts ∷ halt_by (held component.now) listed.now t (held component.now).nacts ∷ [])) }
{
    if !managing {
        return text::past_bytes(log, at, b"\t0000000000000000\t0000000000000000");
    }
    let lists = lists_of(component, listed, t);
    let p = fields::past_set(log, at, lists.run);
    fields::past_set(log, p, lists.halt)
}

// The same of a task's part, its N and R by what stands beside the state.
pub fn past_task(
    component: &Component,
    log: &[u8],
    at: usize,
    listed: &[usize],
    t: usize,
    x: Task,
) -> usize
    requires { (t < (held component.now).ntasks) × ((held component.now).nacts ≤ length listed.now) × (at ≤ length log.now) × T (holder_fits x.holder) × Unlisted (held component.now) listed.now t x.managing }
    ensures { result ≡ past log.now at (fields_text task_forms (task_values x (run_by (held component.now) listed.now t (held component.now).nacts) (halt_by (held component.now) listed.now t (held component.now).nacts))) }
{
    let a = fields::past_number(log, at, x.timer);
    let b = fields::past_number(log, a, x.signal as u64);
    let c = fields::past_number(log, b, x.managing as u64);
    let d = past_holder(log, c, x.holder);
    let e = past_lists(component, log, d, listed, t, x.managing);
    let f = fields::past_number(log, e, x.cycle);
    let g = fields::past_number(log, f, x.opened);
    let i = fields::past_number(log, g, x.missed);
    fields::past_number(log, i, x.longest)
}

// N or R of a task as it was read in place, with the tab before it: within the task, or the end.
fn list_at(component: &Component, log: &[u8], at: usize, t: usize) -> Stood
    requires { (t < (held component.now).ntasks) × (at ≤ length log.now) }
    ensures { result ≡ read_list (held component.now) log.now t at }
{
    let n = fields::set_at(log, at);
    if managing::is_within(component, t, as_set(n.value)) {
        return n;
    }
    fields::unread(log)
}

// A task's part that was read in place: its record, its N and R, and the place behind it, or the end where it does not read.
#[derive(Clone, Copy)]
pub struct TaskRead {
    pub task: Task,
    pub run: u64,
    pub halt: u64,
    pub end: usize,
}

// An activity's part that was read in place.
#[derive(Clone, Copy)]
pub struct ActRead {
    pub act: Act,
    pub end: usize,
}

// Reads a row's word and its date in place.
pub fn date_at(log: &[u8], at: usize) -> Stood
    requires { at ≤ length log.now }
    ensures { result ≡ read_date log.now at }
{
    let p = text::past_bytes(log, at, b"state");
    fields::number_at(log, p)
}

// Reads a task's part in place.
pub fn task_at(component: &Component, log: &[u8], at: usize, t: usize) -> TaskRead
    requires { (t < (held component.now).ntasks) × (at ≤ length log.now) }
    ensures { result ≡ read_task (held component.now) log.now t at }
{
    let timer = fields::number_at(log, at);
    let signal = fields::yes_at(log, timer.end);
    let managing = fields::yes_at(log, signal.end);
    let holder = fields::word_at(log, managing.end, b"\tmanager");
    let run = list_at(component, log, holder.end, t);
    let halt = list_at(component, log, run.end, t);
    let cycle = fields::number_at(log, halt.end);
    let opened = fields::number_at(log, cycle.end);
    let missed = fields::number_at(log, opened.end);
    let longest = fields::number_at(log, missed.end);
    TaskRead {
        task: Task {
            timer: timer.value,
            signal: signal.value == 1,
            managing: managing.value == 1,
            holder: holder_of(holder.value),
            cycle: cycle.value,
            opened: opened.value,
            missed: missed.value,
            longest: longest.value,
        },
        run: run.value,
        halt: halt.value,
        end: longest.end,
    }
}

// Reads the part of the activity a in place, its task's N and R given.
pub fn act_at(log: &[u8], at: usize, a: usize, n: u64, r: u64) -> ActRead
    requires { at ≤ length log.now }
    ensures { result ≡ read_act log.now at a n r }
{
    let place = fields::word_at(log, at, b"\tether");
    let executing = fields::yes_at(log, place.end);
    let clock = fields::number_at(log, executing.end);
    ActRead {
        act: Act {
            place: place_of(place.value),
            executing: executing.value == 1,
            clock: clock.value,
            run: as_set(n).has_member(a),
            halt: as_set(r).has_member(a),
        },
        end: clock.end,
    }
}
