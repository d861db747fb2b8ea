// A table while it is built, row by row, and the checks of each row behind those that are there.
#![tactic(auto)]

ghost use Rattle.std.specs.Prelude.{◌≡◌, ◌+◌, ◌<◌, ◌≤◌, length};
ghost use Rattle.std.proofs.Props.{props};
ghost use Rattle.model.specs.Tests.{each};
ghost use Rattle.row.specs.Kinds.{stored_kinds};
ghost use Rattle.model.specs.Limits.{most_tasks, most_acts, most_codels};
ghost use Rattle.table.specs.Tables.{made};
ghost use Rattle.table.specs.Checks.{in_place};
ghost use Rattle.table.specs.Marks.{marks_length, kind_mark, mark_of, marked, Building};

use crate::fault::{Fault, Refused};
use crate::{SLOTS, Table, narrow, slot, value_at};
use row::Row;

// Where the marks of the activities' starts, then stops, and of the codels' edges begin, behind those of the tasks' activities; the last mark
// is never asked for.
const STARTS: usize = model::MOST_TASKS;

const EDGES: usize = STARTS + 2 * model::MOST_ACTS;

const NO_MARK: usize = EDGES + model::MOST_CODELS;

// How many marks stand beside the rows.
const MARKS: usize = NO_MARK + 1;

// The mark of an activity's start (0) or stop (1).
fn kind_mark(z: u64, a: u64) -> usize
    requires { (z < 2) × (a < most_acts) }
    ensures { (result ≡ kind_mark z a) × (result + 1 < marks_length) }
{
    STARTS + model::MOST_ACTS * (z as usize) + (a as usize)
}

// The mark that an accepted row makes.
fn mark_of(r: Row) -> usize
    requires { (r.kind ≡ 1 → r.a < most_tasks) × (r.kind ≡ 2 → r.a < most_acts) × (r.kind ≡ 3 → r.a < most_codels) }
    ensures { (result ≡ mark_of r) × (result < marks_length) }
{
    match r.kind {
        row::ACT => r.a as usize,
        row::CODEL if r.b < 2 => kind_mark(r.b, r.a),
        row::EDGE => EDGES + (r.a as usize),
        _ => NO_MARK,
    }
}

// Are so many marks made from a place on?
fn all_made(marks: &[u8], from: usize, n: usize) -> bool
    requires { from + n ≤ length marks.now }
    ensures { result ≡ each n (λ i. marked marks.now (from + i)) }
{
    marks[from..from + n].iter().all(|m| *m == 1)
}

// 2: are there no rows of a later kind?
fn is_in_place(counts: &[usize], k: usize) -> bool
    requires { (length counts.now ≡ stored_kinds) × (k < stored_kinds) }
    ensures { result ≡ in_place counts.now k }
{
    counts[k + 1..].iter().all(|n| *n == 0)
}

// The rows so far, how many there are of each kind, and the marks beside them: a byte each, as the crates above keep theirs, whose laws these
// share.
#[derive(Clone, Copy)]
pub struct Draft {
    counts: [usize; row::STORED],
    rows: [u32; SLOTS],
    marks: [u8; MARKS],
    ghost building: { Building (made counts rows) marks } by { Prim.hlevel props },
}

impl Draft {
    ghost use Rattle.std.specs.Prelude.{get_or, true, eqb, leb, ltb, MatchResult};
    ghost use Rattle.text.specs.Fields.{ether_value};
    ghost use Rattle.row.specs.Kinds.{most_fields, most_of};
    ghost use Rattle.model.specs.Tables.{target_of};
    ghost use Rattle.model.specs.Tests.{◌and◌, ◌or◌, after};
    ghost use Rattle.model.specs.Rows.{task_fault, act_fault, codel_fault, edge_fault, mutex_fault, last_fault, target_ok};
    ghost use Rattle.table.specs.Tables.{empty_table, field_of, pair_below, add_row, table_of};
    ghost use Rattle.table.specs.Faults.{number_of, fault_in};
    ghost use Rattle.table.specs.Worded.{Worded};
    ghost use Rattle.table.specs.Checks.{kind_fault, row_fault, says, closed};
    ghost use Rattle.table.specs.Drafts.{drafted};

    // Without rows.
    pub fn new() -> Draft
        ensures { drafted result ≡ empty_table }
    {
        Draft {
            counts: [0; row::STORED],
            rows: [0; SLOTS],
            marks: [0; MARKS],
        }
    }

    // Field j of row i of a kind.
    fn value(&self, k: usize, i: usize, j: usize) -> u64
        requires { (k < stored_kinds) × (j < most_fields) }
        ensures { (result ≡ field_of self.now.rows k i j) × (result ≤ ether_value) }
    {
        value_at(&self.rows, k, i, j)
    }

    // Is there no room for one row more of a kind?
    pub fn is_full(&self, k: usize) -> bool
        requires { k < stored_kinds }
        ensures { result ≡ leb (most_of k) (get_or self.now.counts k 0) }
    {
        row::most(k) <= self.counts[k]
    }

    // Is the first field of a row no smaller than that of the last row of a kind?
    fn follows(&self, k: usize, r: Row) -> bool
        requires { k < stored_kinds }
        ensures { result ≡ after (get_or self.now.counts k 0) (λ i. leb (field_of self.now.rows k i 0) r.a) }
    {
        let n = self.counts[k];
        n == 0 || self.value(k, n - 1, 0) <= r.a
    }

    // Does the pair of a row's first two fields rise over that of the last row of a kind?
    fn rises(&self, k: usize, r: Row) -> bool
        requires { k < stored_kinds }
        ensures { (result ≡ after (get_or self.now.counts k 0) (λ i. pair_below (field_of self.now.rows k i 0) (field_of self.now.rows k i 1) r.a r.b)) × (after (get_or self.now.counts k 0) (λ i. leb (field_of self.now.rows k i 1) ether_value) ≡ true) }
    {
        let n = self.counts[k];
        if n == 0 {
            return true;
        }
        let a = self.value(k, n - 1, 0);
        let b = self.value(k, n - 1, 1);
        a < r.a || (a == r.a && b < r.b)
    }

    // Is it the number of a codel?
    fn has_codel(&self, v: u64) -> bool
        ensures { result ≡ ltb v (get_or self.now.counts 2 0) }
    {
        v < self.counts[row::CODEL] as u64
    }

    // Is it `ether`, or the number of a codel?
    fn has_place(&self, v: u64) -> bool
        ensures { result ≡ (eqb v ether_value or ltb v (get_or self.now.counts 2 0)) }
    {
        v == text::ETHER || self.has_codel(v)
    }

    // Has the activity a start, or a stop, already?
    fn is_second(&self, r: Row) -> bool
        requires { r.a < most_acts }
        ensures { result ≡ (ltb r.b 2 and marked self.now.marks (kind_mark r.b r.a)) }
    {
        r.b < 2 && self.marks[kind_mark(r.b, r.a)] == 1
    }

    // 5: does an edge stay in its activity, lead to no stop, and, where it leads to ether, run?
    fn may_lead(&self, r: Row) -> bool
        ensures { result ≡ target_ok (table_of (drafted self.now)) r.a (target_of r.b) (eqb r.c 1) }
    {
        if r.b == text::ETHER {
            return r.c != 1;
        }
        let from = r.a as usize;
        let to = r.b as usize;
        self.value(row::CODEL, to, 0) == self.value(row::CODEL, from, 0)
            && self.value(row::CODEL, to, 1) != 1
    }

    // 5: the task of a codel's activity.
    fn task_behind(&self, c: u64) -> u64
        ensures { result ≡ field_of self.now.rows 1 (field_of self.now.rows 2 c 0) 0 }
    {
        let a = self.value(row::CODEL, c as usize, 0);
        self.value(row::ACT, a as usize, 0)
    }

    fn check_task(&self, r: Row) -> Result<(), Fault>
        ensures { fault_in result ≡ task_fault (get_or self.now.counts 0 0) r.a r.b }
    {
        if self.is_full(row::TASK) || !model::in_range(r.a) || !model::in_range(r.b) {
            return Err(Fault::Limit);
        }
        Ok(())
    }

    fn check_act(&self, r: Row) -> Result<(), Fault>
        ensures { fault_in result ≡ act_fault (table_of (drafted self.now)) (get_or self.now.counts 1 0) r.a }
    {
        if !self.follows(row::ACT, r) {
            return Err(Fault::Order);
        }
        if self.is_full(row::ACT) {
            return Err(Fault::Limit);
        }
        if self.counts[row::TASK] as u64 <= r.a {
            return Err(Fault::Unknown);
        }
        Ok(())
    }

    fn check_codel(&self, r: Row) -> Result<(), Fault>
        ensures { fault_in result ≡ codel_fault (table_of (drafted self.now)) (get_or self.now.counts 2 0) r.a r.b r.c }
    {
        if !self.follows(row::CODEL, r) {
            return Err(Fault::Order);
        }
        if self.is_full(row::CODEL) || !model::in_range(r.c) {
            return Err(Fault::Limit);
        }
        if self.counts[row::ACT] as u64 <= r.a {
            return Err(Fault::Unknown);
        }
        if self.is_second(r) {
            return Err(Fault::Graph);
        }
        Ok(())
    }

    fn check_edge(&self, r: Row) -> Result<(), Fault>
        requires { r.b ≤ ether_value }
        ensures { fault_in result ≡ edge_fault (table_of (drafted self.now)) (get_or self.now.counts 3 0) r.a (target_of r.b) (eqb r.c 1) }
    {
        if !self.rises(row::EDGE, r) {
            return Err(Fault::Order);
        }
        if self.is_full(row::EDGE) {
            return Err(Fault::Limit);
        }
        if !self.has_codel(r.a) || !self.has_place(r.b) {
            return Err(Fault::Unknown);
        }
        if !self.may_lead(r) {
            return Err(Fault::Graph);
        }
        Ok(())
    }

    fn check_mutex(&self, r: Row) -> Result<(), Fault>
        ensures { fault_in result ≡ mutex_fault (table_of (drafted self.now)) (get_or self.now.counts 4 0) r.a r.b }
    {
        if r.b < r.a || !self.rises(row::MUTEX, r) {
            return Err(Fault::Order);
        }
        if self.is_full(row::MUTEX) {
            return Err(Fault::Limit);
        }
        if !self.has_codel(r.a) || !self.has_codel(r.b) {
            return Err(Fault::Unknown);
        }
        if self.task_behind(r.a) == self.task_behind(r.b) {
            return Err(Fault::Graph);
        }
        Ok(())
    }

    // A row's own check, by its kind.
    fn check_kind(&self, r: Row) -> Result<(), Fault>
        requires { (r.b ≤ ether_value) × (r.kind < stored_kinds) }
        ensures { fault_in result ≡ kind_fault (drafted self.now) r }
    {
        match r.kind {
            row::TASK => self.check_task(r),
            row::ACT => self.check_act(r),
            row::CODEL => self.check_codel(r),
            row::EDGE => self.check_edge(r),
            _ => self.check_mutex(r),
        }
    }

    // The check of a row behind those that are there.
    fn check(&self, r: Row) -> Result<(), Fault>
        requires { (r.b ≤ ether_value) × (r.kind < stored_kinds) }
        ensures { fault_in result ≡ row_fault (drafted self.now) r }
    {
        if !is_in_place(&self.counts, r.kind) {
            return Err(Fault::Order);
        }
        self.check_kind(r)
    }

    // Stores an accepted row and its mark.
    fn store(&mut self, r: Row)
        requires { Worded r × (row_fault (drafted self.old) r ≡ 0) }
        ensures { drafted self.new ≡ add_row (drafted self.old) r }
    {
        let n = self.counts[r.kind];
        let p = slot(r.kind, n);
        let mark = mark_of(r);
        self.rows[p] = narrow(r.a);
        self.rows[p + 1] = narrow(r.b);
        self.rows[p + 2] = narrow(r.c);
        self.marks[mark] = 1;
        self.counts[r.kind] = n + 1;
    }

    // Stores the row of a line behind those that are there, where its check accepts it.
    pub fn add(&mut self, r: Row, line: usize) -> Result<(), Refused>
        requires { Worded r × (r.b ≤ ether_value) }
        ensures { MatchResult result (λ u. (row_fault (drafted self.old) r ≡ 0) × (drafted self.new ≡ add_row (drafted self.old) r)) (λ e. (number_of e.fault ≡ row_fault (drafted self.old) r) × (e.line ≡ line) × (self.new ≡ self.old)) }
    {
        self.check(r).map_err(|fault| fault.at(line))?;
        self.store(r);
        Ok(())
    }

    // 7: is a task without activity, an activity without start, a codel without edge, or is there no task?
    fn check_last(&self) -> Result<(), Fault>
        ensures { fault_in result ≡ last_fault (table_of (drafted self.now)) }
    {
        let tasks = self.counts[row::TASK];
        if tasks == 0
            || !all_made(&self.marks, 0, tasks)
            || !all_made(&self.marks, STARTS, self.counts[row::ACT])
            || !all_made(&self.marks, EDGES, self.counts[row::CODEL])
        {
            return Err(Fault::Missing);
        }
        Ok(())
    }

    // The table of these rows, closed at a line.
    pub fn close(&self, line: usize) -> Result<Table, Refused>
        ensures { says result ≡ closed (drafted self.now) line }
    {
        self.check_last().map_err(|fault| fault.at(line))?;
        Ok(Table {
            counts: self.counts,
            rows: self.rows,
        })
    }
}
