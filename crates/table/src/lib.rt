// The table: read from its text, checked, and written as its text.
#![tactic(auto)]

ghost use Rattle.std.specs.Prelude.{◌≡◌, ◌+◌, ◌<◌, ◌≤◌, length, sum};
ghost use Rattle.std.proofs.lemmas.List.Edits.{sets};
ghost use Rattle.text.specs.Parts.{parts_from};
ghost use Rattle.text.specs.Fields.{ether_value};
ghost use Rattle.row.specs.Kinds.{stored_kinds, most_fields, most_of};
ghost use Rattle.table.specs.Tables.{most_rows, slots, narrowed, widened, shown, slot_of, field_of, row_of};
ghost use Rattle.table.specs.Faults.{fault_in};
ghost use Rattle.table.specs.Checks.{says, check_table, Passes};
ghost use Rattle.table.specs.Drafts.{drafted};
ghost use Rattle.table.specs.Texts.{read_table, fault_behind, at_end_row, end_row, table_text, write_table, wrote_numbers, written_over};

use draft::Draft;
pub use fault::{Fault, Refused};
use row::{Form, Row};

mod draft;
mod fault;

// "Length over 32,768 bytes comes first": the longest text that is read.
pub const LONGEST: usize = 32768;

// How many rows of other kinds there is room for before the activities, the codels, the edges and the mutexes; before the tasks none.
pub const ACT_BASE: usize = model::MOST_TASKS;

pub const CODEL_BASE: usize = ACT_BASE + model::MOST_ACTS;

pub const EDGE_BASE: usize = CODEL_BASE + model::MOST_CODELS;

pub const MUTEX_BASE: usize = EDGE_BASE + model::MOST_EDGES;

// The same by kind.
const BASES: [usize; row::STORED] = [0, ACT_BASE, CODEL_BASE, EDGE_BASE, MUTEX_BASE];

// How many rows a table may have.
pub const MOST_ROWS: usize = MUTEX_BASE + model::MOST_MUTEXES;

// How many numbers the rows of a table take.
pub const SLOTS: usize = row::FIELDS * MOST_ROWS;

// `ether` among the stored numbers.
pub const ETHER_SLOT: u32 = 4294967295;

// A table by value: how many rows of each kind (tasks, activities, codels, edges, mutexes), and the rows, a number for each field. In a table
// that was read the unused numbers are 0.
#[derive(Clone, Copy)]
pub struct Table {
    pub counts: [usize; row::STORED],
    pub rows: [u32; SLOTS],
}

// A value as it is stored.
fn narrow(v: u64) -> u32
    ensures { result ≡ narrowed v }
{
    v.min(u64::from(ETHER_SLOT)) as u32
}

// What a stored number says that may be `ether`.
fn widen(x: u32) -> u64
    ensures { result ≡ widened x }
{
    if x == ETHER_SLOT {
        return text::ETHER;
    }
    u64::from(x)
}

// What a stored number says in a field of a form.
fn show(form: Option<Form>, x: u32) -> u64
    ensures { result ≡ shown form x }
{
    let Some(form) = form else {
        return 0;
    };
    match form {
        Form::Kind => u64::from(x.min(2)),
        Form::Mode => u64::from(x.min(1)),
        Form::Number | Form::Target => widen(x),
    }
}

// Where the numbers of row i of a kind stand.
fn slot(k: usize, i: usize) -> usize
    requires { (k < stored_kinds) × (i < most_of k) }
    ensures { (result ≡ slot_of k i) × (result + most_fields ≤ slots) }
{
    row::FIELDS * (BASES[k] + i)
}

// Field j of row i of a kind.
fn value_at(rows: &[u32], k: usize, i: usize, j: usize) -> u64
    requires { (length rows.now ≡ slots) × (k < stored_kinds) × (j < most_fields) }
    ensures { (result ≡ field_of rows.now k i j) × (result ≤ ether_value) }
{
    if row::most(k) <= i {
        return 0;
    }
    let p = slot(k, i) + j;
    show(row::form_of(k, j), rows[p])
}

// Row i of a kind.
fn row_at(rows: &[u32], k: usize, i: usize) -> Row
    requires { (length rows.now ≡ slots) × (k < stored_kinds) }
    ensures { (result ≡ row_of rows.now k i) × (result.b ≤ ether_value) }
{
    Row {
        kind: k,
        a: value_at(rows, k, i, 0),
        b: value_at(rows, k, i, 1),
        c: value_at(rows, k, i, 2),
    }
}

// What stands behind the `end` row: nothing, or its refusal.
fn behind_end(s: &[u8], at: usize) -> Result<(), Fault>
    requires { at ≤ length s.now }
    ensures { fault_in result ≡ fault_behind (parts_from 10 s.now at) }
{
    if s.len() <= at {
        return Ok(());
    }
    let e = text::next_byte(s, at, text::NEWLINE);
    if s.len() <= e || row::read_row(&s[at..e]).is_none() {
        return Err(Fault::Form);
    }
    Err(Fault::Order)
}

// The table whose `end` row stands at a line and counts so many rows, with what stands behind it.
fn finish(draft: &Draft, line: usize, count: u64, s: &[u8], at: usize) -> Result<Table, Refused>
    requires { (1 ≤ line) × (line ≤ at) × (at ≤ length s.now) }
    ensures { says result ≡ at_end_row (drafted draft.now) line count (parts_from 10 s.now at) }
{
    if count != (line - 1) as u64 {
        return Err(Fault::End.at(line));
    }
    behind_end(s, at).map_err(|fault| fault.at(line + 1))?;
    draft.close(line)
}

// Reads a table's text: the table, or its refusal. The place is kept by hand, since what stands behind the `end` row is read from there. It stays
// a call, so that what it keeps while it reads is off the stack again when the log is judged.
#[inline(never)]
pub fn read_table(s: &[u8]) -> Result<Table, Refused>
    ensures { says result ≡ read_table s.now }
{
    if LONGEST < s.len() {
        return Err(Fault::Limit.at(0));
    }
    let mut draft = Draft::new();
    let mut at = 0;
    let mut line = 1;
    while at < s.len() {
        let e = text::next_byte(s, at, text::NEWLINE);
        if s.len() <= e {
            return Err(Fault::Form.at(line));
        }
        let Some(r) = row::read_row(&s[at..e]) else {
            return Err(Fault::Form.at(line));
        };
        if r.kind == row::END {
            return finish(&draft, line, r.a, s, e + 1);
        }
        draft.add(r, line)?;
        at = e + 1;
        line += 1;
    }
    Err(Fault::End.at(line))
}

// Checks the rows of a table as the reader checks those of a text, at the lines that they would have there; a row that there is no room for
// is one too many, whatever else is wrong. The table that comes back is the one that the rows make: the given one exactly where that is
// `canonical`. Two plain `for`s go over the rows here and in the two walks of the writer: an iterator of rows would have to promise of each
// row what `add` asks, and be no shorter.
pub fn check_table(t: Table) -> Result<Table, Refused>
    ensures { says result ≡ check_table t }
{
    let mut draft = Draft::new();
    let mut line = 1;
    for k in 0..row::STORED {
        for i in 0..t.counts[k] {
            if draft.is_full(k) {
                return Err(Fault::Limit.at(line));
            }
            draft.add(row_at(&t.rows, k, i), line)?;
            line += 1;
        }
    }
    draft.close(line)
}

fn end_row(n: usize) -> Row
    ensures { result ≡ end_row n }
{
    Row {
        kind: row::END,
        a: n as u64,
        b: 0,
        c: 0,
    }
}

// How many rows an accepted table has.
fn total(counts: [usize; row::STORED]) -> usize
    requires { sum counts ≤ most_rows }
    ensures { result ≡ sum counts }
{
    counts.iter().sum()
}

// How long the text of an accepted table is.
fn text_width(t: &Table) -> usize
    requires { Passes t.now }
    ensures { result ≡ length (table_text t.now) }
{
    let mut width = 0;
    for k in 0..row::STORED {
        for i in 0..t.counts[k] {
            width += row::row_width(row_at(&t.rows, k, i));
        }
    }
    width + row::row_width(end_row(total(t.counts)))
}

// Writes the text of an accepted table that fits.
fn put_table(buf: &mut [u8], t: &Table) -> usize
    requires { Passes t.now × (length (table_text t.now) ≤ length buf.old) }
    ensures { (result ≡ length (table_text t.now)) × (buf.new ≡ sets buf.old 0 (table_text t.now)) }
{
    let mut at = 0;
    for k in 0..row::STORED {
        for i in 0..t.counts[k] {
            at = row::put_row(buf, at, row_at(&t.rows, k, i));
        }
    }
    row::put_row(buf, at, end_row(total(t.counts)))
}

// Writes a table's text into a lent buffer: its length, or the refusal, and then no byte is changed.
pub fn write_table(buf: &mut [u8], t: Table) -> Result<usize, Refused>
    ensures { (wrote_numbers result ≡ write_table t (length buf.old)) × (buf.new ≡ written_over (write_table t (length buf.old)) (table_text t) buf.old) }
{
    check_table(t)?;
    if buf.len() < text_width(&t) {
        return Err(Fault::NoRoom.at(0));
    }
    Ok(put_table(buf, &t))
}
