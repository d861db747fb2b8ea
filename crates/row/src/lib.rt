// One row of a table's text: its word, its fields, read and written.
#![tactic(auto)]

ghost use Rattle.std.specs.Prelude.{◌≡◌, ◌+◌, ◌≤◌, length};
ghost use Rattle.std.proofs.lemmas.List.Edits.{sets};
ghost use Rattle.text.specs.Put.{Put};
ghost use Rattle.row.specs.Kinds.{kind_at, said, most_of, form_of, kind_in};
ghost use Rattle.row.specs.Row.{read_form, read_row, field_behind, value_text, tabbed, row_line, row_text};

use model::{MOST_ACTS, MOST_CODELS, MOST_EDGES, MOST_MUTEXES, MOST_TASKS};

// How many kinds of rows a table stores: those before `end`.
pub const STORED: usize = 5;

// The kinds of rows, in the page's order. They are numbers, not an enum: they index the counts of a table, and its rows are walked from one
// kind to the next.
pub const TASK: usize = 0;

pub const ACT: usize = 1;

pub const CODEL: usize = 2;

pub const EDGE: usize = 3;

pub const MUTEX: usize = 4;

pub const END: usize = STORED;

// How many fields a row has at most; so many numbers are stored of each row.
pub const FIELDS: usize = 3;

// What a field says.
#[derive(Clone, Copy, PartialEq, Eq)]
pub enum Form {
    // a number
    Number,
    // a codel's kind: `start`, `stop` or `main`
    Kind,
    // an edge's mode: `run` or `pause`
    Mode,
    // a codel or `ether`
    Target,
}

// The words of a codel's kind and of an edge's mode, parted by tabs.
const KIND_WORDS: &[u8] = b"start\tstop\tmain";

const MODE_WORDS: &[u8] = b"run\tpause";

// The word of `ether`.
const ETHER_WORD: &[u8] = b"ether";

// A row of the page's table: its word, what each of its fields says, and the most rows.
#[derive(Clone, Copy)]
struct Kind {
    word: &'static [u8],
    fields: &'static [Form],
    most: usize,
}

// The page's table of rows; a row's kind is its place.
const KINDS: [Kind; STORED + 1] = [
    Kind {
        word: b"task",
        fields: &[Form::Number, Form::Number],
        most: MOST_TASKS,
    },
    Kind {
        word: b"act",
        fields: &[Form::Number],
        most: MOST_ACTS,
    },
    Kind {
        word: b"codel",
        fields: &[Form::Number, Form::Kind, Form::Number],
        most: MOST_CODELS,
    },
    Kind {
        word: b"edge",
        fields: &[Form::Number, Form::Target, Form::Mode],
        most: MOST_EDGES,
    },
    Kind {
        word: b"mutex",
        fields: &[Form::Number, Form::Number],
        most: MOST_MUTEXES,
    },
    Kind {
        word: b"end",
        fields: &[Form::Number],
        most: 1,
    },
];

// A row: its kind, and its fields' values, 0 where it has no such field. A word's value is its place among its words.
#[derive(Clone, Copy)]
pub struct Row {
    pub kind: usize,
    pub a: u64,
    pub b: u64,
    pub c: u64,
}

// The row of the page's table for a kind; past the last kind nothing.
fn kind_at(k: usize) -> Kind
    ensures { said result ≡ kind_at k }
{
    match KINDS.get(k) {
        Some(kind) => *kind,
        None => Kind {
            word: b"",
            fields: &[],
            most: 0,
        },
    }
}

// How many rows of a kind there may be.
pub fn most(k: usize) -> usize
    ensures { result ≡ most_of k }
{
    kind_at(k).most
}

// What field j of a row of a kind says, if it has such a field.
pub fn form_of(k: usize, j: usize) -> Option<Form>
    ensures { result ≡ form_of k j }
{
    kind_at(k).fields.get(j).copied()
}

// Which kind a row's word says.
fn kind_in(p: &[u8]) -> Option<usize>
    ensures { result ≡ kind_in p.now }
{
    KINDS.iter().position(|kind| p == kind.word)
}

// What a field of a form says.
fn read_form(form: Form, p: &[u8]) -> Option<u64>
    ensures { result ≡ read_form form p.now }
{
    match form {
        Form::Number => text::read_number(p, text::MOST_DIGITS),
        Form::Kind => text::word_in(KIND_WORDS, p).map(|k| k as u64),
        Form::Mode => text::word_in(MODE_WORDS, p).map(|k| k as u64),
        Form::Target => text::read_target(p),
    }
}

// The field behind the tab at a place, and where it ends; where a row has no such field, 0 and the place.
fn field_behind(line: &[u8], at: usize, form: Option<Form>) -> Option<(u64, usize)>
    requires { at ≤ length line.now }
    ensures { result ≡ field_behind form line.now at }
{
    let Some(form) = form else {
        return Some((0, at));
    };
    if line.len() <= at {
        return None;
    }
    let from = at + 1;
    let end = text::next_byte(line, from, text::TAB);
    let value = read_form(form, &line[from..end])?;
    Some((value, end))
}

// What a line says, without its newline: a row, or nothing where its form is bad.
pub fn read_row(line: &[u8]) -> Option<Row>
    ensures { result ≡ read_row line.now }
{
    let w = text::next_byte(line, 0, text::TAB);
    let kind = kind_in(&line[..w])?;
    let (a, p) = field_behind(line, w, form_of(kind, 0))?;
    let (b, q) = field_behind(line, p, form_of(kind, 1))?;
    let (c, e) = field_behind(line, q, form_of(kind, 2))?;
    if e < line.len() {
        return None;
    }
    Some(Row { kind, a, b, c })
}

// How long a value of a form is.
fn value_width(form: Form, v: u64) -> usize
    ensures { result ≡ length (value_text form v) }
{
    match form {
        Form::Number => text::width(v),
        Form::Kind => text::word_width(KIND_WORDS, v as usize),
        Form::Mode => text::word_width(MODE_WORDS, v as usize),
        Form::Target if v == text::ETHER => ETHER_WORD.len(),
        Form::Target => text::width(v),
    }
}

// How long a field is with the tab before it, which is never more than 21.
fn field_width(form: Option<Form>, v: u64) -> usize
    ensures { (result ≡ length (tabbed form v)) × (result ≤ 21) }
{
    match form {
        None => 0,
        Some(form) => 1 + value_width(form, v),
    }
}

// How long a row's text is, with its newline.
pub fn row_width(r: Row) -> usize
    ensures { result ≡ length (row_text r) }
{
    let k = r.kind;
    let a = field_width(form_of(k, 0), r.a);
    let b = field_width(form_of(k, 1), r.b);
    let c = field_width(form_of(k, 2), r.c);
    kind_at(k).word.len() + a + b + c + 1
}

// Writes a value of a form.
fn put_value(buf: &mut [u8], at: usize, form: Form, v: u64) -> usize
    ensures { Put buf.old at (value_text form v) result buf.new }
{
    match form {
        Form::Number => text::put_number(buf, at, v),
        Form::Kind => text::put_word(buf, at, KIND_WORDS, v as usize),
        Form::Mode => text::put_word(buf, at, MODE_WORDS, v as usize),
        Form::Target if v == text::ETHER => text::put_bytes(buf, at, ETHER_WORD),
        Form::Target => text::put_number(buf, at, v),
    }
}

// Writes a field with the tab before it.
fn put_field(buf: &mut [u8], at: usize, form: Option<Form>, v: u64) -> usize
    requires { at + length (tabbed form v) ≤ length buf.old }
    ensures { (result ≡ at + length (tabbed form v)) × (buf.new ≡ sets buf.old at (tabbed form v)) }
{
    let Some(form) = form else {
        return at;
    };
    buf[at] = text::TAB;
    put_value(buf, at + 1, form, v)
}

// Writes a row's line, without its newline.
fn put_line(buf: &mut [u8], at: usize, r: Row) -> usize
    requires { at + length (row_line r) ≤ length buf.old }
    ensures { (result ≡ at + length (row_line r)) × (buf.new ≡ sets buf.old at (row_line r)) }
{
    let k = r.kind;
    let w = text::put_bytes(buf, at, kind_at(k).word);
    let p = put_field(buf, w, form_of(k, 0), r.a);
    let q = put_field(buf, p, form_of(k, 1), r.b);
    put_field(buf, q, form_of(k, 2), r.c)
}

// Writes a row's text, with its newline, and answers the place after it; where it does not fit, writes nothing and answers the same place.
pub fn put_row(buf: &mut [u8], at: usize, r: Row) -> usize
    ensures { Put buf.old at (row_text r) result buf.new }
{
    if !text::fits(buf.len(), at, row_width(r)) {
        return at;
    }
    let e = put_line(buf, at, r);
    buf[e] = text::NEWLINE;
    e + 1
}
