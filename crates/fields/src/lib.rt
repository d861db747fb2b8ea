// The fields of a `state` row: what each says by its form, read from a line and written into a buffer, one after another as a description
// lists their forms. A field's value is one number.
#![tactic(auto)]

ghost use Rattle.std.specs.Prelude.{◌≡◌, ◌∷◌, ◌+◌, ◌*◌, ◌≤◌, length};
ghost use Rattle.std.proofs.lemmas.List.Edits.{sets};
ghost use Rattle.text.specs.Number.{digits};
ghost use Rattle.text.specs.Fields.{behind};
ghost use Rattle.text.specs.Put.{Put};
ghost use Rattle.text.specs.Standing.{past};
ghost use Rattle.fields.specs.Forms.{a_set, word_or, read_form, word_text, form_text};
ghost use Rattle.fields.specs.Reading.{nothing, number_at, yes_at, word_at, set_at};
ghost use Rattle.fields.specs.Fields.{fields_text, repeated, took, Took};

use text::Set;

// "numbers to 13 digits"
const MOST_DIGITS: usize = 13;

// The value of `manager` and of `ether`, "where no number stands": above every number of a field.
pub const NO_NUMBER: u64 = 10000000000000;

// What a field says: a number, yes or no, who holds, a set, where an activity is. Its form stays a number, and is no enum: `read_fields`,
// `read_parts` and `put_fields` promise what they do for any number as a form, and that promise may not change.
pub const A_NUMBER: usize = 0;

pub const A_YES: usize = 1;

pub const A_HOLDER: usize = 2;

pub const A_SET: usize = 3;

pub const A_PLACE: usize = 4;

// A field that was read in place: its value and the place behind it, or the end where it does not read. A flag would be tested behind every
// field of a row; so none is: from the end on nothing reads, and the place behind the last field tells of them all.
#[derive(Clone, Copy)]
pub struct Stood {
    pub value: u64,
    pub end: usize,
}

// A number, or the word that stands where no number does.
fn word_or(word: &[u8], p: &[u8]) -> Option<u64>
    ensures { result ≡ word_or word.now p.now }
{
    if p == word {
        return Some(NO_NUMBER);
    }
    text::read_number(p, MOST_DIGITS)
}

// What a field of a form says: "sets as in `sm`, yes as 1".
fn read_form(form: usize, p: &[u8]) -> Option<u64>
    ensures { result ≡ read_form form p.now }
{
    match form {
        A_HOLDER => word_or(b"manager", p),
        A_PLACE => word_or(b"ether", p),
        A_SET => text::read_set(p, logs::SET_DIGITS).map(|set| set.low),
        A_YES => text::read_number(p, 1).filter(|v| *v < 2),
        _ => text::read_number(p, MOST_DIGITS),
    }
}

// The field behind the tab at a place: its value and where it ends. `logs::head_field` does the same for the numbers of a log: one function for
// both would take a closure, and its contract would be longer than these lines.
fn read_field(line: &[u8], at: usize, form: usize) -> Option<(u64, usize)>
    requires { at ≤ length line.now }
    ensures { result ≡ behind (read_form form) line.now at }
{
    if line.len() <= at {
        return None;
    }
    let start = at + 1;
    let end = text::next_byte(line, start, text::TAB);
    let value = read_form(form, &line[start..end])?;
    Some((value, end))
}

// Reads a field for each form from the tab at a place on, and stores their values from a place on, up to the first of bad form; says where
// the last ends.
pub fn read_fields(
    line: &[u8],
    at: usize,
    forms: &[usize],
    values: &mut [u64],
    from: usize,
) -> Option<usize>
    requires { (at ≤ length line.now) × (from + length forms.now ≤ length values.old) }
    ensures { Took (took forms.now line.now at from values.old) result values.new }
{
    let mut end = at;
    for i in 0..forms.len() {
        let (value, next) = read_field(line, end, forms[i])?;
        values[from + i] = value;
        end = next;
    }
    Some(end)
}

// The same so many times.
pub fn read_parts(
    line: &[u8],
    at: usize,
    forms: &[usize],
    many: usize,
    values: &mut [u64],
    from: usize,
) -> Option<usize>
    requires { (at ≤ length line.now) × (from + many * length forms.now ≤ length values.old) }
    ensures { Took (took (repeated many forms.now) line.now at from values.old) result values.new }
{
    let mut end = at;
    let mut place = from;
    for _ in 0..many {
        end = read_fields(line, end, forms, values, place)?;
        place += forms.len();
    }
    Some(end)
}

// Writes a number, or the word that stands where no number does.
fn put_word_or(buf: &mut [u8], at: usize, word: &[u8], v: u64) -> usize
    ensures { Put buf.old at (word_text word.now v) result buf.new }
{
    if v == NO_NUMBER {
        return text::put_bytes(buf, at, word);
    }
    text::put_number(buf, at, v)
}

// Writes a value of a form.
fn put_form(buf: &mut [u8], at: usize, form: usize, v: u64) -> usize
    ensures { Put buf.old at (form_text form v) result buf.new }
{
    match form {
        A_HOLDER => put_word_or(buf, at, b"manager", v),
        A_PLACE => put_word_or(buf, at, b"ether", v),
        A_SET => text::put_set(buf, at, logs::SET_DIGITS, Set { low: v, high: 0 }),
        _ => text::put_number(buf, at, v),
    }
}

// Writes a field for each form at a place that has room for them, each with the tab before it, and answers the place after them.
pub fn put_fields(buf: &mut [u8], at: usize, forms: &[usize], values: &[u64]) -> usize
    requires { (length forms.now ≤ length values.now) × (at + length (fields_text forms.now values.now) ≤ length buf.old) }
    ensures { (result ≡ at + length (fields_text forms.now values.now)) × (buf.new ≡ sets buf.old at (fields_text forms.now values.now)) }
{
    let mut end = at;
    for (form, value) in forms.iter().zip(values) {
        buf[end] = text::TAB;
        end = put_form(buf, end + 1, *form, *value);
    }
    end
}

// The place behind a number's field, with the tab before it, where it stands at a place; the end where it does not. Most have one digit.
pub fn past_number(s: &[u8], at: usize, v: u64) -> usize
    requires { at ≤ length s.now }
    ensures { result ≡ past s.now at (9 ∷ digits v) }
{
    if s.len() - at < 2 || s[at] != text::TAB {
        return s.len();
    }
    if 10 <= v {
        return text::past_number(s, at + 1, v);
    }
    if s[at + 1] != b'0' + v as u8 {
        return s.len();
    }
    at + 2
}

// The same of a set's field.
pub fn past_set(s: &[u8], at: usize, v: u64) -> usize
    requires { at ≤ length s.now }
    ensures { result ≡ past s.now at (9 ∷ form_text a_set v) }
{
    if s.len() - at < 2 || s[at] != text::TAB {
        return s.len();
    }
    text::past_half(s, at + 1, v)
}

// Nothing was read in a text.
pub fn unread(s: &[u8]) -> Stood
    ensures { result ≡ nothing s.now }
{
    Stood {
        value: 0,
        end: s.len(),
    }
}

// Reads the number behind the tab at a place, where it stands.
pub fn number_at(s: &[u8], at: usize) -> Stood
    requires { at ≤ length s.now }
    ensures { result ≡ number_at s.now at }
{
    if s.len() - at < 2 || s[at] != text::TAB || !s[at + 1].is_ascii_digit() {
        return unread(s);
    }
    let mut value = (s[at + 1] - b'0') as u64;
    if value == 0 {
        return Stood { value, end: at + 2 };
    }
    for i in at + 2..s.len() {
        let b = s[i];
        if !b.is_ascii_digit() {
            return Stood { value, end: i };
        }
        let more = value * 10 + (b - b'0') as u64;
        if NO_NUMBER <= more {
            return Stood { value, end: i };
        }
        value = more;
    }
    Stood {
        value,
        end: s.len(),
    }
}

// The same of a field that is 0 or 1.
pub fn yes_at(s: &[u8], at: usize) -> Stood
    requires { at ≤ length s.now }
    ensures { result ≡ yes_at s.now at }
{
    if s.len() - at < 2 || s[at] != text::TAB {
        return unread(s);
    }
    match s[at + 1] {
        b'0' => Stood {
            value: 0,
            end: at + 2,
        },
        b'1' => Stood {
            value: 1,
            end: at + 2,
        },
        _ => unread(s),
    }
}

// The same of a field that is a number, or the word that stands where no number does, given with its tab.
pub fn word_at(s: &[u8], at: usize, word: &[u8]) -> Stood
    requires { at ≤ length s.now }
    ensures { result ≡ word_at word.now s.now at }
{
    let end = text::past_bytes(s, at, word);
    if end < s.len() {
        return Stood {
            value: NO_NUMBER,
            end,
        };
    }
    number_at(s, at)
}

// The same of a set's field. Most are empty.
pub fn set_at(s: &[u8], at: usize) -> Stood
    requires { at ≤ length s.now }
    ensures { result ≡ set_at s.now at }
{
    let empty = text::past_bytes(s, at, b"\t0000000000000000");
    if empty < s.len() {
        return Stood {
            value: 0,
            end: empty,
        };
    }
    if s.len() - at < 1 + logs::SET_DIGITS || s[at] != text::TAB {
        return unread(s);
    }
    let end = at + 1 + logs::SET_DIGITS;
    match text::read_set(&s[at + 1..end], logs::SET_DIGITS) {
        Some(set) => Stood {
            value: set.low,
            end,
        },
        None => unread(s),
    }
}
