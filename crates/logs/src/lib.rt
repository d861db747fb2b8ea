// A log's lines: each read as a step.
#![tactic(auto)]

ghost use Rattle.std.specs.Prelude.{◌≡◌, ◌+◌, ◌≤◌, ◌<◌, length, take};
ghost use Rattle.text.specs.Parts.{split_on, parts_from};
ghost use Rattle.text.specs.Words.{word_in};
ghost use Rattle.text.specs.Fields.{behind};
ghost use Rattle.model.specs.Tables.{target_of};
ghost use Rattle.logs.specs.Lines.{step_words, a_number, only, number_pair, sets_line, manager_line, leaving_line, on_word, read_step, read_line};

use model::{ActStep, Place, Step, TaskStep};

// The longest line of a step, with its newline.
const LONGEST_LINE: usize = 63;

// The longest line of a log, a `state` row, with its newline.
pub const LONGEST_ROW: usize = 4095;

// How many digits a set has. The readers take the number; whoever reads a line gives it.
pub const SET_DIGITS: usize = 16;

// What the only field behind the tab at a place, which is all that is left of the line, says as a number.
fn only_field(line: &[u8], at: usize) -> Option<u64>
    requires { at ≤ length line.now }
    ensures { result ≡ only a_number (parts_from 9 line.now (at + 1)) }
{
    if line.len() <= at {
        return None;
    }
    text::read_number(&line[at + 1..], text::MOST_DIGITS)
}

// What the field behind the tab at a place says as a number, and where it ends.
fn head_field(line: &[u8], at: usize) -> Option<(u64, usize)>
    requires { at ≤ length line.now }
    ensures { result ≡ behind a_number line.now at }
{
    if line.len() <= at {
        return None;
    }
    let start = at + 1;
    let end = text::next_byte(line, start, text::TAB);
    let number = text::read_number(&line[start..end], text::MOST_DIGITS)?;
    Some((number, end))
}

// N and R of an `sm`, all that stands behind its task: two sets with a tab between them.
fn read_sets(s: &[u8], t: u64, digits: usize) -> Option<Step>
    ensures { result ≡ sets_line digits t (split_on 9 s.now) }
{
    if s.len() <= digits || s.len() - digits - 1 != digits || s[digits] != text::TAB {
        return None;
    }
    let n = text::read_set(&s[..digits], digits)?;
    let r = text::read_set(&s[digits + 1..], digits)?;
    Some(Step::Sm(t as usize, n, r))
}

// `sm` task N R, behind its word.
fn read_manager(line: &[u8], at: usize, digits: usize) -> Option<Step>
    requires { at ≤ length line.now }
    ensures { result ≡ manager_line digits (parts_from 9 line.now (at + 1)) }
{
    let (task, end) = head_field(line, at)?;
    if line.len() <= end {
        return None;
    }
    read_sets(&line[end + 1..], task, digits)
}

// A codel's number or ether.
fn place_of(v: u64) -> Place
    ensures { result ≡ target_of v }
{
    if v == text::ETHER {
        return Place::Ether;
    }
    Place::Codel(v as usize)
}

// `fa` A target, behind its word.
fn read_leaving(line: &[u8], at: usize) -> Option<Step>
    requires { at ≤ length line.now }
    ensures { result ≡ leaving_line (parts_from 9 line.now (at + 1)) }
{
    let (act, end) = head_field(line, at)?;
    if line.len() <= end {
        return None;
    }
    let target = text::read_target(&line[end + 1..])?;
    Some(Step::OfAct(act as usize, ActStep::Fa(place_of(target))))
}

// The two fields behind the tab at a place, both numbers, as of `lm` task A and of `ea` A c. Inlined at both words: a call costs some sixty
// instructions more on each such line.
#[inline(always)]
fn two_fields(line: &[u8], at: usize) -> Option<(u64, u64)>
    requires { at ≤ length line.now }
    ensures { result ≡ number_pair (parts_from 9 line.now (at + 1)) }
{
    let (first, end) = head_field(line, at)?;
    let second = only_field(line, end)?;
    Some((first, second))
}

// What a line says whose word has two letters.
fn read_short(line: &[u8], digits: usize) -> Option<Step>
    requires { 2 < length line.now }
    ensures { result ≡ on_word digits (word_in step_words (take 2 line.now)) (parts_from 9 line.now 3) }
{
    match (line[0], line[1]) {
        (b's', b't') => only_field(line, 2).map(|task| Step::OfTask(task as usize, TaskStep::St)),
        (b's', b'm') => read_manager(line, 2, digits),
        (b'l', b'm') => {
            two_fields(line, 2).map(|(task, act)| Step::OfAct(
                act as usize,
                ActStep::Lm(task as usize),
            ))
        }
        (b'i', b'a') => only_field(line, 2).map(|act| Step::OfAct(act as usize, ActStep::Ia)),
        (b'e', b'a') => {
            two_fields(line, 2).map(|(act, codel)| Step::OfAct(
                act as usize,
                ActStep::Ea(Place::Codel(codel as usize)),
            ))
        }
        (b'c', b'x') => only_field(line, 2).map(|act| Step::OfAct(act as usize, ActStep::Cx)),
        (b'f', b'a') => read_leaving(line, 2),
        (b'f', b'm') => only_field(line, 2).map(|task| Step::OfTask(task as usize, TaskStep::Fm)),
        _ => None,
    }
}

// What a line says, without its newline, where sets have so many digits: its word has two letters or is `wait`.
pub fn read_step(line: &[u8], digits: usize) -> Option<Step>
    ensures { result ≡ read_step digits line.now }
{
    if LONGEST_LINE <= line.len() || line.len() < 3 {
        return None;
    }
    if line[2] == text::TAB {
        return read_short(line, digits);
    }
    if !line.starts_with(b"wait\t") {
        return None;
    }
    Some(Step::Wait(only_field(line, 4)?))
}

// What the bytes of one line say, its newline with them.
pub fn read_line(s: &[u8], digits: usize) -> Option<Step>
    ensures { result ≡ read_line digits s.now }
{
    let end = text::next_byte(s, 0, text::NEWLINE);
    if end + 1 != s.len() {
        return None;
    }
    read_step(&s[..end], digits)
}
