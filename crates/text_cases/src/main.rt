// Runs the text layer on the lines of standard input, one case a line, and writes what each gives:
//   number NOTE MOST FIELD       the number that the field says, with at most so many digits
//   set NOTE DIGITS FIELD        the set that the field says over so many digits: its low half and its high half
//   digits NOTE DIGITS SET       the low half of a set, written in decimal, and its width
//   hex NOTE DIGITS LOW HIGH     the set of two halves, written over so many digits
//   member NOTE DIGITS SET I     whether I is a member of the set
//   between NOTE DIGITS SET I J  whether each member of the set is at least I and below J
//   word NOTE FIELD              which word of the set below the field is, and that word written again
//   place NOTE ..                where field 3 of this line starts and ends
// The fields of a case are parted by tabs; its answer is the note, a tab and the result.
#![tactic(auto)]

use std::io;
use std::io::Write;
use text::Set;

// The longest answer.
const ROOM: usize = 128;

// Field i of a line; nothing where the line has no such field.
fn part(line: &[u8], i: usize) -> &[u8] {
    match text::nth_field(line, i) {
        Some((start, end)) => &line[start..end],
        None => &[],
    }
}

// Each case below writes its result at a place, and answers the place after it, or None where the line is no such case.

fn number_case(line: &[u8], out: &mut [u8], at: usize) -> Option<usize> {
    let most = text::read_number(part(line, 2), 2)?;
    match text::read_number(part(line, 3), most as usize) {
        Some(n) => Some(text::put_number(out, at, n)),
        None => Some(text::put_bytes(out, at, b"bad")),
    }
}

// The set of a case.
fn set_of(line: &[u8]) -> Option<Set> {
    let digits = text::read_number(part(line, 2), 2)?;
    text::read_set(part(line, 3), digits as usize)
}

fn set_case(line: &[u8], out: &mut [u8], at: usize) -> Option<usize> {
    let Some(n) = set_of(line) else {
        return Some(text::put_bytes(out, at, b"bad"));
    };
    let p = text::put_number(out, at, n.low);
    let q = text::put_bytes(out, p, b" ");
    Some(text::put_number(out, q, n.high))
}

fn digits_case(line: &[u8], out: &mut [u8], at: usize) -> Option<usize> {
    let n = set_of(line)?;
    let p = text::put_number(out, at, n.low);
    let q = text::put_bytes(out, p, b" of width ");
    Some(text::put_number(out, q, text::width(n.low) as u64))
}

fn hex_case(line: &[u8], out: &mut [u8], at: usize) -> Option<usize> {
    let digits = text::read_number(part(line, 2), 2)?;
    let low = text::read_number(part(line, 3), 19)?;
    let high = text::read_number(part(line, 4), 19)?;
    Some(text::put_set(out, at, digits as usize, Set { low, high }))
}

fn put_answer(out: &mut [u8], at: usize, yes: bool) -> usize {
    if yes {
        return text::put_bytes(out, at, b"yes");
    }
    text::put_bytes(out, at, b"no")
}

fn member_case(line: &[u8], out: &mut [u8], at: usize) -> Option<usize> {
    let n = set_of(line)?;
    let i = text::read_number(part(line, 4), 19)?;
    Some(put_answer(out, at, n.has_member(i as usize)))
}

fn between_case(line: &[u8], out: &mut [u8], at: usize) -> Option<usize> {
    let n = set_of(line)?;
    let from = text::read_number(part(line, 4), 19)?;
    let to = text::read_number(part(line, 5), 19)?;
    Some(put_answer(out, at, n.is_between(from as usize, to as usize)))
}

fn word_case(line: &[u8], out: &mut [u8], at: usize) -> Option<usize> {
    let words = b"start\tstop\tmain\trun\tpause\tether";
    let Some(k) = text::word_in(words, part(line, 2)) else {
        return Some(text::put_bytes(out, at, b"unknown"));
    };
    let p = text::put_number(out, at, k as u64);
    let q = text::put_bytes(out, p, b" ");
    Some(text::put_word(out, q, words, k))
}

fn place_case(line: &[u8], out: &mut [u8], at: usize) -> Option<usize> {
    let Some((start, end)) = text::nth_field(line, 3) else {
        return Some(text::put_bytes(out, at, b"absent"));
    };
    let p = text::put_number(out, at, start as u64);
    let q = text::put_bytes(out, p, b" to ");
    Some(text::put_number(out, q, end as u64))
}

fn put_case(line: &[u8], out: &mut [u8], at: usize) -> Option<usize> {
    match part(line, 0) {
        b"number" => number_case(line, out, at),
        b"set" => set_case(line, out, at),
        b"digits" => digits_case(line, out, at),
        b"hex" => hex_case(line, out, at),
        b"member" => member_case(line, out, at),
        b"between" => between_case(line, out, at),
        b"word" => word_case(line, out, at),
        b"place" => place_case(line, out, at),
        _ => None,
    }
}

// Writes the first n bytes.
fn write<W: Write>(to: &mut W, out: &[u8], n: usize) -> io::Result<()> {
    if n <= out.len() {
        to.write_all(&out[..n])?;
    }
    Ok(())
}

fn show<W: Write>(to: &mut W, line: &[u8]) -> io::Result<()> {
    let mut out = [0u8; ROOM];
    let p = text::put_bytes(&mut out, 0, part(line, 1));
    let q = text::put_bytes(&mut out, p, b"\t");
    let r = match put_case(line, &mut out, q) {
        Some(r) => r,
        None => text::put_bytes(&mut out, q, b"no case"),
    };
    let e = text::put_bytes(&mut out, r, b"\n");
    write(to, &out, e)
}

fn run<W: Write>(to: &mut W, s: &[u8]) -> io::Result<()> {
    for line in s.split_inclusive(|b| *b == text::NEWLINE) {
        show(to, line.strip_suffix(b"\n").unwrap_or(line))?;
    }
    Ok(())
}

fn main(rt: HostRuntime) -> io::Result<()> {
    let mut block = [0u8; blocks::BLOCK];
    let n = blocks::read_behind(&mut rt.stdin(), &mut block, 0)?;
    let cases = &block[..n];
    run(&mut rt.stdout(), cases)
}
