// Runs the table reader and writer on the cases of standard input, and writes what each gives. A case starts with a line
//   case NOTE        its text is what follows, up to the next case
//   open NOTE        the same, without the text's last newline
// with a tab between the word and the note. A refused text gives the number and line of its refusal; an accepted one is written again, into
// a buffer of just its length and into one that is a byte shorter. After the cases the writer is given tables that no text says.
#![tactic(auto)]

use std::io;
use std::io::Write;
use table::{Refused, Table};

// How much room there is for a text written again.
const TEXT: usize = table::LONGEST;

// Writes the first n bytes.
fn write<W: Write>(to: &mut W, out: &[u8], n: usize) -> io::Result<()> {
    if n <= out.len() {
        to.write_all(&out[..n])?;
    }
    Ok(())
}

fn say<W: Write>(to: &mut W, words: &[u8]) -> io::Result<()> {
    to.write_all(words)
}

fn say_number<W: Write>(to: &mut W, n: u64) -> io::Result<()> {
    let mut out = [0u8; 20];
    let e = text::put_number(&mut out, 0, n);
    write(to, &out, e)
}

fn say_refusal<W: Write>(to: &mut W, refused: Refused) -> io::Result<()> {
    say_number(to, refused.fault.number())?;
    say(to, b" at line ")?;
    say_number(to, refused.line as u64)
}

fn say_written<W: Write>(to: &mut W, written: Result<usize, Refused>) -> io::Result<()> {
    match written {
        Ok(n) => {
            say_number(to, n as u64)?;
            say(to, b" bytes")
        }
        Err(refused) => say_refusal(to, refused),
    }
}

// Are the first n bytes the same?
fn same_start(a: &[u8], b: &[u8], n: usize) -> bool {
    n <= a.len() && n <= b.len() && a[..n] == b[..n]
}

// Writes a table into the first n bytes of a buffer, and says what came of it and whether those bytes are the text's.
fn write_into<W: Write>(
    to: &mut W,
    s: &[u8],
    out: &mut [u8],
    t: Table,
    n: usize,
) -> io::Result<()> {
    if out.len() < n {
        return Ok(());
    }
    let w = table::write_table(&mut out[..n], t);
    say_written(to, w)?;
    if same_start(s, out, n) {
        return say(to, b", the text");
    }
    say(to, b", not the text")
}

fn write_again<W: Write>(to: &mut W, s: &[u8], t: Table, n: usize) -> io::Result<()> {
    let mut out = [0u8; TEXT];
    write_into(to, s, &mut out, t, n)
}

fn show_text<W: Write>(to: &mut W, s: &[u8]) -> io::Result<()> {
    match table::read_table(s) {
        Ok(t) => {
            let n = s.len();
            say(to, b"fine; written: ")?;
            write_again(to, s, t, n)?;
            if 0 < n {
                say(to, b"; a byte less: ")?;
                write_again(to, s, t, n - 1)?;
            }
        }
        Err(refused) => say_refusal(to, refused)?,
    }
    say(to, b"\n")
}

// Does a case start here?
fn starts_case(s: &[u8], at: usize, e: usize) -> bool {
    let Some(line) = s.get(at..e) else {
        return false;
    };
    line.starts_with(b"case\t") || line.starts_with(b"open\t")
}

// The place of the next case at or after a place, or the end.
fn next_case(s: &[u8], from: usize) -> usize {
    let mut at = from;
    // How many lines there are is not known before; a place is wanted, not the line.
    while at < s.len() {
        let e = text::next_byte(s, at, text::NEWLINE);
        if starts_case(s, at, e) {
            return at;
        }
        if s.len() <= e {
            return e;
        }
        at = e + 1;
    }
    at
}

// Is a case with this first line an open one?
fn is_open(head: &[u8]) -> bool {
    head.starts_with(b"open\t")
}

// A text without its last byte.
fn show_cut<W: Write>(to: &mut W, s: &[u8]) -> io::Result<()> {
    match s.split_last() {
        Some((_, cut)) => show_text(to, cut),
        None => Ok(()),
    }
}

// The case whose first line is given, with its text.
fn show_case<W: Write>(to: &mut W, head: &[u8], s: &[u8]) -> io::Result<()> {
    let Some((a, e)) = text::nth_field(head, 1) else {
        return Ok(());
    };
    say(to, &head[a..e])?;
    say(to, b"\t")?;
    if is_open(head) {
        return show_cut(to, s);
    }
    show_text(to, s)
}

fn show_cases<W: Write>(to: &mut W, s: &[u8]) -> io::Result<()> {
    let mut at = next_case(s, 0);
    // Each case begins where the one before ends.
    while at < s.len() {
        let e = text::next_byte(s, at, text::NEWLINE);
        if s.len() <= e {
            return Ok(());
        }
        let b = next_case(s, e + 1);
        if b <= e {
            return Ok(());
        }
        if s.len() < b {
            return Ok(());
        }
        let c = e + 1;
        show_case(to, &s[at..e], &s[c..b])?;
        at = b;
    }
    Ok(())
}

// Where the rows of activities, codels and edges begin.
const ACT_ROWS: usize = row::FIELDS * table::ACT_BASE;

const CODEL_ROWS: usize = row::FIELDS * table::CODEL_BASE;

const EDGE_ROWS: usize = row::FIELDS * table::EDGE_BASE;

// The table with one of its numbers changed, given to the writer.
fn show_row<W: Write>(to: &mut W, note: &[u8], t: Table, slot: usize, v: u32) -> io::Result<()> {
    let mut u = t;
    if slot < table::SLOTS {
        u.rows[slot] = v;
    }
    say(to, note)?;
    say(to, b"\t")?;
    let mut out = [0u8; TEXT];
    say_written(to, table::write_table(&mut out, u))?;
    say(to, b"\n")
}

// The table with another number of rows of a kind, given to the writer.
fn show_count<W: Write>(
    to: &mut W,
    note: &[u8],
    t: Table,
    kind: usize,
    n: usize,
) -> io::Result<()> {
    let mut u = t;
    if kind < row::STORED {
        u.counts[kind] = n;
    }
    say(to, note)?;
    say(to, b"\t")?;
    let mut out = [0u8; TEXT];
    say_written(to, table::write_table(&mut out, u))?;
    say(to, b"\n")
}

fn show_spoiled<W: Write>(to: &mut W) -> io::Result<()> {
    let t = match table::read_table(
        b"task\t10\t5\nact\t0\ncodel\t0\tstart\t20\nedge\t0\tether\trun\nend\t4\n",
    ) {
        Ok(t) => t,
        Err(refused) => return say_refusal(to, refused),
    };
    show_row(to, b"K given to the writer", t, 0, 10)?;
    show_row(to, b"period 0", t, 0, 0)?;
    show_row(to, b"keep above the most ticks", t, 1, 1000000001)?;
    show_row(to, b"keep ether", t, 1, table::ETHER_SLOT)?;
    show_row(to, b"an activity of task 1", t, ACT_ROWS, 1)?;
    show_row(to, b"limit 0", t, CODEL_ROWS + 2, 0)?;
    show_row(to, b"the start made a stop", t, CODEL_ROWS + 1, 1)?;
    show_row(to, b"an unused row changed", t, CODEL_ROWS + row::FIELDS, 7)?;
    show_row(to, b"the edge to its own codel", t, EDGE_ROWS + 1, 0)?;
    show_row(
        to,
        b"the edge to a codel past the last",
        t,
        EDGE_ROWS + 1,
        1,
    )?;
    show_row(to, b"a pause to ether", t, EDGE_ROWS + 2, 1)?;
    show_count(to, b"no task", t, 0, 0)?;
    show_count(to, b"a second task, all zeros", t, 0, 2)?;
    show_count(to, b"a second activity without start", t, 1, 2)?;
    show_count(to, b"no codel", t, 2, 0)?;
    show_count(to, b"no edge", t, 3, 0)?;
    show_count(to, b"a mutex of codel 0 and codel 0", t, 4, 1)?;
    show_count(
        to,
        b"more tasks than there can be",
        t,
        0,
        18446744073709551615,
    )
}

// The three numbers of a row.
#[derive(Clone, Copy)]
struct Numbers {
    a: u32,
    b: u32,
    c: u32,
}

// Every fourth codel starts an activity.
fn codel_row(c: u32) -> Numbers {
    let a = c / 4;
    if c % 4 == 0 {
        return Numbers { a, b: 0, c: 1 };
    }
    Numbers { a, b: 2, c: 1 }
}

// Each codel has an edge to its activity's start and one to ether.
fn edge_row(e: u32) -> Numbers {
    let a = e / 2;
    if e % 2 == 0 {
        return Numbers {
            a,
            b: a / 4 * 4,
            c: 0,
        };
    }
    Numbers {
        a,
        b: table::ETHER_SLOT,
        c: 0,
    }
}

// How many rows of the largest table come before the activities, the codels, the edges and the mutexes.
const TASKS: u32 = table::ACT_BASE as u32;

const ACTS: u32 = table::CODEL_BASE as u32;

const CODELS: u32 = table::EDGE_BASE as u32;

const EDGES: u32 = table::MUTEX_BASE as u32;

// How many rows it has.
const ROWS: u32 = table::MOST_ROWS as u32;

// Row n of the largest table, counted through all kinds: four activities a task, four codels an activity, two edges a codel, and a conflict
// of each of the first 32 codels with 16 codels of another task.
fn largest_row(n: u32) -> Numbers {
    if n < TASKS {
        return Numbers { a: 10, b: 5, c: 0 };
    }
    if n < ACTS {
        return Numbers {
            a: (n - TASKS) / 4,
            b: 0,
            c: 0,
        };
    }
    if n < CODELS {
        return codel_row(n - ACTS);
    }
    if n < EDGES {
        return edge_row(n - CODELS);
    }
    let m = n - EDGES;
    Numbers {
        a: m / 16,
        b: 64 + m % 16,
        c: 0,
    }
}

// The table with as many rows of each kind as there may be.
fn largest() -> Table {
    let counts = [
        model::MOST_TASKS,
        model::MOST_ACTS,
        model::MOST_CODELS,
        model::MOST_EDGES,
        model::MOST_MUTEXES,
    ];
    let mut rows = [0u32; table::SLOTS];
    for n in 0..ROWS {
        let r = largest_row(n);
        let p = row::FIELDS * (n as usize);
        rows[p] = r.a;
        rows[p + 1] = r.b;
        rows[p + 2] = r.c;
    }
    Table { counts, rows }
}

// One row too many of each kind, though it has no numbers: 3 at its line.
fn show_full<W: Write>(to: &mut W) -> io::Result<()> {
    let t = largest();
    show_row(to, b"the largest table", t, 0, 10)?;
    show_row(
        to,
        b"a codel kind past main is written as main",
        t,
        CODEL_ROWS + row::FIELDS + 1,
        5,
    )?;
    show_count(to, b"a seventeenth task given", t, 0, model::MOST_TASKS + 1)?;
    show_count(
        to,
        b"a sixty-fifth activity given",
        t,
        1,
        model::MOST_ACTS + 1,
    )?;
    show_count(to, b"a codel past 256 given", t, 2, model::MOST_CODELS + 1)?;
    show_count(to, b"an edge past 512 given", t, 3, model::MOST_EDGES + 1)?;
    show_count(to, b"a mutex past 512 given", t, 4, model::MOST_MUTEXES + 1)
}

fn main(rt: HostRuntime) -> io::Result<()> {
    let mut block = [0u8; blocks::BLOCK];
    let n = blocks::read_behind(&mut rt.stdin(), &mut block, 0)?;
    let cases = &block[..n];
    let mut out = rt.stdout();
    show_cases(&mut out, cases)?;
    show_spoiled(&mut out)?;
    show_full(&mut out)
}
