// The report told block after block: what the program writes of each block that it reads. Its bytes are decided here.
#![tactic(auto)]

ghost use Rattle.std.specs.Prelude.{◌≤◌, length, take, ◌≡◌};
ghost use Rattle.text.specs.Put.{Put};
ghost use Rattle.table.specs.Checks.{says};
ghost use Rattle.prepared.specs.Held.{held};
ghost use Rattle.tally.specs.Tallies.{most_count, lines_of, Roomy};
ghost use Rattle.streaming.specs.Turns.{is_over, end_text, opening, most_told};
ghost use Rattle.streaming.specs.Lent.{Resumes, Judged, Opens};

use engine::{Going, Stop};
use prepared::Component;
use table::{Refused, Table};

// A table that was read, if it is accepted, how many bytes are told, and how many of the log's are held.
#[derive(Clone, Copy)]
pub struct Opened {
    pub table: Option<Table>,
    pub told: usize,
    pub held: usize,
}

// A block that was judged: where the judging stands, how many bytes are told, how many are held for the next block, and whether it is over.
// The last is no Option of the rest: where the judging stands and what is told are there either way.
#[derive(Clone, Copy)]
pub struct Turn {
    pub going: Going,
    pub told: usize,
    pub held: usize,
    pub over: bool,
}

// Writes what is told of a table: the header, or the report on a refused one.
fn put_opening(out: &mut [u8], read: &Result<Table, Refused>) -> usize
    ensures { Put out.old 0 (opening (says read.now).numbers) result out.new }
{
    match read {
        Ok(_) => report::put_head(out),
        Err(refused) => judging::put_refused(out, refused.fault.number(), refused.line),
    }
}

// Reads the table at the front of the block, writes the header or its refusal, and moves the log's bytes behind it to the front. The bytes
// at hand say where the table ends.
pub fn open_table(block: &mut [u8], have: usize, out: &mut [u8]) -> Opened
    requires { have ≤ length block.old }
    ensures { Opens (take have block.old) block.old out.old result block.new out.new }
{
    let cut = stream::cut_at(&block[..have]);
    let read = table::read_table(&block[..cut]);
    let told = put_opening(out, &read);
    let held = stream::to_front(block, cut, have);
    Opened {
        table: read.ok(),
        told,
        held,
    }
}

// Does the judging end where a run stopped?
fn is_over(ended: bool, stop: Stop) -> bool
    ensures { result ≡ is_over ended stop }
{
    match stop {
        Stop::Refused(_) => true,
        Stop::End | Stop::Closed(_) | Stop::Row => ended,
    }
}

// Writes the `sum` row where the judging ends.
fn put_end(
    component: &Component,
    out: &mut [u8],
    at: usize,
    g: Going,
    stop: Stop,
    done: bool,
) -> usize
    requires { (lines_of g.tally ≤ most_count) }
    ensures { Put out.old at (end_text (held component.now) g.state g.tally stop done) result out.new }
{
    if !done {
        return at;
    }
    judging::put_sum(component, out, at, g, judging::refusal_of(stop))
}

// Judges the whole lines of the log's bytes at the front of the block, all of them where the input has ended, writes what is told of them,
// and moves the bytes left to the front.
pub fn judge_block(
    component: &Component,
    block: &mut [u8],
    have: usize,
    ended: bool,
    g: Going,
    out: &mut [u8],
) -> Turn
    requires { Resumes (held component.now) g × Roomy g.tally have × (have ≤ length block.old) × (most_told have ≤ length out.old) }
    ensures { Judged (held component.now) g ended block.old have out.old result block.new out.new }
{
    let end = stream::chunk_end(&block[..have], ended);
    let ran = playing::play(component, &block[..end], 0, g, out, 0);
    let over = is_over(ended, ran.stop);
    let told = put_end(component, out, ran.filled, ran.going, ran.stop, over);
    let held = stream::to_front(block, end, have);
    Turn {
        going: ran.going,
        told,
        held,
        over,
    }
}
