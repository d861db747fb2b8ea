// The row of the state that a log reaches: what the recorder puts first into the next file of a drive. The exported function, and what the
// program `reached` does of each block that it reads.
#![tactic(auto)]

ghost use Rattle.std.specs.Prelude.{◌≡◌, [], ◌∷◌, ◌+◌, ◌≤◌, length, T};
ghost use Rattle.text.specs.Parts.{split_on};
ghost use Rattle.text.specs.Put.{Put};
ghost use Rattle.model.specs.Sound.{sound};
ghost use Rattle.prepared.specs.Held.{held};
ghost use Rattle.saved.specs.Rows.{row_text};
ghost use Rattle.tally.specs.Tallies.{most_count, lines_of, Roomy};
ghost use Rattle.engine.specs.Play.{Ready};
ghost use Rattle.reaching.specs.Reaching.{row, refused, reach_at, log_reach, reach_on, pair_over, Reaches, reach_text};
ghost use Rattle.reaching.specs.Passing.{passed, Passes, Turned};

use engine::{Going, Ran, Stop};
use model::State;
use prepared::Component;

// How much room the rows of kept cycles have, which are not told here.
const SCRATCH: usize = 4096;

// What the pair has for an answer that does not fit.
const NO_ROOM: u64 = 31;

// A block that was gone through: where the log stands, the refusal, how many bytes are held for the next block, and whether it is over. The
// refusal is the number that `put_end` takes, 0 for none. That it is over stands beside the rest, since the rest is told either way.
#[derive(Clone, Copy)]
pub struct Turn {
    pub going: Going,
    pub refusal: u64,
    pub held: usize,
    pub over: bool,
}

// Goes through a log's lines, up to its end or the first refusal, and tells nothing of them. This and `put_row` stay calls, so that what they keep
// is on the stack only while they run.
#[inline(never)]
fn pass(component: &Component, log: &[u8], start: Going) -> Ran
    requires { Ready (held component.now) start × Roomy start.tally (length log.now) }
    ensures { Passes (passed (held component.now) start.state start.tally (split_on 10 log.now)) result }
{
    let mut scratch = [0u8; SCRATCH];
    let mut going = start;
    let mut at = 0;
    // How many runs it takes is not known before: each cycle that finds no room ends one.
    loop {
        let ran = playing::play(component, log, at, going, &mut scratch, 0);
        let Stop::Closed(_) = ran.stop else {
            return ran;
        };
        going = ran.going;
        at = ran.at;
    }
}

// Stores a refusal's number and line; a pair lent too short is left alone.
fn put_pair(pair: &mut [u64], number: u64, line: u64)
    ensures { pair.new ≡ pair_over (number ∷ line ∷ []) pair.old }
{
    if pair.len() >= 2 {
        pair[..2].copy_from_slice(&[number, line]);
    }
}

// Writes a sound state's row, or nothing where it does not fit.
#[inline(never)]
fn put_row(component: &Component, state: State, out: &mut [u8]) -> usize
    requires { T (sound (held component.now) state) }
    ensures { Put out.old 0 (row_text (held component.now) state) result out.new }
{
    let mut text = [0u8; logs::LONGEST_ROW];
    let length = saved::put_state(component, state, &mut text);
    text::put_bytes(out, 0, &text[..length])
}

// The row reached, and what the pair says of it.
fn put_reached(component: &Component, state: State, out: &mut [u8], pair: &mut [u64]) -> usize
    requires { T (sound (held component.now) state) }
    ensures { Reaches (row (row_text (held component.now) state)) out.old pair.old result out.new pair.new }
{
    let end = put_row(component, state, out);
    put_pair(pair, if end == 0 { NO_ROOM } else { 0 }, 0);
    end
}

// The row that a log reaches, judged against a component.
fn reach_log(component: &Component, log: &[u8], out: &mut [u8], pair: &mut [u64]) -> usize
    ensures { Reaches (log_reach (held component.now) log.now) out.old pair.old result out.new pair.new }
{
    let ran = pass(component, log, engine::fresh_going());
    let refusal = judging::refusal_of(ran.stop);
    if refusal != 0 {
        put_pair(pair, refusal, ran.going.tally.lines() + 1);
        return 0;
    }
    put_reached(component, ran.going.state, out, pair)
}

// The recorder's call: the row of the state behind a log's last line, with its newline. Answers its length; or 0 with the buffer unchanged where
// the table or the log is refused or the row does not fit. The pair then has the refusal's number and line, 31 and 0 for a row that does not
// fit, and else 0 and 0; a pair of less than two is left alone.
pub fn reached(table: &[u8], log: &[u8], out: &mut [u8], pair: &mut [u64]) -> usize
    ensures { Reaches (reach_on table.now log.now) out.old pair.old result out.new pair.new }
{
    let read = table::read_table(table);
    match &read {
        Ok(table) => {
            let component = Component {
                rows: table.rows,
                index: preparing::index_of(table),
            };
            reach_log(&component, log, out, pair)
        }
        Err(refused) => {
            put_pair(pair, refused.fault.number(), refused.line as u64);
            0
        }
    }
}

// Goes through the whole lines of the log's bytes at the front of the block, all of them where the input has ended, and moves the bytes left to
// the front.
pub fn reach_block(
    component: &Component,
    block: &mut [u8],
    have: usize,
    ended: bool,
    going: Going,
) -> Turn
    requires { Ready (held component.now) going × Roomy going.tally have × (have ≤ length block.old) }
    ensures { Turned (held component.now) going ended block.old have result block.new }
{
    let end = stream::chunk_end(&block[..have], ended);
    let ran = pass(component, &block[..end], going);
    let held = stream::to_front(block, end, have);
    let refusal = judging::refusal_of(ran.stop);
    Turn {
        going: ran.going,
        refusal,
        held,
        over: ended || refusal != 0,
    }
}

// Writes what the program tells in the end: the row, or the refusal's number and line. The refusal is a number here, 0 for none, as in
// `put_refusal`: the text is promised for any.
pub fn put_end(component: &Component, out: &mut [u8], going: Going, refusal: u64) -> usize
    requires { T (sound (held component.now) going.state) × (lines_of going.tally ≤ most_count) }
    ensures { Put out.old 0 (reach_text (reach_at (held component.now) going.state refusal (lines_of going.tally))) result out.new }
{
    if refusal == 0 {
        put_row(component, going.state, out)
    } else {
        put_refusal(out, refusal, going.tally.lines() + 1)
    }
}

// Writes a refusal's number and line, or nothing where they do not fit.
pub fn put_refusal(out: &mut [u8], number: u64, line: u64) -> usize
    ensures { Put out.old 0 (reach_text (refused number line)) result out.new }
{
    let mut text = [0u8; 48];
    let tab = text::put_number(&mut text, 0, number);
    text[tab] = text::TAB;
    let newline = text::put_number(&mut text, tab + 1, line);
    text[newline] = text::NEWLINE;
    text::put_bytes(out, 0, &text[..newline + 1])
}
