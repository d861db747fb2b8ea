// The program reached: a table and a log from standard input, the row of the state behind the log's last line to standard output; where it
// refuses, the number and the line to standard error and nothing else. It reads a block and asks what it comes to, so that memory does not grow with
// the log.
#![tactic(auto)]

ghost use Rattle.std.specs.Prelude.{◌≤◌, length, T};
ghost use Rattle.model.specs.Sound.{sound};
ghost use Rattle.prepared.specs.Held.{held};
ghost use Rattle.table.specs.Checks.{Passes};
ghost use Rattle.tally.specs.Tallies.{most_count, lines_of};

use engine::Going;
use prepared::Component;
use std::io;
use std::io::{Read, Write};
use table::Table;

// Room for the answer, a row or a refusal.
const ROOM: usize = 4096;

// Writes the answer: the row to the output, or the refusal's number and line to the errors.
fn tell<W: Write, E: Write>(
    output: &mut W,
    errors: &mut E,
    component: &Component,
    g: Going,
    refusal: u64,
) -> io::Result<()>
    requires { T (sound (held component.now) g.state) × (lines_of g.tally ≤ most_count) }
{
    let mut out = [0u8; ROOM];
    let told = reaching::put_end(component, &mut out, g, refusal);
    if refusal == 0 {
        return output.write_all(&out[..told]);
    }
    errors.write_all(&out[..told])
}

// Goes through the log block after block, up to its end or the first refusal, and tells where it ends. So many bytes of it stand at the front of
// the first block already. Where a read or a write fails the program ends with that error.
fn reach_blocks<R: Read, W: Write, E: Write>(
    input: &mut R,
    output: &mut W,
    errors: &mut E,
    component: &Component,
    block: &mut [u8],
    start: usize,
    last: bool,
) -> io::Result<()>
    requires { (start ≤ length block.old) × (length block.old ≤ 65536) }
{
    let mut g = engine::fresh_going();
    let mut have = start;
    let mut ended = last;
    for turns in 0..blocks::BLOCKS {
        let turn = reaching::reach_block(component, block, have, ended, g);
        g = turn.going;
        if turn.over {
            return tell(output, errors, component, g, turn.refusal);
        }
        have = turn.held;
        let got = blocks::read_behind(input, block, have)?;
        have += got;
        ended = got == 0;
    }
    Ok(())
}

// Goes through the log, judged against an accepted table.
fn reach_log<R: Read, W: Write, E: Write>(
    input: &mut R,
    output: &mut W,
    errors: &mut E,
    t: Table,
    block: &mut [u8],
    have: usize,
    ended: bool,
) -> io::Result<()>
    requires { Passes t × (have ≤ length block.old) × (length block.old ≤ 65536) }
{
    let component = preparing::prepare(t);
    reach_blocks(input, output, errors, &component, block, have, ended)
}

// Writes a refused table's number and line.
fn tell_refused<E: Write>(errors: &mut E, n: u64, line: usize) -> io::Result<()> {
    let mut out = [0u8; ROOM];
    let told = reaching::put_refusal(&mut out, n, line as u64);
    errors.write_all(&out[..told])
}

fn main(rt: HostRuntime) -> io::Result<()> {
    let mut input = rt.stdin();
    let mut output = rt.stdout();
    let mut errors = rt.stderr();
    let mut block = [0u8; blocks::BLOCK];
    let start = blocks::read_start(&mut input, &mut block)?;
    let cut = stream::cut_at(&block[..start.have]);
    match table::read_table(&block[..cut]) {
        Ok(table) => {
            let held = stream::to_front(&mut block, cut, start.have);
            reach_log(
                &mut input,
                &mut output,
                &mut errors,
                table,
                &mut block,
                held,
                start.ended,
            )
        }
        Err(refused) => tell_refused(&mut errors, refused.fault.number(), refused.line),
    }
}
