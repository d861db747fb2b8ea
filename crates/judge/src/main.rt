// The program judge: a table and a log from standard input, the report to standard output. It reads a block, asks what is told of it and
// writes that, so that memory does not grow with the log; what the bytes are is decided in streaming.
#![tactic(auto)]

ghost use Rattle.std.specs.Prelude.{◌≤◌, length};
ghost use Rattle.prepared.specs.Held.{held};
ghost use Rattle.table.specs.Checks.{Passes};
ghost use Rattle.streaming.specs.Turns.{most_block};

use prepared::Component;
use std::io;
use std::io::{Read, Write};
use table::Table;

// Room for the header, or for the report on a refused table.
const OPENING: usize = 256;

// Room for whatever is told of a block.
const ROOM: usize = 172032;

// Judges the log block after block, up to its end or the first refusal. So many bytes of it stand at the front of the first block already.
// Where a read or a write fails the program ends with that error.
fn judge_blocks<R: Read, W: Write>(
    input: &mut R,
    output: &mut W,
    component: &Component,
    block: &mut [u8],
    start: usize,
    last: bool,
) -> io::Result<()>
    requires { (start ≤ length block.old) × (length block.old ≤ most_block) }
{
    let mut out = [0u8; ROOM];
    let mut g = engine::fresh_going();
    let mut have = start;
    let mut ended = last;
    for turns in 0..blocks::BLOCKS {
        let turn = streaming::judge_block(component, block, have, ended, g, &mut out);
        output.write_all(&out[..turn.told])?;
        if turn.over {
            return Ok(());
        }
        g = turn.going;
        have = turn.held;
        let got = blocks::read_behind(input, block, have)?;
        have += got;
        ended = got == 0;
    }
    Ok(())
}

// Judges the log against an accepted table.
fn judge_log<R: Read, W: Write>(
    input: &mut R,
    output: &mut W,
    t: Table,
    block: &mut [u8],
    have: usize,
    ended: bool,
) -> io::Result<()>
    requires { Passes t × (have ≤ length block.old) × (length block.old ≤ most_block) }
{
    let component = preparing::prepare(t);
    judge_blocks(input, output, &component, block, have, ended)
}

fn main(rt: HostRuntime) -> io::Result<()> {
    let mut input = rt.stdin();
    let mut output = rt.stdout();
    let mut out = [0u8; OPENING];
    let mut block = [0u8; blocks::BLOCK];
    let start = blocks::read_start(&mut input, &mut block)?;
    let opened = streaming::open_table(&mut block, start.have, &mut out);
    output.write_all(&out[..opened.told])?;
    if let Some(table) = opened.table {
        judge_log(
            &mut input,
            &mut output,
            table,
            &mut block,
            opened.held,
            start.ended,
        )?;
    }
    Ok(())
}
