// The input in blocks, as every program here reads it.
#![tactic(auto)]

ghost use Rattle.std.specs.Prelude.{◌+◌, ◌<◌, ◌≤◌, ℕ, length, take, drop, ◌≡◌, true, IfOk, OnErr};
ghost use Rattle.std.specs.Io.KnownBytes.{Consumes, IsAtEnd, Keeps};
ghost use Rattle.stream.specs.Cut.{cut_known};
ghost use Rattle.table.specs.Texts.{longest};

use std::io;
use std::io::{ErrorKind, Read};

// How much a block holds, with what is held of the one before: a table with the line behind it fits.
pub const BLOCK: usize = 65536;

// How many blocks are read at most, which is more than any disk holds. A log that has more gets no answer.
pub const BLOCKS: u64 = 1099511627776;

// Reads once. A read that a signal interrupts is made again.
fn read_part<R: Read>(input: &mut R, part: &mut [u8]) -> io::Result<usize>
    ensures fit { IfOk result (λ got. got ≤ length part.old) }
    ensures come { IfOk result (λ got. Consumes (R.remaining input.old) (R.remaining input.new) (take got part.new)) }
    ensures end { IfOk result (λ got. got ≡ 0 → 0 < length part.old → IsAtEnd (R.remaining input.new)) }
    ensures lost { OnErr result (Keeps (R.remaining input.old) (R.remaining input.new)) }
{
    for _ in 0..u64::MAX {
        match input.read(part) {
            Err(e) if e.kind() == ErrorKind::Interrupted => {}
            told => return told,
        }
    }
    input.read(part)
}

// Reads once behind the bytes that the block has.
fn read_once<R: Read>(input: &mut R, block: &mut [u8], have: usize) -> io::Result<usize>
    requires { have ≤ length block.old }
    ensures fit { IfOk result (λ got. have + got ≤ length block.old) }
    ensures stay { take have block.new ≡ take have block.old }
    ensures come { IfOk result (λ got. Consumes (R.remaining input.old) (R.remaining input.new) (take got (drop have block.new))) }
    ensures end { IfOk result (λ got. got ≡ 0 → have < length block.old → IsAtEnd (R.remaining input.new)) }
    ensures lost { OnErr result (Keeps (R.remaining input.old) (R.remaining input.new)) }
{
    read_part(input, &mut block[have..])
}

// Reads more behind the bytes that the block has, until it is full or the input ends, and says how many came. Those that it has stay. Where a
// read fails, what came before it stands behind them.
pub fn read_behind<R: Read>(input: &mut R, block: &mut [u8], have: usize) -> io::Result<usize>
    requires { have ≤ length block.old }
    ensures fit { IfOk result (λ got. have + got ≤ length block.old) }
    ensures stay { take have block.new ≡ take have block.old }
    ensures come { IfOk result (λ got. Consumes (R.remaining input.old) (R.remaining input.new) (take got (drop have block.new))) }
    ensures end { IfOk result (λ got. have + got < length block.old → IsAtEnd (R.remaining input.new)) }
    ensures lost { OnErr result ((got : ℕ) × (have + got ≤ length block.old) × Consumes (R.remaining input.old) (R.remaining input.new) (take got (drop have block.new))) }
{
    let mut at = have;
    // a turn for each read, and how many there are the input alone knows
    while at < block.len() {
        let got = read_once(input, block, at)?;
        if got == 0 {
            return Ok(at - have);
        }
        at += got;
    }
    Ok(at - have)
}

// The bytes at hand, and whether the input has ended: two facts, each of them there whatever the other is.
#[derive(Clone, Copy)]
pub struct Start {
    pub have: usize,
    pub ended: bool,
}

// Reads until the bytes at hand say where the table ends.
pub fn read_start<R: Read>(input: &mut R, block: &mut [u8]) -> io::Result<Start>
    ensures within { IfOk result (λ s. s.have ≤ length block.old) }
    ensures known { IfOk result (λ s. cut_known s.ended (take s.have block.new) ≡ true) }
    ensures come { IfOk result (λ s. Consumes (R.remaining input.old) (R.remaining input.new) (take s.have block.new)) }
    ensures end { IfOk result (λ s. s.ended ≡ true → s.have < length block.old → IsAtEnd (R.remaining input.new)) }
    ensures few { IfOk result (λ s. s.ended ≡ true → s.have ≤ longest) }
    ensures lost { OnErr result ((got : ℕ) × (got ≤ length block.old) × Consumes (R.remaining input.old) (R.remaining input.new) (take got block.new)) }
{
    let mut have = 0;
    let mut ended = false;
    // How many reads it takes is not known before.
    while !stream::cut_known(&block[..have], ended) {
        let got = read_behind(input, block, have)?;
        have += got;
        ended = got == 0;
    }
    Ok(Start { have, ended })
}
