// The report's rows: the bytes of each, and their writers.
#![tactic(auto)]

ghost use Rattle.std.specs.Prelude.{◌≡◌, ◌+◌, ◌≤◌, length};
ghost use Rattle.text.specs.Put.{Put};
ghost use Rattle.report.specs.Rows.{numbers_text, line_text, head_text, cycle_numbers, cycle_text};

// The number of the report's layout.
const LAYOUT: u64 = 1;

// A cycle that was closed and kept.
#[derive(Clone, Copy)]
pub struct Cycle {
    pub task: usize,
    pub cycle: u64,
    pub opened: u64,
    pub closed: u64,
    pub missed: u64,
    pub longest: u64,
}

// How wide a line is, its word so many letters.
pub fn line_width(letters: usize, numbers: &[u64]) -> usize
    requires { (letters ≤ 6) × (length numbers.now ≤ 9) }
    ensures { result ≡ letters + length (numbers_text numbers.now) }
{
    let mut width = letters + 1;
    for n in numbers {
        width += 1 + text::width(*n);
    }
    width
}

// Writes a word with its numbers, or nothing where the line does not fit.
pub fn put_line(buf: &mut [u8], at: usize, word: &[u8], numbers: &[u64]) -> usize
    requires { (length word.now ≤ 6) × (length numbers.now ≤ 9) }
    ensures { Put buf.old at (line_text word.now numbers.now) result buf.new }
{
    let width = line_width(word.len(), numbers);
    if !text::fits(buf.len(), at, width) {
        return at;
    }
    let mut place = text::put_bytes(buf, at, word);
    for n in numbers {
        buf[place] = text::TAB;
        place = text::put_number(buf, place + 1, *n);
    }
    buf[place] = text::NEWLINE;
    place + 1
}

// Writes the header, or nothing where it does not fit.
pub fn put_head(buf: &mut [u8]) -> usize
    ensures { Put buf.old 0 head_text result buf.new }
{
    put_line(buf, 0, b"cycles", &[LAYOUT])
}

// The numbers of a kept cycle's row.
fn cycle_numbers(k: Cycle) -> [u64; 6]
    ensures { result ≡ cycle_numbers k }
{
    [
        k.task as u64,
        k.cycle,
        k.opened,
        k.closed,
        k.missed,
        k.longest,
    ]
}

// Writes the row of a kept cycle, or nothing where it does not fit.
pub fn put_cycle(buf: &mut [u8], at: usize, k: Cycle) -> usize
    ensures { Put buf.old at (cycle_text k) result buf.new }
{
    put_line(buf, at, b"kept", &cycle_numbers(k))
}
