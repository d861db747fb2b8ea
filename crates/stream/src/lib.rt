// An input that comes block after block: where its table ends, how much of a log's bytes at hand are whole lines, and the rest kept for the
// next block. What is judged is no matter here.
#![tactic(auto)]

ghost use Rattle.std.specs.Prelude.{◌≡◌, ◌≢◌, ◌<◌, ◌≤◌, ℕ, length, slice_index, EachIndex, MatchOption};
ghost use Rattle.std.proofs.Math.Seq.{slice};
ghost use Rattle.text.specs.Parts.{split_on};
ghost use Rattle.text.specs.Put.{Put};
ghost use Rattle.stream.specs.Cut.{is_end, end_in, cut_of, cut_known};
ghost use Rattle.stream.specs.Chunk.{lines_end, whole_lines, chunk_end};

// Does a line begin `end` and a tab?
fn is_end(line: &[u8]) -> bool
    ensures { result ≡ is_end line.now }
{
    line.starts_with(b"end\t")
}

// Where the line that ends the table ends, or else the place given.
fn table_end(s: &[u8], most: usize) -> usize
    ensures { result ≡ end_in 0 (split_on 10 s.now) most }
{
    let mut at = 0;
    // a turn for each line, and how many there are is not known before
    while at < s.len() {
        let end = text::next_byte(s, at, text::NEWLINE);
        if s.len() <= end {
            return most;
        }
        if is_end(&s[at..end]) {
            return end + 1;
        }
        at = end + 1;
    }
    most
}

// How many bytes of the input are the table.
pub fn cut_at(s: &[u8]) -> usize
    ensures { result ≡ cut_of s.now }
{
    if s.len() <= table::LONGEST {
        table_end(s, s.len())
    } else {
        table_end(&s[..table::LONGEST], table::LONGEST + 1)
    }
}

// Do the bytes that came so far say where the table ends, whatever follows? Where they do not, the next block goes behind them.
pub fn cut_known(s: &[u8], ended: bool) -> bool
    ensures { result ≡ cut_known ended s.now }
{
    ended || table::LONGEST < s.len() || 0 < table_end(s, 0)
}

// Where the last newline stands, if there is one.
fn last_newline(s: &[u8]) -> Option<usize>
    ensures { MatchOption result (EachIndex s.now (λ k. slice_index s.now k ≢ 10)) (λ i. (i < length s.now) × (slice_index s.now i ≡ 10) × ((k : ℕ) → i < k → k < length s.now → slice_index s.now k ≢ 10)) }
{
    s.iter().rposition(|b| *b == text::NEWLINE)
}

// How many bytes there are up to and with the last newline.
fn lines_end(s: &[u8]) -> usize
    ensures { result ≡ lines_end s.now }
{
    match last_newline(s) {
        Some(last) => last + 1,
        None => 0,
    }
}

// How many bytes of a part of a log are whole lines. What follows is left for later, unless it is too long to be a line.
fn whole_lines(s: &[u8]) -> usize
    ensures { result ≡ whole_lines s.now }
{
    let end = lines_end(s);
    if s.len() - end < logs::LONGEST_ROW {
        end
    } else {
        s.len()
    }
}

// How many bytes of those at hand are taken now: the whole lines, or all of them where the input has ended.
pub fn chunk_end(s: &[u8], ended: bool) -> usize
    ensures { result ≡ chunk_end ended s.now }
{
    if ended { s.len() } else { whole_lines(s) }
}

// Moves the bytes from a place up to an end to the front of the block, where the next block goes behind them, and says how many they are.
pub fn to_front(block: &mut [u8], from: usize, end: usize) -> usize
    requires { end ≤ length block.old }
    ensures { Put block.old 0 (slice from end block.old) result block.new }
{
    if end <= from {
        return 0;
    }
    block.copy_within(from..end, 0);
    end - from
}
