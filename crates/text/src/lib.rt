// Bytes: the numbers, sets, words, lines and fields of which tables, logs and reports are made.
#![tactic(auto)]

ghost use Rattle.std.specs.Prelude.{◌≡◌, ◌+◌, ◌-◌, ◌<◌, ◌≤◌, ◌^◌, length, drop, leb, SomeIff};
ghost use Rattle.std.proofs.lemmas.List.Edits.{sets};
ghost use Rattle.text.specs.Parts.{first_at, field_at};
ghost use Rattle.text.specs.Digits.{glyph_of, value_of, scan, pad};
ghost use Rattle.text.specs.Number.{read_number, width_of, digits};
ghost use Rattle.text.specs.Set.{bit, member, read_set, set_text, bits_between, between};
ghost use Rattle.text.specs.Words.{word_in, word_at};
ghost use Rattle.text.specs.Fields.{read_target};
ghost use Rattle.text.specs.Put.{Put};
ghost use Rattle.text.specs.Standing.{past};

// The byte that parts the fields of a line.
pub const TAB: u8 = b'\t';

// The byte that ends a line.
pub const NEWLINE: u8 = b'\n';

// How many members a set has room for: each is below this number.
const SET_ROOM: usize = 128;

// How many members, and how many digits, each half of a set has.
const HALF_ROOM: usize = 64;

const HALF_DIGITS: usize = 16;

// "Numbers are decimal, one to ten digits": the most that a number of a table or a log has.
pub const MOST_DIGITS: usize = 10;

// `ether` where a codel may stand: "`ether` after every number".
pub const ETHER: u64 = 10000000000;

// No number of more digits is read, so that each fits.
const WIDEST: usize = 19;

// A set: its first members are the bits of the low half, counted from the low end, and those from 64 on are the bits of the high half.
#[derive(Clone, Copy)]
pub struct Set {
    pub low: u64,
    pub high: u64,
}

// The byte of a digit.
fn glyph(d: u64) -> u8
    requires { d < 16 }
    ensures { result ≡ glyph_of d }
{
    match d {
        0..=9 => b'0' + d as u8,
        _ => b'a' + (d as u8 - 10),
    }
}

// What a byte says as a digit of a base.
fn digit(b: u8, base: u64) -> Option<u64>
    requires { base ≤ 16 }
    ensures { SomeIff result (value_of b < base) (value_of b) }
{
    let d = match b {
        b'0'..=b'9' => b - b'0',
        b'a'..=b'f' => b - b'a' + 10,
        _ => return None,
    };
    (u64::from(d) < base).then_some(u64::from(d))
}

// The value of the digits that a field is made of.
fn read_digits(s: &[u8], base: u64) -> Option<u64>
    requires { (0 < base) × (base ≤ 16) × (base ^ length s.now ≤ 18446744073709551616) }
    ensures { result ≡ scan base 0 s.now }
{
    let mut v: u64 = 0;
    for b in s {
        let d = digit(*b, base)?;
        v = v * base + d;
    }
    Some(v)
}

// What a field says as a decimal number of at most so many digits.
pub fn read_number(s: &[u8], most: usize) -> Option<u64>
    ensures { result ≡ read_number most s.now }
{
    let n = s.len();
    if n == 0 || most < n || WIDEST < n {
        return None;
    }
    if n != 1 && s[0] == b'0' {
        return None;
    }
    read_digits(s, 10)
}

// Where the zeros end that a field begins with: most of a set's digits are zeros, and they add nothing.
fn past_zeros(s: &[u8]) -> usize
    ensures { (result ≤ length s.now) × (scan 16 0 (drop result s.now) ≡ scan 16 0 s.now) }
{
    s.iter().position(|b| *b != b'0').unwrap_or(s.len())
}

// What the digits of a half say.
fn read_half(s: &[u8]) -> Option<u64>
    requires { length s.now ≤ 16 }
    ensures { result ≡ scan 16 0 s.now }
{
    let i = past_zeros(s);
    read_digits(&s[i..], 16)
}

// What a field says as a set of so many digits, at most thirty-two: the last sixteen are its low half.
pub fn read_set(s: &[u8], digits: usize) -> Option<Set>
    ensures { result ≡ read_set digits s.now }
{
    if s.len() != digits || HALF_DIGITS + HALF_DIGITS < digits {
        return None;
    }
    let (high, low) = s.split_at(digits.saturating_sub(HALF_DIGITS));
    Some(Set {
        low: read_half(low)?,
        high: read_half(high)?,
    })
}

// Is bit i of a half set?
fn has_bit(n: u64, i: usize) -> bool
    requires { i < 64 }
    ensures { result ≡ bit n i }
{
    (n >> i) % 2 == 1
}

// Two to the k.
fn power(k: usize) -> u64
    requires { k < 64 }
    ensures { result ≡ 2 ^ k }
{
    1u64 << k
}

// Does each bit of a half that is set stand from one place on and before another?
fn bits_between(n: u64, from: usize, to: usize) -> bool
    ensures { result ≡ bits_between n from to }
{
    if n == 0 {
        return true;
    }
    if HALF_ROOM <= from || n % power(from) != 0 {
        return false;
    }
    HALF_ROOM <= to || n < power(to)
}

impl Set {
    // Is i a member?
    pub fn has_member(self, i: usize) -> bool
        ensures { result ≡ member self i }
    {
        if i < HALF_ROOM {
            return has_bit(self.low, i);
        }
        i < SET_ROOM && has_bit(self.high, i - HALF_ROOM)
    }

    // Is each member at least one number and below another?
    pub fn is_between(self, from: usize, to: usize) -> bool
        ensures { result ≡ between self from to }
    {
        bits_between(self.low, from, to)
            && bits_between(
                self.high,
                from.saturating_sub(HALF_ROOM),
                to.saturating_sub(HALF_ROOM),
            )
    }
}

// How many digits a number has.
pub fn width(n: u64) -> usize
    ensures { result ≡ width_of n }
{
    let mut power: u64 = 10;
    for w in 1..WIDEST {
        if n < power {
            return w;
        }
        power *= 10;
    }
    if n < power { WIDEST } else { WIDEST + 1 }
}

// Is there room for so many bytes at a place of a buffer of that length?
pub fn fits(have: usize, at: usize, many: usize) -> bool
    ensures { result ≡ leb (at + many) have }
{
    at <= have && many <= have - at
}

// Writes the k low digits of n from a place on.
fn put_digits(buf: &mut [u8], at: usize, base: u64, k: usize, n: u64)
    requires { (0 < base) × (base ≤ 16) × (at + k ≤ length buf.old) }
    ensures { buf.new ≡ sets buf.old at (pad base k n) }
{
    let mut left = n;
    for j in (0..k).rev() {
        buf[at + j] = glyph(left % base);
        left /= base;
    }
}

// Writes a number at a place, and answers the place after it; where it does not fit, writes nothing and answers the same place.
pub fn put_number(buf: &mut [u8], at: usize, n: u64) -> usize
    ensures { Put buf.old at (digits n) result buf.new }
{
    let w = width(n);
    if !fits(buf.len(), at, w) {
        return at;
    }
    put_digits(buf, at, 10, w, n);
    at + w
}

// Writes a set over so many digits at a place, as `put_number` does a number.
pub fn put_set(buf: &mut [u8], at: usize, digits: usize, set: Set) -> usize
    ensures { Put buf.old at (set_text digits set) result buf.new }
{
    if !fits(buf.len(), at, digits) {
        return at;
    }
    let cut = digits.saturating_sub(HALF_DIGITS);
    put_digits(buf, at, 16, cut, set.high);
    put_digits(buf, at + cut, 16, digits - cut, set.low);
    at + digits
}

// Writes bytes at a place, as `put_number` does a number.
pub fn put_bytes(buf: &mut [u8], at: usize, s: &[u8]) -> usize
    ensures { Put buf.old at s.now result buf.new }
{
    if !fits(buf.len(), at, s.len()) {
        return at;
    }
    for (i, b) in s.iter().enumerate() {
        buf[at + i] = *b;
    }
    at + s.len()
}

// What a field says as a codel's number or `ether`.
pub fn read_target(s: &[u8]) -> Option<u64>
    ensures { result ≡ read_target s.now }
{
    if s == b"ether".as_slice() {
        return Some(ETHER);
    }
    read_number(s, MOST_DIGITS)
}

// The place of the first b at or after a place, or the end, byte after byte.
fn byte_behind(s: &[u8], at: usize, b: u8) -> usize
    ensures { result ≡ first_at s.now at b }
{
    for i in at..s.len() {
        if s[i] == b {
            return i;
        }
    }
    at.max(s.len())
}

// The place of the first b at or after a place, or the end: where a line or a field ends.
// Four bytes a turn while there are as many: byte after byte took a sixth to a half more instructions on the fields and lines of a log.
pub fn next_byte(s: &[u8], at: usize, b: u8) -> usize
    ensures { result ≡ first_at s.now at b }
{
    let most = s.len().saturating_sub(3);
    let mut i = at;
    while i < most {
        if let Some(k) = s[i..i + 4].iter().position(|x| *x == b) {
            return i + k;
        }
        i += 4;
    }
    byte_behind(s, i, b)
}

// Where field i of a line stands.
pub fn nth_field(line: &[u8], i: usize) -> Option<(usize, usize)>
    ensures { result ≡ field_at line.now i }
{
    let mut at = 0;
    for _ in 0..i {
        let e = next_byte(line, at, TAB);
        if line.len() <= e {
            return None;
        }
        at = e + 1;
    }
    Some((at, next_byte(line, at, TAB)))
}

// Which word of a set a field is; the set is a line whose fields are its words.
pub fn word_in(words: &[u8], p: &[u8]) -> Option<usize>
    ensures { result ≡ word_in words.now p.now }
{
    let mut at = 0;
    for k in 0..words.len() + 1 {
        let e = next_byte(words, at, TAB);
        if p == &words[at..e] {
            return Some(k);
        }
        if words.len() <= e {
            return None;
        }
        at = e + 1;
    }
    None
}

// Word i of a set; nothing past the last.
fn word(words: &[u8], i: usize) -> &[u8]
    ensures { result.now ≡ word_at words.now i }
{
    let Some((start, end)) = nth_field(words, i) else {
        return &[];
    };
    &words[start..end]
}

// Writes word i of a set at a place, as `put_number` does a number; past the last word there is nothing to write.
pub fn put_word(buf: &mut [u8], at: usize, words: &[u8], i: usize) -> usize
    ensures { Put buf.old at (word_at words.now i) result buf.new }
{
    put_bytes(buf, at, word(words, i))
}

// How long word i of a set is; past the last word 0.
pub fn word_width(words: &[u8], i: usize) -> usize
    ensures { result ≡ length (word_at words.now i) }
{
    word(words, i).len()
}

// The place behind the k low digits of n where they stand at a place; the end where they do not.
fn past_digits(s: &[u8], at: usize, base: u64, k: usize, n: u64) -> usize
    requires { (0 < base) × (base ≤ 16) × (at ≤ length s.now) }
    ensures { result ≡ past s.now at (pad base k n) }
{
    if !fits(s.len(), at, k) {
        return s.len();
    }
    let mut left = n;
    for j in (0..k).rev() {
        if s[at + j] != glyph(left % base) {
            return s.len();
        }
        left /= base;
    }
    at + k
}

// The place behind a number where it stands at a place; the end where it does not.
pub fn past_number(s: &[u8], at: usize, n: u64) -> usize
    requires { at ≤ length s.now }
    ensures { result ≡ past s.now at (digits n) }
{
    past_digits(s, at, 10, width(n), n)
}

// The place behind bytes where they stand at a place; the end where they do not. All are compared, so that the compiler may compare many at
// once: `==`, which stops at the first that differs, took nearly twice the instructions on a row's sixteen zeros.
pub fn past_bytes(s: &[u8], at: usize, word: &[u8]) -> usize
    requires { at ≤ length s.now }
    ensures { result ≡ past s.now at word.now }
{
    if !fits(s.len(), at, word.len()) {
        return s.len();
    }
    let mut alike = true;
    for (i, b) in word.iter().enumerate() {
        alike &= s[at + i] == *b;
    }
    if alike {
        return at + word.len();
    }
    s.len()
}

// The place behind the digits of a half of a set where they stand at a place; the end where they do not. Most are zeros.
pub fn past_half(s: &[u8], at: usize, n: u64) -> usize
    requires { at ≤ length s.now }
    ensures { result ≡ past s.now at (pad 16 16 n) }
{
    if n == 0 {
        return past_bytes(s, at, b"0000000000000000");
    }
    past_digits(s, at, 16, HALF_DIGITS, n)
}
