// Makes the component of an accepted table: fills its index.
#![tactic(auto)]

ghost use Rattle.std.specs.Prelude.{◌≡◌, ℕ, ◌+◌, ◌≤◌, ◌<◌, length, get_or, eqb};
ghost use Rattle.text.specs.Parts.{pick};
ghost use Rattle.model.specs.Limits.{most_acts, most_codels, most_edges, most_mutexes};
ghost use Rattle.row.specs.Kinds.{stored_kinds};
ghost use Rattle.table.specs.Tables.{table_of, Counted};
ghost use Rattle.table.specs.Checks.{Passes};
ghost use Rattle.prepared.specs.Held.{held};
ghost use Rattle.prepared.specs.Prepared.{index_length, number_place, number_in, Prepared, table_in};
ghost use Rattle.preparing.specs.Filling.{filled, counted, ended, kind_place, kinds_noted, pair_noted, pairs_noted, index_of, Laid};

use prepared::{Component, INDEX};
use table::Table;

// Makes n numbers from a place on v.
fn fill(index: &mut [u32], at: usize, v: u32, n: usize)
    requires { at + n ≤ length index.old }
    ensures { index.new ≡ filled index.old at v n }
{
    index[at..at + n].fill(v);
}

// Notes n rows, the first number of each being the row that it belongs to, where that one has its end.
fn note_ends(rows: &[u32], from: usize, n: usize, index: &mut [u32], at: usize)
    requires { (n ≤ most_edges) × ((e : ℕ) → e < n → (number_place from e 0 < length rows.now) × (at + number_in rows.now from e 0 < length index.old)) }
    ensures { index.new ≡ ended (λ e. number_in rows.now from e 0) at index.old n }
{
    for e in 0..n {
        index[at + prepared::number(rows, from, e, 0) as usize] = (e + 1) as u32;
    }
}

// Where a codel of a kind is noted.
fn kind_place(kind: u32, a: usize) -> usize
    requires { a < most_acts }
    ensures { result ≡ kind_place kind a }
{
    match kind {
        0 => prepared::STARTS + a,
        1 => prepared::STOPS + a,
        _ => prepared::NOWHERE,
    }
}

// Notes each activity's start and stop.
fn note_kinds(t: &Table, index: &mut [u32])
    requires { Laid t.now × (length index.old ≡ index_length) }
    ensures { index.new ≡ kinds_noted (table_of t.now) index.old (table_of t.now).ncodels }
{
    for c in 0..t.counts[2] {
        let a = prepared::number(&t.rows, prepared::CODEL_ROWS, c, 0) as usize;
        let kind = prepared::number(&t.rows, prepared::CODEL_ROWS, c, 1);
        index[kind_place(kind, a)] = c as u32;
    }
}

// Where the mutex rows of a smaller codel begin, once row m is noted.
fn begin_of(end: u32, from: u32, m: usize) -> u32
    requires { m < most_mutexes }
    ensures { result ≡ pick (eqb end 0) m from }
{
    if end == 0 { m as u32 } else { from }
}

// Notes mutex row m: one more of its smaller codel's, and neither codel is thread safe.
fn note_pair(index: &mut [u32], m: usize, lo: usize, hi: usize)
    requires { (length index.old ≡ index_length) × (m < most_mutexes) × (lo < most_codels) × (hi < most_codels) }
    ensures { index.new ≡ pair_noted m lo hi index.old }
{
    let from = begin_of(
        index[prepared::PAIRS_END + lo],
        index[prepared::PAIRS_FROM + lo],
        m,
    );
    index[prepared::PAIRS_FROM + lo] = from;
    index[prepared::PAIRS_END + lo] = (m + 1) as u32;
    index[prepared::SAFE + lo] = 0;
    index[prepared::SAFE + hi] = 0;
}

// Notes each mutex row.
fn note_pairs(t: &Table, index: &mut [u32])
    requires { Laid t.now × (length index.old ≡ index_length) }
    ensures { index.new ≡ pairs_noted (table_of t.now) index.old (table_of t.now).nmutex }
{
    for m in 0..t.counts[4] {
        let lo = prepared::number(&t.rows, prepared::MUTEX_ROWS, m, 0) as usize;
        let hi = prepared::number(&t.rows, prepared::MUTEX_ROWS, m, 1) as usize;
        note_pair(index, m, lo, hi);
    }
}

// The counts in front of the index.
fn note_counts(counts: &[usize], index: &mut [u32])
    requires { Counted counts.now × (length index.old ≡ index_length) }
    ensures { index.new ≡ counted (λ k. get_or counts.now k 0) index.old stored_kinds }
{
    for (k, count) in counts.iter().enumerate() {
        index[k] = *count as u32;
    }
}

// The index of an accepted table. With the table's rows it makes the component, in place where the caller keeps it. It stays a call, so that the
// caller's stack has the index once.
#[inline(never)]
#[tactic(auto, using(crate::proofs::Whole::laid, crate::proofs::Cells::edges_room, crate::proofs::Cells::acts_room))]
pub fn index_of(t: &Table) -> [u32; INDEX]
    requires { Passes t.now }
    ensures { (result ≡ index_of (table_of t.now)) × Prepared t.now.rows result × (table_in t.now.rows result ≡ table_of t.now) }
{
    let mut index = [0u32; INDEX];
    note_counts(&t.counts, &mut index);
    fill(&mut index, prepared::SAFE, 1, model::MOST_CODELS);
    fill(
        &mut index,
        prepared::STOPS,
        prepared::NO_STOP,
        model::MOST_ACTS,
    );
    note_ends(
        &t.rows,
        prepared::EDGE_ROWS,
        t.counts[3],
        &mut index,
        prepared::EDGES,
    );
    note_ends(
        &t.rows,
        prepared::ACT_ROWS,
        t.counts[1],
        &mut index,
        prepared::ACTS,
    );
    note_kinds(t, &mut index);
    note_pairs(t, &mut index);
    index
}

// The component of an accepted table: its rows, with the index that is made of them.
pub fn prepare(t: Table) -> Component
    requires { Passes t }
    ensures { (result.rows ≡ t.rows) × (result.index ≡ index_of (table_of t)) × (held result ≡ table_of t) }
{
    Component {
        rows: t.rows,
        index: index_of(&t),
    }
}
