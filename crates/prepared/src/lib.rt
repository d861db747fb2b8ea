// The prepared table: lookups in the rows of an accepted table, by an index of what follows from them. Each answers as the model's definition.
#![tactic(auto)]

ghost use Rattle.std.specs.Prelude.{◌≡◌, ◌+◌, ◌<◌, ◌≤◌, length, T};
ghost use Rattle.model.specs.Tables.{safe, has_edge, is_start, known};
ghost use Rattle.model.specs.Rules.{stop_of};
ghost use Rattle.prepared.specs.Held.{held};
ghost use Rattle.prepared.specs.Prepared.{number_place, number_in, begin_of, end_of, acts_at, small, slot_in, pause_of, conflict, Prepared, table_in};

pub use component::Component;
use model::Place;

mod component;

// Where the index has a number that nothing asks for, behind the counts of each kind.
pub const NOWHERE: usize = row::STORED;

// Where each part of the index begins: thread-safe codels, the ends of each codel's edges, the beginnings and ends of the mutex rows of
// each smaller codel, the starts and stops of activities, the ends of each task's activities. They are places of one array, since the
// definition of a prepared table speaks of one list; an index of named arrays would turn it round.
pub const SAFE: usize = NOWHERE + 1;

pub const EDGES: usize = SAFE + model::MOST_CODELS;

pub const PAIRS_FROM: usize = EDGES + model::MOST_CODELS;

pub const PAIRS_END: usize = PAIRS_FROM + model::MOST_CODELS;

pub const STARTS: usize = PAIRS_END + model::MOST_CODELS;

pub const STOPS: usize = STARTS + model::MOST_ACTS;

pub const ACTS: usize = STOPS + model::MOST_ACTS;

// How many numbers an index takes.
pub const INDEX: usize = ACTS + model::MOST_TASKS;

// An activity without stop.
pub const NO_STOP: u32 = model::MOST_CODELS as u32;

// Where the rows of each kind begin.
const TASK_ROWS: usize = 0;

pub const ACT_ROWS: usize = row::FIELDS * table::ACT_BASE;

pub const CODEL_ROWS: usize = row::FIELDS * table::CODEL_BASE;

pub const EDGE_ROWS: usize = row::FIELDS * table::EDGE_BASE;

pub const MUTEX_ROWS: usize = row::FIELDS * table::MUTEX_BASE;

// Number j of row i of the rows that begin at a place.
pub fn number(rows: &[u32], at: usize, i: usize, j: usize) -> u32
    requires { number_place at i j < length rows.now }
    ensures { result ≡ number_in rows.now at i j }
{
    rows[at + row::FIELDS * i + j]
}

// Where the rows that belong to row i begin, by the ends from a place of the index on.
fn rows_begin(index: &[u32], at: usize, i: usize) -> usize
    requires { at + i < length index.now }
    ensures { result ≡ begin_of index.now at i }
{
    if i == 0 {
        0
    } else {
        index[at + i - 1] as usize
    }
}

// A place as a stored target.
fn target_slot(p: Place) -> u32
    requires { T (small p) }
    ensures { result ≡ slot_in p }
{
    match p {
        Place::Ether => table::ETHER_SLOT,
        Place::Codel(c) => c as u32,
    }
}

// Is there an edge of that mode from a codel to a place? By the rows and the index as slices, whose numbers are known to fit.
#[tactic(auto, using(crate::proofs::Stored::limits))]
fn leads(rows: &[u32], index: &[u32], c: usize, p: Place, pause: bool) -> bool
    requires { Prepared rows.now index.now × (c < (table_in rows.now index.now).ncodels) × T (known (table_in rows.now index.now) p) }
    ensures { result ≡ has_edge (table_in rows.now index.now) c p pause }
{
    let target = target_slot(p);
    let end = index[EDGES + c] as usize;
    for e in rows_begin(index, EDGES, c)..end {
        if number(rows, EDGE_ROWS, e, 1) == target
            && (number(rows, EDGE_ROWS, e, 2) != 0) == pause
        {
            return true;
        }
    }
    false
}

#[tactic(auto, using(crate::proofs::Stored::limits, crate::proofs::Stored::number_is), unfolding(table::specs::Tables::table_of, row::specs::Kinds::form_of))]
impl Component {
    // How many tasks there are.
    pub fn tasks(&self) -> usize
        ensures { result ≡ (held self.now).ntasks }
    {
        self.index[0] as usize
    }

    // How many activities there are.
    pub fn acts(&self) -> usize
        ensures { result ≡ (held self.now).nacts }
    {
        self.index[1] as usize
    }

    // How many codels there are.
    pub fn codels(&self) -> usize
        ensures { result ≡ (held self.now).ncodels }
    {
        self.index[2] as usize
    }

    // How many edges there are.
    pub fn edge_count(&self) -> usize
        ensures { result ≡ (held self.now).nedges }
    {
        self.index[3] as usize
    }

    // How many mutex rows there are.
    pub fn mutex_count(&self) -> usize
        ensures { result ≡ (held self.now).nmutex }
    {
        self.index[4] as usize
    }

    // A task's period.
    pub fn period_of(&self, t: usize) -> u64
        requires { t < (held self.now).ntasks }
        ensures { result ≡ (held self.now).period t }
    {
        u64::from(number(&self.rows, TASK_ROWS, t, 0))
    }

    // A task's keep.
    pub fn keep_of(&self, t: usize) -> u64
        requires { t < (held self.now).ntasks }
        ensures { result ≡ (held self.now).keep t }
    {
        u64::from(number(&self.rows, TASK_ROWS, t, 1))
    }

    // An activity's task.
    pub fn task_of(&self, a: usize) -> usize
        requires { a < (held self.now).nacts }
        ensures { result ≡ (held self.now).task a }
    {
        number(&self.rows, ACT_ROWS, a, 0) as usize
    }

    // A codel's activity.
    pub fn owner_of(&self, c: usize) -> usize
        requires { c < (held self.now).ncodels }
        ensures { result ≡ (held self.now).owner c }
    {
        number(&self.rows, CODEL_ROWS, c, 0) as usize
    }

    // A codel's limit.
    pub fn limit_of(&self, c: usize) -> u64
        requires { c < (held self.now).ncodels }
        ensures { result ≡ (held self.now).limit c }
    {
        u64::from(number(&self.rows, CODEL_ROWS, c, 2))
    }

    // Is a codel thread safe?
    pub fn is_safe(&self, c: usize) -> bool
        requires { c < (held self.now).ncodels }
        ensures { result ≡ safe (held self.now) c }
    {
        self.index[SAFE + c] == 1
    }

    // Is a codel an activity's start?
    pub fn is_start(&self, a: usize, c: usize) -> bool
        requires { (a < (held self.now).nacts) × (c < (held self.now).ncodels) }
        ensures { result ≡ is_start (held self.now) a c }
    {
        c == self.index[STARTS + a] as usize
    }

    // An activity's stop codel, or ether where it has none.
    pub fn stop_of(&self, a: usize) -> Place
        requires { a < (held self.now).nacts }
        ensures { result ≡ stop_of (held self.now) a }
    {
        match self.index[STOPS + a] {
            NO_STOP => Place::Ether,
            c => Place::Codel(c as usize),
        }
    }

    // Where a task's activities begin.
    pub fn acts_begin(&self, t: usize) -> usize
        requires { t < (held self.now).ntasks }
        ensures { result ≡ begin_of self.now.index acts_at t }
    {
        rows_begin(&self.index, ACTS, t)
    }

    // Where a task's activities end.
    pub fn acts_end(&self, t: usize) -> usize
        requires { t < (held self.now).ntasks }
        ensures { result ≡ end_of self.now.index acts_at t }
    {
        self.index[ACTS + t] as usize
    }

    // Where an edge pauses: its target, or ether where it is no pause.
    pub fn pause_of(&self, e: usize) -> Place
        requires { e < (held self.now).nedges }
        ensures { result ≡ pause_of ((held self.now).edge e) }
    {
        let target = number(&self.rows, EDGE_ROWS, e, 1);
        if number(&self.rows, EDGE_ROWS, e, 2) == 0 || target == table::ETHER_SLOT {
            return Place::Ether;
        }
        Place::Codel(target as usize)
    }

    // The smaller codel of a mutex row.
    pub fn lower_of(&self, m: usize) -> usize
        requires { m < (held self.now).nmutex }
        ensures { result ≡ ((held self.now).mutex m).lo }
    {
        number(&self.rows, MUTEX_ROWS, m, 0) as usize
    }

    // The larger codel of a mutex row.
    pub fn upper_of(&self, m: usize) -> usize
        requires { m < (held self.now).nmutex }
        ensures { result ≡ ((held self.now).mutex m).hi }
    {
        number(&self.rows, MUTEX_ROWS, m, 1) as usize
    }

    // Is there an edge of that mode from a codel to a place?
    pub fn has_edge(&self, c: usize, p: Place, pause: bool) -> bool
        requires { (c < (held self.now).ncodels) × T (known (held self.now) p) }
        ensures { result ≡ has_edge (held self.now) c p pause }
    {
        leads(&self.rows, &self.index, c, p, pause)
    }

    // Do two codels conflict?
    pub fn in_conflict(&self, c: usize, d: usize) -> bool
        requires { (c < (held self.now).ncodels) × (d < (held self.now).ncodels) }
        ensures { result ≡ conflict (held self.now) c d }
    {
        self.has_pair(c.min(d), c.max(d))
    }

    // Is there a mutex row of the two codels, the smaller first?
    fn has_pair(&self, lo: usize, hi: usize) -> bool
        requires { (lo < (held self.now).ncodels) × (hi < (held self.now).ncodels) × (lo ≤ hi) }
        ensures { result ≡ conflict (held self.now) lo hi }
    {
        let end = self.index[PAIRS_END + lo] as usize;
        for m in self.index[PAIRS_FROM + lo] as usize..end {
            if number(&self.rows, MUTEX_ROWS, m, 1) as usize == hi {
                return true;
            }
        }
        false
    }
}
