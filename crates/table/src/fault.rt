// Why a table is refused.
#![tactic(auto)]

ghost use Rattle.std.specs.Prelude.{◌≡◌};
ghost use Rattle.table.specs.Faults.{number_of};

// The refusals of a table; each has its number.
#[derive(Clone, Copy, PartialEq, Eq)]
pub enum Fault {
    // "wrong word, field count or number form; a last line without newline"
    Form = 1,
    // "row out of its place or order, or after `end`; edge or mutex row repeated; mutex with the larger codel first"
    Order = 2,
    // "one row too many of its kind; period, keep or limit out of range"
    Limit = 3,
    // "a number names no earlier row"
    Unknown = 4,
    // "second start or stop of an activity; edge across activities, to a stop, or a pause to ether; mutex inside one task"
    Graph = 5,
    // "`end` has the wrong count, or is absent"
    End = 6,
    // "no task, a task without activity, an activity without start, a codel without edge"
    Missing = 7,
    // "exactly when the text is longer than the lent buffer"
    NoRoom = 31,
}

impl Fault {
    // Its number.
    pub fn number(self) -> u64
        ensures { result ≡ number_of self }
    {
        self as u64
    }

    // The refusal at a line.
    pub(crate) fn at(self, line: usize) -> Refused
        ensures { (result.fault ≡ self) × (result.line ≡ line) }
    {
        Refused { fault: self, line }
    }
}

// The refusal of a table, and the line where it is given.
#[derive(Clone, Copy, PartialEq, Eq)]
pub struct Refused {
    pub fault: Fault,
    pub line: usize,
}
