// Why a line of a log is refused.
#![tactic(auto)]

ghost use Rattle.std.specs.Prelude.{◌≡◌};
ghost use Rattle.model.specs.Refusals.{number_of};

// The refusals of a log's lines, and of a step that is given by value; each has document 01's number.
#[derive(Clone, Copy, PartialEq, Eq)]
pub enum Refusal {
    // "line over 63 bytes with its newline, line without newline, or not a step"; a `state` row that does not read
    NoStep = 11,
    // "no such task, activity or codel; a set outside its task; d out of range"
    Unknown = 12,
    // "the step's conditions fail, clocks and conflicts apart"
    NotAllowed = 13,
    // "`st` with timer below the period; `ea` or `fa` from a codel at clock 0"
    TooEarly = 14,
    // "`cx` while a conflicting codel executes"
    InConflict = 15,
    // "`wait` while some .. would be accepted"
    StillEnabled = 16,
    // "`wait` that takes a timer past its period or an executing clock past its limit"
    TooLate = 17,
    // "`wait` past the date 1,000,000,000,000"
    PastCeiling = 18,
    // "table that the reader would refuse, or state not sound"
    NotGiven = 19,
    // a `state` row whose state is not sound
    Unsound = 20,
    // a `state` row behind line 1 that is sound but not the state reached
    NotReached = 21,
}

impl Refusal {
    // Document 01's number.
    pub fn number(self) -> u64
        ensures { result ≡ number_of self }
    {
        self as u64
    }
}
