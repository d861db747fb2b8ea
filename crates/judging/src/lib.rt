// The judge: a log judged against a table, and the report written. What the program streams and what the recorder calls is one work.
#![tactic(auto)]

ghost use Rattle.std.specs.Prelude.{◌≡◌, ◌≤◌, length, leb};
ghost use Rattle.text.specs.Put.{Put};
ghost use Rattle.model.specs.Cycles.{refused_report};
ghost use Rattle.prepared.specs.Held.{held};
ghost use Rattle.tally.specs.Tallies.{most_count, lines_of, sum_of};
ghost use Rattle.report.specs.Rows.{sum_numbers, sum_text};
ghost use Rattle.judging.specs.Report.{report_text, log_text, report_on, refusal_of, surely};

use engine::{Going, Stop};
use prepared::Component;

// The longest `kept` row.
const LONGEST_KEPT: usize = 75;

// The header's width, and its width with that of the longest `sum` row.
const HEAD: usize = 9;

const HEAD_AND_SUM: usize = 202;

// How much room the rows have that are only measured.
const SCRATCH: usize = 4096;

// What the lines of a closed cycle take at least: its `sm` and its `fm`.
const CYCLE_LINES: usize = 44;

// Writes the `sum` row, or nothing where it does not fit. The refusal is a number here, as in `put_refused`: the row is promised for any.
pub fn put_sum(
    component: &Component,
    buf: &mut [u8],
    at: usize,
    going: Going,
    refusal: u64,
) -> usize
    requires { lines_of going.tally ≤ most_count }
    ensures { Put buf.old at (sum_text (sum_of (held component.now) going.state going.tally refusal)) result buf.new }
{
    let numbers = tally::sum_numbers(component, going.state, going.tally, refusal);
    report::put_line(buf, at, b"sum", &numbers)
}

// The zeros of a refused table's `sum` row, with its refusal and line.
fn refused_numbers(refusal: u64, line: usize) -> [u64; 9]
    ensures { result ≡ sum_numbers (refused_report refusal line).sum }
{
    [0, 0, 0, 0, 0, 0, 0, refusal, line as u64]
}

// The report on a refused table, or nothing where it does not fit.
pub fn put_refused(report: &mut [u8], refusal: u64, line: usize) -> usize
    ensures { Put report.old 0 (report_text (refused_report refusal line)) result report.new }
{
    let numbers = refused_numbers(refusal, line);
    if report.len() < HEAD + report::line_width(3, &numbers) {
        return 0;
    }
    let at = report::put_head(report);
    report::put_line(report, at, b"sum", &numbers)
}

// Does the report on a log fit the room? Judges it once, its rows into a scratch that is measured and written over. This and `write_report` stay
// calls, so that what one keeps is off the stack before the other judges.
#[inline(never)]
fn does_fit(component: &Component, log: &[u8], room: usize) -> bool
    ensures { result ≡ leb (length (log_text (held component.now) log.now)) room }
{
    if room < HEAD {
        return false;
    }
    let mut scratch = [0u8; SCRATCH];
    let mut going = engine::fresh_going();
    let mut at = 0;
    let mut filled = 0;
    let mut width = HEAD;
    // How many runs it takes is not known before: each cycle that finds no room ends one.
    loop {
        let ran = playing::play(component, log, at, going, &mut scratch, filled);
        if room - width < ran.filled {
            return false;
        }
        going = ran.going;
        at = ran.at;
        width += ran.filled;
        let Stop::Closed(cycle) = ran.stop else {
            let refusal = refusal_of(ran.stop);
            let numbers = tally::sum_numbers(component, going.state, going.tally, refusal);
            return report::line_width(3, &numbers) <= room - width;
        };
        filled = report::put_cycle(&mut scratch, 0, cycle);
    }
}

// The refusal that a run stopped at, 0 for none, as the report's `sum` row tells it.
pub fn refusal_of(stop: Stop) -> u64
    ensures { result ≡ refusal_of stop }
{
    match stop {
        Stop::Refused(refusal) => refusal,
        Stop::End | Stop::Closed(_) | Stop::Row => 0,
    }
}

// Judges a log and writes its report into a buffer that holds it.
#[inline(never)]
fn write_report(component: &Component, log: &[u8], report: &mut [u8]) -> usize
    requires { length (log_text (held component.now) log.now) ≤ length report.old }
    ensures { Put report.old 0 (log_text (held component.now) log.now) result report.new }
{
    let at = report::put_head(report);
    let ran = playing::play(component, log, 0, engine::fresh_going(), report, at);
    put_sum(
        component,
        report,
        ran.filled,
        ran.going,
        refusal_of(ran.stop),
    )
}

// Does a buffer surely hold the report on a log of so many bytes? A cycle that closes has two lines of its own.
fn surely_fits(room: usize, bytes: usize) -> bool
    ensures { result ≡ surely room bytes }
{
    room >= HEAD_AND_SUM && bytes / CYCLE_LINES <= (room - HEAD_AND_SUM) / LONGEST_KEPT
}

// The report on a log, judged against a component; nothing is written where it does not fit.
fn judge_log(component: &Component, log: &[u8], report: &mut [u8]) -> usize
    ensures { Put report.old 0 (log_text (held component.now) log.now) result report.new }
{
    if surely_fits(report.len(), log.len()) || does_fit(component, log, report.len()) {
        write_report(component, log, report)
    } else {
        0
    }
}

// The recorder's call: judges a log against a table's text and writes the report. Answers its length, or 0 where it does not fit; the
// buffer is then unchanged, and so are the bytes past a report. No report is empty, so 0 says that and nothing else.
pub fn judge(table: &[u8], log: &[u8], report: &mut [u8]) -> usize
    ensures { Put report.old 0 (report_on table.now log.now) result report.new }
{
    let read = table::read_table(table);
    match &read {
        Ok(table) => {
            let component = Component {
                rows: table.rows,
                index: preparing::index_of(table),
            };
            judge_log(&component, log, report)
        }
        Err(refused) => put_refused(report, refused.fault.number(), refused.line),
    }
}
