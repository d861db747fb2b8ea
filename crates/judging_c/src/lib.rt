// The judge for a recorder in C, as host/recorder/judge.h declares it: the exported function of the archive.
#![tactic(auto)]

ghost use Rattle.text.specs.Put.{Put};
ghost use Rattle.judging.specs.Report.{report_on};

// The recorder's call: judges a log against a table's text and writes the report. Answers its length, or 0 where it does not fit; the
// buffer is then unchanged, and so are the bytes past a report. No report is empty, so 0 says that and nothing else.
#[unsafe(no_mangle)]
pub extern "C" fn judge(table: &[u8], log: &[u8], report: &mut [u8]) -> usize
    ensures { Put report.old 0 (report_on table.now log.now) result report.new }
{
    judging::judge(table, log, report)
}
