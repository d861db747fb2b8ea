// The row reached for a recorder in C, as host/recorder/judge.h declares it: the exported function of the archive.
#![tactic(auto)]

ghost use Rattle.reaching.specs.Reaching.{reach_on, Reaches};

// The recorder's call: the row of the state behind a log's last line, with its newline. Answers its length; or 0 with the buffer unchanged where
// the table or the log is refused or the row does not fit. The pair then has the refusal's number and line, 31 and 0 for a row that does not
// fit, and else 0 and 0; a pair of less than two is left alone.
#[unsafe(no_mangle)]
pub extern "C" fn reached(table: &[u8], log: &[u8], out: &mut [u8], pair: &mut [u64]) -> usize
    ensures { Reaches (reach_on table.now log.now) out.old pair.old result out.new pair.new }
{
    reaching::reached(table, log, out, pair)
}
