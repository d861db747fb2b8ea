// Runs the bench cases of document 01 through `stepping::step`, and more for each refusal. A line for each case: its note, the numbers that
// the lines of its log are answered with, one after another from its first state, and then the date and, of task 0, its timer, cycle
// number, open date, missed and longest.
#![tactic(auto)]

use model::State;
use std::io;
use std::io::Write;
use table::{Refused, Table};

fn say<W: Write>(to: &mut W, words: &[u8]) -> io::Result<()> {
    to.write_all(words)
}

fn say_number<W: Write>(to: &mut W, n: u64) -> io::Result<()> {
    write!(to, " {n}")
}

fn say_state<W: Write>(to: &mut W, s: State) -> io::Result<()> {
    let x = s.tasks[0];
    say(to, b";")?;
    say_number(to, s.date)?;
    say(to, b",")?;
    say_number(to, x.timer)?;
    say_number(to, x.cycle)?;
    say_number(to, x.opened)?;
    say_number(to, x.missed)?;
    say_number(to, x.longest)?;
    say(to, b"\n")
}

// Gives the lines of a log to `step`, one after another, and says what comes of them.
fn show<W: Write>(to: &mut W, note: &[u8], t: Table, start: State, log: &[u8]) -> io::Result<()> {
    say(to, note)?;
    say(to, b":")?;
    let mut s = start;
    for line in log.split_inclusive(|b| *b == text::NEWLINE) {
        let r = stepping::step(t, s, line);
        say_number(to, r.number)?;
        s = r.state;
    }
    say_state(to, s)
}

fn show_k<W: Write>(to: &mut W, t: Table, s: State) -> io::Result<()> {
    show(to, b"K fresh", t, s, b"wait\t10\n")?;
    show(to, b"K past its period", t, s, b"wait\t11\n")?;
    show(to, b"K, the timer below its period", t, s, b"st\t0\n")?;
    show(to, b"K, a waiting manager", t, s, b"lm\t0\t0\n")?;
    show(to, b"K at date 10", t, s, b"wait\t10\nwait\t1\n")?;
    show(to, b"K signalled", t, s, b"wait\t10\nst\t0\nwait\t20\n")?;
    show(
        to,
        b"K, a set outside its task",
        t,
        s,
        b"wait\t10\nst\t0\nsm\t0\t0000000000000002\t0000000000000000\n",
    )?;
    show(
        to,
        b"K just after its ea",
        t,
        s,
        b"wait\t10\nst\t0\nsm\t0\t0000000000000001\t0000000000000000\nlm\t0\t0\nea\t0\t0\nfa\t0\tether\n",
    )?;
    show(
        to,
        b"K, one tick is enough",
        t,
        s,
        b"wait\t10\nst\t0\nsm\t0\t0000000000000001\t0000000000000000\nlm\t0\t0\nea\t0\t0\nwait\t1\nfa\t0\tether\nfm\t0\n",
    )?;
    show(
        to,
        b"K, two signals while managing",
        t,
        s,
        b"wait\t10\nst\t0\nsm\t0\t0000000000000001\t0000000000000000\nlm\t0\t0\nea\t0\t0\nwait\t10\nst\t0\nwait\t10\nst\t0\n",
    )?;
    show(
        to,
        b"K, lines that are no step",
        t,
        s,
        b"wait\t010\nea\t0\tether\nwait\t10",
    )?;
    show(
        to,
        b"K, rows that there are not",
        t,
        s,
        b"st\t1\nlm\t0\t1\nea\t0\t1\nfa\t0\t1\nwait\t0\nwait\t1000000001\n",
    )
}

fn show_m<W: Write>(to: &mut W, t: Table, s: State) -> io::Result<()> {
    show(
        to,
        b"M, both standing before their codels",
        t,
        s,
        b"wait\t10\nst\t0\nst\t1\nsm\t0\t0000000000000001\t0000000000000000\nsm\t1\t0000000000000002\t0000000000000000\nlm\t0\t0\nlm\t1\t1\nea\t0\t0\nea\t1\t1\nwait\t1\ncx\t0\ncx\t1\nwait\t1\nfa\t0\tether\ncx\t1\n",
    )
}

// States given by value: at the ceiling, a signal that waits at a due timer, and two that are not sound.
fn show_given<W: Write>(to: &mut W, t: Table, fresh: State) -> io::Result<()> {
    let mut s = fresh;
    s.date = 1000000000000;
    show(to, b"K at the ceiling", t, s, b"wait\t1\n")?;
    s.date = 20;
    s.tasks[0].timer = 10;
    s.tasks[0].signal = true;
    show(to, b"K, a second signal while waiting", t, s, b"st\t0\n")?;
    s.tasks[0].timer = 11;
    show(to, b"K, a timer past its period", t, s, b"st\t0\nno step\n")?;
    s.tasks[0].timer = 0;
    s.tasks[0].missed = 1;
    show(to, b"K, missed while waiting", t, s, b"wait\t1\n")
}

// A period of one tick: at date 2 cycle number, signal and missed are 3 together, more than date minus timer, and the state is sound.
fn show_late<W: Write>(to: &mut W, t: Table, s: State) -> io::Result<()> {
    show(
        to,
        b"a period of 1, late from date 2 on",
        t,
        s,
        b"wait\t1\nst\t0\nsm\t0\t0000000000000001\t0000000000000000\nlm\t0\t0\nea\t0\t0\nwait\t1\nst\t0\nwait\t1\nst\t0\nfa\t0\tether\n",
    )
}

fn show_tables<W: Write>(to: &mut W, t: Table, s: State) -> io::Result<()> {
    let mut u = t;
    u.rows[0] = 0;
    show(to, b"period 0", u, s, b"wait\t1\n")?;
    u = t;
    u.counts[3] = 0;
    show(to, b"no edge", u, s, b"no step\n")
}

// Shows the cases of the three tables. A text that is no table would leave them all out.
fn show_all<W: Write>(
    to: &mut W,
    k: Result<Table, Refused>,
    m: Result<Table, Refused>,
    late: Result<Table, Refused>,
) -> io::Result<()> {
    let (Ok(k), Ok(m), Ok(late)) = (k, m, late) else {
        return Ok(());
    };
    let s = engine::fresh_going().state;
    show_k(to, k, s)?;
    show_m(to, m, s)?;
    show_given(to, k, s)?;
    show_late(to, late, s)?;
    show_tables(to, k, s)
}

fn main(rt: HostRuntime) -> io::Result<()> {
    let k = table::read_table(
        b"task\t10\t5\nact\t0\ncodel\t0\tstart\t20\nedge\t0\tether\trun\nend\t4\n",
    );
    let m = table::read_table(
        b"task\t10\t5\ntask\t10\t5\nact\t0\nact\t1\ncodel\t0\tstart\t4\ncodel\t1\tstart\t4\nedge\t0\tether\trun\nedge\t1\tether\trun\nmutex\t0\t1\nend\t9\n",
    );
    let late = table::read_table(
        b"task\t1\t5\nact\t0\ncodel\t0\tstart\t20\nedge\t0\tether\trun\nend\t4\n",
    );
    show_all(&mut rt.stdout(), k, m, late)
}
