// One step of a log with everything given by value: the table, the state and the line.
#![tactic(auto)]

ghost use Rattle.std.specs.Prelude.{◌≡◌, T};
ghost use Rattle.model.specs.Sound.{sound};
ghost use Rattle.logs.specs.Lines.{set_digits, read_line};
ghost use Rattle.prepared.specs.Held.{held};
ghost use Rattle.stepping.specs.Stepping.{line_stepped, stepped};

use engine::Stop;
use model::State;
use prepared::Component;
use table::Table;

// A step's refusal, 0 for none, and the state behind it. It is no Result, since document 01 promises both: "A refusal returns the number and the
// state as it came."
#[derive(Clone, Copy)]
pub struct Stepped {
    pub number: u64,
    pub state: State,
}

// A line's step on a sound state: a run over that one line, with no room for the row of a cycle that it keeps. "A refusal returns the number and the state as it came."
fn step_line(component: &Component, s: State, line: &[u8]) -> Stepped
    requires { T (sound (held component.now) s) }
    ensures { result ≡ line_stepped (held component.now) s (read_line set_digits line.now) }
{
    let Some(_) = logs::read_line(line, logs::SET_DIGITS) else {
        return Stepped {
            number: 11,
            state: s,
        };
    };
    let mut none = [0u8; 1];
    let ran = engine::run(component, line, 0, engine::going_from(s), &mut none, 0);
    match ran.stop {
        Stop::Refused(number) => Stepped { number, state: s },
        _ => Stepped {
            number: 0,
            state: ran.going.state,
        },
    }
}

// One step with everything given by value: the table, the state, and the line with its newline.
pub fn step(t: Table, s: State, line: &[u8]) -> Stepped
    ensures { result ≡ stepped t s line.now }
{
    let Ok(_) = table::check_table(t) else {
        return Stepped {
            number: 19,
            state: s,
        };
    };
    let component = Component {
        rows: t.rows,
        index: preparing::index_of(&t),
    };
    if !soundness::is_sound(&component, s) {
        return Stepped {
            number: 19,
            state: s,
        };
    }
    step_line(&component, s, line)
}
