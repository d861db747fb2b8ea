// What a `state` row does to a log: on line 1 it sets the state, on any later line it must equal the state reached.
#![tactic(auto)]

ghost use Rattle.std.specs.Prelude.{◌≡◌, T};
ghost use Rattle.text.specs.Words.{same_list};
ghost use Rattle.model.specs.Refusals.{numbered};
ghost use Rattle.model.specs.Sound.{sound};
ghost use Rattle.prepared.specs.Held.{held};
ghost use Rattle.saved.specs.Rows.{row_line, read_by};
ghost use Rattle.entries.specs.Entries.{row_refusal, sound_row};

use model::{Refusal, State};
use prepared::Component;

// The state that a line says as a row, without its newline, where it is sound.
pub fn read_sound(component: &Component, line: &[u8]) -> Result<State, Refusal>
    ensures { read_by result ≡ sound_row (held component.now) line.now }
{
    let s = saved::read_state(component, line)?;
    if !soundness::is_sound(component, s) {
        return Err(Refusal::Unsound);
    }
    Ok(s)
}

// Is a line the row of a sound state? It stays a call: the row that it writes is off the stack when the line is read.
#[inline(never)]
fn is_row_of(component: &Component, line: &[u8], s: State) -> bool
    requires { T (sound (held component.now) s) }
    ensures { result ≡ same_list line.now (row_line (held component.now) s) }
{
    let mut row = [0u8; logs::LONGEST_ROW];
    let n = saved::put_state(component, s, &mut row);
    line == &row[..n - 1]
}

// A row behind line 1 must equal the sound state reached. It is read only where it does not, for why.
pub fn later_number(component: &Component, line: &[u8], s: State) -> Result<(), Refusal>
    requires { T (sound (held component.now) s) }
    ensures { numbered result ≡ row_refusal (held component.now) s line.now }
{
    if is_row_of(component, line, s) {
        return Ok(());
    }
    read_sound(component, line)?;
    Err(Refusal::NotReached)
}
