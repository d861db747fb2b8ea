// The conflict test: "no conflicting codel executes". Beside the state stands which codel each activity executes, so that the test walks
// neither the state nor the mutex rows.
#![tactic(auto)]

ghost use Rattle.std.specs.Prelude.{◌≡◌, ◌<◌, ◌≤◌, length, T};
ghost use Rattle.model.specs.Tables.{known};
ghost use Rattle.prepared.specs.Held.{held};
ghost use Rattle.conflicts.specs.Busy.{busy_of, clear_by, clear_for_by};

use model::{Act, ActStep, Place};
use prepared::Component;

// The number of an activity's codel where it executes none. No component has this codel, so one comparison finds a codel that there is: an
// `Option` would take a second test at each step of the walk.
const NO_CODEL: usize = model::MOST_CODELS;

// The codel that an activity executes.
pub fn busy_of(act: Act) -> usize
    ensures { result ≡ busy_of act }
{
    match act.place {
        Place::Codel(codel) if act.executing => codel,
        _ => NO_CODEL,
    }
}

// Does no codel that executes conflict with this one?
pub fn is_clear(component: &Component, busy: &[usize], codel: usize) -> bool
    requires { (codel < (held component.now).ncodels) × ((held component.now).nacts ≤ length busy.now) }
    ensures { result ≡ clear_by (held component.now) busy.now codel }
{
    let codels = component.codels();
    for &other in &busy[..component.acts()] {
        if other < codels && component.in_conflict(codel, other) {
            return false;
        }
    }
    true
}

// What `cx` of an activity at a place asks beside the records: is no conflicting codel executing? Other steps ask nothing.
pub fn is_clear_for(component: &Component, busy: &[usize], step: ActStep, place: Place) -> bool
    requires { T (known (held component.now) place) × ((held component.now).nacts ≤ length busy.now) }
    ensures { result ≡ clear_for_by (held component.now) busy.now step place }
{
    match (step, place) {
        (ActStep::Cx, Place::Codel(codel)) => is_clear(component, busy, codel),
        _ => true,
    }
}
