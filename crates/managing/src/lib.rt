// `sm` and the sets N and R: whether a set lies within its task, what `sm` asks and does on the records, and whether N and R are empty.
// Beside the state stands in which of N and R each activity is, so that `fm` walks no records.
#![tactic(auto)]

ghost use Rattle.std.specs.Prelude.{◌≡◌, ◌<◌, ◌≤◌, true, length};
ghost use Rattle.model.specs.Refusals.{numbered};
ghost use Rattle.model.specs.Rules.{within, listed};
ghost use Rattle.prepared.specs.Held.{held};
ghost use Rattle.managing.specs.Listed.{listed_of, none_by, empty_for_by};
ghost use Rattle.managing.specs.Managing.{sm_number};

use model::{Act, Refusal, Task, TaskStep};
use prepared::Component;
use text::Set;

// In which of N and R an activity is: 1 for N, 2 for R. It is one number, so that `fm` asks for both by one comparison.
pub fn listed_of(act: Act) -> usize
    ensures { result ≡ listed_of act }
{
    usize::from(act.run) + 2 * usize::from(act.halt)
}

// Are N and R of a task empty?
fn none_listed(component: &Component, listed: &[usize], task: usize) -> bool
    requires { (task < (held component.now).ntasks) × ((held component.now).nacts ≤ length listed.now) }
    ensures { result ≡ none_by (held component.now) listed.now task }
{
    for a in component.acts_begin(task)..component.acts_end(task) {
        if listed[a] != 0 {
            return false;
        }
    }
    true
}

// What `fm` asks beside the record: are N and R of its task empty? Other steps ask nothing.
pub fn is_empty_for(component: &Component, listed: &[usize], task: usize, step: TaskStep) -> bool
    requires { (task < (held component.now).ntasks) × ((held component.now).nacts ≤ length listed.now) }
    ensures { result ≡ empty_for_by (held component.now) listed.now task step }
{
    match step {
        TaskStep::St => true,
        TaskStep::Fm => none_listed(component, listed, task),
    }
}

// Is a set within a task? Its activities stand together.
pub fn is_within(component: &Component, task: usize, set: Set) -> bool
    requires { (task < (held component.now).ntasks) }
    ensures { result ≡ within (held component.now) task set }
{
    set.is_between(component.acts_begin(task), component.acts_end(task))
}

// Is `sm` accepted on its task? Not on a task that there is not or with a set outside it, and only where the manager waits and the signal is
// set.
pub fn check_sm(component: &Component, task: usize, n: Set, r: Set, x: Task) -> Result<(), Refusal>
    ensures { numbered result ≡ sm_number (held component.now) task n r x }
{
    if task >= component.tasks()
        || !is_within(component, task, n)
        || !is_within(component, task, r)
    {
        return Err(Refusal::Unknown);
    }
    if x.managing || !x.signal {
        return Err(Refusal::NotAllowed);
    }
    Ok(())
}

// An activity of an `sm`'s task, put into N and R as the sets n and r say.
pub fn flag(n: Set, r: Set, a: usize, act: Act) -> Act
    ensures { result ≡ listed true n r a act }
{
    records::in_lists(act, n.has_member(a), r.has_member(a))
}
