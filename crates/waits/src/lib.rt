// `wait`: what it asks of each task and its holder, and its refusal.
#![tactic(auto)]

ghost use Rattle.std.specs.Prelude.{◌≡◌, ◌<◌, ◌≤◌, length, T};
ghost use Rattle.text.specs.Fields.{ether_value};
ghost use Rattle.model.specs.Limits.{most_ticks, ceiling};
ghost use Rattle.model.specs.Refusals.{numbered};
ghost use Rattle.model.specs.Tables.{known};
ghost use Rattle.prepared.specs.Held.{held};
ghost use Rattle.waits.specs.Waits.{act_hinders, act_room, timer_room, wait_number};

use model::{Act, Place, Refusal};
use prepared::Component;

// 16 of a task whose holder is an activity: is it in R, at ether, or standing with no conflicting codel executing?
pub fn act_hinders(component: &Component, busy: &[usize], act: Act) -> bool
    requires { T (known (held component.now) act.place) × ((held component.now).nacts ≤ length busy.now) }
    ensures { result ≡ act_hinders (held component.now) busy.now act }
{
    match act.place {
        Place::Codel(codel) if !act.halt => {
            !component.is_safe(codel)
                && !act.executing
                && conflicts::is_clear(component, busy, codel)
        }
        _ => true,
    }
}

// 17 of a holder: does its clock, where it executes, stay within its codel's limit?
pub fn act_room(component: &Component, ticks: u64, act: Act) -> bool
    requires { T (known (held component.now) act.place) × (act.clock ≤ most_ticks) × (ticks < ether_value) }
    ensures { result ≡ act_room (held component.now) ticks act }
{
    match act.place {
        Place::Codel(codel) if act.executing => act.clock + ticks <= component.limit_of(codel),
        _ => true,
    }
}

// 17 of a task: does its timer stay within its period?
pub fn timer_room(component: &Component, ticks: u64, task: usize, timer: u64) -> bool
    requires { (task < (held component.now).ntasks) × (timer ≤ most_ticks) × (ticks < ether_value) }
    ensures { result ≡ timer_room (held component.now) ticks task timer }
{
    timer + ticks <= component.period_of(task)
}

// Is a wait accepted? Not with ticks out of their range, only where it is free of hindrance and all have room, and not past the ceiling.
pub fn check_wait(free: bool, room: bool, date: u64, ticks: u64) -> Result<(), Refusal>
    requires { date ≤ ceiling }
    ensures { numbered result ≡ wait_number free room date ticks }
{
    if !model::in_range(ticks) {
        return Err(Refusal::Unknown);
    }
    if !free {
        return Err(Refusal::StillEnabled);
    }
    if !room {
        return Err(Refusal::TooLate);
    }
    if date + ticks > model::CEILING {
        return Err(Refusal::PastCeiling);
    }
    Ok(())
}
