// What is picked next.
ghost use Rattle.std.specs.Prelude.{◌≡◌, ◌≢◌, ◌<◌, ℕ, length, None, IfSome};
ghost use Rattle.polis_base.specs.Lists.{head_of};
ghost use Rattle.journals.specs.Schedules.{deliver as pick_of, first_pick, first_woken, owed_by_env, pick as picked};
ghost use Rattle.journals.specs.declared.entry.Pick.{Pick};
ghost use Rattle.scheduler_gen.specs.inner.Picks.{reaction_or};
ghost use Rattle.scheduler_gen.specs.Plans.{IsPlanOf};

use crate::machines::Plan;
use net_core::{Config, Owed, Pick};

/// The pick of a delivery that is owed.
pub fn deliver(owed: Owed) -> Pick
    ensures { result ≡ pick_of owed }
{
    Pick::Deliver {
        from: owed.from,
        to: owed.to,
        event: owed.event,
        code: owed.code,
    }
}

/// The first machine of the plan that a delivery came to since its last reaction.
pub fn first_to_react(plan: &Plan, config: &Config<'_>) -> Option<u32>
    requires { IsPlanOf config.now.net plan.now }
    ensures first { result ≡ first_woken config.now.net config.now.journal }
    ensures below { IfSome result (λ m. m < length config.now.net.machines) }
{
    for i in 0..plan.len() {
        let machine = *plan.get(i);
        if config.woken(machine) {
            return Some(machine);
        }
    }
    None
}

// The reaction of the first woken machine, or this where none is woken.
fn react_or(plan: &Plan, config: &Config<'_>, other: Pick) -> Pick
    requires plan { IsPlanOf config.now.net plan.now }
    requires other { (m : ℕ) → other ≢ Pick.React m }
    ensures first { result ≡ reaction_or (first_woken config.now.net config.now.journal) other }
    ensures machine { (m : ℕ) → result ≡ Pick.React m → m < length config.now.net.machines }
{
    match first_to_react(plan, config) {
        Some(machine) => Pick::React { machine },
        None => other,
    }
}

// What comes next where no machine owes a delivery. A woken machine is looked for only where the
// environment has no delivery that is ready.
fn pick_beside(plan: &Plan, config: &Config<'_>) -> Pick
    requires { IsPlanOf config.now.net plan.now }
    ensures first { result ≡ first_pick None
        (head_of (owed_by_env config.now.net config.now.trace config.now.journal))
        (first_woken config.now.net config.now.journal) }
    ensures machine { (m : ℕ) → result ≡ Pick.React m → m < length config.now.net.machines }
{
    match config.next_env() {
        Some(next) => {
            if next.ready {
                return deliver(next.owed);
            }
            react_or(plan, config, deliver(next.owed))
        }
        None => react_or(plan, config, Pick::Stop),
    }
}

/// What comes next: the first delivery that a machine owes, by firing, then emission, then
/// receiver; the first that the environment owes, where no `settle` item holds it back; the
/// reaction of the first machine of the plan that a delivery came to since its last reaction; the
/// first delivery that the environment owes; or nothing.
pub fn pick(plan: &Plan, config: &Config<'_>) -> Pick
    requires { IsPlanOf config.now.net plan.now }
    ensures pick { result ≡ picked config.now.net config.now.trace config.now.journal }
    ensures machine { (m : ℕ) → result ≡ Pick.React m → m < length config.now.net.machines }
{
    match config.owed() {
        Some(owed) => deliver(owed),
        None => pick_beside(plan, config),
    }
}
