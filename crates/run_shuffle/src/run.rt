// Running a network on a trace by draws.
ghost use Rattle.std.specs.Prelude.{◌≡◌, ◌≢◌, ◌<◌, ◌≤◌, ◌⊎◌, ◌↔◌, ℕ, [], length, true, false, Ok, IfOk, OnOk, IsTrue};
ghost use Rattle.journals.specs.Journals.{IsTrace};
ghost use Rattle.journals.specs.Legality.{Legal, Complete};
ghost use Rattle.journals.specs.Schedules.{IsPicked};
ghost use Rattle.journals.specs.declared.entry.Pick.{Pick};
ghost use Rattle.polis_base.specs.Draws.{next};
ghost use Rattle.run_shuffle.specs.inner.Runs.{IsNext, IsOffered, IsTaken};
ghost use Rattle.run_shuffle.specs.inner.Ways.{AreWays};
ghost use Rattle.run_shuffle.specs.Orders.{offered as all_offered};
ghost use Rattle.run_shuffle.specs.Shuffles.{IsDrawn, IsShuffled};

use crate::chances::{env_chances, network_chances, network_count};
use crate::choice::choose;
use crate::draws::{of_seed, order_of_run, pace};
use crate::law::laws;
use crate::order::{Order, Rule, RunOrder};
use crate::ways::Ways;
use domains::first_codes;
use net_core::{Config, Entry, Pick, Trace};
use polis_base::{Draws, NoMemory};
use scheduler_gen::Finished;
use std::alloc::Global;
use transition_table::{Reactor, Snapshot};

// Takes the entry of a move that is offered.
fn take_move(
    config: &mut Config<'_>,
    ways: &mut Ways,
    order: RunOrder,
    entry: Entry,
) -> Result<(), NoMemory>
    requires ways { AreWays config.old ways.old }
    requires offered { IsOffered order config.old entry }
    ensures taken { OnOk result (IsTaken entry config.old config.new) }
    ensures ways { OnOk result (AreWays config.new ways.new) }
{
    laws();
    let _trace = config.trace();
    let _journal = config.journal();
    ways.take(config, entry)
}

// The entry of a move: the delivery, or the reaction of the machine to its snapshot.
fn entry_of<R: Reactor>(
    alloc: Global,
    r: &R,
    config: &Config<'_>,
    pick: Pick,
) -> Result<Entry, NoMemory>
    requires network { R.meaning r.now ≡ config.now.net }
    requires machine { (m : ℕ) → pick ≡ Pick.React m → m < length config.now.net.machines }
    requires some { pick ≢ Pick.Stop }
    ensures { IfOk result (λ entry. IsPicked config.now.net config.now.journal pick entry) }
{
    match pick {
        Pick::Deliver {
            from,
            to,
            event,
            code,
        } => Ok(Entry::Dep {
            from,
            to,
            event,
            code,
        }),
        Pick::React { machine } => {
            net_core::laws();
            let _journal = config.journal();
            let net = r.network();
            let mut snapshot = Snapshot {
                codes: first_codes(alloc, &net.machines.get(machine as u64).vars)?,
            };
            config.snapshot(machine, &mut snapshot);
            let mut outcome = net.blank(alloc, machine)?;
            r.react(machine, &snapshot, &mut outcome);
            Ok(Entry::Rea {
                machine,
                snapshot,
                outcome,
            })
        }
        Pick::Stop => unreachable!(),
    }
}

// Takes the entry of the move that is drawn, if any is offered.
fn advance<R: Reactor>(
    alloc: Global,
    r: &R,
    config: &mut Config<'_>,
    ways: &mut Ways,
    rule: Rule,
    draws: &mut Draws,
) -> Result<bool, NoMemory>
    requires network { R.meaning r.now ≡ config.old.net }
    requires ways { AreWays config.old ways.old }
    requires pace { 0 < rule.pace }
    requires pace_small { rule.pace ≤ 16 }
    ensures next { result ≡ Ok true
        → IsNext rule.order rule.pace draws.old.x config.old config.new }
    ensures moves { result ≡ Ok true → draws.new.x ≡ next draws.old.x }
    ensures ways { result ≡ Ok true → AreWays config.new ways.new }
    ensures stop { result ≡ Ok false
        → all_offered rule.order config.old.net config.old.trace config.old.journal ≡ [] }
    ensures same { result ≡ Ok false → config.new ≡ config.old }
{
    net_core::laws();
    net_core::sending_laws();
    let _trace = config.trace();
    let _journal = config.journal();
    let all = network_count(config, ways);
    let receivers = env_chances(config, ways, rule.order, all == 0);
    let network = network_chances(config, rule.order, all);
    if receivers.len() + network == 0 {
        return Ok(false);
    }
    let pick = choose(draws, rule, config, ways, receivers, network);
    let entry = entry_of(alloc, r, config, pick)?;
    take_move(config, ways, rule.order, entry)?;
    Ok(true)
}

// Takes up to so many entries, from the start on, until nothing is offered.
fn run<R: Reactor>(
    alloc: Global,
    r: &R,
    config: &mut Config<'_>,
    rule: Rule,
    draws: &mut Draws,
    count: u64,
) -> Result<(), NoMemory>
    requires network { R.meaning r.now ≡ config.old.net }
    requires pace { 0 < rule.pace }
    requires pace_small { rule.pace ≤ 16 }
    requires start { config.old.journal ≡ [] }
    ensures net { OnOk result (config.new.net ≡ config.old.net) }
    ensures trace { OnOk result (config.new.trace ≡ config.old.trace) }
    ensures drawn { OnOk result (IsDrawn config.old.net config.old.trace rule.order rule.pace
        draws.old.x [] config.new.journal) }
    ensures whole { OnOk result ((length config.new.journal ≡ count)
        ⊎ ((length config.new.journal < count)
        × (all_offered rule.order config.old.net config.old.trace config.new.journal ≡ []))) }
{
    let mut ways = Ways::start(alloc, config)?;
    for _ in 0..count {
        if !advance(alloc, r, config, &mut ways, rule, draws)? {
            return Ok(());
        }
    }
    Ok(())
}

/// The run that is drawn from a seed: a journal of so many entries, or of fewer after which nothing
/// is offered, and whether it is complete.
pub fn shuffle<R: Reactor>(
    alloc: Global,
    r: &R,
    trace: &Trace,
    seed: u64,
    order: Order,
    limit: u64,
) -> Result<Finished, NoMemory>
    requires trace { IsTrace (R.meaning r.now) trace.now }
    ensures shuffled { IfOk result
        (λ f. IsShuffled (R.meaning r.now) trace.now seed order limit f.journal) }
    ensures legal { IfOk result (λ f. Legal (R.meaning r.now) trace.now f.journal) }
    ensures complete { IfOk result
        (λ f. IsTrue f.complete ↔ Complete (R.meaning r.now) trace.now f.journal) }
{
    let mut draws = of_seed(seed);
    let pace = pace(&mut draws);
    let rule = Rule {
        pace,
        order: order_of_run(&mut draws, order),
    };
    let mut config = Config::start(alloc, r.network(), trace)?;
    run(alloc, r, &mut config, rule, &mut draws, limit)?;
    let complete = config.is_complete();
    Ok(Finished {
        journal: config.into_journal(),
        complete,
    })
}
