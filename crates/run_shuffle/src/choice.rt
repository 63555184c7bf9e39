// The choice of a move.
ghost use Rattle.std.specs.Prelude.{◌≡◌, ◌<◌, ◌≤◌, ◌+◌, length};
ghost use Rattle.std.specs.List.{Contains};
ghost use Rattle.polis_base.specs.Draws.{next};
ghost use Rattle.polis_base.specs.Sets.{members};
ghost use Rattle.transition_table.specs.declared.decl.Party.TheVariants.{Env};
ghost use Rattle.run_shuffle.specs.Moves.{next_delivery};
ghost use Rattle.run_shuffle.specs.Orders.{env_offered, network_offered, offered};
ghost use Rattle.run_shuffle.specs.Shuffles.{drawn, move_at};
ghost use Rattle.run_shuffle.specs.inner.Ways.{AreWays, Gives};

use crate::chances::network_chance;
use crate::moves::{move_or_stop, next_of_env};
use crate::order::{Rule, RunOrder};
use crate::sets::member;
use crate::ways::Ways;
use net_core::{Config, Pick};
use polis_base::{Draws, SmallSet};

// The environment's move of this number of those that an order offers.
fn env_chance(config: &Config<'_>, order: RunOrder, receivers: SmallSet, number: u64) -> Pick
    requires gives { Gives config.now.net
        (next_delivery config.now.net config.now.trace config.now.journal Env) receivers
        (env_offered order config.now.net config.now.trace config.now.journal) }
    requires number { number < length (members receivers) }
    ensures { result
        ≡ move_at (env_offered order config.now.net config.now.trace config.now.journal) number }
{
    move_or_stop(next_of_env(config, member(receivers, number)))
}

// The move that is drawn of those that an order offers, where each of the environment's counts once
// and each of the network's so often as the pace says. The caller knows the receivers of the
// environment's, and how many the network's are.
pub(crate) fn choose(
    draws: &mut Draws,
    rule: Rule,
    config: &Config<'_>,
    ways: &Ways,
    receivers: SmallSet,
    network: u64,
) -> Pick
    requires pace { 0 < rule.pace }
    requires pace_small { rule.pace ≤ 16 }
    requires ways { AreWays config.now ways.now }
    requires gives { Gives config.now.net
        (next_delivery config.now.net config.now.trace config.now.journal Env) receivers
        (env_offered rule.order config.now.net config.now.trace config.now.journal) }
    requires network { network
        ≡ length (network_offered rule.order config.now.net config.now.trace config.now.journal) }
    requires some { 0 < length (members receivers) + network }
    ensures chosen { result
        ≡ drawn config.now.net config.now.trace rule.order rule.pace draws.old.x
        config.now.journal }
    ensures member { Contains
        (offered rule.order config.now.net config.now.trace config.now.journal) result }
    ensures moves { draws.new.x ≡ next draws.old.x }
{
    let env = receivers.len();
    let r = draws.draw(env + rule.pace * network);
    if r < env {
        return env_chance(config, rule.order, receivers, r);
    }
    network_chance(config, ways, rule.order, (r - env) / rule.pace)
}
