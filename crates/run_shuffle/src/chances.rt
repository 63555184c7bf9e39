// What an order offers next, by what a run keeps beside its configuration.
ghost use Rattle.std.specs.Prelude.{◌≡◌, ◌<◌, ◌≤◌, ◌==◌, Some, is_some, length, IfSome};
ghost use Rattle.transition_table.specs.declared.decl.Party.TheVariants.{Env};
ghost use Rattle.run_shuffle.specs.Blocks.{current_block as block_now, has_begun, is_open, may_come};
ghost use Rattle.run_shuffle.specs.Moves.{network_moves, next_delivery, next_sends};
ghost use Rattle.run_shuffle.specs.Orders.{env_offered, first_move, network_offered};
ghost use Rattle.run_shuffle.specs.Shuffles.{move_at};
ghost use Rattle.run_shuffle.specs.inner.Blocks.{settles};
ghost use Rattle.run_shuffle.specs.inner.Ways.{AreWays, Gives};

use crate::moves::{move_or_stop, next_between};
use crate::offers::first_of_network;
use crate::order::RunOrder;
use crate::sets::member;
use crate::ways::Ways;
use net_core::{Config, Pick, laws, sending_laws};
use polis_base::SmallSet;

// The block of the first delivery that the environment owes.
fn current_block(config: &Config<'_>, ways: &Ways) -> Option<u64>
    requires { AreWays config.now ways.now }
    ensures block { result ≡ block_now config.now.net config.now.trace config.now.journal }
    ensures within { IfSome result (λ block. block ≤ settles config.now.trace) }
{
    laws();
    sending_laws();
    let _trace = config.trace();
    match config.next_env() {
        Some(next) => ways.block_to(config, next.owed.to),
        None => None,
    }
}

// Whether a delivery of the block came to any machine.
fn has_begun(config: &Config<'_>, ways: &Ways, block: u64) -> bool
    requires ways { AreWays config.now ways.now }
    requires block { block ≤ settles config.now.trace }
    ensures { result ≡ has_begun config.now.net config.now.trace config.now.journal block }
{
    *ways.begun.get(block)
}

// Whether deliveries of a block may come now. The caller knows whether the network has no move.
fn may_come(config: &Config<'_>, ways: &Ways, block: u64, idle: bool) -> bool
    requires ways { AreWays config.now ways.now }
    requires block { block ≤ settles config.now.trace }
    requires idle { idle ≡ (length (network_moves config.now.net config.now.trace
        config.now.journal) == 0) }
    ensures { result ≡ may_come config.now.net config.now.trace config.now.journal (Some block) }
{
    block == 0 || has_begun(config, ways, block) || idle
}

// The block of the first delivery that the environment owes, where it is open.
fn open_block(config: &Config<'_>, ways: &Ways, idle: bool) -> Option<u64>
    requires ways { AreWays config.now ways.now }
    requires idle { idle ≡ (length (network_moves config.now.net config.now.trace
        config.now.journal) == 0) }
    ensures open { is_some result ≡ is_open config.now.net config.now.trace config.now.journal }
    ensures block { IfSome result (λ block. Some block
        ≡ block_now config.now.net config.now.trace config.now.journal) }
{
    match current_block(config, ways) {
        Some(block) => {
            if may_come(config, ways, block, idle) {
                Some(block)
            } else {
                None
            }
        }
        None => None,
    }
}

// The machine to which the first delivery goes that the environment owes, if it owes any.
fn first_receiver(config: &Config<'_>) -> SmallSet
    ensures { Gives config.now.net
        (next_delivery config.now.net config.now.trace config.now.journal Env) result
        (first_move config.now.net config.now.trace config.now.journal) }
{
    laws();
    sending_laws();
    let _trace = config.trace();
    let none = SmallSet::empty();
    match config.next_env() {
        Some(next) => none.with(next.owed.to),
        None => none,
    }
}

// The machines to which the environment's moves are that an order offers. The caller knows whether
// the network has no move.
pub(crate) fn env_chances(
    config: &Config<'_>,
    ways: &mut Ways,
    order: RunOrder,
    idle: bool,
) -> SmallSet
    requires ways { AreWays config.now ways.old }
    requires idle { idle ≡ (length (network_moves config.now.net config.now.trace
        config.now.journal) == 0) }
    ensures gives { Gives config.now.net
        (next_delivery config.now.net config.now.trace config.now.journal Env) result
        (env_offered order config.now.net config.now.trace config.now.journal) }
    ensures ways { AreWays config.now ways.new }
{
    sending_laws();
    let _journal = config.journal();
    let none = SmallSet::empty();
    match order {
        RunOrder::Free => ways.env,
        RunOrder::Settled => match open_block(config, ways, idle) {
            Some(block) => ways.to_block(config, block),
            None => none,
        },
        RunOrder::Scheduled => match open_block(config, ways, idle) {
            Some(_) => first_receiver(config),
            None => none,
        },
    }
}

// How many moves the network has.
pub(crate) fn network_count(config: &Config<'_>, ways: &Ways) -> u64
    requires { AreWays config.now ways.now }
    ensures { result ≡ length (network_moves config.now.net config.now.trace config.now.journal) }
{
    sending_laws();
    let _journal = config.journal();
    ways.owed + ways.woken.len()
}

// How many of these an order offers.
pub(crate) fn network_chances(config: &Config<'_>, order: RunOrder, all: u64) -> u64
    requires { all ≡ length (network_moves config.now.net config.now.trace config.now.journal) }
    ensures { result
        ≡ length (network_offered order config.now.net config.now.trace config.now.journal) }
{
    laws();
    sending_laws();
    let _journal = config.journal();
    match order {
        RunOrder::Scheduled => all.min(1),
        _ => all,
    }
}

// The delivery of a machine of this number, by sender and then by receiver.
fn send(config: &Config<'_>, ways: &Ways, number: u64) -> Pick
    requires ways { AreWays config.now ways.now }
    requires number { number
        < length (next_sends config.now.net config.now.trace config.now.journal) }
    ensures { result
        ≡ move_at (next_sends config.now.net config.now.trace config.now.journal) number }
{
    sending_laws();
    let _journal = config.journal();
    let mut left = number;
    for s in 0..ways.sends.len() {
        let owed = *ways.sends.get(s);
        let many = owed.len();
        if left < many {
            return move_or_stop(next_between(config, s as u32, member(owed, left)));
        }
        left -= many;
    }
    unreachable!()
}

// The network's move of this number: a delivery or a reaction.
fn network_move(config: &Config<'_>, ways: &Ways, number: u64) -> Pick
    requires ways { AreWays config.now ways.now }
    requires number { number
        < length (network_moves config.now.net config.now.trace config.now.journal) }
    ensures { result
        ≡ move_at (network_moves config.now.net config.now.trace config.now.journal) number }
{
    sending_laws();
    let _journal = config.journal();
    if number < ways.owed {
        return send(config, ways, number);
    }
    Pick::React {
        machine: member(ways.woken, number - ways.owed),
    }
}

// The move of this number of those of the network that an order offers.
pub(crate) fn network_chance(config: &Config<'_>, ways: &Ways, order: RunOrder, number: u64) -> Pick
    requires ways { AreWays config.now ways.now }
    requires number { number
        < length (network_offered order config.now.net config.now.trace config.now.journal) }
    ensures { result ≡ move_at
        (network_offered order config.now.net config.now.trace config.now.journal) number }
{
    match order {
        RunOrder::Scheduled => first_of_network(&ways.plan, config),
        _ => network_move(config, ways, number),
    }
}
