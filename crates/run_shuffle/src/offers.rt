// What each order offers.
ghost use Rattle.std.specs.Prelude.{◌≡◌, ◌<◌, [], ◌∷◌, ◌++◌, ◌==◌, filter, filter_map, length, None, IfOk, OnOk};
ghost use Rattle.transition_table.specs.declared.decl.Party.TheVariants.{Env};
ghost use Rattle.polis_base.specs.Lists.{head_of};
ghost use Rattle.journals.specs.Schedules.{first_pick, first_woken, owed_by_machines};
ghost use Rattle.scheduler_gen.specs.Plans.{IsPlanOf};
ghost use Rattle.run_shuffle.specs.Blocks.{block_to as its_block};
ghost use Rattle.run_shuffle.specs.Moves.{network_moves as moves_of_network, next_delivery};
ghost use Rattle.run_shuffle.specs.Orders.{env_offered, first_move, moves_of_block, network_offered, same_block, scheduled_move};

use crate::blocks::{block_to, current_block, is_open};
use crate::moves::{Moves, env_moves, network_moves, push_next};
use crate::order::RunOrder;
use net_core::{Config, Pick};
use polis_base::{List, NoMemory};
use scheduler_gen::{Plan, deliver, first_to_react};
use std::alloc::Global;
use transition_table::Party;

/// What a run is offered next.
#[derive(Drop)]
pub struct Offer {
    /// Of the environment's moves.
    pub env: Moves,
    /// Of the network's moves.
    pub network: Moves,
}

pub(crate) fn same_block(a: Option<u64>, b: Option<u64>) -> bool
    ensures { result ≡ same_block a b }
{
    match a {
        Some(block) => match b {
            Some(other) => block == other,
            None => false,
        },
        None => false,
    }
}

// Adds the environment's move to a machine, where it is of this block.
fn push_of_block(
    config: &Config<'_>,
    block: Option<u64>,
    m: u32,
    moves: &mut Moves,
) -> Result<(), NoMemory>
    requires { m < length config.now.net.machines }
    ensures { OnOk result (moves.new ≡ moves.old
        ++ filter_map (next_delivery config.now.net config.now.trace config.now.journal Env)
        (filter
        (λ m. same_block (its_block config.now.net config.now.trace config.now.journal m) block)
        (m ∷ []))) }
{
    if same_block(block_to(config, m), block) {
        return push_next(config, Party::Env, m, moves);
    }
    Ok(())
}

// The environment's moves of the block of the first delivery that it owes.
fn moves_of_block(alloc: Global, config: &Config<'_>) -> Result<Moves, NoMemory>
    ensures { IfOk result (λ moves. moves
        ≡ moves_of_block config.now.net config.now.trace config.now.journal) }
{
    let block = current_block(config);
    let mut moves = List::new(alloc);
    for m in 0..config.network().machines.len() {
        push_of_block(config, block, m as u32, &mut moves)?;
    }
    Ok(moves)
}

// The first delivery that the environment owes, if it owes any.
fn first_move(alloc: Global, config: &Config<'_>) -> Result<Moves, NoMemory>
    ensures { IfOk result (λ moves. moves
        ≡ first_move config.now.net config.now.trace config.now.journal) }
{
    let mut moves = List::new(alloc);
    if let Some(next) = config.next_env() {
        moves.push(deliver(next.owed))?;
    }
    Ok(moves)
}

// The first delivery that machines owe, or else the reaction of the first woken machine, or to stop
// where there is none.
pub(crate) fn first_of_network(plan: &Plan, config: &Config<'_>) -> Pick
    requires { IsPlanOf config.now.net plan.now }
    ensures { result ≡ first_pick (head_of (owed_by_machines config.now.net config.now.journal))
        None (first_woken config.now.net config.now.journal) }
{
    match config.owed() {
        Some(owed) => deliver(owed),
        None => match first_to_react(plan, config) {
            Some(machine) => Pick::React { machine },
            None => Pick::Stop,
        },
    }
}

// The same, if there is any.
fn scheduled_move(alloc: Global, plan: &Plan, config: &Config<'_>) -> Result<Moves, NoMemory>
    requires { IsPlanOf config.now.net plan.now }
    ensures { IfOk result (λ moves. moves ≡ scheduled_move config.now.net config.now.journal) }
{
    let mut moves = List::new(alloc);
    match first_of_network(plan, config) {
        Pick::Stop => {}
        pick => moves.push(pick)?,
    }
    Ok(moves)
}

// What the environment is offered under an order that waits for the network.
fn env_where_open(
    alloc: Global,
    config: &Config<'_>,
    idle: bool,
    order: RunOrder,
) -> Result<Moves, NoMemory>
    requires { idle ≡ (length (moves_of_network config.now.net config.now.trace config.now.journal)
        == 0) }
    ensures { IfOk result (λ moves. moves
        ≡ env_offered order config.now.net config.now.trace config.now.journal) }
{
    if let RunOrder::Free = order {
        return env_moves(alloc, config);
    }
    if !is_open(config, idle) {
        return Ok(List::new(alloc));
    }
    match order {
        RunOrder::Settled => moves_of_block(alloc, config),
        _ => first_move(alloc, config),
    }
}

/// What an order offers after the journal.
pub fn offered(
    alloc: Global,
    plan: &Plan,
    config: &Config<'_>,
    order: RunOrder,
) -> Result<Offer, NoMemory>
    requires { IsPlanOf config.now.net plan.now }
    ensures env { IfOk result (λ offer. offer.env
        ≡ env_offered order config.now.net config.now.trace config.now.journal) }
    ensures network { IfOk result (λ offer. offer.network
        ≡ network_offered order config.now.net config.now.trace config.now.journal) }
{
    let all = network_moves(alloc, config)?;
    let env = env_where_open(alloc, config, all.len() == 0, order)?;
    match order {
        RunOrder::Scheduled => Ok(Offer {
            env,
            network: scheduled_move(alloc, plan, config)?,
        }),
        _ => Ok(Offer { env, network: all }),
    }
}
