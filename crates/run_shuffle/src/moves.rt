// The moves of the environment and of the network.
ghost use Rattle.std.specs.Prelude.{◌≡◌, ◌<◌, ◌↔◌, [], ◌∷◌, ◌++◌, filter, filter_map, length, map, unwrap_or, IfOk, OnOk, IsTrue};
ghost use Rattle.journals.specs.Journals.{FitsNetwork, is_party, is_woken};
ghost use Rattle.journals.specs.Legality.{Legal};
ghost use Rattle.journals.specs.declared.entry.Entry.{Entry};
ghost use Rattle.journals.specs.declared.entry.Pick.TheVariants.{React, Stop};
ghost use Rattle.run_shuffle.specs.Moves.{IsOneOf, all_moves, next_delivery, next_deliveries, env_moves, network_moves, next_sends, reactions};
ghost use Rattle.transition_table.specs.declared.decl.Party.TheVariants.{Env, Machine as Sender};

use crate::law::laws;
use net_core::{Config, Pick, TraceItem, sending_laws};
use polis_base::{List, NoMemory};
use scheduler_gen::deliver;
use std::alloc::Global;
use transition_table::Party;

/// What may be done next, in order. None of them is to stop.
pub type Moves = List<Pick>;

// The move, and to stop where there is none.
pub(crate) fn move_or_stop(next: Option<Pick>) -> Pick
    ensures { result ≡ unwrap_or next Stop }
{
    match next {
        Some(pick) => pick,
        None => Pick::Stop,
    }
}

// The delivery from the environment to a machine that may come next.
pub(crate) fn next_of_env(config: &Config<'_>, to: u32) -> Option<Pick>
    requires { to < length config.now.net.machines }
    ensures { result ≡ next_delivery config.now.net config.now.trace config.now.journal Env to }
{
    sending_laws();
    let trace = config.trace();
    let place = config.place(to);
    if place >= trace.len() {
        return None;
    }
    match *trace.get(place) {
        TraceItem::Event { event, code } => Some(Pick::Deliver {
            from: Party::Env,
            to,
            event,
            code,
        }),
        // No place is one of them.
        TraceItem::Settle => None,
    }
}

// The delivery from one machine to another that may come next.
pub(crate) fn next_between(config: &Config<'_>, from: u32, to: u32) -> Option<Pick>
    requires from { from < length config.now.net.machines }
    requires to { to < length config.now.net.machines }
    ensures { result
        ≡ next_delivery config.now.net config.now.trace config.now.journal (Sender from) to }
{
    sending_laws();
    match config.owed_between(from, to) {
        Some(owed) => Some(deliver(owed)),
        None => None,
    }
}

// The delivery from one to a machine that may come next.
fn next_from(config: &Config<'_>, from: Party, to: u32) -> Option<Pick>
    requires from { IsTrue (is_party config.now.net from) }
    requires to { to < length config.now.net.machines }
    ensures { result ≡ next_delivery config.now.net config.now.trace config.now.journal from to }
{
    match from {
        Party::Env => next_of_env(config, to),
        Party::Machine(s) => next_between(config, s, to),
    }
}

// Adds the delivery from one to a machine, where there is one that may come next.
pub(crate) fn push_next(
    config: &Config<'_>,
    from: Party,
    to: u32,
    moves: &mut Moves,
) -> Result<(), NoMemory>
    requires from { IsTrue (is_party config.now.net from) }
    requires to { to < length config.now.net.machines }
    ensures { OnOk result (moves.new ≡ moves.old
        ++ filter_map (next_delivery config.now.net config.now.trace config.now.journal from)
        (to ∷ [])) }
{
    match next_from(config, from, to) {
        Some(next) => moves.push(next),
        None => Ok(()),
    }
}

// Adds the deliveries of one that may come next, by receiver.
fn push_from(config: &Config<'_>, from: Party, moves: &mut Moves) -> Result<(), NoMemory>
    requires { IsTrue (is_party config.now.net from) }
    ensures { OnOk result (moves.new
        ≡ moves.old ++ next_deliveries config.now.net config.now.trace config.now.journal from) }
{
    for m in 0..config.network().machines.len() {
        push_next(config, from, m as u32, moves)?;
    }
    Ok(())
}

// Adds the reaction of a machine, where it is woken.
fn push_reaction(config: &Config<'_>, machine: u32, moves: &mut Moves) -> Result<(), NoMemory>
    requires { machine < length config.now.net.machines }
    ensures { OnOk result (moves.new ≡ moves.old
        ++ map React (filter (is_woken config.now.journal) (machine ∷ []))) }
{
    if config.woken(machine) {
        return moves.push(Pick::React { machine });
    }
    Ok(())
}

// Adds the reactions of the woken machines.
fn push_reactions(config: &Config<'_>, moves: &mut Moves) -> Result<(), NoMemory>
    ensures { OnOk result (moves.new
        ≡ moves.old ++ reactions config.now.net config.now.journal) }
{
    for m in 0..config.network().machines.len() {
        push_reaction(config, m as u32, moves)?;
    }
    Ok(())
}

// Adds the deliveries of machines that may come next, by sender and then by receiver.
fn push_from_machines(config: &Config<'_>, moves: &mut Moves) -> Result<(), NoMemory>
    ensures { OnOk result (moves.new ≡ moves.old
        ++ next_sends config.now.net config.now.trace config.now.journal) }
{
    for s in 0..config.network().machines.len() {
        push_from(config, Party::Machine(s as u32), moves)?;
    }
    Ok(())
}

// The environment's moves, by receiver.
pub(crate) fn env_moves(alloc: Global, config: &Config<'_>) -> Result<Moves, NoMemory>
    ensures { IfOk result (λ moves. moves
        ≡ env_moves config.now.net config.now.trace config.now.journal) }
{
    let mut moves = List::new(alloc);
    push_from(config, Party::Env, &mut moves)?;
    Ok(moves)
}

// The network's moves: its deliveries by sender and then by receiver, and then the reactions of
// woken machines.
pub(crate) fn network_moves(alloc: Global, config: &Config<'_>) -> Result<Moves, NoMemory>
    ensures { IfOk result (λ moves. moves
        ≡ network_moves config.now.net config.now.trace config.now.journal) }
{
    let mut moves = List::new(alloc);
    push_from_machines(config, &mut moves)?;
    push_reactions(config, &mut moves)?;
    Ok(moves)
}

/// What may be done next: the environment's deliveries by receiver, then the network's by sender
/// and then by receiver, and then the reactions of woken machines. Nothing else may come.
pub fn all_moves(alloc: Global, config: &Config<'_>) -> Result<Moves, NoMemory>
    ensures moves { IfOk result (λ moves. moves
        ≡ all_moves config.now.net config.now.trace config.now.journal) }
    ensures may_come { IfOk result (λ moves. (entry : Entry)
        → FitsNetwork config.now.net entry
        → Legal config.now.net config.now.trace (config.now.journal ++ entry ∷ [])
        ↔ IsOneOf config.now.net config.now.journal moves entry) }
{
    laws();
    let _journal = config.journal();
    let mut moves = env_moves(alloc, config)?;
    push_from_machines(config, &mut moves)?;
    push_reactions(config, &mut moves)?;
    Ok(moves)
}
