// The blocks of a trace, and when the environment is open.
ghost use Rattle.std.specs.Prelude.{◌≡◌, ◌<◌, ◌≤◌, ◌==◌, ◌&&◌, ◌||◌, [], ◌∷◌, length, take, slice_get, Some};
ghost use Rattle.transition_table.specs.NetworkFacts.{has};
ghost use Rattle.transition_table.specs.declared.decl.Party.TheVariants.{Env};
ghost use Rattle.journals.specs.Cursors.{is_read};
ghost use Rattle.journals.specs.Journals.{delivered};
ghost use Rattle.journals.specs.declared.entry.TraceItem.{TraceItem};
ghost use Rattle.run_shuffle.specs.inner.Blocks.{settles};
ghost use Rattle.run_shuffle.specs.Blocks.{block_to, blocks_to, current_block, has_begun, is_open};
ghost use Rattle.run_shuffle.specs.Moves.{network_moves};

use net_core::{Config, Trace, TraceItem, laws, sending_laws};

pub(crate) fn settles_of(item: TraceItem) -> u64
    ensures count { result ≡ settles (item ∷ []) }
    ensures few { result ≤ 1 }
{
    match item {
        TraceItem::Event { .. } => 0,
        TraceItem::Settle => 1,
    }
}

// How many `settle` items stand before a place of the trace.
fn block_at(trace: &Trace, place: u64) -> u64
    requires { place ≤ length trace.now }
    ensures { result ≡ settles (take place trace.now) }
{
    let mut block = 0;
    for i in 0..place {
        block += settles_of(*trace.get(i));
    }
    block
}

// The block of the first delivery that the environment owes to a machine.
pub(crate) fn block_to(config: &Config<'_>, m: u32) -> Option<u64>
    requires { m < length config.now.net.machines }
    ensures { result ≡ block_to config.now.net config.now.trace config.now.journal m }
{
    sending_laws();
    let trace = config.trace();
    let place = config.place(m);
    if place >= trace.len() {
        return None;
    }
    Some(block_at(trace, place))
}

// The block of the first delivery that the environment owes.
pub(crate) fn current_block(config: &Config<'_>) -> Option<u64>
    ensures { result ≡ current_block config.now.net config.now.trace config.now.journal }
{
    laws();
    sending_laws();
    let _trace = config.trace();
    match config.next_env() {
        Some(next) => block_to(config, next.owed.to),
        None => None,
    }
}

// Whether the machine reads the item.
fn reads(config: &Config<'_>, m: u32, item: TraceItem) -> bool
    requires { m < length config.now.net.machines }
    ensures { result ≡ is_read config.now.net m item }
{
    match item {
        TraceItem::Event { event, .. } => {
            let inputs = &config.network().machines.get(m as u64).inputs;
            inputs.as_slice().contains(&event)
        }
        TraceItem::Settle => false,
    }
}

// Whether the machine reads the item at a place, and that is of the block.
fn is_of_block(config: &Config<'_>, block: u64, m: u32, place: u64) -> bool
    requires machine { m < length config.now.net.machines }
    requires place { place < length config.now.trace }
    ensures { (item : TraceItem) → slice_get config.now.trace place ≡ Some item
        → result ≡ (is_read config.now.net m item
        && settles (take place config.now.trace) == block) }
{
    let trace = config.trace();
    let read = reads(config, m, *trace.get(place));
    let own = block_at(trace, place);
    read && own == block
}

fn either(a: bool, b: bool) -> bool
    ensures { result ≡ (a || b) }
{
    a || b
}

// Whether a delivery of the block came to a machine.
fn came_to(config: &Config<'_>, block: u64, m: u32) -> bool
    requires { m < length config.now.net.machines }
    ensures { result ≡ has (take (length (delivered Env m config.now.journal))
        (blocks_to config.now.net config.now.trace m)) block }
{
    sending_laws();
    let place = config.place(m);
    let mut came = false;
    for i in 0..place {
        let here = is_of_block(config, block, m, i);
        came = either(came, here);
    }
    came
}

// Whether a delivery of the block came to any machine.
fn has_begun(config: &Config<'_>, block: u64) -> bool
    ensures { result ≡ has_begun config.now.net config.now.trace config.now.journal block }
{
    let mut begun = false;
    for m in 0..config.network().machines.len() {
        let here = came_to(config, block, m as u32);
        begun = either(begun, here);
    }
    begun
}

// Whether the environment owes a delivery, and those of the first one's block may come now. The
// caller knows whether the network has no move.
pub(crate) fn is_open(config: &Config<'_>, idle: bool) -> bool
    requires { idle ≡ (length (network_moves config.now.net config.now.trace config.now.journal)
        == 0) }
    ensures { result ≡ is_open config.now.net config.now.trace config.now.journal }
{
    match current_block(config) {
        Some(block) => block == 0 || has_begun(config, block) || idle,
        None => false,
    }
}
