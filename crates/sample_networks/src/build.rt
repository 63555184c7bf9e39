// Parts of networks.
ghost use Rattle.std.specs.Prelude.{◌≡◌, [], ◌∷◌, IfOk, IsTrue};
ghost use Rattle.std.specs.List.{list_all};
ghost use Rattle.polis_base.specs.Names.{is_name};
ghost use Rattle.domains.specs.Tables.{are_sizes};
ghost use Rattle.transition_table.specs.MachineFacts.{are_vars, are_results, is_row, is_small};
ghost use Rattle.transition_table.specs.RowFacts.{are_actions};
ghost use Rattle.transition_table.specs.samples.Parts.{has_codes, gives as gives_code, pure_event as the_pure_event, state_of};
ghost use Rattle.sample_networks.specs.inner.Built.{IsBuilt};

use domains::VarTable;
use polis_base::{List, Name, NoMemory, SmallSet};
use std::alloc::Global;
use transition_table::{
    Act, Cond, EventDecl, Machine, Party, Row, RowList, Source, StateDecl, StateList,
};

/// The environment.
pub const ENV: Party = Party::Env;

/// A table of these sizes.
pub fn sizes(alloc: Global, sizes: &[u8]) -> Result<VarTable, NoMemory>
    requires { IsTrue (are_sizes sizes.now) }
    ensures { IfOk result (λ table. table ≡ sizes.now) }
{
    let mut table = VarTable::new(alloc);
    for size in sizes {
        table.push(*size)?;
    }
    Ok(table)
}

/// An event without a value.
pub fn pure_event(
    alloc: Global,
    text: &[u8],
    sender: Party,
    to_env: bool,
    receivers: &[u32],
) -> Result<EventDecl, NoMemory>
    requires { IsTrue (is_name text.now) }
    ensures { IfOk result (λ event. event ≡ the_pure_event text.now sender to_env receivers.now) }
{
    Ok(EventDecl {
        name: Name::of_token(text),
        domain: None,
        sender,
        to_env,
        receivers: List::from_slice(alloc, receivers)?,
    })
}

/// A condition that allows these codes of a variable, by bits.
pub const fn on(var: u32, codes: u64) -> Cond
    ensures { result ≡ has_codes var codes }
{
    Cond {
        var,
        codes: SmallSet::of_bits(codes),
    }
}

/// An action that gives a result this code.
pub const fn gives(place: u32, code: u8) -> Act
    ensures { result ≡ gives_code place code }
{
    Act {
        result: place,
        source: Source::Code(code),
    }
}

/// A row of these conditions and actions.
pub fn row(alloc: Global, conds: &[Cond], acts: &[Act]) -> Result<Row, NoMemory>
    requires { IsTrue (are_actions acts.now) }
    ensures conds { IfOk result (λ row. row.conds ≡ conds.now) }
    ensures acts { IfOk result (λ row. row.acts ≡ acts.now) }
{
    Ok(Row {
        conds: List::from_slice(alloc, conds)?,
        acts: List::from_slice(alloc, acts)?,
    })
}

/// One state variable.
pub fn state(alloc: Global, text: &[u8], domain: u32, init: u8) -> Result<StateList, NoMemory>
    requires { IsTrue (is_name text.now) }
    ensures { IfOk result (λ states. states ≡ state_of text.now domain init ∷ []) }
{
    let mut states = StateList::new(alloc);
    states.push(StateDecl {
        name: Name::of_token(text),
        domain,
        init,
    })?;
    Ok(states)
}

/// A machine: its events are the numbers of its inputs and of its outputs, its tables the sizes of
/// its variables and of its results.
pub fn machine(
    alloc: Global,
    text: &[u8],
    priority: u8,
    events: (&[u32], &[u32]),
    states: StateList,
    tables: (&[u8], &[u8]),
    rows: RowList,
) -> Result<Machine, NoMemory>
    requires name { IsTrue (is_name text.now) }
    requires sizes { IsTrue (are_sizes tables.0.now) }
    requires result_sizes { IsTrue (are_sizes tables.1.now) }
    requires vars { IsTrue (are_vars events.0.now states tables.0.now) }
    requires results { IsTrue (are_results events.0.now events.1.now states tables.0.now
        tables.1.now) }
    requires rows { IsTrue (list_all (is_row events.0.now tables.0.now tables.1.now) rows) }
    requires small { IsTrue (is_small events.0.now events.1.now states tables.0.now rows) }
    ensures { IfOk result (λ m. IsBuilt m text.now priority events.entry.0.now events.entry.1.now
        states tables.entry.0.now tables.entry.1.now rows) }
{
    Ok(Machine {
        name: Name::of_token(text),
        priority,
        inputs: List::from_slice(alloc, events.0)?,
        outputs: List::from_slice(alloc, events.1)?,
        states,
        vars: sizes(alloc, tables.0)?,
        results: sizes(alloc, tables.1)?,
        rows,
    })
}
