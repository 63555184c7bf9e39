// The network of a text that is accepted.
ghost use Rattle.std.specs.Prelude.{◌≡◌, IfOk, IfErr, IfSome, OnOk, IsTrue};
ghost use Rattle.transition_table.specs.NetworkFacts.{has_vars};
ghost use Rattle.transition_table.specs.Transitions.{IsDeterministic, AreDeterministic};
ghost use Rattle.transition_table.specs.declared.network.Network.{Network};
ghost use Rattle.net_reader.specs.Sentences.{HasNet, HasOnly};
ghost use Rattle.net_rules.specs.NetOf.{IsNetOf, NetOf};
ghost use Rattle.net_rules.specs.Whole.{HasMachines};
ghost use Rattle.polis_words.specs.Lines.{cause_status};
ghost use Rattle.determinism.specs.Conflicts.{IsLeastConflict};
ghost use Rattle.input_files.specs.Accepted.{Accepted, Declares, IsConflictIn};
ghost use Rattle.input_files.specs.Inputs.{IsNetFault};
ghost use Rattle.input_files.specs.Places.{StandThere, condition_place, row_place};
ghost use Rattle.input_files.specs.inner.Accepted.{IsMachineFault, IsConflictFault};
ghost use Rattle.input_files.specs.Faults.{IfCause, refusal_of};

use determinism::{CheckFault, check};
use net_reader::{NetFault, RawCond, RawNet, read_network};
use net_rules::{ResolveFault, resolve, resolve_whole};
use polis_base::{LexError, NoMemory};
use polis_words::{Cause, Conflict, LexKind, Status, print_snapshot};
use std::alloc::Global;
use transition_table::{Machine, Network, Snapshot};

/// Why a file isn't accepted.
#[derive(Drop)]
pub enum FileFault {
    /// What is wrong with it.
    Cause(Cause),
    /// Memory ran out.
    NoMemory,
}

impl From<LexError> for FileFault {
    ghost use Rattle.input_files.specs.Faults.{lex_fault};

    ghost from_gives = { λ error fault. fault ≡ lex_fault error };

    // Why a text whose tokens don't read isn't accepted.
    fn from(error: LexError) -> FileFault {
        let (kind, place) = match error {
            LexError::BadByte(place) => (LexKind::Byte, place),
            LexError::NameTooLong(place) => (LexKind::Name, place),
            LexError::NumberTooLarge(place) => (LexKind::Number, place),
            LexError::NoMemory => return FileFault::NoMemory,
        };
        FileFault::Cause(Cause::Lex { kind, place })
    }
}

/// A network with what its text declares, which alone has the names of its domains.
#[derive(Drop)]
pub struct DeclaredNet {
    /// What the text declares.
    pub raw: RawNet,
    /// The network.
    pub net: Network,
}

// The place of the name in a condition.
fn condition_place(condition: &RawCond) -> u64
    ensures { result ≡ condition_place condition.now }
{
    match condition {
        RawCond::Present(name) => name.at,
        RawCond::Absent(name) => name.at,
        RawCond::Is { name, .. } => name.at,
        RawCond::OneOf { name, .. } => name.at,
    }
}

// The place of the name in the first condition of a row of a machine.
fn row_place(raw: &RawNet, machine: u32, row: u32) -> u64
    ensures { result ≡ row_place raw.now machine row }
{
    if u64::from(machine) >= raw.machines.len() {
        return 0;
    }
    let rows = &raw.machines.get(u64::from(machine)).rows;
    if u64::from(row) >= rows.len() {
        return 0;
    }
    let conditions = &rows.get(u64::from(row)).conds;
    if conditions.len() == 0 {
        return 0;
    }
    condition_place(conditions.get(0))
}

// Rows of a machine, the m-th, that conflict on a snapshot.
fn conflict_of(
    alloc: Global,
    raw: &RawNet,
    net: &Network,
    m: u32,
    machine: &Machine,
    row_a: u32,
    row_b: u32,
    snapshot: &Snapshot,
) -> Result<Conflict, NoMemory>
    requires sized { IsTrue (has_vars net.now.domains net.now.events machine.now) }
    requires conflict { IsLeastConflict machine.now row_a row_b snapshot.now }
    ensures { IfOk result (λ rows. (rows.machine ≡ m) × StandThere raw.now rows
        × IsConflictIn net.now machine.now rows) }
{
    let snapshot = print_snapshot(alloc, net, machine, snapshot)?;
    Ok(Conflict {
        machine: m,
        name: machine.name,
        row_a,
        row_b,
        snapshot,
        place_a: row_place(raw, m, row_a),
        place_b: row_place(raw, m, row_b),
    })
}

// Whether a machine, the m-th, is deterministic.
fn check_machine(
    alloc: Global,
    raw: &RawNet,
    net: &Network,
    m: u32,
    machine: &Machine,
) -> Result<(), FileFault>
    requires { IsTrue (has_vars net.now.domains net.now.events machine.now) }
    ensures ok { OnOk result (IsDeterministic machine.now) }
    ensures failed { IfErr result (λ fault.
        IfCause fault (IsMachineFault raw.now net.now m machine.now)) }
{
    match check(alloc, machine) {
        Ok(()) => Ok(()),
        Err(
            CheckFault::Conflict {
                row_a,
                row_b,
                snapshot,
            },
        ) => match conflict_of(alloc, raw, net, m, machine, row_a, row_b, &snapshot) {
            Ok(rows) => Err(FileFault::Cause(Cause::Conflict(rows))),
            Err(NoMemory) => Err(FileFault::NoMemory),
        },
        Err(CheckFault::NoMemory) => Err(FileFault::NoMemory),
    }
}

// Whether each machine is deterministic.
fn check_machines(alloc: Global, raw: &RawNet, net: &Network) -> Result<(), FileFault>
    ensures ok { OnOk result (AreDeterministic net.now) }
    ensures failed { IfErr result (λ fault. IfCause fault (IsConflictFault raw.now net.now)) }
{
    for m in 0..net.machines.len() {
        match check_machine(alloc, raw, net, m as u32, net.machines.get(m)) {
            Ok(()) => {}
            Err(fault) => return Err(fault),
        }
    }
    Ok(())
}

// What a text declares.
fn declarations_in(alloc: Global, text: &[u8]) -> Result<RawNet, FileFault>
    ensures ok { IfOk result (λ raw. HasOnly text.now raw) }
    ensures failed { IfErr result (λ fault. IfCause fault (IsNetFault text.now)) }
{
    match read_network(alloc, text) {
        Ok(raw) => Ok(raw),
        Err(NetFault::Lex(error)) => Err(FileFault::from(error)),
        Err(NetFault::Syntax(place)) => Err(FileFault::Cause(Cause::Syntax { place })),
        Err(NetFault::NoMemory) => Err(FileFault::NoMemory),
    }
}

// Why declarations give no network.
fn refusal_of(fault: ResolveFault) -> FileFault
    ensures { result ≡ refusal_of fault }
{
    match fault {
        ResolveFault::Rule { rule, place } => FileFault::Cause(Cause::Rule { rule, place }),
        ResolveFault::NoMemory => FileFault::NoMemory,
    }
}

// The network that a text declares, and what it declares.
fn declared_in(alloc: Global, text: &[u8]) -> Result<DeclaredNet, FileFault>
    ensures ok { IfOk result (λ declared.
        HasNet text.now declared.raw × IsNetOf declared.raw declared.net) }
    ensures one { IfOk result
        (λ declared. (other : Network) → NetOf text.now other → other ≡ declared.net) }
    ensures failed { IfErr result (λ fault. IfCause fault (IsNetFault text.now)) }
{
    let raw = match declarations_in(alloc, text) {
        Ok(raw) => raw,
        Err(fault) => return Err(fault),
    };
    match resolve(alloc, &raw) {
        Ok(net) => Ok(DeclaredNet { raw, net }),
        Err(fault) => Err(refusal_of(fault)),
    }
}

// The network that a text declares. What it declares goes while the network is made.
fn net_in(alloc: Global, text: &[u8]) -> Result<Network, FileFault>
    ensures ok { IfOk result (λ net. NetOf text.now net) }
    ensures one { IfOk result (λ net. (other : Network) → NetOf text.now other → other ≡ net) }
    ensures failed { IfErr result (λ fault. IfCause fault (IsNetFault text.now)) }
{
    let raw = match declarations_in(alloc, text) {
        Ok(raw) => raw,
        Err(fault) => return Err(fault),
    };
    match resolve_whole(alloc, raw) {
        Ok(net) => Ok(net),
        Err(fault) => Err(refusal_of(fault)),
    }
}

/// The network of a text, each machine of which is deterministic, with what the text declares.
pub fn declared_network_in(alloc: Global, text: &[u8]) -> Result<DeclaredNet, FileFault>
    ensures ok { IfOk result (λ declared. Declares text.now declared.raw declared.net) }
    ensures one { IfOk result
        (λ declared. (other : Network) → NetOf text.now other → other ≡ declared.net) }
    ensures whole { IfOk result (λ declared. HasMachines declared.net) }
    ensures failed { IfErr result (λ fault. IfCause fault (IsNetFault text.now)) }
    ensures refused { IfErr result (λ fault. IfCause fault
        (λ cause. cause_status cause ≡ Status.Refused)) }
{
    let declared = match declared_in(alloc, text) {
        Ok(declared) => declared,
        Err(fault) => return Err(fault),
    };
    match check_machines(alloc, &declared.raw, &declared.net) {
        Ok(()) => Ok(declared),
        Err(fault) => Err(fault),
    }
}

// Whether each machine is deterministic.
fn are_deterministic(alloc: Global, net: &Network) -> Result<bool, FileFault>
    ensures ok { IfOk result (λ all. IsTrue all → AreDeterministic net.now) }
    ensures failed { IfErr result (λ fault. fault ≡ FileFault.NoMemory) }
{
    for m in 0..net.machines.len() {
        match check(alloc, net.machines.get(m)) {
            Ok(()) => {}
            Err(CheckFault::Conflict { .. }) => return Ok(false),
            Err(CheckFault::NoMemory) => return Err(FileFault::NoMemory),
        }
    }
    Ok(true)
}

// The network of a text, or none where rows of a machine conflict.
fn unless_conflict(alloc: Global, text: &[u8]) -> Result<Option<Network>, FileFault>
    ensures ok { IfOk result (λ found. IfSome found (λ net. Accepted text.now net)) }
    ensures one { IfOk result (λ found. IfSome found
        (λ net. (other : Network) → NetOf text.now other → other ≡ net)) }
    ensures failed { IfErr result (λ fault. IfCause fault (IsNetFault text.now)) }
{
    let net = match net_in(alloc, text) {
        Ok(net) => net,
        Err(fault) => return Err(fault),
    };
    let all = match are_deterministic(alloc, &net) {
        Ok(all) => all,
        Err(fault) => return Err(fault),
    };
    if all { Ok(Some(net)) } else { Ok(None) }
}

/// The network of a text, each machine of which is deterministic. Where rows conflict, the text is
/// read once more for their places.
pub fn network_in(alloc: Global, text: &[u8]) -> Result<Network, FileFault>
    ensures ok { IfOk result (λ net. Accepted text.now net) }
    ensures one { IfOk result (λ net. (other : Network) → NetOf text.now other → other ≡ net) }
    ensures whole { IfOk result HasMachines }
    ensures failed { IfErr result (λ fault. IfCause fault (IsNetFault text.now)) }
    ensures refused { IfErr result (λ fault. IfCause fault
        (λ cause. cause_status cause ≡ Status.Refused)) }
{
    match unless_conflict(alloc, text) {
        Ok(Some(net)) => Ok(net),
        Ok(None) => match declared_network_in(alloc, text) {
            Ok(DeclaredNet { net, .. }) => Ok(net),
            Err(fault) => Err(fault),
        },
        Err(fault) => Err(fault),
    }
}
