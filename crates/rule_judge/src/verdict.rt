// The first rule that is broken.
ghost use Rattle.std.specs.Prelude.{◌≡◌, IfOk};
ghost use Rattle.net_names.specs.Machines.{AreMachineNames};
ghost use Rattle.rule_judge.specs.Declarations.{declaration_rules};
ghost use Rattle.rule_judge.specs.Judged.{first_broken, act_rules, machine_rules};
ghost use Rattle.rule_judge.specs.inner.Parts.{row_rules, cond_rules, port_rules};

use crate::actions::{all_plain, rule_19, rule_21, rule_22, rule_23, rule_24, rule_25};
use crate::conds::cond_faults;
use crate::initials::rule_14;
use crate::ports::{rule_8, rule_9, rule_11, rule_12, rule_13};
use crate::rules::{rule_1, rule_2, rule_3, rule_4, rule_5, rule_6, rule_7, rule_10};
use crate::snapshots::rule_20;
use crate::targets::rule_18;
use net_names::{MachineNames, Scope};
use net_reader::RawNet;
use polis_base::{List, NoMemory};
use std::alloc::Global;

/// A rule that is broken, and the place that is shown.
#[derive(Clone, Copy)]
pub struct Broken {
    /// The number of the rule.
    pub rule: u8,
    /// The least byte place where it is broken.
    pub place: u64,
}

// The first of these rules on actions that is broken.
fn judge_acts(raw: &RawNet, machines: &List<MachineNames>) -> Option<Broken>
    requires { AreMachineNames raw.now raw.now.machines machines.now }
    ensures { result ≡ first_broken (act_rules raw.now) }
{
    if all_plain(raw) {
        return None;
    }
    if let Some(place) = rule_21(raw, machines) {
        return Some(Broken { rule: 21, place });
    }
    if let Some(place) = rule_22(raw, machines) {
        return Some(Broken { rule: 22, place });
    }
    if let Some(place) = rule_23(raw, machines) {
        return Some(Broken { rule: 23, place });
    }
    if let Some(place) = rule_24(raw, machines) {
        return Some(Broken { rule: 24, place });
    }
    if let Some(place) = rule_25(raw, machines) {
        return Some(Broken { rule: 25, place });
    }
    None
}

// The first of these rules on the targets, values and number of rows, and of those on actions, that
// is broken.
fn judge_rows(
    alloc: Global,
    scope: &Scope,
    machines: &List<MachineNames>,
) -> Result<Option<Broken>, NoMemory>
    requires { AreMachineNames scope.now.raw.now scope.now.raw.now.machines machines.now }
    ensures { IfOk result (λ place. place ≡ first_broken (row_rules scope.now.raw.now)) }
{
    if let Some(place) = rule_18(alloc, scope.raw, machines)? {
        return Ok(Some(Broken { rule: 18, place }));
    }
    if let Some(place) = rule_19(scope.raw, machines) {
        return Ok(Some(Broken { rule: 19, place }));
    }
    if let Some(place) = rule_20(scope)? {
        return Ok(Some(Broken { rule: 20, place }));
    }
    Ok(judge_acts(scope.raw, machines))
}

// The first of these rules on conditions, and of those on rows, that is broken.
fn judge_conds(
    alloc: Global,
    scope: &Scope,
    machines: &List<MachineNames>,
) -> Result<Option<Broken>, NoMemory>
    requires { AreMachineNames scope.now.raw.now scope.now.raw.now.machines machines.now }
    ensures { IfOk result (λ place. place ≡ first_broken (cond_rules scope.now.raw.now)) }
{
    let conds = cond_faults(alloc, scope.raw, machines)?;
    if let Some(place) = conds.unknown {
        return Ok(Some(Broken { rule: 15, place }));
    }
    if let Some(place) = conds.unsuited {
        return Ok(Some(Broken { rule: 16, place }));
    }
    if let Some(place) = conds.valueless {
        return Ok(Some(Broken { rule: 17, place }));
    }
    judge_rows(alloc, scope, machines)
}

/// The first of the rules 14 to 25, on the values and rows of machines, that is broken, with the
/// least place where it is.
pub fn judge_machines(
    alloc: Global,
    scope: &Scope,
    machines: &List<MachineNames>,
) -> Result<Option<Broken>, NoMemory>
    requires { AreMachineNames scope.now.raw.now scope.now.raw.now.machines machines.now }
    ensures { IfOk result (λ place. place ≡ first_broken (machine_rules scope.now.raw.now)) }
{
    if let Some(place) = rule_14(scope)? {
        return Ok(Some(Broken { rule: 14, place }));
    }
    judge_conds(alloc, scope, machines)
}

// The first of the rules on the sizes, priorities and ports of machines that is broken.
fn judge_ports(alloc: Global, raw: &RawNet) -> Result<Option<Broken>, NoMemory>
    ensures { IfOk result (λ place. place ≡ first_broken (port_rules raw.now)) }
{
    if let Some(place) = rule_9(raw)? {
        return Ok(Some(Broken { rule: 9, place }));
    }
    if let Some(place) = rule_10(raw)? {
        return Ok(Some(Broken { rule: 10, place }));
    }
    if let Some(place) = rule_11(alloc, raw)? {
        return Ok(Some(Broken { rule: 11, place }));
    }
    if let Some(place) = rule_12(alloc, raw)? {
        return Ok(Some(Broken { rule: 12, place }));
    }
    if let Some(place) = rule_13(alloc, raw)? {
        return Ok(Some(Broken { rule: 13, place }));
    }
    Ok(None)
}

/// The first of the rules 1 to 13, on declarations and ports, that is broken, with the least place
/// where it is.
pub fn judge_declarations(alloc: Global, raw: &RawNet) -> Result<Option<Broken>, NoMemory>
    ensures { IfOk result (λ place. place ≡ first_broken (declaration_rules raw.now)) }
{
    if let Some(place) = rule_1(raw) {
        return Ok(Some(Broken { rule: 1, place }));
    }
    if let Some(place) = rule_2(alloc, raw)? {
        return Ok(Some(Broken { rule: 2, place }));
    }
    if let Some(place) = rule_3(alloc, raw)? {
        return Ok(Some(Broken { rule: 3, place }));
    }
    if let Some(place) = rule_4(alloc, raw)? {
        return Ok(Some(Broken { rule: 4, place }));
    }
    if let Some(place) = rule_5(raw)? {
        return Ok(Some(Broken { rule: 5, place }));
    }
    if let Some(place) = rule_6(alloc, raw)? {
        return Ok(Some(Broken { rule: 6, place }));
    }
    if let Some(place) = rule_7(alloc, raw)? {
        return Ok(Some(Broken { rule: 7, place }));
    }
    if let Some(place) = rule_8(alloc, raw)? {
        return Ok(Some(Broken { rule: 8, place }));
    }
    judge_ports(alloc, raw)
}
