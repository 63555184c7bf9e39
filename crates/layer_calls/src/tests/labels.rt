// The calls on costs that no command makes, on the lamp's machine.
ghost use Rattle.std.specs.Prelude.{◌≡◌, length, IfOk};
ghost use Rattle.cost_bound.specs.Certificates.{AreSmall};
ghost use Rattle.task_code.specs.Facts.{OnceCode};
ghost use Rattle.task_machine.specs.Running.{CodeFits};
ghost use Rattle.transition_table.specs.Transitions.{IsDeterministic};

use cost_bound::{Costs, LABELLED_MAX, Labels, audit, labels, worst};
use machine_compiler::compile_machine;
use polis_base::NoMemory;
use sample_networks::lamp::deterministic_machine;
use std::alloc::Global;
use std::test::Fail;
use task_code::Code;
use transition_table::Machine;

// Whether labels are these, and cover code.
fn are_cover(code: &Code, costs: &Costs, labels: &Labels, wanted: &[u64]) -> bool
    requires long { length labels.now ≡ length code.now }
    requires small { AreSmall labels.now }
{
    labels.as_slice() == wanted && audit(code, costs, labels)
}

// Whether the least labels of code are these, and cover it.
fn are_labels(alloc: Global, code: &Code, wanted: &[u64]) -> Result<bool, NoMemory> {
    if code.len() > LABELLED_MAX {
        return Ok(false);
    }
    let costs = Costs::ones();
    let labels = labels(alloc, code, &costs)?;
    Ok(are_cover(code, &costs, &labels, wanted))
}

// Whether code takes so many steps at most.
fn is_worst(alloc: Global, code: &Code, m: &Machine, steps: u64) -> Result<bool, NoMemory>
    requires fits { CodeFits m.now code.now }
    requires once { OnceCode code.now }
{
    let bound = worst(alloc, code, m)?;
    Ok(bound.steps == steps)
}

// The code of a machine.
fn code_of(alloc: Global, m: &Machine) -> Result<Code, NoMemory>
    requires { IsDeterministic m.now }
    ensures fits { IfOk result (λ code. CodeFits m.now code) }
    ensures once { IfOk result (λ code. OnceCode code) }
{
    let compiled = compile_machine(alloc, m)?;
    Ok(compiled.code)
}

// Whether a machine's code takes so many steps at most and has these labels.
fn certifies(alloc: Global, m: &Machine, steps: u64, wanted: &[u64]) -> Result<bool, NoMemory>
    requires { IsDeterministic m.now }
{
    let code = code_of(alloc, m)?;
    let is_worst = is_worst(alloc, &code, m, steps)?;
    let are_labels = are_labels(alloc, &code, wanted)?;
    Ok(is_worst && are_labels)
}

fn certifies_lamp(alloc: Global) -> Result<bool, NoMemory> {
    let m = deterministic_machine(alloc)?;
    certifies(alloc, &m, 6, &[6, 5, 4, 3, 2, 1])
}

#[test]
fn certifies_costs(rt: HostRuntime) -> Result<(), Fail> {
    assert!(rt; certifies_lamp(rt.alloc())?);
    Ok(())
}
