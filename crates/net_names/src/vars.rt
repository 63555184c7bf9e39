// The variables of a machine, each looked up once.
ghost use Rattle.std.specs.Prelude.{◌≡◌, ◌<◌, Some, length, IfOk};
ghost use Rattle.net_names.specs.Numbers.{names_of, number_in};
ghost use Rattle.net_names.specs.Scopes.{var_words};
ghost use Rattle.net_names.specs.Vars.{IsVar, AreVars};

use crate::machine_names::MachineNames;
use crate::names::var_words;
use net_reader::{RawShape, Word};
use polis_base::{List, Name, NoMemory};
use std::alloc::Global;

/// What a name stands for among the variables of a machine.
#[derive(Drop)]
pub struct Var<'a> {
    /// Whether it is an input or a state variable.
    pub is_known: bool,
    /// Whether it is an input.
    pub is_input: bool,
    /// Whether it is a state variable.
    pub is_state: bool,
    /// Whether its state variable, or else its event, has a domain.
    pub has_domain: bool,
    /// The values of that domain, where it is declared.
    pub shape: Option<&'a RawShape>,
}

/// What a name stands for.
pub fn var_of<'s, 'a>(names: &MachineNames<'s, 'a>, name: Name) -> Var<'a>
    ensures { IsVar names.now.scope.now.raw.now names.now.machine.now name result }
{
    let domain = names.variable_domain(name);
    Var {
        is_known: names.is_variable(name),
        is_input: names.is_input(name),
        is_state: names.is_state(name),
        has_domain: domain.is_some(),
        shape: names.shape_at(domain),
    }
}

// What these words stand for.
fn vars_each<'s, 'a>(
    alloc: Global,
    names: &MachineNames<'s, 'a>,
    words: &[Word],
) -> Result<List<Var<'a>>, NoMemory>
    ensures { IfOk result
        (λ vars. AreVars names.now.scope.now.raw.now names.now.machine.now words.now vars) }
{
    let mut vars = List::new(alloc);
    for word in words {
        vars.push(var_of(names, word.name))?;
    }
    Ok(vars)
}

/// What the names of a machine's variables stand for, by number.
pub fn vars_of<'s, 'a>(
    alloc: Global,
    names: &MachineNames<'s, 'a>,
) -> Result<List<Var<'a>>, NoMemory>
    ensures { IfOk result
        (λ vars. AreVars names.now.scope.now.raw.now names.now.machine.now
        (var_words names.now.machine.now) vars) }
{
    let words = var_words(alloc, names.machine)?;
    vars_each(alloc, names, words.as_slice())
}

/// What the variable of this name and number stands for.
pub fn var_numbered<'v, 's, 'a>(
    names: &MachineNames<'s, 'a>,
    vars: &'v List<Var<'a>>,
    name: Name,
    number: u64,
) -> &'v Var<'a>
    requires vars { AreVars names.now.scope.now.raw.now names.now.machine.now
        (var_words names.now.machine.now) vars.now }
    requires number { number_in (names_of (var_words names.now.machine.now)) name ≡ Some number }
    ensures { IsVar names.now.scope.now.raw.now names.now.machine.now name result.now }
{
    vars.get(number)
}
