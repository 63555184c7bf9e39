// The numbers of snapshots in their order, in which the last variable changes fastest.
ghost use Rattle.std.specs.Prelude.{◌≡◌, ◌<◌, ◌≤◌, IfOk, IsTrue};
ghost use Rattle.domains.specs.Tables.{fits, product, rank};
ghost use Rattle.cost_bound.specs.inner.Scores.{weights_of};

use domains::{Codes, VarTable};
use polis_base::{List, NoMemory};
use std::alloc::Global;

/// For each variable how much one more in its code adds to a snapshot's number.
pub(crate) type Weights = List<u64>;

/// The weights of the variables of a machine.
pub(crate) fn weights(alloc: Global, vars: &VarTable) -> Result<Weights, NoMemory>
    requires { product vars.now ≤ 65536 }
    ensures { IfOk result (λ weights. weights ≡ weights_of vars.now) }
{
    let mut weights = List::filled(alloc, vars.len(), 1)?;
    let mut weight = 1;
    for v in (0..vars.len()).rev() {
        weights.set(v, weight);
        weight *= u64::from(*vars.get(v));
    }
    Ok(weights)
}

/// The codes of the snapshot that has this number.
pub(crate) fn codes_at(
    alloc: Global,
    vars: &VarTable,
    weights: &Weights,
    number: u64,
) -> Result<Codes, NoMemory>
    requires weights { weights.now ≡ weights_of vars.now }
    requires number { number < product vars.now }
    ensures fits { IfOk result (λ codes. IsTrue (fits vars.now codes)) }
    ensures rank { IfOk result (λ codes. rank vars.now codes ≡ number) }
{
    let mut codes = Codes::with_room(alloc, vars.len())?;
    let mut left = number;
    for v in 0..vars.len() {
        let weight = *weights.get(v);
        codes.push((left / weight) as u8)?;
        left %= weight;
    }
    Ok(codes)
}
