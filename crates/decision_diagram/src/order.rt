// Orders of variables.
ghost use Rattle.std.specs.Prelude.{◌≡◌, ◌<◌, length, slice_get, replicate, Some, IfOk, IfSome, IfNone};
ghost use Rattle.domains.specs.Orders.{IsPermutation, place};
ghost use Rattle.decision_diagram.specs.Orders.{ArePlaces};

use polis_base::{Duplicate, List, NoMemory, Numbers};
use std::alloc::Global;
use std::marker::Model;

/// The variables of a table in the order in which diagrams read them: a permutation of the numbers
/// below its length.
#[derive(Drop)]
pub struct Order {
    vars: Numbers,
    places: List<u64>,
}

impl Model for Order {
    ghost use Rattle.std.specs.Prelude.{List, ℕ};
    ghost use Rattle.domains.specs.Orders.{IsPermutation};
    ghost use Rattle.decision_diagram.specs.Orders.{ArePlaces};

    ghost Value = { List ℕ };

    ghost view = { λ o. o.vars };

    ghost invariant = { λ o. IsPermutation o.vars × ArePlaces o.vars o.places };
}

// The place of each number, where the list is a permutation.
fn places_of(alloc: Global, list: &[u32]) -> Result<Option<List<u64>>, NoMemory>
    ensures permutation { IfOk result (λ made. IfSome made (λ places. IsPermutation list.now)) }
    ensures places { IfOk result (λ made. IfSome made (λ places. ArePlaces list.now places)) }
    ensures none { IfOk result (λ made. IfNone made (¬ IsPermutation list.now)) }
{
    let len = list.len() as u64;
    let mut places = List::filled(alloc, len, len)?;
    for (i, var) in list.iter().enumerate() {
        let var = u64::from(*var);
        if var >= len || *places.get(var) < len {
            return Ok(None);
        }
        places.set(var, i as u64);
    }
    Ok(Some(places))
}

impl Order {
    /// The order that a list gives, first the variable that is read first. It is None exactly where
    /// the list is no permutation of the numbers below its length.
    pub fn new(alloc: Global, list: &[u32]) -> Result<Option<Order>, NoMemory>
        ensures some { IfOk result (λ made. IfSome made (λ order. order ≡ list.now)) }
        ensures permutation { IfOk result (λ made. IfSome made (λ order. IsPermutation list.now)) }
        ensures none { IfOk result (λ made. IfNone made (¬ IsPermutation list.now)) }
    {
        match places_of(alloc, list)? {
            None => Ok(None),
            Some(places) => Ok(Some(Order {
                vars: Numbers::from_slice(alloc, list)?,
                places,
            })),
        }
    }

    /// How many variables there are.
    pub fn len(&self) -> u64
        ensures len { result ≡ length self.now }
        ensures permutation { IsPermutation self.now }
    {
        self.vars.len()
    }

    /// The variable at a place.
    pub fn get(&self, i: u64) -> &u32
        requires { i < length self.now }
        ensures { slice_get self.now i ≡ Some result.now }
    {
        self.vars.get(i)
    }

    /// The place of a variable.
    pub fn place_of(&self, var: u32) -> u64
        requires { var < length self.now }
        ensures place { result ≡ place self.now var }
        ensures within { result < length self.now }
    {
        *self.places.get(u64::from(var))
    }
}

impl Duplicate for Order {
    fn copy(&self) -> Result<Order, NoMemory> {
        Ok(Order {
            vars: self.vars.copy()?,
            places: self.places.copy()?,
        })
    }
}
