// Codes of variables, and the sizes that they stay below.
ghost use Rattle.std.specs.Prelude.{◌≡◌, ◌+◌, ◌<◌, ◌≤◌, ◌↔◌, suc, not, [], ◌∷◌, ◌++◌, length, drop, slice_get, slice_index, replicate, Some, IfSome, IfNone, IfOk, OnOk, OnErr, IsTrue, IsFalse};
ghost use Rattle.domains.specs.Tables.{are_sizes, fits, rank, product, are_greatest, stepped};

use polis_base::{Duplicate, List, NoMemory};
use std::alloc::Global;
use std::marker::Model;

/// One code per variable.
pub type Codes = List<u8>;

/// The sizes of variables, each 1 to 33.
#[derive(Drop)]
pub struct VarTable {
    sizes: List<u8>,
}

impl Model for VarTable {
    ghost use Rattle.std.specs.Prelude.{List, ℕ, IsTrue};
    ghost use Rattle.domains.specs.Tables.{are_sizes};

    ghost Value = { List ℕ };

    ghost view = { λ t. t.sizes };

    ghost invariant = { λ t. IsTrue (are_sizes t.sizes) };
}

impl VarTable {
    /// No variables.
    pub fn new(alloc: Global) -> Self
        ensures { result ≡ [] }
    {
        VarTable {
            sizes: List::new(alloc),
        }
    }

    /// How many variables there are.
    pub fn len(&self) -> u64
        ensures len { result ≡ length self.now }
        ensures sizes { IsTrue (are_sizes self.now) }
    {
        self.sizes.len()
    }

    /// Puts the size of one more variable at the end.
    pub fn push(&mut self, size: u8) -> Result<(), NoMemory>
        requires some { 1 ≤ size }
        requires few { size ≤ 33 }
        ensures ok { OnOk result (self.new ≡ self.old ++ size ∷ []) }
        ensures err { OnErr result (self.new ≡ self.old) }
    {
        self.sizes.push(size)?;
        Ok(())
    }

    /// The size of a variable.
    pub fn get(&self, i: u64) -> &u8
        requires { i < length self.now }
        ensures { slice_get self.now i ≡ Some result.now }
    {
        self.sizes.get(i)
    }
}

impl Duplicate for VarTable {
    fn copy(&self) -> Result<VarTable, NoMemory> {
        Ok(VarTable {
            sizes: self.sizes.copy()?,
        })
    }
}

/// A code 0 for each variable: the first of the lists that fit.
pub fn first_codes(alloc: Global, vars: &VarTable) -> Result<Codes, NoMemory>
    ensures zeros { IfOk result (λ codes. codes ≡ replicate (length vars.now) 0) }
    ensures fits { IfOk result (λ codes. IsTrue (fits vars.now codes)) }
    ensures first { IfOk result (λ codes. rank vars.now codes ≡ 0) }
{
    let codes = Codes::filled(alloc, vars.len(), 0)?;
    Ok(codes)
}

// The last variable whose code isn't its greatest, where there is one.
fn last_below(codes: &Codes, vars: &VarTable) -> Option<u64>
    requires { IsTrue (fits vars.now codes.now) }
    ensures sizes { IsTrue (are_sizes vars.now) }
    ensures place { IfSome result (λ k. k < length codes.now) }
    ensures below { IfSome result (λ k. slice_index codes.now k + 1 < slice_index vars.now k) }
    ensures after { IfSome result (λ k.
        IsTrue (are_greatest (drop (suc k) vars.now) (drop (suc k) codes.now))) }
    ensures none { IfNone result (IsTrue (are_greatest vars.now codes.now)) }
{
    for k in (0..vars.len()).rev() {
        let size = *vars.get(k);
        if *codes.get(k) + 1 < size {
            return Some(k);
        }
    }
    None
}

// Adds one to a code, and sets those after it to 0.
fn step(codes: &mut Codes, k: u64)
    requires place { k < length codes.old }
    requires room { slice_index codes.old k < 255 }
    ensures { codes.new ≡ stepped codes.old k }
{
    let len = codes.len();
    let code = *codes.get(k) + 1;
    codes.set(k, code);
    for after in k + 1..len {
        codes.set(after, 0);
    }
}

/// Steps to the next of the lists that fit, in which the last variable changes fastest. False, and
/// nothing is changed, where every code is its variable's greatest.
pub fn next_codes(codes: &mut Codes, vars: &VarTable) -> bool
    requires { IsTrue (fits vars.now codes.old) }
    ensures fits { IsTrue (fits vars.now codes.new) }
    ensures next { IsTrue result → rank vars.now codes.new ≡ rank vars.now codes.old + 1 }
    ensures last { IsTrue result ↔ (rank vars.now codes.old + 1 < product vars.now) }
    ensures greatest { result ≡ not (are_greatest vars.now codes.old) }
    ensures same { IsFalse result → codes.new ≡ codes.old }
{
    match last_below(codes, vars) {
        Some(k) => {
            step(codes, k);
            true
        }
        None => false,
    }
}
