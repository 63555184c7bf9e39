// Images.
ghost use Rattle.std.specs.Prelude.{◌≡◌, ◌<◌, ◌≤◌, ◌++◌, ◌∷◌, [], length, slice_get, Some, IfOk, OnOk, OnErr, IsSomeAnd};
ghost use Rattle.task_image.specs.Images.{codes_of, head_of as head_in};
ghost use Rattle.task_image.specs.inner.Heads.{kept_head, IsHead, AreHeads};

use domains::VarTable;
use polis_base::{Duplicate, List, Name, NoMemory};
use std::alloc::Global;
use std::marker::Model;
use task_code::{Code, CodeList};
use transition_table::{Machine, MachineList, Network};

/// What is kept of a machine without its table.
#[derive(Drop)]
pub struct ImageMachine {
    /// Its name.
    pub name: Name,
    /// How many codes each of its variables has.
    pub vars: VarTable,
    /// How many codes each of its results has.
    pub results: VarTable,
    /// The code of its reaction.
    pub code: Code,
}

impl Duplicate for ImageMachine {
    fn copy(&self) -> Result<ImageMachine, NoMemory> {
        Ok(ImageMachine {
            name: self.name,
            vars: self.vars.copy()?,
            results: self.results.copy()?,
            code: self.code.copy()?,
        })
    }
}

/// What is kept of a machine beside its code.
#[derive(Drop)]
pub struct Head {
    /// Its name.
    pub name: Name,
    /// How many codes each of its variables has.
    pub vars: VarTable,
    /// How many codes each of its results has.
    pub results: VarTable,
}

impl Duplicate for Head {
    fn copy(&self) -> Result<Head, NoMemory> {
        Ok(Head {
            name: self.name,
            vars: self.vars.copy()?,
            results: self.results.copy()?,
        })
    }
}

/// Machines without their tables, in order. Their codes are kept by themselves, so that they are
/// handed on without taking memory.
#[derive(Drop)]
pub struct Image {
    heads: Vec<Head>,
    codes: CodeList,
}

impl Model for Image {
    ghost use Rattle.std.specs.Prelude.{◌≡◌, List, length};
    ghost use Rattle.task_image.specs.declared.image.ImageMachine.{ImageMachine};
    ghost use Rattle.task_image.specs.inner.Heads.{joined};

    ghost Value = { List ImageMachine };

    ghost view = { λ i. joined i.heads.items i.codes };

    ghost invariant = { λ i. length i.heads.items ≡ length i.codes };
}

// The name and the sizes of a machine.
fn head_of(m: &Machine) -> Result<Head, NoMemory>
    ensures is { IfOk result (λ h. h ≡ kept_head m.now) }
    ensures head { IfOk result (λ h. IsHead h) }
{
    let _name = m.name.bytes();
    let _vars = m.var_count();
    let _count = m.result_count();
    let _sizes = m.results.len();
    Ok(Head {
        name: m.name,
        vars: m.vars.copy()?,
        results: m.results.copy()?,
    })
}

// The names and the sizes of machines.
fn heads_of(alloc: Global, machines: &MachineList) -> Result<Vec<Head>, NoMemory>
    ensures { IfOk result (λ heads. AreHeads machines.now heads.items) }
{
    let mut heads = Vec::new(alloc);
    for k in 0..machines.len() {
        let head = head_of(machines.get(k))?;
        heads.push(head)?;
    }
    Ok(heads)
}

impl Image {
    ghost use Rattle.task_image.specs.Images.{IsImage, AreStorable, image_of};

    /// The machines of a network with these codes. It copies their names and sizes.
    pub fn of(alloc: Global, net: &Network, codes: CodeList) -> Result<Image, NoMemory>
        requires { AreStorable net.now codes }
        ensures image { IfOk result (λ i. i ≡ image_of net.now.machines codes) }
        ensures is_image { IfOk result (λ i. IsImage i) }
    {
        let heads = heads_of(alloc, &net.machines)?;
        Ok(Image { heads, codes })
    }

    /// No machines.
    pub fn new(alloc: Global) -> Self
        ensures { result ≡ [] }
    {
        Image {
            heads: Vec::new(alloc),
            codes: CodeList::new(alloc),
        }
    }

    /// Puts a machine at the end.
    pub fn push(&mut self, machine: ImageMachine) -> Result<(), NoMemory>
        ensures ok { OnOk result (self.new ≡ self.old ++ machine ∷ []) }
        ensures err { OnErr result (self.new ≡ self.old) }
    {
        self.heads.reserve(1)?;
        self.codes.push(machine.code)?;
        match self.heads.push(Head {
            name: machine.name,
            vars: machine.vars,
            results: machine.results,
        }) {
            Ok(()) => Ok(()),
            Err(_) => unreachable!(),
        }
    }

    /// How many machines there are.
    pub fn len(&self) -> u64
        ensures { result ≡ length self.now }
    {
        self.codes.len()
    }

    /// The code of a machine.
    pub fn code(&self, k: u64) -> &Code
        requires { k < length self.now }
        ensures { IsSomeAnd (slice_get self.now k) (λ m. m.code ≡ result.now) }
    {
        self.codes.get(k)
    }

    /// The name and the sizes of a machine.
    pub fn head(&self, k: u64) -> &Head
        requires { k < length self.now }
        ensures { IsSomeAnd (slice_get self.now k) (λ m. head_in m ≡ result.now) }
    {
        &self.heads[k as usize]
    }

    /// The codes of the machines, in order. It takes no memory.
    pub fn into_codes(self) -> CodeList
        ensures { result ≡ codes_of self }
    {
        self.codes
    }
}

impl Duplicate for Image {
    fn copy(&self) -> Result<Image, NoMemory> {
        let mut heads = Vec::with_capacity(*self.heads.allocator(), self.heads.len())?;
        for head in &self.heads {
            heads.push(head.copy()?)?;
        }
        Ok(Image {
            heads,
            codes: self.codes.copy()?,
        })
    }
}
