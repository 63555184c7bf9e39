// Code.
ghost use Rattle.std.specs.Prelude.{◌≡◌, ◌<◌, ◌^◌, length, slice_get, Some, IfOk};
ghost use Rattle.task_code.specs.Facts.{IsCode};

use crate::instr::{Instr, InstrList};
use polis_base::{Duplicate, List, NoMemory};
use std::marker::Model;

/// Code by its instructions, numbered from 0, at most `CODE_MAX` of them. It isn't empty and ends
/// with a halt, each test has a target, and each target stands after its instruction and within the
/// code.
#[derive(Drop)]
pub struct Code {
    instrs: InstrList,
}

/// Code for each machine of a network.
pub type CodeList = List<Code>;

impl Model for Code {
    ghost use Rattle.std.specs.Prelude.{List};
    ghost use Rattle.task_code.specs.declared.instr.Instr.{Instr};
    ghost use Rattle.task_code.specs.Facts.{IsCode};

    ghost Value = { List Instr };

    ghost view = { λ c. c.instrs };

    ghost invariant = { λ c. IsCode c.instrs };
}

impl Code {
    /// These instructions as code, in the list that they stand in. It takes no memory.
    pub fn of(items: InstrList) -> Self
        requires { IsCode items }
        ensures { result ≡ items }
    {
        Code { instrs: items }
    }

    /// How many instructions there are.
    pub fn len(&self) -> u64
        ensures len { result ≡ length self.now }
        ensures small { result < 2 ^ 63 }
        ensures code { IsCode self.now }
    {
        self.instrs.as_slice().len() as u64
    }

    /// The instruction at a place.
    pub fn get(&self, i: u64) -> &Instr
        requires { i < length self.now }
        ensures { slice_get self.now i ≡ Some result.now }
    {
        self.instrs.get(i)
    }
}

impl Duplicate for Code {
    fn copy(&self) -> Result<Code, NoMemory> {
        Ok(Code {
            instrs: self.instrs.copy()?,
        })
    }
}
