// Instructions.

ghost use Rattle.std.specs.Prelude.{◌≡◌, IfOk};

use polis_base::{Duplicate, List, NoMemory};
use sgraph::Places;

/// An instruction. Instructions are numbered from 0.
#[derive(Drop)]
pub enum Instr {
    /// Goes to a place by the code of a variable.
    Test {
        /// The variable.
        var: u32,
        /// One place for each of its codes.
        targets: Places,
    },
    /// Gives a result a code, and goes on.
    Set {
        /// The result.
        result: u32,
        /// The code.
        code: u8,
    },
    /// Goes to a place.
    Goto {
        /// The place.
        target: u64,
    },
    /// Ends.
    Halt,
}

/// Instructions in order.
pub type InstrList = List<Instr>;

impl Duplicate for Instr {
    fn copy(&self) -> Result<Instr, NoMemory> {
        match self {
            Instr::Test { var, targets } => Ok(Instr::Test {
                var: *var,
                targets: targets.copy()?,
            }),
            Instr::Set { result, code } => Ok(Instr::Set {
                result: *result,
                code: *code,
            }),
            Instr::Goto { target } => Ok(Instr::Goto { target: *target }),
            Instr::Halt => Ok(Instr::Halt),
        }
    }
}
