// Vertices of graphs.
ghost use Rattle.std.specs.Prelude.{◌≡◌, IfOk};

use crate::places::Places;
use polis_base::{Duplicate, NoMemory};

/// A vertex of a graph. Vertices are numbered from 0.
#[derive(Drop)]
pub enum Vertex {
    /// Where each walk begins.
    Begin {
        /// The vertex that it goes on to.
        next: u64,
    },
    /// Goes on by the code of a variable.
    Test {
        /// The variable.
        var: u32,
        /// One vertex for each of its codes.
        kids: Places,
    },
    /// Gives a result a code.
    Assign {
        /// The result.
        result: u32,
        /// The code.
        code: u8,
        /// The vertex that it goes on to.
        next: u64,
    },
    /// Where each walk ends.
    End,
}

impl Duplicate for Vertex {
    fn copy(&self) -> Result<Vertex, NoMemory> {
        match self {
            Vertex::Begin { next } => Ok(Vertex::Begin { next: *next }),
            Vertex::Test { var, kids } => Ok(Vertex::Test {
                var: *var,
                kids: kids.copy()?,
            }),
            Vertex::Assign { result, code, next } => Ok(Vertex::Assign {
                result: *result,
                code: *code,
                next: *next,
            }),
            Vertex::End => Ok(Vertex::End),
        }
    }
}
