// Graphs.
ghost use Rattle.std.specs.Prelude.{◌≡◌, ◌<◌, ◌^◌, length, slice_get, Some, IfOk};
ghost use Rattle.sgraph.specs.Facts.{IsGraph};

use crate::vertex::Vertex;
use polis_base::{Duplicate, List, NoMemory};
use std::marker::Model;

/// Vertices in order.
pub type VertexList = List<Vertex>;

/// A graph by its vertices, numbered from 0: vertex 0 is the only begin, the last vertex is the
/// only end, and each child stands after its parent. Each test has a child, and no path assigns a
/// result twice.
#[derive(Drop)]
pub struct Graph {
    vertices: VertexList,
}

impl Model for Graph {
    ghost use Rattle.std.specs.Prelude.{List};
    ghost use Rattle.sgraph.specs.declared.vertex.Vertex.{Vertex};
    ghost use Rattle.sgraph.specs.Facts.{IsGraph};

    ghost Value = { List Vertex };

    ghost view = { λ g. g.vertices };

    ghost invariant = { λ g. IsGraph g.vertices };
}

/// A graph for each machine of a network, in order.
pub type GraphList = List<Graph>;

impl Graph {
    /// These vertices as a graph.
    pub fn of(items: VertexList) -> Self
        requires { IsGraph items }
        ensures { result ≡ items }
    {
        Graph { vertices: items }
    }

    /// How many vertices there are.
    pub fn len(&self) -> u64
        ensures len { result ≡ length self.now }
        ensures small { result < 2 ^ 63 }
        ensures graph { IsGraph self.now }
    {
        self.vertices.as_slice().len() as u64
    }

    /// The vertex of this number.
    pub fn get(&self, i: u64) -> &Vertex
        requires { i < length self.now }
        ensures { slice_get self.now i ≡ Some result.now }
    {
        self.vertices.get(i)
    }
}

impl Duplicate for Graph {
    fn copy(&self) -> Result<Graph, NoMemory> {
        Ok(Graph {
            vertices: self.vertices.copy()?,
        })
    }
}
