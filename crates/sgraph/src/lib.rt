// Graphs that decide and assign: a machine's reaction as a walk from one vertex to the next.
#![tactic(auto)]

mod building;
mod evaluating;
mod graph;
mod law;
mod leaving;
mod places;
mod vertex;
mod worked;

pub use building::build;
pub use evaluating::{evaluate, set_result};
pub use graph::{Graph, GraphList, VertexList};
pub use law::laws;
pub use places::Places;
pub use vertex::Vertex;
pub use worked::worked_graphs;
