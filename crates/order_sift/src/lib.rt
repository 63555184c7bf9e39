// Orders of small diagrams.
#![tactic(auto)]

mod chain;
mod law;
mod moves;
mod pairs;
mod places;
mod points;
mod prepare;
mod sets;
mod turns;

pub use law::laws;
pub use turns::{Sifted, SiftedDiagram, sift, sift_diagram};
