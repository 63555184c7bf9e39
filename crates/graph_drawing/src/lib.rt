// Drawings of networks and of their machines' graphs, in Graphviz' language DOT.
#![tactic(auto)]

mod drawing;
mod graph_text;
mod label;
mod network_text;
mod word;
mod worked;

pub use drawing::push_drawing;
pub use worked::worked_drawings;
