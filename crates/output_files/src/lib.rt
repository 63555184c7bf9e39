// What a call makes: the texts that it saves and the text that it shows, and writing them.
#![tactic(auto)]

mod product;
mod show;
mod write;

pub use product::{End, Product, Saving};
pub use show::{fail, show_lines};
pub use write::write_product;
