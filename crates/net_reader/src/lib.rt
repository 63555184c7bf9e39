// The grammar of network texts, versions 1 and 2: what a text declares, and back.
#![tactic(auto)]

mod law;
mod lists;
mod network;
mod print;
mod raw;
mod reader;
mod rules;
mod worked;

pub use law::cut_laws;
pub use network::{NetFault, read_network};
pub use print::print_network;
pub use raw::{
    Num, RawAct, RawActList, RawCond, RawCondList, RawDomain, RawDomainList, RawEnv, RawEvent,
    RawEventList, RawMachine, RawMachineList, RawNet, RawRow, RawRowList, RawShape, RawSource,
    RawState, RawStateList, RawValue, RawValueList, Word, WordList,
};
pub use worked::worked_texts;
