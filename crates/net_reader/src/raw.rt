// What a network text declares, each name, number and value with its byte place in the text.
ghost use Rattle.std.specs.Prelude.{◌≡◌};

use polis_base::{Duplicate, List, Name, NoMemory};

/// A name.
#[derive(Clone, Copy)]
pub struct Word {
    /// The bytes of the name.
    pub name: Name,
    /// The byte place of its token in the text, counted from 0.
    pub at: u64,
}

impl Duplicate for Word {
    fn copy(&self) -> Result<Self, NoMemory> {
        Ok(*self)
    }
}

/// A number.
#[derive(Clone, Copy)]
pub struct Num {
    /// The number that the digits are.
    pub number: u32,
    /// The byte place of its token in the text, counted from 0.
    pub at: u64,
}

/// A value as it is written.
#[derive(Clone, Copy)]
pub enum RawValue {
    /// A value by its name.
    Name(Word),
    /// A value by its number.
    Number(Num),
}

impl Duplicate for RawValue {
    fn copy(&self) -> Result<Self, NoMemory> {
        Ok(*self)
    }
}

/// Names in order.
pub type WordList = List<Word>;

/// The values of a condition, in order.
pub type RawValueList = List<RawValue>;

/// The values of a domain: the names in order, or the numbers from the first to the last.
#[derive(Drop)]
pub enum RawShape {
    /// `{ a, b }`.
    Names(WordList),
    /// `first .. last`.
    Range {
        /// The number before `..`.
        first: Num,
        /// The number after `..`, which may be below the first.
        last: Num,
    },
}

impl Duplicate for RawShape {
    fn copy(&self) -> Result<Self, NoMemory> {
        match self {
            RawShape::Names(names) => Ok(RawShape::Names(names.copy()?)),
            RawShape::Range { first, last } => Ok(RawShape::Range {
                first: *first,
                last: *last,
            }),
        }
    }
}

/// A domain.
#[derive(Drop)]
pub struct RawDomain {
    /// The name of the domain.
    pub name: Word,
    /// What stands after `=`.
    pub shape: RawShape,
}

impl Duplicate for RawDomain {
    fn copy(&self) -> Result<Self, NoMemory> {
        Ok(RawDomain {
            name: self.name,
            shape: self.shape.copy()?,
        })
    }
}

/// The domains of a network, in order.
pub type RawDomainList = List<RawDomain>;

/// Whether an event comes from the environment, goes to it, or goes between machines alone.
#[derive(Clone, Copy)]
pub enum RawEnv {
    /// Neither is written.
    Between,
    /// `from env`.
    FromEnv,
    /// `to env`.
    ToEnv,
}

/// An event. One without a domain is pure.
#[derive(Clone, Copy)]
pub struct RawEvent {
    /// The name of the event.
    pub name: Word,
    /// The name after `:`, if there is one.
    pub domain: Option<Word>,
    /// Its side to the environment.
    pub env: RawEnv,
}

impl Duplicate for RawEvent {
    fn copy(&self) -> Result<Self, NoMemory> {
        Ok(*self)
    }
}

/// The events of a network, in order.
pub type RawEventList = List<RawEvent>;

/// A state variable.
#[derive(Clone, Copy)]
pub struct RawState {
    /// The name of the variable.
    pub name: Word,
    /// The name of its domain.
    pub domain: Word,
    /// Its value at the start.
    pub init: RawValue,
}

impl Duplicate for RawState {
    fn copy(&self) -> Result<Self, NoMemory> {
        Ok(*self)
    }
}

/// The state variables of a machine, in order.
pub type RawStateList = List<RawState>;

/// A condition: the event is present, it is absent, or the event or variable has this value or one
/// of these.
#[derive(Drop)]
pub enum RawCond {
    /// `e`: this event is present.
    Present(Word),
    /// `absent e`: this event is absent.
    Absent(Word),
    /// `name = value`.
    Is {
        /// The name of the event or variable.
        name: Word,
        /// The value that it has.
        value: RawValue,
    },
    /// `name in { value, value }`.
    OneOf {
        /// The name of the event or variable.
        name: Word,
        /// The values of which it has one.
        values: RawValueList,
    },
}

impl Duplicate for RawCond {
    fn copy(&self) -> Result<Self, NoMemory> {
        match self {
            RawCond::Present(name) => Ok(RawCond::Present(*name)),
            RawCond::Absent(name) => Ok(RawCond::Absent(*name)),
            RawCond::Is { name, value } => Ok(RawCond::Is {
                name: *name,
                value: *value,
            }),
            RawCond::OneOf { name, values } => Ok(RawCond::OneOf {
                name: *name,
                values: values.copy()?,
            }),
        }
    }
}

/// The conditions of a row, in order.
pub type RawCondList = List<RawCond>;

/// Where an action takes a value from.
#[derive(Clone, Copy)]
pub enum RawSource {
    /// The value itself.
    Value(RawValue),
    /// `value name`: the value that this input has. Only version 2 has it.
    Input(Word),
    /// `name + number`: the value so many places after that of this variable, where the first value
    /// comes after the last one. Only version 2 has it, and no emission.
    Add {
        /// The name before `+`.
        name: Word,
        /// The number after `+`.
        number: Num,
    },
}

impl Duplicate for RawSource {
    fn copy(&self) -> Result<Self, NoMemory> {
        Ok(*self)
    }
}

/// An action: an event is emitted, with a value where it has a domain, or a variable is set.
#[derive(Clone, Copy)]
pub enum RawAct {
    /// `emit name`, or `emit name = source`.
    Emit {
        /// The name of the event.
        name: Word,
        /// What stands after `=`, if anything does.
        value: Option<RawSource>,
    },
    /// `name := source`.
    Set {
        /// The name of the variable.
        name: Word,
        /// What it gets.
        value: RawSource,
    },
}

impl Duplicate for RawAct {
    fn copy(&self) -> Result<Self, NoMemory> {
        Ok(*self)
    }
}

/// The actions of a row, in order.
pub type RawActList = List<RawAct>;

/// A row. `do nothing` has no actions.
#[derive(Drop)]
pub struct RawRow {
    /// The conditions after `when`, of which all are to hold.
    pub conds: RawCondList,
    /// The actions after `do`.
    pub acts: RawActList,
}

impl Duplicate for RawRow {
    fn copy(&self) -> Result<Self, NoMemory> {
        Ok(RawRow {
            conds: self.conds.copy()?,
            acts: self.acts.copy()?,
        })
    }
}

/// The rows of a machine, in order.
pub type RawRowList = List<RawRow>;

/// A machine. The outputs are empty where the text has none.
#[derive(Drop)]
pub struct RawMachine {
    /// The name of the machine.
    pub name: Word,
    /// The number after `priority`.
    pub priority: Num,
    /// The names of the events that it reads, in order.
    pub inputs: WordList,
    /// The names of the events that it may emit, in order.
    pub outputs: WordList,
    /// Its state variables, in order.
    pub states: RawStateList,
    /// Its rows, in order.
    pub rows: RawRowList,
}

impl Duplicate for RawMachine {
    fn copy(&self) -> Result<Self, NoMemory> {
        Ok(RawMachine {
            name: self.name,
            priority: self.priority,
            inputs: self.inputs.copy()?,
            outputs: self.outputs.copy()?,
            states: self.states.copy()?,
            rows: self.rows.copy()?,
        })
    }
}

/// The machines of a network, in order.
pub type RawMachineList = List<RawMachine>;

/// A network.
#[derive(Drop)]
pub struct RawNet {
    /// The name of the network.
    pub name: Word,
    /// The number after `version`.
    pub version: Num,
    /// Its domains, in order.
    pub domains: RawDomainList,
    /// Its events, in order.
    pub events: RawEventList,
    /// Its machines, in order.
    pub machines: RawMachineList,
}

impl Duplicate for RawNet {
    fn copy(&self) -> Result<Self, NoMemory> {
        Ok(RawNet {
            name: self.name,
            version: self.version,
            domains: self.domains.copy()?,
            events: self.events.copy()?,
            machines: self.machines.copy()?,
        })
    }
}
