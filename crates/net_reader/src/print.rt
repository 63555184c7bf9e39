// Printing a network in its layout.
ghost use Rattle.std.specs.Prelude.{◌≡◌, ℕ, Bool, IsTrue, List, ◌++◌, OnOk, IfOk, codes, flat_map};
ghost use Rattle.std.specs.List.{list_all};
ghost use Rattle.net_reader.specs.Layout.{IsOfSentence, listed_text, others_text, typed_text, env_text, acts_text, outputs_text, head_text, ports_text, network_text};
ghost use Rattle.net_reader.specs.Formed.{word_formed, act_formed, typed_formed, head_formed, ports_formed};
ghost use Rattle.net_reader.specs.Places.{Declares};

use crate::raw::{
    Num, RawAct, RawCond, RawDomain, RawEnv, RawEvent, RawMachine, RawNet, RawRow, RawShape,
    RawSource, RawState, RawValue, Word,
};
use polis_base::{Bytes, NoMemory};
use std::alloc::Global;

// What has a printed text.
trait Print {
    ghost text: { Self → List ℕ };

    ghost formed: { Self → Bool };

    // Appends the text.
    fn print(&self, out: &mut Bytes) -> Result<(), NoMemory>
        ensures text { OnOk result (out.new ≡ out.old ++ text self.now) }
        ensures formed { OnOk result (IsTrue (formed self.now)) };
}

// One after the other.
fn print_all<T: Print>(items: &[T], out: &mut Bytes) -> Result<(), NoMemory>
    ensures text { OnOk result (out.new ≡ out.old ++ flat_map T.text items.now) }
    ensures formed { OnOk result (IsTrue (list_all T.formed items.now)) }
{
    for item in items {
        item.print(out)?;
    }
    Ok(())
}

// Each after a comma.
fn print_others<T: Print>(items: &[T], out: &mut Bytes) -> Result<(), NoMemory>
    ensures text { OnOk result (out.new ≡ out.old ++ others_text T.text items.now) }
    ensures formed { OnOk result (IsTrue (list_all T.formed items.now)) }
{
    for item in items {
        out.push(b", ")?;
        item.print(out)?;
    }
    Ok(())
}

// With commas between them.
fn print_listed<T: Print>(items: &[T], out: &mut Bytes) -> Result<(), NoMemory>
    ensures text { OnOk result (out.new ≡ out.old ++ listed_text T.text items.now) }
    ensures formed { OnOk result (IsTrue (list_all T.formed items.now)) }
{
    match items.split_first() {
        Some((first, others)) => {
            first.print(out)?;
            print_others(others, out)
        }
        None => Ok(()),
    }
}

impl Print for Word {
    ghost use Rattle.net_reader.specs.Layout.{word_text};
    ghost use Rattle.net_reader.specs.Formed.{word_formed};

    ghost text = { word_text };

    ghost formed = { word_formed };

    fn print(&self, out: &mut Bytes) -> Result<(), NoMemory> {
        out.push(self.name.bytes())
    }
}

impl Print for Num {
    ghost use Rattle.net_reader.specs.Layout.{num_text};
    ghost use Rattle.net_reader.specs.Formed.{num_formed};

    ghost text = { num_text };

    ghost formed = { num_formed };

    fn print(&self, out: &mut Bytes) -> Result<(), NoMemory> {
        out.push_decimal(self.number as u64)
    }
}

impl Print for RawValue {
    ghost use Rattle.net_reader.specs.Layout.{value_text};
    ghost use Rattle.net_reader.specs.Formed.{value_formed};

    ghost text = { value_text };

    ghost formed = { value_formed };

    fn print(&self, out: &mut Bytes) -> Result<(), NoMemory> {
        match self {
            RawValue::Name(word) => word.print(out),
            RawValue::Number(number) => number.print(out),
        }
    }
}

impl Print for RawShape {
    ghost use Rattle.net_reader.specs.Layout.{shape_text};
    ghost use Rattle.net_reader.specs.Formed.{shape_formed};

    ghost text = { shape_text };

    ghost formed = { shape_formed };

    fn print(&self, out: &mut Bytes) -> Result<(), NoMemory> {
        match self {
            RawShape::Names(names) => {
                out.push(b"{ ")?;
                print_listed(names.as_slice(), out)?;
                out.push(b" }")
            }
            RawShape::Range { first, last } => {
                first.print(out)?;
                out.push(b" .. ")?;
                last.print(out)
            }
        }
    }
}

impl Print for RawDomain {
    ghost use Rattle.net_reader.specs.Layout.{domain_text};
    ghost use Rattle.net_reader.specs.Formed.{domain_formed};

    ghost text = { domain_text };

    ghost formed = { domain_formed };

    fn print(&self, out: &mut Bytes) -> Result<(), NoMemory> {
        out.push(b"domain ")?;
        self.name.print(out)?;
        out.push(b" = ")?;
        self.shape.print(out)?;
        out.push(b"\n")
    }
}

// The domain of an event, where it has one.
fn print_typed(domain: Option<Word>, out: &mut Bytes) -> Result<(), NoMemory>
    ensures text { OnOk result (out.new ≡ out.old ++ typed_text domain) }
    ensures formed { OnOk result (IsTrue (typed_formed domain)) }
{
    if let Some(name) = domain {
        out.push(b" : ")?;
        name.print(out)?;
    }
    Ok(())
}

// Where an event comes from or goes to.
fn print_env(env: RawEnv, out: &mut Bytes) -> Result<(), NoMemory>
    ensures { OnOk result (out.new ≡ out.old ++ env_text env) }
{
    match env {
        RawEnv::Between => Ok(()),
        RawEnv::FromEnv => out.push(b" from env"),
        RawEnv::ToEnv => out.push(b" to env"),
    }
}

impl Print for RawEvent {
    ghost use Rattle.net_reader.specs.Layout.{event_text};
    ghost use Rattle.net_reader.specs.Formed.{event_formed};

    ghost text = { event_text };

    ghost formed = { event_formed };

    fn print(&self, out: &mut Bytes) -> Result<(), NoMemory> {
        out.push(b"event ")?;
        self.name.print(out)?;
        print_typed(self.domain, out)?;
        print_env(self.env, out)?;
        out.push(b"\n")
    }
}

impl Print for RawState {
    ghost use Rattle.net_reader.specs.Layout.{state_text};
    ghost use Rattle.net_reader.specs.Formed.{state_formed};

    ghost text = { state_text };

    ghost formed = { state_formed };

    fn print(&self, out: &mut Bytes) -> Result<(), NoMemory> {
        out.push(b"  state ")?;
        self.name.print(out)?;
        out.push(b" : ")?;
        self.domain.print(out)?;
        out.push(b" = ")?;
        self.init.print(out)?;
        out.push(b"\n")
    }
}

impl Print for RawCond {
    ghost use Rattle.net_reader.specs.Layout.{cond_text};
    ghost use Rattle.net_reader.specs.Formed.{cond_formed};

    ghost text = { cond_text };

    ghost formed = { cond_formed };

    fn print(&self, out: &mut Bytes) -> Result<(), NoMemory> {
        match self {
            RawCond::Present(name) => name.print(out),
            RawCond::Absent(name) => {
                out.push(b"absent ")?;
                name.print(out)
            }
            RawCond::Is { name, value } => {
                name.print(out)?;
                out.push(b" = ")?;
                value.print(out)
            }
            RawCond::OneOf { name, values } => {
                name.print(out)?;
                out.push(b" in { ")?;
                print_listed(values.as_slice(), out)?;
                out.push(b" }")
            }
        }
    }
}

impl Print for RawSource {
    ghost use Rattle.net_reader.specs.Layout.{source_text};
    ghost use Rattle.net_reader.specs.Formed.{source_formed};

    ghost text = { source_text };

    ghost formed = { source_formed };

    fn print(&self, out: &mut Bytes) -> Result<(), NoMemory> {
        match self {
            RawSource::Value(value) => value.print(out),
            RawSource::Input(name) => {
                out.push(b"value ")?;
                name.print(out)
            }
            RawSource::Add { name, number } => {
                name.print(out)?;
                out.push(b" + ")?;
                number.print(out)
            }
        }
    }
}

impl Print for RawAct {
    ghost use Rattle.net_reader.specs.Layout.{act_text};
    ghost use Rattle.net_reader.specs.Formed.{act_formed};

    ghost text = { act_text };

    ghost formed = { act_formed };

    fn print(&self, out: &mut Bytes) -> Result<(), NoMemory> {
        match self {
            RawAct::Emit { name, value } => {
                out.push(b"emit ")?;
                name.print(out)?;
                if let Some(source) = value {
                    out.push(b" = ")?;
                    source.print(out)?;
                }
                Ok(())
            }
            RawAct::Set { name, value } => {
                name.print(out)?;
                out.push(b" := ")?;
                value.print(out)
            }
        }
    }
}

// What stands after `do`.
fn print_acts(acts: &[RawAct], out: &mut Bytes) -> Result<(), NoMemory>
    ensures text { OnOk result (out.new ≡ out.old ++ acts_text acts.now) }
    ensures formed { OnOk result (IsTrue (list_all act_formed acts.now)) }
{
    if acts.is_empty() {
        out.push(b"nothing")
    } else {
        print_listed(acts, out)
    }
}

impl Print for RawRow {
    ghost use Rattle.net_reader.specs.Layout.{row_text};
    ghost use Rattle.net_reader.specs.Formed.{row_formed};

    ghost text = { row_text };

    ghost formed = { row_formed };

    fn print(&self, out: &mut Bytes) -> Result<(), NoMemory> {
        out.push(b"  when ")?;
        print_listed(self.conds.as_slice(), out)?;
        out.push(b" do ")?;
        print_acts(self.acts.as_slice(), out)?;
        out.push(b"\n")
    }
}

// The line of the outputs, where there are some.
fn print_outputs(names: &[Word], out: &mut Bytes) -> Result<(), NoMemory>
    ensures text { OnOk result (out.new ≡ out.old ++ outputs_text names.now) }
    ensures formed { OnOk result (IsTrue (list_all word_formed names.now)) }
{
    if !names.is_empty() {
        out.push(b"  output ")?;
        print_listed(names, out)?;
        out.push(b"\n")?;
    }
    Ok(())
}

// The first line of a machine.
fn print_head(machine: &RawMachine, out: &mut Bytes) -> Result<(), NoMemory>
    ensures text { OnOk result (out.new ≡ out.old ++ head_text machine.now) }
    ensures formed { OnOk result (IsTrue (head_formed machine.now)) }
{
    out.push(b"machine ")?;
    machine.name.print(out)?;
    out.push(b" priority ")?;
    machine.priority.print(out)?;
    out.push(b" {\n")
}

// The lines of a machine's inputs and outputs.
fn print_ports(machine: &RawMachine, out: &mut Bytes) -> Result<(), NoMemory>
    ensures text { OnOk result (out.new ≡ out.old ++ ports_text machine.now) }
    ensures formed { OnOk result (IsTrue (ports_formed machine.now)) }
{
    out.push(b"  input ")?;
    print_listed(machine.inputs.as_slice(), out)?;
    out.push(b"\n")?;
    print_outputs(machine.outputs.as_slice(), out)
}

impl Print for RawMachine {
    ghost use Rattle.net_reader.specs.Layout.{machine_text};
    ghost use Rattle.net_reader.specs.Formed.{machine_formed};

    ghost text = { machine_text };

    ghost formed = { machine_formed };

    fn print(&self, out: &mut Bytes) -> Result<(), NoMemory> {
        print_head(self, out)?;
        print_ports(self, out)?;
        print_all(self.states.as_slice(), out)?;
        print_all(self.rows.as_slice(), out)?;
        out.push(b"}\n")
    }
}

/// The text of a network in its layout: one line a declaration, one space between tokens, and none
/// before a comma.
pub fn print_network(alloc: Global, net: &RawNet) -> Result<Bytes, NoMemory>
    requires { IsOfSentence net.now }
    ensures layout { IfOk result (λ text. text ≡ network_text net.now) }
    ensures back { IfOk result (λ text. Declares text net.now) }
{
    let mut text = Bytes::new(alloc);
    text.push(b"network ")?;
    net.name.print(&mut text)?;
    text.push(b" version ")?;
    net.version.print(&mut text)?;
    text.push(b"\n")?;
    print_all(net.domains.as_slice(), &mut text)?;
    print_all(net.events.as_slice(), &mut text)?;
    print_all(net.machines.as_slice(), &mut text)?;
    Ok(text)
}
