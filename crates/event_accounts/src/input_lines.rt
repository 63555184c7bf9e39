// The lines of what the inputs of a network have.
ghost use Rattle.std.specs.Prelude.{◌≡◌, ◌<◌, ◌≤◌, ◌+◌, ◌++◌, ◌^◌, drop, flat_map, length, OnErr, OnOk};
ghost use Rattle.std.specs.List.{zip};
ghost use Rattle.event_accounts.specs.Accounts.{buffers, buffers_of};
ghost use Rattle.event_accounts.specs.InputLines.{input_line, input_lines};

use polis_base::{Bytes, List, NoMemory};
use transition_table::Network;

/// What prints the line of an input that has a `T`.
pub trait InputLine<T> {
    ghost use Rattle.std.specs.Prelude.{ℕ, List};

    /// The line, made of the names of the input's machine and event and of what it has.
    ghost line: { Self → List ℕ → List ℕ → T → List ℕ };

    /// Appends the line.
    fn push_line(
        &self,
        machine: &[u8],
        event: &[u8],
        item: &T,
        into: &mut Bytes,
    ) -> Result<(), NoMemory>
        ensures { OnOk result (into.new
            ≡ into.old ++ line self.now machine.now event.now item.now) };
}

// Appends the lines of the inputs of a machine, whose items stand from this place on.
fn push_machine<T, L: InputLine<T>>(
    line: &L,
    net: &Network,
    m: u64,
    first: u64,
    items: &List<T>,
    into: &mut Bytes,
) -> Result<(), NoMemory>
    requires machine { m < length net.now.machines }
    requires many { first + length (buffers_of net.now m) ≤ length items.now }
    requires room { length items.now < 2 ^ 64 }
    ensures { OnOk result (into.new ≡ into.old
        ++ flat_map (input_line (L.line line.now) net.now)
        (zip (buffers_of net.now m) (drop first items.now))) }
{
    let machine = net.machines.get(m);
    for k in 0..machine.inputs.len() {
        let event = net.events.get(*machine.inputs.get(k) as u64);
        line.push_line(
            machine.name.bytes(),
            event.name.bytes(),
            items.get(first + k),
            into,
        )?;
    }
    Ok(())
}

// Appends the lines of the machines, one after the other.
fn push_machines<T, L: InputLine<T>>(
    line: &L,
    net: &Network,
    items: &List<T>,
    into: &mut Bytes,
) -> Result<(), NoMemory>
    requires { length items.now ≡ length (buffers net.now) }
    ensures { OnOk result (into.new
        ≡ into.old ++ input_lines (L.line line.now) net.now items.now) }
{
    let _count = items.len();
    let mut first = 0;
    for m in 0..net.machines.len() {
        push_machine(line, net, m, first, items, into)?;
        first += net.machines.get(m).inputs.len();
    }
    Ok(())
}

/// Appends the line of each input of a network, by machine and then by input.
pub fn push_inputs<T, L: InputLine<T>>(
    line: &L,
    net: &Network,
    items: &List<T>,
    into: &mut Bytes,
) -> Result<(), NoMemory>
    requires { length items.now ≡ length (buffers net.now) }
    ensures ok { OnOk result (into.new
        ≡ into.old ++ input_lines (L.line line.now) net.now items.now) }
    ensures err { OnErr result (into.new ≡ into.old) }
{
    let mut text = into.beside();
    push_machines(line, net, items, &mut text)?;
    into.push(text.as_slice())
}
