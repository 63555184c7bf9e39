// The text of a trace of a ring of machines.
ghost use Rattle.std.specs.Prelude.{◌≡◌, ◌<◌, ◌++◌, IfOk, OnOk};
ghost use Rattle.net_gen.specs.Traces.{tick_line, settle_line, ticks};

use polis_base::{Bytes, Draws, NoMemory};
use std::alloc::Global;

// How many ticks there are.
const TICKS: u64 = 2000;

fn push_tick(k: u64, out: &mut Bytes) -> Result<(), NoMemory>
    ensures { OnOk result (out.new ≡ out.old ++ tick_line k) }
{
    out.push(b"t")?;
    out.push_decimal(k)?;
    out.push(b"\n")
}

// After every tenth tick.
fn push_settle(k: u64, out: &mut Bytes) -> Result<(), NoMemory>
    requires { k < 2000 }
    ensures { OnOk result (out.new ≡ out.old ++ settle_line k) }
{
    if (k + 1) % 10 == 0 {
        out.push(b"settle\n")?;
    }
    Ok(())
}

// Ticks of so many machines.
pub(crate) fn ticks(alloc: Global, count: u64, draws: &mut Draws) -> Result<Bytes, NoMemory>
    requires { 0 < count }
    ensures { IfOk result (λ text. text ≡ ticks count draws.old.x) }
{
    let mut out = Bytes::new(alloc);
    for k in 0..TICKS {
        push_tick(draws.draw(count), &mut out)?;
        push_settle(k, &mut out)?;
    }
    Ok(out)
}
