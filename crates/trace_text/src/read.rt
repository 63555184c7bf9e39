// Reading a trace text.
ghost use Rattle.std.specs.Prelude.{◌≡◌, ◌≢◌, ◌≤◌, length, Ok, Err, IfOk};
ghost use Rattle.polis_base.specs.declared.limits.TheConstants.{TRACE_ITEMS_MAX};
ghost use Rattle.journals.specs.Journals.{IsTrace};
ghost use Rattle.trace_text.specs.Traces.{trace_of, with_line};
ghost use Rattle.trace_text.specs.declared.fault.TraceFault.{TraceFault};

use crate::cut::next_line;
use crate::fault::{TraceFault, TraceKind};
use crate::item::read_line;
use crate::sent::Sent;
use journals::Trace;
use polis_base::limits::TRACE_ITEMS_MAX;
use std::alloc::Global;
use transition_table::Network;

// Adds what a line of this number says to the items before it.
fn add_line(sent: &Sent, trace: &mut Trace, line: u64, text: &[u8]) -> Result<(), TraceFault>
    requires fits { IsTrace sent.now.net.now trace.old }
    requires few { length trace.old ≤ TRACE_ITEMS_MAX }
    ensures ok { IfOk result (λ u. with_line sent.now.net.now (Ok trace.old) (line, text.now)
        ≡ Ok trace.new) }
    ensures fits { IfOk result (λ u. IsTrace sent.now.net.now trace.new) }
    ensures few { IfOk result (λ u. length trace.new ≤ TRACE_ITEMS_MAX) }
    ensures fault { (fault : TraceFault) → result ≡ Err fault → fault ≢ TraceFault.NoMemory
        → with_line sent.now.net.now (Ok trace.old) (line, text.now) ≡ Err fault }
{
    match read_line(sent, text) {
        Err(kind) => Err(TraceFault::Line { line, kind }),
        Ok(None) => Ok(()),
        Ok(Some(item)) => {
            if trace.len() < TRACE_ITEMS_MAX {
                match trace.push(item) {
                    Ok(()) => Ok(()),
                    Err(_) => Err(TraceFault::NoMemory),
                }
            } else {
                Err(TraceFault::Line {
                    line,
                    kind: TraceKind::Many,
                })
            }
        }
    }
}

// Reads the items, one a line.
fn read_lines(alloc: Global, sent: &Sent, text: &[u8]) -> Result<Trace, TraceFault>
    ensures ok { IfOk result (λ trace. trace_of sent.now.net.now text.now ≡ Ok trace) }
    ensures fits { IfOk result (λ trace. IsTrace sent.now.net.now trace) }
    ensures few { IfOk result (λ trace. length trace ≤ TRACE_ITEMS_MAX) }
    ensures fault { (fault : TraceFault) → result ≡ Err fault → fault ≢ TraceFault.NoMemory
        → trace_of sent.now.net.now text.now ≡ Err fault }
{
    let mut trace = Trace::new(alloc);
    let mut rest = text;
    let mut line = 0;
    while !rest.is_empty() {
        let (first, after) = next_line(rest);
        line += 1;
        if let Err(fault) = add_line(sent, &mut trace, line, first) {
            return Err(fault);
        }
        rest = after;
    }
    Ok(trace)
}

/// Reads the items of a trace text, one a line. A line without words, as an empty one or a comment,
/// is no item. The answer `Line` names the first line at fault, numbered from 1, and the first kind
/// that applies to it.
pub fn read_trace(alloc: Global, net: &Network, text: &[u8]) -> Result<Trace, TraceFault>
    ensures ok { IfOk result (λ trace. trace_of net.now text.now ≡ Ok trace) }
    ensures fits { IfOk result (λ trace. IsTrace net.now trace) }
    ensures few { IfOk result (λ trace. length trace ≤ TRACE_ITEMS_MAX) }
    ensures fault { (fault : TraceFault) → result ≡ Err fault → fault ≢ TraceFault.NoMemory
        → trace_of net.now text.now ≡ Err fault }
{
    match Sent::new(alloc, net) {
        Ok(sent) => read_lines(alloc, &sent, text),
        Err(_) => Err(TraceFault::NoMemory),
    }
}
