// Laying a graph out as code.
ghost use Rattle.std.specs.Prelude.{◌≡◌, ◌+◌, ◌<◌, ◌≤◌, ◌^◌, ℕ, List, ◌++◌, map, length, slice_index, IfOk, OnOk};
ghost use Rattle.polis_base.specs.Lists.{upto};
ghost use Rattle.transition_table.specs.declared.machine.Machine.{Machine};
ghost use Rattle.sgraph.specs.Graphs.{kids_of, Numbered, Once, Eval};
ghost use Rattle.task_code.specs.Codes.{start, given_by, width, Lowered, Exec};
ghost use Rattle.task_code.specs.Facts.{OnceCode};

use crate::code::Code;
use crate::instr::{Instr, InstrList};
use crate::limits::CODE_MAX;
use polis_base::{Duplicate, List, NoMemory};
use sgraph::{Graph, Places, Vertex};
use std::alloc::Global;

// How many instructions the vertex of this number gives.
fn width(v: &Vertex, k: u64) -> u64
    requires { k + 1 < 2 ^ 64 }
    ensures width { result ≡ width k v.now }
    ensures few { result ≤ 2 }
{
    match v {
        Vertex::Begin { .. } => 0,
        Vertex::Test { .. } => 1,
        Vertex::Assign { next, .. } => { if *next == k + 1 { 1 } else { 2 } }
        Vertex::End => 1,
    }
}

// The place of each vertex's first instruction.
fn starts(alloc: Global, g: &Graph) -> Result<List<u64>, NoMemory>
    ensures { IfOk result (λ places. places ≡ map (start g.now) (upto (length g.now))) }
{
    let mut places = List::with_room(alloc, g.len())?;
    let mut next = 0;
    for k in 0..g.len() {
        places.push(next)?;
        next += width(g.get(k), k);
    }
    Ok(places)
}

// The places of children.
fn targets(kids: &Places, starts: &List<u64>) -> Result<Places, NoMemory>
    requires { (j : ℕ) → j < length kids.now → slice_index kids.now j < length starts.now }
    ensures { IfOk result (λ targets. targets ≡ map (slice_index starts.now) kids.now) }
{
    let targets = kids.copy()?.through(starts);
    Ok(targets)
}

// Appends what the vertex of this number gives.
fn push_vertex(v: &Vertex, k: u64, starts: &List<u64>, code: &mut InstrList) -> Result<(), NoMemory>
    requires small { k + 1 < 2 ^ 64 }
    requires kids { (j : ℕ) → j < length (kids_of v.now)
        → slice_index (kids_of v.now) j < length starts.now }
    ensures { OnOk result (code.new ≡ code.old ++ given_by (slice_index starts.now) k v.now) }
{
    match v {
        Vertex::Begin { .. } => Ok(()),
        Vertex::Test { var, kids } => {
            let targets = targets(kids, starts)?;
            code.push(Instr::Test { var: *var, targets })
        }
        Vertex::Assign {
            result,
            code: given,
            next,
        } => {
            code.push(Instr::Set {
                result: *result,
                code: *given,
            })?;
            if *next != k + 1 {
                let target = *starts.get(*next);
                code.push(Instr::Goto { target })?;
            }
            Ok(())
        }
        Vertex::End => code.push(Instr::Halt),
    }
}

/// The code of a graph whose vertices are numbered as a walk leaves them: in order of the vertices,
/// a test for each test, a set for each assignment with a goto where its child isn't the next
/// vertex, a halt for the end, and nothing for the begin.
pub fn lower(alloc: Global, g: &Graph) -> Result<Code, NoMemory>
    requires { Numbered g.now }
    ensures lowered { IfOk result (λ code. Lowered g.now code) }
    ensures same { IfOk result (λ code. (m : Machine) (s : List ℕ)
        → Exec m code s ≡ Eval m g.now s) }
    ensures once { IfOk result (λ code. Once g.now → OnceCode code) }
{
    let places = starts(alloc, g)?;
    let mut code = InstrList::new(alloc);
    for k in 0..g.len() {
        push_vertex(g.get(k), k, &places, &mut code)?;
    }
    code.shrink();
    if code.len() > CODE_MAX {
        return Err(NoMemory);
    }
    Ok(Code::of(code))
}
