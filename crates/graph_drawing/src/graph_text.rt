// The drawing of a graph.
ghost use Rattle.std.specs.Prelude.{◌≡◌, ◌<◌, ◌≤◌, ◌+◌, ◌^◌, ◌++◌, codes, decimal, filter, flat_map, length, map, List, ℕ, IfOk, OnOk};
ghost use Rattle.polis_base.specs.Lists.{upto, numbered};
ghost use Rattle.transition_table.specs.NetworkFacts.{has};
ghost use Rattle.graph_drawing.specs.Words.{after_gap, code_word, words_text};
ghost use Rattle.graph_drawing.specs.Drawings.{codes_to, graph_text, plain_edge, test_edge, vertex_edges, vertex_label, vertex_line, vertex_shape};
ghost use Rattle.graph_drawing.specs.inner.Children.{IsNearer, IsNext};
ghost use Rattle.graph_drawing.specs.inner.WordsFrom.{words_from};

use crate::label::push_assign;
use crate::network_text::push_begin;
use crate::word::{push_code_word, push_gap, push_var_name};
use polis_base::{Bytes, NoMemory};
use sgraph::{Graph, Places, Vertex};
use transition_table::{Machine, Network};

// What a vertex is called.
fn push_vertex_label(
    net: &Network,
    machine: &Machine,
    vertex: &Vertex,
    into: &mut Bytes,
) -> Result<(), NoMemory>
    ensures { OnOk result (into.new ≡ into.old ++ vertex_label net.now machine.now vertex.now) }
{
    match vertex {
        Vertex::Begin { .. } => {
            into.push(b"begin ")?;
            into.push(machine.name.bytes())?;
            Ok(())
        }
        Vertex::Test { var, .. } => push_var_name(net, machine, *var, into),
        Vertex::Assign { result, code, .. } => push_assign(net, machine, *result, *code, into),
        Vertex::End => {
            into.push(b"end")?;
            Ok(())
        }
    }
}

// The shape of a vertex.
fn shape(vertex: &Vertex) -> &'static [u8]
    ensures { result.now ≡ vertex_shape vertex.now }
{
    match vertex {
        Vertex::Begin { .. } => b"oval",
        Vertex::Test { .. } => b"diamond",
        Vertex::Assign { .. } => b"box",
        Vertex::End => b"oval",
    }
}

// The node of a vertex.
fn push_vertex(
    net: &Network,
    machine: &Machine,
    k: u64,
    vertex: &Vertex,
    into: &mut Bytes,
) -> Result<(), NoMemory>
    ensures { OnOk result (into.new ≡ into.old ++ vertex_line net.now machine.now k vertex.now) }
{
    into.push(b"  v")?;
    into.push_decimal(k)?;
    into.push(b" [label=\"")?;
    push_vertex_label(net, machine, vertex, into)?;
    into.push(b"\", shape=")?;
    into.push(shape(vertex))?;
    into.push(b"];\n")?;
    Ok(())
}

// The nodes of the vertices.
fn push_vertices(
    net: &Network,
    machine: &Machine,
    graph: &Graph,
    into: &mut Bytes,
) -> Result<(), NoMemory>
    ensures { OnOk result (into.new ≡ into.old
        ++ numbered (vertex_line net.now machine.now) 0 graph.now) }
{
    for k in 0..graph.len() {
        push_vertex(net, machine, k, graph.get(k), into)?;
    }
    Ok(())
}

// The word of this number, which is that of a code.
fn push_word(
    net: &Network,
    machine: &Machine,
    var: u32,
    k: u64,
    code: u64,
    into: &mut Bytes,
) -> Result<(), NoMemory>
    ensures { OnOk result (into.new ≡ into.old
        ++ after_gap k (code_word net.now machine.now var code)) }
{
    push_gap(k, into)?;
    push_code_word(net, machine, var, code, into)?;
    Ok(())
}

// The word of a code where it leads to the child, as the word of number k. Answers how many words
// there are then.
fn push_led(
    net: &Network,
    machine: &Machine,
    var: u32,
    kids: &Places,
    child: u64,
    code: u64,
    k: u64,
    into: &mut Bytes,
) -> Result<u64, NoMemory>
    requires code { code < length kids.now }
    requires few { k ≤ code }
    requires room { code + 1 < 2 ^ 64 }
    ensures few { IfOk result (λ next. next ≤ code + 1) }
    ensures words { IfOk result (λ next. (whole : List ℕ)
        → into.old ++ words_from net.now machine.now var kids.now child k code ≡ whole
        → into.new ++ words_from net.now machine.now var kids.now child next (code + 1) ≡ whole) }
{
    if *kids.get(code) != child {
        return Ok(k);
    }
    push_word(net, machine, var, k, code, into)?;
    Ok(k + 1)
}

// The words of the codes that lead to a child.
fn push_words(
    net: &Network,
    machine: &Machine,
    var: u32,
    kids: &Places,
    child: u64,
    into: &mut Bytes,
) -> Result<(), NoMemory>
    ensures { OnOk result (into.new ≡ into.old
        ++ words_text (map (code_word net.now machine.now var) (codes_to child kids.now))) }
{
    let mut k = 0;
    for code in 0..kids.len() {
        k = push_led(net, machine, var, kids, child, code, k, into)?;
    }
    Ok(())
}

// The lesser of a child and the least so far, where the child isn't below the number.
fn nearer(child: u64, from: u64, least: u64) -> u64
    ensures { IsNearer child from least result }
{
    if child < from {
        return least;
    }
    if child < least {
        return child;
    }
    least
}

// The first child from a number on, or the number of vertices where there is none.
fn next_child(kids: &Places, from: u64, count: u64) -> u64
    requires { from ≤ count }
    ensures { IsNext kids.now from count result }
{
    let mut least = count;
    for code in 0..kids.len() {
        least = nearer(*kids.get(code), from, least);
    }
    least
}

// Where an edge goes from and to.
fn push_ends(k: u64, next: u64, into: &mut Bytes) -> Result<(), NoMemory>
    ensures { OnOk result (into.new ≡ into.old
        ++ (codes "  v" ++ decimal k ++ codes " -> v" ++ decimal next)) }
{
    into.push(b"  v")?;
    into.push_decimal(k)?;
    into.push(b" -> v")?;
    into.push_decimal(next)?;
    Ok(())
}

// The edge to the vertex that is always the next.
fn push_plain(k: u64, next: u64, into: &mut Bytes) -> Result<(), NoMemory>
    ensures { OnOk result (into.new ≡ into.old ++ plain_edge k next) }
{
    push_ends(k, next, into)?;
    into.push(b";\n")?;
    Ok(())
}

// The edge of a test to a child.
fn push_test_edge(
    net: &Network,
    machine: &Machine,
    k: u64,
    var: u32,
    kids: &Places,
    child: u64,
    into: &mut Bytes,
) -> Result<(), NoMemory>
    ensures { OnOk result (into.new ≡ into.old
        ++ test_edge net.now machine.now k var kids.now child) }
{
    push_ends(k, child, into)?;
    into.push(b" [label=\"")?;
    push_words(net, machine, var, kids, child, into)?;
    into.push(b"\"];\n")?;
    Ok(())
}

// The edges of a test in a graph of so many vertices.
fn push_test_edges(
    net: &Network,
    machine: &Machine,
    count: u64,
    k: u64,
    var: u32,
    kids: &Places,
    into: &mut Bytes,
) -> Result<(), NoMemory>
    ensures { OnOk result (into.new ≡ into.old
        ++ flat_map (test_edge net.now machine.now k var kids.now)
        (filter (has kids.now) (upto count))) }
{
    let mut child = next_child(kids, 0, count);
    while child < count {
        push_test_edge(net, machine, k, var, kids, child, into)?;
        child = next_child(kids, child + 1, count);
    }
    Ok(())
}

// The edges from a vertex in a graph of so many.
fn push_vertex_edges(
    net: &Network,
    machine: &Machine,
    count: u64,
    k: u64,
    vertex: &Vertex,
    into: &mut Bytes,
) -> Result<(), NoMemory>
    ensures { OnOk result (into.new ≡ into.old
        ++ vertex_edges net.now machine.now count k vertex.now) }
{
    match vertex {
        Vertex::Begin { next } => push_plain(k, *next, into),
        Vertex::Test { var, kids } => push_test_edges(net, machine, count, k, *var, kids, into),
        Vertex::Assign { next, .. } => push_plain(k, *next, into),
        Vertex::End => Ok(()),
    }
}

// The edges from the vertices.
fn push_edges(
    net: &Network,
    machine: &Machine,
    graph: &Graph,
    into: &mut Bytes,
) -> Result<(), NoMemory>
    ensures { OnOk result (into.new ≡ into.old
        ++ numbered (vertex_edges net.now machine.now (length graph.now)) 0 graph.now) }
{
    let count = graph.len();
    for k in 0..count {
        push_vertex_edges(net, machine, count, k, graph.get(k), into)?;
    }
    Ok(())
}

// The drawing of a machine's graph.
pub(crate) fn push_graph(
    net: &Network,
    machine: &Machine,
    graph: &Graph,
    into: &mut Bytes,
) -> Result<(), NoMemory>
    ensures { OnOk result (into.new ≡ into.old ++ graph_text net.now machine.now graph.now) }
{
    push_begin(&machine.name, into)?;
    push_vertices(net, machine, graph, into)?;
    push_edges(net, machine, graph, into)?;
    into.push(b"}\n")?;
    Ok(())
}
