// Networks in the printed layout, printed as they were read.
use crate::tests::expect;
use net_reader::{print_network, read_network};
use polis_base::{Bytes, NoMemory};
use sample_networks::texts::{BELT, CLASH, ECHO, JOIN, LAMP, LOOP, PONG, TWO, VALUE};
use std::alloc::Global;

// A sentence of no version that is accepted, with each form of version 1.
const THIRD: &str = "network n version 3
domain d = { a }
domain r = 0 .. 4294967295
event e : d from env
event f : r to env
event g : r
event p
machine m priority 300 {
  input e, p, g
  output f
  state s : d = a
  state t : r = 7
  when e in { a }, absent p, t in { 7, 8 } do s := a, emit f = 4294967295
  when p do nothing
}
machine sink priority 0 {
  input p
  when absent p do nothing
}
";

// Each form of version 2.
const SECOND: &str = "network n version 2
domain d = { a }
event e : d from env
event f : d to env
machine m priority 4294967295 {
  input e
  output f
  state s : d = a
  when e do s := value e, emit f = a
  when e = a do s := a, emit f = value e
  when absent e do s := s + 0
}
";

fn printed(alloc: Global, text: &str) -> Result<Bytes, NoMemory> {
    match read_network(alloc, text.as_bytes()) {
        Ok(net) => print_network(alloc, &net),
        Err(_) => Err(NoMemory),
    }
}

fn comes_back(alloc: Global, text: &str) -> bool {
    match printed(alloc, text) {
        Ok(printed) => printed.as_slice() == text.as_bytes(),
        Err(_) => false,
    }
}

// All but the last two are those of examples/.
const TEXTS: &[&str] = &[
    LAMP, BELT, JOIN, VALUE, TWO, LOOP, PONG, CLASH, ECHO, THIRD, SECOND,
];

#[test]
fn networks_print_as_they_were_read(rt: HostRuntime) {
    for text in TEXTS {
        let comes_back = comes_back(rt.alloc(), text);
        expect(&rt, text, comes_back);
    }
}
