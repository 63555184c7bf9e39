// Cases that the runner of polis_cli's tests reads.

/// Comparisons of two networks. Most compare a network with its text, in which one part stands in
/// place of another.
pub const COMPARISONS: &str = r#"
:: given
:: file net @value.net
:: call equiv net two
:: case the same text
:: change two @value.net v = 5 => v = 5
:: shows Done same 1
:: case a set of one value
:: change two @value.net v = 5 => v in { 5 }
:: shows Done same 1
:: case another name of the network
:: change two @value.net network val => network other
:: shows Done same 1
:: case another priority
:: change two @value.net priority 0 => priority 7
:: shows Done same 1
:: case a row twice
:: change two @value.net when v = 5 do emit hit => when v = 5 do emit hit when v = 5 do emit hit
:: shows Done same 1
:: case another value
:: change two @value.net v = 5 => v = 6
:: shows Differ differ m v=5 ; -
:: case a row that does nothing
:: change two @value.net when v = 5 do emit hit =>
:: shows Differ differ m v=5 ; -
:: case one more value of the domain
:: change two @value.net 0 .. 7 => 0 .. 8
:: shows Refused refused two shape
:: case no sentence
:: change two @value.net network => network network
:: shows Refused refused two syntax 8
:: given
:: case another priority of the first machine
:: file net @two.net
:: change two @two.net priority 2 => priority 1
:: call equiv net two
:: shows Done same 2
:: given
:: file net @lamp.net
:: call equiv net two
:: case another initial value
:: change two @lamp.net s : bit = off => s : bit = on
:: shows Refused refused two shape
:: case another order of values
:: change two @lamp.net { off, on } => { on, off }
:: shows Refused refused two shape
:: case a condition less
:: change two @lamp.net press, s = off do => press do
:: shows Differ differ lamp_ctl press ; s=on
:: case another order of events
:: change two @lamp.net event press from env
event light to env => event light to env
event press from env
:: shows Refused refused two shape
:: given
:: case a sum as eight rows
:: file net @echo.net
:: change two @echo.net when v do s := s + 3, emit w = value v => \
when v, s = 0 do s := 3, emit w = value v
  when v, s = 1 do s := 4, emit w = value v
  when v, s = 2 do s := 5, emit w = value v
  when v, s = 3 do s := 6, emit w = value v
  when v, s = 4 do s := 7, emit w = value v
  when v, s = 5 do s := 0, emit w = value v
  when v, s = 6 do s := 1, emit w = value v
  when v, s = 7 do s := 2, emit w = value v
:: call equiv net two
:: shows Done same 1
:: given
:: file net @belt.net
:: call equiv net two
:: case another order of rows
:: change two @belt.net when key_off, s = off do nothing
  when key_off, s = wait do s := off => when key_off, s = wait do s := off
  when key_off, s = off do nothing
:: shows Done same 2
:: case a row as two that tell a case apart
:: change two @belt.net when belt_on, s = wait do s := off => \
when belt_on, key_on, s = wait do s := off
  when belt_on, absent key_on, s = wait do s := off
:: shows Done same 2
:: case another step of the timer
:: change two @belt.net n = 4 do n := 5 => n = 4 do n := 6
:: shows Differ differ timer tick ; n=4
:: given
:: note Another network, and one that isn't accepted.
:: call equiv net two
:: case another network
:: file net @value.net
:: file two @join.net
:: shows Refused refused two shape
:: case a conflict in the second
:: file net @value.net
:: file two @clash.net
:: shows Refused refused two conflict m 0 2 a b ; -
:: case a conflict in the first
:: file net @clash.net
:: file two @value.net
:: shows Refused refused net conflict m 0 2 a b ; -
:: given
:: note Command lines over two networks, and calls of the host that fail. What is refused stays
refused where the show fails, and what differs differs.
:: file net @value.net
:: case two files of one text
:: file two @value.net
:: call equiv net two
:: shows Done same 1
:: case one file twice
:: file two @value.net
:: call equiv net net
:: shows Done same 1
:: case one file alone
:: file two @value.net
:: call equiv net
:: shows Usage usage
:: case three files
:: file two @value.net
:: call equiv net two three
:: shows Usage usage
:: case an empty name
:: file two @value.net
:: call equiv net ""
:: shows Usage usage
:: case a file that isn't there
:: file two @value.net
:: call equiv net none
:: shows Refused refused none absent
:: case the first file fails
:: file two @value.net
:: fail 0
:: call equiv net two
:: shows ReadFault read fault net
:: faults 1 0
:: case the second file fails
:: file two @value.net
:: fail 1
:: call equiv net two
:: shows ReadFault read fault two
:: faults 1 0
:: case the line of two that are the same fails
:: file two @value.net
:: fail 2
:: call equiv net two
:: shows WriteFault
:: faults 0 1
:: case the line of two that differ fails
:: change two @value.net v = 5 => v = 6
:: fail 2
:: call equiv net two
:: shows Differ
:: faults 0 1
:: case the line of a refusal fails
:: file two @join.net
:: fail 2
:: call equiv net two
:: shows Refused
:: faults 0 1
"#;
