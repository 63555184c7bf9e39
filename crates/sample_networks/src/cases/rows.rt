// Cases that the runner of polis_cli's tests reads.

/// Runs, compilations and checks of small networks.
pub const ROWS: &str = r#"
:: given
:: note Runs of one worker.
:: case a press
:: file net @lamp.net
:: file trc press
:: call run net trc o
:: shows Done @pressed.shown
:: holds o.out light
:: holds o.jnl @pressed.jnl
:: holds o.lst @lamp.lst
:: case no press
:: file net @lamp.net
:: file trc
:: call run net trc o
:: shows Done
entries 0 complete
lost 0
gathered 0 adopted 0
machine lamp_ctl vertices 7 code 6 tries 0 steps 0
:: holds o.out
:: holds o.jnl
polis journal 2
end 0 complete
:: holds o.lst @lamp.lst
:: case two presses, the second of which does nothing
:: file net @lamp.net
:: file trc
press
settle
press
:: call run net trc o
:: shows Done
entries 4 complete
lost 0
gathered 0 adopted 0
machine lamp_ctl vertices 7 code 6 tries 2 steps 9
:: holds o.out light
:: holds o.jnl
polis journal 2
@1 dep env lamp_ctl press
@2 fire lamp_ctl : press ; s=off -> s=on ; light
@3 dep env lamp_ctl press
@4 idle lamp_ctl : press ; s=on
end 4 complete
:: holds o.lst @lamp.lst
:: case the lamp in version 2
:: file net
network lamp version 2
domain bit = { off, on }
event press from env
event light to env
machine lamp_ctl priority 1 {
  input press
  output light
  state s : bit = off
  when press, s = off do s := on, emit light
}
:: file trc press
:: call run net trc o
:: shows Done @pressed.shown
:: holds o.out light
:: holds o.jnl @pressed.jnl
:: holds o.lst @lamp.lst
:: case within a limit of as many entries
:: file net @lamp.net
:: file trc press
:: call run net trc o --limit 2
:: shows Done @pressed.shown
:: holds o.out light
:: holds o.jnl @pressed.jnl
:: holds o.lst @lamp.lst
:: case within a limit of one entry
:: file net @lamp.net
:: file trc press
:: call run net trc o --limit 1
:: shows Limit
entries 1 limit
lost 0
gathered 0 adopted 0
machine lamp_ctl vertices 7 code 6 tries 0 steps 0
:: holds o.out
:: holds o.jnl
polis journal 2
@1 dep env lamp_ctl press
end 1 limit
:: holds o.lst @lamp.lst
:: case two events of which one comes twice
:: file net @join.net
:: file trc @join.trc
:: call run net trc o
:: shows Done
entries 4 complete
lost 1
gathered 0 adopted 0
machine m vertices 6 code 5 tries 1 steps 5
:: holds o.out c
:: holds o.jnl @joined.jnl
:: holds o.lst @join.lst
:: case two events of which one waits
:: file net @join.net
:: file trc
a
settle
b
:: call run net trc o
:: shows Done
entries 4 complete
lost 0
gathered 0 adopted 0
machine m vertices 6 code 5 tries 2 steps 8
:: holds o.out c
:: holds o.jnl
polis journal 2
@1 dep env m a
@2 idle m : a ; -
@3 dep env m b
@4 fire m : a b ; - -> - ; c
end 4 complete
:: holds o.lst @join.lst
:: case a value that nobody reads
:: file net @value.net
:: file trc @value.trc
:: call run net trc o
:: shows Done
entries 3 complete
lost 1
gathered 0 adopted 0
machine m vertices 5 code 4 tries 1 steps 4
:: holds o.out hit
:: holds o.jnl
polis journal 2
@1 dep env m v=3
@2 dep env m v=5
@3 fire m : v=5 ; - -> - ; hit
end 3 complete
:: holds o.lst @value.lst
:: case a value that is passed on
:: file net @echo.net
:: file trc v 5
:: call run net trc o
:: shows Done
entries 2 complete
lost 0
gathered 0 adopted 0
machine m vertices 21 code 34 tries 1 steps 8
:: holds o.out w=5
:: holds o.jnl
polis journal 2
@1 dep env m v=5
@2 fire m : v=5 ; s=6 -> s=1 ; w=5
end 2 complete
:: holds o.lst @echo.lst
:: case two values that are passed on
:: file net @echo.net
:: file trc @echo.trc
:: call run net trc o
:: shows Done
entries 4 complete
lost 0
gathered 0 adopted 0
machine m vertices 21 code 34 tries 2 steps 16
:: holds o.out
w=5
w=2
:: holds o.jnl
polis journal 2
@1 dep env m v=5
@2 fire m : v=5 ; s=6 -> s=1 ; w=5
@3 dep env m v=2
@4 fire m : v=2 ; s=1 -> s=4 ; w=2
end 4 complete
:: holds o.lst @echo.lst
:: case by priority
:: file net @two.net
:: file trc x
:: call run net trc o
:: shows Done
entries 4 complete
lost 0
gathered 0 adopted 0
machine a vertices 5 code 4 tries 1 steps 4
machine b vertices 5 code 4 tries 1 steps 4
:: holds o.out
yb
ya
:: holds o.jnl
polis journal 2
@1 dep env a x
@1 dep env b x
@2 fire b : x ; - -> - ; yb
@2 fire a : x ; - -> - ; ya
end 4 complete
:: holds o.lst @two.lst
:: case by number
:: file net @even.net
:: file trc x
:: call run net trc o
:: shows Done
entries 4 complete
lost 0
gathered 0 adopted 0
machine a vertices 5 code 4 tries 1 steps 4
machine b vertices 5 code 4 tries 1 steps 4
:: holds o.out
ya
yb
:: holds o.jnl @even.jnl
:: holds o.lst @two.lst
:: case a machine that reads what it emits
:: file net @loop.net
:: file trc go
:: call run net trc o
:: shows Done
entries 6 complete
lost 0
gathered 0 adopted 0
machine m vertices 12 code 13 tries 3 steps 20
:: holds o.out
:: holds o.jnl @looped.jnl
:: holds o.lst @loop.lst
:: case a seat belt and its timer
:: file net @belt.net
:: file trc @belt.trc
:: call run net trc o
:: shows Done
entries 30 complete
lost 0
gathered 0 adopted 0
machine belt vertices 22 code 25 tries 3 steps 26
machine timer vertices 20 code 29 tries 12 steps 81
:: holds o.out
alarm_on
alarm_off
:: holds o.jnl @belted.jnl
:: holds o.lst @belt.lst
:: case a run without end, within a limit of ten entries
:: file net @pong.net
:: file trc go
:: call run net trc o --limit 10
:: shows Limit
entries 10 limit
lost 0
gathered 0 adopted 0
machine a vertices 6 code 5 tries 3 steps 14
machine b vertices 5 code 4 tries 2 steps 8
:: holds o.out
:: holds o.jnl @played.jnl
:: holds o.lst @pong.lst
:: given
:: note Compilations. A run saves the same listings.
:: file trc press
:: call compile net o
:: case the lamp
:: file net @lamp.net
:: shows Done machine lamp_ctl vertices 7 code 6
:: holds o.lst @lamp.lst
:: case two machines
:: file net @two.net
:: shows Done
machine a vertices 5 code 4
machine b vertices 5 code 4
:: holds o.lst @two.lst
:: case the seat belt and its timer
:: file net @belt.net
:: shows Done
machine belt vertices 22 code 25
machine timer vertices 20 code 29
:: holds o.lst @belt.lst
:: case a conflict
:: file net @clash.net
:: shows Refused refused net conflict m 0 2 a b ; -
:: case a row that is cut off
:: file net @open_row.net
:: shows Refused refused net syntax 77
:: given
:: note Networks that are accepted, and networks that aren't.
:: case as many snapshots as there may be
:: file net
network t version 1
event e0 from env
event e1 from env
event e2 from env
event e3 from env
event e4 from env
event e5 from env
event e6 from env
event e7 from env
event e8 from env
event e9 from env
event e10 from env
event e11 from env
event e12 from env
event e13 from env
event e14 from env
event e15 from env
machine m priority 0 {
  input e0, e1, e2, e3, e4, e5, e6, e7, e8, e9, e10, e11, e12, e13, e14, e15
}
:: file trc press
:: call check net
:: shows Done
accepted machines 1 events 16
machine m snapshots 65536 rows 0
:: case a seat belt and its timer are accepted
:: file net @belt.net
:: file trc press
:: call check net
:: shows Done
accepted machines 2 events 9
machine belt snapshots 96 rows 8
machine timer snapshots 44 rows 12
:: case rows that overlap and give the same
:: file net
network echo version 2
domain d = 0 .. 7
event v : d from env
event w : d to env
machine m priority 0 {
  input v
  output w
  when v do emit w = value v
  when v = 1 do emit w = 1
}
:: file trc press
:: call check net
:: shows Done
accepted machines 1 events 2
machine m snapshots 9 rows 2
:: case rows that overlap and differ
:: file net
network echo version 2
domain d = 0 .. 7
event v : d from env
event w : d to env
machine m priority 0 {
  input v
  output w
  when v do emit w = value v
  when v = 1 do emit w = 0
}
:: file trc press
:: call check net
:: shows Refused refused net conflict m 0 1 v=1 ; -
:: case a conflict is found
:: file net @clash.net
:: file trc press
:: call check net
:: shows Refused refused net conflict m 0 2 a b ; -
:: case a conflict, before a run on one event
:: file net @clash.net
:: file trc a
:: call run net trc o
:: shows Refused refused net conflict m 0 2 a b ; -
:: case a conflict, before a run on both events
:: file net @clash.net
:: file trc @clash.trc
:: call run net trc o
:: shows Refused refused net conflict m 0 2 a b ; -
:: case a row that is cut off is refused
:: file net @open_row.net
:: file trc press
:: call check net
:: shows Refused refused net syntax 77
:: case a fault of syntax before a byte that begins no token
:: file net network t network %\
:: file trc press
:: call run net trc o
:: shows Refused refused net lex byte 18
:: given
:: note Runs of texts that aren't networks. A sum stands in no sentence of version 1: in the last
text its sign is byte 162.
:: file trc press
:: call run net trc o
:: case a row that is cut off, before a run
:: file net @open_row.net
:: shows Refused refused net syntax 77
:: case a byte that begins no token, before a run
:: file net network %\
:: shows Refused refused net lex byte 8
:: case a name of 25 bytes, before a run
:: file net network abcdefghijklmnopqrstuvwxy\
:: shows Refused refused net lex name 8
:: case a number of more than 32 bits, before a run
:: file net network t version 4294967296\
:: shows Refused refused net lex number 18
:: case a sum in version 1, before a run
:: change net @echo.net version 2 => version 1
:: shows Refused refused net syntax 162
:: given
:: note The listing says nothing of priorities.
:: case two machines of one priority are compiled
:: file net @even.net
:: file trc press
:: call compile net o
:: shows Done
machine a vertices 5 code 4
machine b vertices 5 code 4
:: holds o.lst @two.lst
"#;
