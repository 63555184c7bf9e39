// Cases that the runner of polis_cli's tests reads.

/// Runs that are drawn from numbers.
pub const SHUFFLES: &str = r#"
:: given
:: note A run without a choice: the journal is that of `run`.
:: case a press
:: file net @lamp.net
:: file trc press
:: call shuffle net trc o 0
:: shows Done
entries 2 complete
lost 0
:: holds o.out light
:: holds o.jnl @pressed.jnl
:: case no press
:: file net @lamp.net
:: file trc
:: call shuffle net trc o 18446744073709551615
:: shows Done
entries 0 complete
lost 0
:: holds o.out
:: holds o.jnl
polis journal 2
end 0 complete
:: case within a limit of one entry
:: file net @lamp.net
:: file trc press
:: call shuffle net trc o 7 --limit 1
:: shows Limit
entries 1 limit
lost 0
:: holds o.out
:: holds o.jnl
polis journal 2
@1 dep env lamp_ctl press
end 1 limit
:: case complete with as many entries as the limit
:: file net @lamp.net
:: file trc press
:: call shuffle net trc o 7 --limit 2 --order free
:: shows Done
entries 2 complete
lost 0
:: holds o.out light
:: holds o.jnl @pressed.jnl
:: given
:: note A machine that sends to itself: one move is offered at each moment, whatever the order.
:: file net @loop.net
:: file trc go
:: case the loop, free
:: call shuffle net trc o 3 --order free
:: shows Done
entries 6 complete
lost 0
:: holds o.out
:: holds o.jnl @looped.jnl
:: case the loop, settled
:: call shuffle net trc o 3 --order settled
:: shows Done
entries 6 complete
lost 0
:: holds o.out
:: holds o.jnl @looped.jnl
:: case the loop, scheduled
:: call shuffle net trc o 3 --order scheduled
:: shows Done
entries 6 complete
lost 0
:: holds o.out
:: holds o.jnl @looped.jnl
:: case the loop, mixed
:: call shuffle net trc o 3 --order mixed
:: shows Done
entries 6 complete
lost 0
:: holds o.out
:: holds o.jnl @looped.jnl
:: given
:: note Two machines that send to each other without end.
:: file net @pong.net
:: file trc go
:: case without an order
:: call shuffle net trc o 0 --limit 10
:: shows Limit
entries 10 limit
lost 0
:: holds o.out
:: holds o.jnl @played.jnl
:: case the two, free
:: call shuffle net trc o 0 --limit 10 --order free
:: shows Limit
entries 10 limit
lost 0
:: holds o.out
:: holds o.jnl @played.jnl
:: case the two, settled
:: call shuffle net trc o 0 --limit 10 --order settled
:: shows Limit
entries 10 limit
lost 0
:: holds o.out
:: holds o.jnl @played.jnl
:: case the two, scheduled
:: call shuffle net trc o 0 --limit 10 --order scheduled
:: shows Limit
entries 10 limit
lost 0
:: holds o.out
:: holds o.jnl @played.jnl
:: case the two, mixed
:: call shuffle net trc o 0 --limit 10 --order mixed
:: shows Limit
entries 10 limit
lost 0
:: holds o.out
:: holds o.jnl @played.jnl
:: given
:: note Two machines that read one event.
:: file net @two.net
:: file trc x
:: case a slow environment
:: call shuffle net trc o 0 --order free
:: shows Done
entries 4 complete
lost 0
:: holds o.out
yb
ya
:: holds o.jnl
polis journal 2
@1 dep env b x
@2 fire b : x ; - -> - ; yb
@1 dep env a x
@2 fire a : x ; - -> - ; ya
end 4 complete
:: case an environment that floods the network
:: call shuffle net trc o 2 --order free
:: shows Done
entries 4 complete
lost 0
:: holds o.out
ya
yb
:: holds o.jnl
polis journal 2
@1 dep env a x
@1 dep env b x
@2 fire a : x ; - -> - ; ya
@2 fire b : x ; - -> - ; yb
end 4 complete
:: case an order that is drawn too
:: call shuffle net trc o 0
:: shows Done
entries 4 complete
lost 0
:: holds o.out
ya
yb
:: holds o.jnl
polis journal 2
@1 dep env a x
@2 fire a : x ; - -> - ; ya
@1 dep env b x
@2 fire b : x ; - -> - ; yb
end 4 complete
:: given
:: note The seat belt. Where each event is settled there is one move at each moment.
:: file net @belt.net
:: file trc @belt.trc
:: case four ticks are lost, and the alarm
:: call shuffle net trc o 0 --order free
:: shows Done
entries 22 complete
lost 4
:: holds o.out
:: any o.jnl
:: case nothing is lost
:: call shuffle net trc o 5 --order free
:: shows Done
entries 30 complete
lost 0
:: holds o.out
alarm_on
alarm_off
:: any o.jnl
:: case the alarm doesn't stop
:: call shuffle net trc o 2
:: shows Done
entries 24 complete
lost 4
:: holds o.out alarm_on
:: any o.jnl
:: case the same by its name
:: call shuffle net trc o 2 --order mixed --limit 60000
:: shows Done
entries 24 complete
lost 4
:: holds o.out alarm_on
:: any o.jnl
:: case the belt, settled
:: call shuffle net trc o 0 --order settled
:: shows Done
entries 30 complete
lost 0
:: holds o.out
alarm_on
alarm_off
:: holds o.jnl @belted.jnl
:: case the belt, scheduled
:: call shuffle net trc o 0 --order scheduled
:: shows Done
entries 30 complete
lost 0
:: holds o.out
alarm_on
alarm_off
:: holds o.jnl @belted.jnl
:: given
:: note 64 machines that read one event: each reads it once, in whatever order. What is saved is
judged to be legal.
:: file trc e
:: file net
network many version 1
event e from env
machine m0 priority 0 { input e when e do nothing }
machine m1 priority 1 { input e when e do nothing }
machine m2 priority 2 { input e when e do nothing }
machine m3 priority 3 { input e when e do nothing }
machine m4 priority 0 { input e when e do nothing }
machine m5 priority 1 { input e when e do nothing }
machine m6 priority 2 { input e when e do nothing }
machine m7 priority 3 { input e when e do nothing }
machine m8 priority 0 { input e when e do nothing }
machine m9 priority 1 { input e when e do nothing }
machine m10 priority 2 { input e when e do nothing }
machine m11 priority 3 { input e when e do nothing }
machine m12 priority 0 { input e when e do nothing }
machine m13 priority 1 { input e when e do nothing }
machine m14 priority 2 { input e when e do nothing }
machine m15 priority 3 { input e when e do nothing }
machine m16 priority 0 { input e when e do nothing }
machine m17 priority 1 { input e when e do nothing }
machine m18 priority 2 { input e when e do nothing }
machine m19 priority 3 { input e when e do nothing }
machine m20 priority 0 { input e when e do nothing }
machine m21 priority 1 { input e when e do nothing }
machine m22 priority 2 { input e when e do nothing }
machine m23 priority 3 { input e when e do nothing }
machine m24 priority 0 { input e when e do nothing }
machine m25 priority 1 { input e when e do nothing }
machine m26 priority 2 { input e when e do nothing }
machine m27 priority 3 { input e when e do nothing }
machine m28 priority 0 { input e when e do nothing }
machine m29 priority 1 { input e when e do nothing }
machine m30 priority 2 { input e when e do nothing }
machine m31 priority 3 { input e when e do nothing }
machine m32 priority 0 { input e when e do nothing }
machine m33 priority 1 { input e when e do nothing }
machine m34 priority 2 { input e when e do nothing }
machine m35 priority 3 { input e when e do nothing }
machine m36 priority 0 { input e when e do nothing }
machine m37 priority 1 { input e when e do nothing }
machine m38 priority 2 { input e when e do nothing }
machine m39 priority 3 { input e when e do nothing }
machine m40 priority 0 { input e when e do nothing }
machine m41 priority 1 { input e when e do nothing }
machine m42 priority 2 { input e when e do nothing }
machine m43 priority 3 { input e when e do nothing }
machine m44 priority 0 { input e when e do nothing }
machine m45 priority 1 { input e when e do nothing }
machine m46 priority 2 { input e when e do nothing }
machine m47 priority 3 { input e when e do nothing }
machine m48 priority 0 { input e when e do nothing }
machine m49 priority 1 { input e when e do nothing }
machine m50 priority 2 { input e when e do nothing }
machine m51 priority 3 { input e when e do nothing }
machine m52 priority 0 { input e when e do nothing }
machine m53 priority 1 { input e when e do nothing }
machine m54 priority 2 { input e when e do nothing }
machine m55 priority 3 { input e when e do nothing }
machine m56 priority 0 { input e when e do nothing }
machine m57 priority 1 { input e when e do nothing }
machine m58 priority 2 { input e when e do nothing }
machine m59 priority 3 { input e when e do nothing }
machine m60 priority 0 { input e when e do nothing }
machine m61 priority 1 { input e when e do nothing }
machine m62 priority 2 { input e when e do nothing }
machine m63 priority 3 { input e when e do nothing }
:: case the 64, free
:: call shuffle net trc o 1 --order free
:: shows Done
entries 128 complete
lost 0
:: holds o.out
:: any o.jnl
:: call replay net trc o.jnl
:: ends Done legal 128 complete
:: case the 64, settled
:: call shuffle net trc o 1 --order settled
:: shows Done
entries 128 complete
lost 0
:: holds o.out
:: any o.jnl
:: call replay net trc o.jnl
:: ends Done legal 128 complete
:: case the 64, scheduled
:: call shuffle net trc o 1 --order scheduled
:: shows Done
entries 128 complete
lost 0
:: holds o.out
:: any o.jnl
:: call replay net trc o.jnl
:: ends Done legal 128 complete
:: case the 64, mixed
:: call shuffle net trc o 1 --order mixed
:: shows Done
entries 128 complete
lost 0
:: holds o.out
:: any o.jnl
:: call replay net trc o.jnl
:: ends Done legal 128 complete
:: given
:: note Command lines that ask for no run.
:: file net @lamp.net
:: file trc press
:: case shuffle net trc o
:: call shuffle net trc o
:: shows Usage usage
:: case shuffle net trc o 00
:: call shuffle net trc o 00
:: shows Usage usage
:: case shuffle net trc o -1
:: call shuffle net trc o -1
:: shows Usage usage
:: case shuffle net trc o 18446744073709551616
:: call shuffle net trc o 18446744073709551616
:: shows Usage usage
:: case shuffle net trc o 0 --order
:: call shuffle net trc o 0 --order
:: shows Usage usage
:: case shuffle net trc o 0 --order none
:: call shuffle net trc o 0 --order none
:: shows Usage usage
:: case shuffle net trc o 0 --order free --order free
:: call shuffle net trc o 0 --order free --order free
:: shows Usage usage
:: case shuffle net trc o 0 --order mixed --order free
:: call shuffle net trc o 0 --order mixed --order free
:: shows Usage usage
:: case shuffle net trc o 0 --limit 0
:: call shuffle net trc o 0 --limit 0
:: shows Usage usage
:: case shuffle net trc o 0 --limit 60001
:: call shuffle net trc o 0 --limit 60001
:: shows Usage usage
:: case shuffle net trc o 0 --workers 1
:: call shuffle net trc o 0 --workers 1
:: shows Usage usage
:: case shuffle net trc o 0 --image o.img
:: call shuffle net trc o 0 --image o.img
:: shows Usage usage
:: case shuffle net trc "" 0
:: call shuffle net trc "" 0
:: shows Usage usage
:: case run net trc o --order free
:: call run net trc o --order free
:: shows Usage usage
:: given
:: note Calls of the host that fail, of two loads, two saves and a show.
:: file net @lamp.net
:: file trc press
:: call shuffle net trc o 0
:: case the network of a drawn run
:: fail 0
:: shows ReadFault read fault net
:: faults 1 0
:: case the trace of a drawn run
:: fail 1
:: shows ReadFault read fault trc
:: faults 1 0
:: case the outputs of a drawn run
:: fail 2
:: shows WriteFault write fault o.out
:: faults 0 1
:: case the journal of a drawn run
:: fail 3
:: shows WriteFault write fault o.jnl
:: holds o.out light
:: faults 0 1
:: case the lines of a drawn run
:: fail 4
:: shows WriteFault
:: holds o.out light
:: holds o.jnl @pressed.jnl
:: faults 0 1
:: case a call that isn't made
:: fail 5
:: shows Done
entries 2 complete
lost 0
:: holds o.out light
:: holds o.jnl @pressed.jnl
:: given
:: note Files that aren't there or aren't accepted.
:: call shuffle net trc o 0
:: case no network
:: file trc press
:: shows Refused refused net absent
:: case no trace
:: file net @lamp.net
:: shows Refused refused trc absent
:: case a trace at fault
:: file net @lamp.net
:: file trc pres
:: shows Refused refused trc line 1 event
"#;
