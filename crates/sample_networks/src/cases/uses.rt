// Cases that the runner of polis_cli's tests reads.

/// What `cover` and `lint` show of small networks, worked out by hand.
pub const USES: &str = r#"
:: given
:: note What journals used of their tables.
:: call cover net trc jnl
:: case a join of two events
:: file net @join.net
:: file trc @join.trc
:: file jnl @joined.jnl
:: shows Done
machine m fired 1 idle 0 jammed 0 first -
row m 0 taken 1
input m a read 1 unused 0 first -
input m b read 1 unused 0 first -
:: case the seat belt and its timer
:: file net @belt.net
:: file trc @belt.trc
:: file jnl @belted.jnl
:: shows Done
machine belt fired 3 idle 0 jammed 0 first -
row belt 0 taken 1
row belt 4 taken 1
row belt 7 taken 1
never belt 5 : 1 2 3 5 6
input belt key_on read 1 unused 0 first -
input belt key_off read 0 unused 0 first -
input belt belt_on read 0 unused 0 first -
input belt end5 read 1 unused 0 first -
input belt end10 read 1 unused 0 first -
machine timer fired 12 idle 0 jammed 0 first -
row timer 0 taken 1
row timer 1 taken 1
row timer 2 taken 1
row timer 3 taken 1
row timer 4 taken 1
row timer 5 taken 1
row timer 6 taken 1
row timer 7 taken 1
row timer 8 taken 1
row timer 9 taken 1
row timer 10 taken 1
row timer 11 taken 1
input timer start read 1 unused 0 first -
input timer tick read 11 unused 0 first -
:: case an illegal journal
:: file net @join.net
:: file trc @join.trc
:: file jnl
polis journal 2
@1 dep env m a
@2 dep env m a
@3 dep env m b
@4 fire m : a b ; - -> - ; -
end 4 complete
:: shows Illegal illegal 3
:: case an event that a firing used up for nothing, and two that block each other
:: file net @odd.net
:: file trc
c
b
settle
a
b
:: file jnl
polis journal 2
@1 dep env m c
@2 dep env m b
@3 fire m : b c ; k=off -> k=on ; -
@4 dep env m a
@5 dep env m b
@6 idle m : a b ; k=on
end 6 complete
:: shows Done
machine m fired 1 idle 1 jammed 1 first 5
row m 1 taken 1
never m 3 : 0 2 3
input m a read 0 unused 0 first -
input m b read 1 unused 0 first -
input m c read 1 unused 1 first 2
:: case a journal of the first version with no entry
:: file net @lamp.net
:: file trc press
:: file jnl
polis journal 1
end 0 limit
:: shows Done
machine lamp_ctl fired 0 idle 0 jammed 0 first -
never lamp_ctl 1 : 0
input lamp_ctl press read 0 unused 0 first -
:: case a press that is idle and not jammed
:: file net @lamp.net
:: file trc
press
press
:: file jnl
polis journal 2
@1 dep env lamp_ctl press
@2 fire lamp_ctl : press ; s=off -> s=on ; light
@3 dep env lamp_ctl press
@4 idle lamp_ctl : press ; s=on
end 4 complete
:: shows Done
machine lamp_ctl fired 1 idle 1 jammed 0 first -
row lamp_ctl 0 taken 1
input lamp_ctl press read 1 unused 0 first -
:: case an event that never comes, and a value that no row takes
:: file net @value.net
:: file trc @value.trc
:: file jnl
polis journal 1
dep env m v=3
idle m : v=3 ; -
end 2 limit
:: shows Done
machine m fired 0 idle 1 jammed 0 first -
never m 1 : 0
input m v read 0 unused 0 first -
:: case stamps that don't rise
:: file net @lamp.net
:: file trc press
:: file jnl
polis journal 2
@1 dep env lamp_ctl press
@1 fire lamp_ctl : press ; s=off -> s=on ; light
end 2 complete
:: shows Illegal illegal 1
:: case a journal that doesn't read
:: file net @lamp.net
:: file trc press
:: file jnl
polis journal 2
@1 dep env lamp_ctl pres
end 1 limit
:: shows Refused refused jnl line 2 name
:: given
:: note What tables leave open.
:: call lint net
:: case nothing
:: file net @lamp.net
:: shows Done machine lamp_ctl seen 2 fire 1 jam 0
:: case a network that isn't accepted
:: file net @clash.net
:: shows Refused refused net conflict m 0 2 a b ; -
:: case two events that are waited for
:: file net @join.net
:: shows Done machine m seen 3 fire 1 jam 0
:: case much
:: file net @odd.net
:: shows Done
machine m seen 14 fire 8 jam 4
jam m first a b ; k=off
row m 3 never
row m 2 repeats 0
input m c ignored
state m k ignored
output m y never
unused m c 4 first b c ; k=off
domain spare unused
:: case values
:: file net @value.net
:: shows Done machine m seen 8 fire 1 jam 0
:: case events that come together
:: file net @loop.net
:: shows Done
machine m seen 12 fire 6 jam 0
unused m go 2 first go x ; c=1
unused m x 1 first go x ; c=0
:: case two machines
:: file net @pong.net
:: shows Done
machine a seen 3 fire 3 jam 0
unused a go 1 first go q ; -
unused a q 1 first go q ; -
machine b seen 1 fire 1 jam 0
:: case domains of an event, of a state variable, and of none
:: file net
network t version 1
domain d0 = 0 .. 1
domain d1 = { x, y }
domain d2 = 0 .. 3
domain d3 = { z }
event e : d1 from env
machine m priority 0 {
  input e
  state s : d2 = 0
  when e do s := 1
}
:: shows Done
machine m seen 8 fire 8 jam 0
state m s ignored
domain d0 unused
domain d3 unused
:: case 1024 snapshots
:: file net
network t version 1
event i0 from env
event i1 from env
event i2 from env
event i3 from env
event i4 from env
event i5 from env
event i6 from env
event i7 from env
event i8 from env
event i9 from env
machine m priority 0 {
  input i0, i1, i2, i3, i4, i5, i6, i7, i8, i9
}
:: shows Done
machine m seen 1023 fire 0 jam 0
input m i0 ignored
input m i1 ignored
input m i2 ignored
input m i3 ignored
input m i4 ignored
input m i5 ignored
input m i6 ignored
input m i7 ignored
input m i8 ignored
input m i9 ignored
:: case 2048 snapshots
:: file net
network t version 1
event i0 from env
event i1 from env
event i2 from env
event i3 from env
event i4 from env
event i5 from env
event i6 from env
event i7 from env
event i8 from env
event i9 from env
event i10 from env
machine m priority 0 {
  input i0, i1, i2, i3, i4, i5, i6, i7, i8, i9, i10
}
:: shows Done
machine m seen 2047 fire 0 jam 0
input m i0 ignored
input m i1 ignored
input m i2 ignored
input m i3 ignored
input m i4 ignored
input m i5 ignored
input m i6 ignored
input m i7 ignored
input m i8 ignored
input m i9 ignored
input m i10 ignored
large m
:: given
:: note Calls of the host that fail.
:: file net @join.net
:: file trc @join.trc
:: file jnl @joined.jnl
:: case the journal of a coverage
:: fail 2
:: call cover net trc jnl
:: shows ReadFault read fault jnl
:: faults 1 0
:: case the lines of a coverage
:: fail 3
:: call cover net trc jnl
:: shows WriteFault
:: faults 0 1
:: case the network of what tables leave open
:: fail 0
:: call lint net
:: shows ReadFault read fault net
:: faults 1 0
:: case the lines of what tables leave open
:: fail 1
:: call lint net
:: shows WriteFault
:: faults 0 1
"#;
