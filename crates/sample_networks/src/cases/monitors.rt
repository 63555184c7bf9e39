// Cases that the runner of polis_cli's tests reads.

/// What monitors say of journals, worked out by hand.
pub const MONITORS: &str = r#"
:: given
:: note Monitors of the seat belt, of which entry 15 emits alarm_on and entry 27 alarm_off.
:: file net @belt.net
:: file trc @belt.trc
:: file jnl @belted.jnl
:: call watch net trc jnl mon
:: case each alarm is turned on before it is turned off
:: file mon @pairs.net
:: shows Done held
:: case no alarm may sound
:: file mon @quiet.net
:: shows Found found 15 : loud
:: case no alarm may be turned off
:: file mon
network tireless version 1
event alarm_off from env
event tired to env
machine m priority 0 {
  input alarm_off
  output tired
  when alarm_off do emit tired
}
:: shows Found found 27 : tired
:: case the first complaint of two
:: file mon
network silent version 1
event alarm_on from env
event alarm_off from env
event loud to env
event tired to env
machine m priority 0 {
  input alarm_on, alarm_off
  output tired, loud
  when alarm_on do emit loud
  when alarm_off, absent alarm_on do emit tired
}
:: shows Found found 15 : loud
:: case a complaint by way of a second machine, before the next output is heard
:: file mon
network chain version 1
event alarm_on from env
event alarm_off from env
event heard
event late to env
machine a priority 1 {
  input alarm_on, alarm_off
  output heard
  when alarm_on do emit heard
  when alarm_off, absent alarm_on do nothing
}
machine b priority 0 {
  input heard
  output late
  when heard do emit late
}
:: shows Found found 15 : late
:: case two machines that hear it, of which the one with the smaller priority goes first
:: file mon
network both version 1
event alarm_on from env
event one to env
event other to env
machine a priority 2 {
  input alarm_on
  output one
  when alarm_on do emit one
}
machine b priority 1 {
  input alarm_on
  output other
  when alarm_on do emit other
}
:: shows Found found 15 : other
:: case two events of one reaction
:: file mon
network twice version 1
event alarm_on from env
event one to env
event other to env
machine m priority 0 {
  input alarm_on
  output other, one
  when alarm_on do emit one, emit other
}
:: shows Found found 15 : other
:: case an event that the environment of the monitor doesn't send
:: file mon
network own version 1
event alarm_on to env
event alarm_off from env
machine m priority 0 {
  input alarm_off, alarm_on
  output alarm_on
  when alarm_off do emit alarm_on
}
:: shows Found found 27 : alarm_on
:: case a monitor that hears nothing
:: file mon
network deaf version 1
event p
machine m priority 0 {
  input p
  output p
  when p do emit p
}
:: shows Done held
:: case a monitor that never comes to rest
:: file mon
network restless version 1
event alarm_on from env
event p
machine m priority 0 {
  input alarm_on, p
  output p
  when alarm_on do emit p
  when p do emit p
}
:: shows Limit unfinished
:: case a monitor that never comes to rest, after its complaint
:: file mon
network upset version 1
event alarm_on from env
event loud to env
event p
machine m priority 0 {
  input alarm_on, p
  output p, loud
  when alarm_on do emit p, emit loud
  when p, absent alarm_on do emit p
}
:: shows Found found 15 : loud
:: case an event that the network hasn't
:: file mon
network quiet version 1
event bell from env
event loud to env
machine m priority 0 {
  input bell
  output loud
  when bell do emit loud
}
:: shows Refused refused mon shape
:: case an event between its machines
:: file mon
network quiet version 1
event start from env
event loud to env
machine m priority 0 {
  input start
  output loud
  when start do emit loud
}
:: shows Refused refused mon shape
:: case an event of its environment
:: file mon
network quiet version 1
event key_on from env
event loud to env
machine m priority 0 {
  input key_on
  output loud
  when key_on do emit loud
}
:: shows Refused refused mon shape
:: case a value that its output hasn't
:: file mon
network quiet version 1
domain d = { on }
event alarm_on : d from env
event loud to env
machine m priority 0 {
  input alarm_on
  output loud
  when alarm_on do emit loud
}
:: shows Refused refused mon shape
:: case a monitor that isn't accepted
:: file mon @clash.net
:: shows Refused refused mon conflict m 0 2 a b ; -
:: case a monitor that is no network
:: file mon quiet
:: shows Refused refused mon syntax 0
:: case no monitor
:: shows Refused refused mon absent
:: given
:: note A monitor of values, and what may be one.
:: file net @echo.net
:: file trc @echo.trc
:: file jnl
polis journal 2
@1 dep env m v=5
@2 fire m : v=5 ; s=6 -> s=1 ; w=5
@3 dep env m v=2
@4 fire m : v=2 ; s=1 -> s=4 ; w=2
end 4 complete
:: call watch net trc jnl mon
:: case a value below 4
:: file mon
network low version 1
domain level = 0 .. 7
event w : level from env
event below : level to env
machine m priority 0 {
  input w
  output below
  when w in { 0, 1, 2, 3 } do emit below = 4
}
:: shows Found found 3 : below=4
:: case a value of 7
:: file mon
network low version 1
domain d = { a, b }
domain level = 0 .. 7
event w : level from env
event most : d to env
machine m priority 0 {
  input w
  output most
  when w = 7 do emit most = b
}
:: shows Done held
:: case fewer values
:: file mon
network low version 1
domain level = 0 .. 6
event w : level from env
event below to env
machine m priority 0 {
  input w
  output below
  when w = 0 do emit below
}
:: shows Refused refused mon shape
:: case other words
:: file mon
network low version 1
domain level = { a, b, c, d, e, f, g, h }
event w : level from env
event below to env
machine m priority 0 {
  input w
  output below
  when w = a do emit below
}
:: shows Refused refused mon shape
:: case no value
:: file mon
network low version 1
event w from env
event below to env
machine m priority 0 {
  input w
  output below
  when w do emit below
}
:: shows Refused refused mon shape
:: given
:: note Journals that aren't whole, and journals for which no monitor is loaded.
:: file net @lamp.net
:: file trc press
:: call watch net trc jnl mon
:: case a journal of the first version with no entry
:: file jnl
polis journal 1
end 0 limit
:: file mon
network dark version 1
event light from env
event lit to env
machine m priority 0 {
  input light
  output lit
  when light do emit lit
}
:: shows Done held
:: case the light of the lamp
:: file jnl @pressed.jnl
:: file mon
network dark version 1
event light from env
event lit to env
machine m priority 0 {
  input light
  output lit
  when light do emit lit
}
:: shows Found found 1 : lit
:: case an illegal journal
:: file jnl
polis journal 2
@1 dep env lamp_ctl press
@2 fire lamp_ctl : press ; s=off -> s=on ; -
end 2 complete
:: shows Illegal illegal 1
:: case stamps that don't rise
:: file jnl
polis journal 2
@1 dep env lamp_ctl press
@1 fire lamp_ctl : press ; s=off -> s=on ; light
end 2 complete
:: shows Illegal illegal 1
:: case a journal that doesn't read
:: file jnl
polis journal 2
@1 dep env lamp_ctl pres
end 1 limit
:: shows Refused refused jnl line 2 name
:: case no journal
:: shows Refused refused jnl absent
:: given
:: note Calls of the host that fail.
:: file net @belt.net
:: file trc @belt.trc
:: file jnl @belted.jnl
:: call watch net trc jnl mon
:: case the journal
:: file mon @pairs.net
:: fail 2
:: shows ReadFault read fault jnl
:: faults 1 0
:: case the monitor
:: file mon @pairs.net
:: fail 3
:: shows ReadFault read fault mon
:: faults 1 0
:: case the line of a monitor that doesn't complain
:: file mon @pairs.net
:: fail 4
:: shows WriteFault
:: faults 0 1
:: case the line of a complaint
:: file mon @quiet.net
:: fail 4
:: shows WriteFault
:: faults 0 1
:: case a part of that line
:: file mon @quiet.net
:: tear 4 5
:: shows WriteFault found\
:: faults 0 1
:: case a call after the last one
:: file mon @quiet.net
:: fail 5
:: shows Found found 15 : loud
"#;
