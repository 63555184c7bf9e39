// Cases that the runner of polis_cli's tests reads.

/// Charts, drawn by hand or by the second judge, tools/judge.py.
pub const CHARTS: &str = r#"
:: given
:: note A press, and what turns it into an empty chart, a usage and an illegal journal.
:: file net @lamp.net
:: file trc press
:: file jnl @pressed.jnl
:: case the lamp
:: call chart net trc jnl
:: shows Done
             env        lamp_ctl
     0        |--- press -->|
     1        |          [s=on]  emits light
:: case from entry 1 on
:: call chart net trc jnl --from 1
:: shows Done
             env        lamp_ctl
     1        |          [s=on]  emits light
:: case up to entry 1
:: call chart net trc jnl --to 1
:: shows Done
             env        lamp_ctl
     0        |--- press -->|
:: case all that may be asked for
:: call chart net trc jnl --to 60000 --from 0
:: shows Done
             env        lamp_ctl
     0        |--- press -->|
     1        |          [s=on]  emits light
:: case from where it ends
:: call chart net trc jnl --to 1 --from 1
:: shows Done
          env
:: case from behind where it ends
:: call chart net trc jnl --from 2 --to 1
:: shows Done
          env
:: case behind the journal
:: call chart net trc jnl --from 2
:: shows Done
          env
:: case from the last number that may be asked for
:: call chart net trc jnl --from 60000
:: shows Done
          env
:: case up to entry 0
:: call chart net trc jnl --to 0
:: shows Done
          env
:: case from a number that is too large
:: call chart net trc jnl --from 60001
:: shows Usage usage
:: case to a number that is too large
:: call chart net trc jnl --to 60001
:: shows Usage usage
:: case to nothing
:: call chart net trc jnl --to
:: shows Usage usage
:: case from nothing
:: call chart net trc jnl --to 2 --from
:: shows Usage usage
:: case to twice
:: call chart net trc jnl --to 1 --to 2
:: shows Usage usage
:: case from twice
:: call chart net trc jnl --from 1 --to 2 --from 1
:: shows Usage usage
:: case a number with a zero before it
:: call chart net trc jnl --from 01
:: shows Usage usage
:: case a word that is no number
:: call chart net trc jnl --to end
:: shows Usage usage
:: case an empty word
:: call chart net trc jnl --to ""
:: shows Usage usage
:: case a number below zero
:: call chart net trc jnl --from -1
:: shows Usage usage
:: case an option of runs
:: call chart net trc jnl --limit 1
:: shows Usage usage
:: case an option of runs behind its own
:: call chart net trc jnl --from 0 --workers 2
:: shows Usage usage
:: case an option of drawn runs
:: call chart net trc jnl --order free --from 0
:: shows Usage usage
:: case an option of surveys
:: call chart net trc jnl --from 0 --seed 1 --to 1
:: shows Usage usage
:: case a monitor
:: call chart net trc jnl --watch mon
:: shows Usage usage
:: case a stem
:: call chart net trc jnl o
:: shows Usage usage
:: case no journal is named
:: call chart net trc
:: shows Usage usage
:: case no journal is named before an option
:: call chart net trc --from 1
:: shows Usage usage
:: case a journal with the name of an option
:: call chart net trc --from
:: shows Refused refused --from absent
:: case a journal with an empty name
:: call chart net trc ""
:: shows Usage usage
:: case a run has no such option
:: call run net trc o --from 0
:: shows Usage usage
:: case a drawn run has no such option
:: call shuffle net trc o 1 --to 5
:: shows Usage usage
:: case a survey has no such option
:: call survey net trc 3 --from 0
:: shows Usage usage
:: case losses have no such option
:: call losses net trc jnl --from 0
:: shows Usage usage
:: case a replay has no such option
:: call replay net trc jnl --to 1
:: shows Usage usage
:: given
:: note Journals that aren't accepted, and no entry at all.
:: file net @lamp.net
:: file trc press
:: case without its emission
:: file jnl
polis journal 1
dep env lamp_ctl press
fire lamp_ctl : press ; s=off -> s=on ; -
end 2 complete
:: call chart net trc jnl
:: shows Illegal illegal 1
:: case without its emission, before that
:: file jnl
polis journal 1
dep env lamp_ctl press
fire lamp_ctl : press ; s=off -> s=on ; -
end 2 complete
:: call chart net trc jnl --to 1
:: shows Illegal illegal 1
:: case stamps that don't rise
:: file jnl
polis journal 2
@1 dep env lamp_ctl press
@1 fire lamp_ctl : press ; s=off -> s=on ; light
end 2 complete
:: call chart net trc jnl --from 5
:: shows Illegal illegal 1
:: case no such event
:: file jnl
polis journal 1
dep env lamp_ctl pres
end 1 limit
:: call chart net trc jnl --from 1
:: shows Refused refused jnl line 2 name
:: case no such file
:: call chart net trc jnl --to 1
:: shows Refused refused jnl absent
:: case no entry
:: file jnl
polis journal 1
end 0 limit
:: call chart net trc jnl
:: shows Done
          env
:: case one entry, in a journal of the first version
:: file jnl
polis journal 1
dep env lamp_ctl press
end 1 limit
:: call chart net trc jnl
:: shows Done
             env        lamp_ctl
     0        |--- press -->|
:: given
:: note A delivery over another one.
:: file net @value.net
:: file trc
v 5
v 3
:: file jnl
polis journal 2
@1 dep env m v=5
@2 dep env m v=3
@3 idle m : v=3 ; -
end 3 complete
:: case a loss
:: call chart net trc jnl
:: shows Done
          env       m
     0     |- v=5 ->|
     1     |- v=3 ->|  lost 0
     2     |      idle  sees v=3
:: case a loss of an entry that isn't shown
:: call chart net trc jnl --from 1 --to 2
:: shows Done
          env       m
     1     |- v=3 ->|  lost 0
:: given
:: note Presses of which two are lost: one over the press before it, and one over a press that
the lamp saw and left where it was.
:: file net @lamp.net
:: file trc
press
press
settle
press
settle
press
:: file jnl
polis journal 2
@1 dep env lamp_ctl press
@2 dep env lamp_ctl press
@3 fire lamp_ctl : press ; s=off -> s=on ; light
@4 dep env lamp_ctl press
@5 idle lamp_ctl : press ; s=on
@6 dep env lamp_ctl press
@7 idle lamp_ctl : press ; s=on
end 7 complete
:: case both losses
:: call chart net trc jnl
:: shows Done
             env        lamp_ctl
     0        |--- press -->|
     1        |--- press -->|  lost 0
     2        |          [s=on]  emits light
     3        |--- press -->|
     4        |           idle  sees press
     5        |--- press -->|  lost 3
     6        |           idle  sees press
:: case between them
:: call chart net trc jnl --from 2 --to 5
:: shows Done
             env        lamp_ctl
     2        |          [s=on]  emits light
     3        |--- press -->|
     4        |           idle  sees press
:: case the second one
:: call chart net trc jnl --to 6 --from 4
:: shows Done
             env        lamp_ctl
     4        |           idle  sees press
     5        |--- press -->|  lost 3
:: case the lamp alone
:: call chart net trc jnl --from 6
:: shows Done
             env        lamp_ctl
     6        |           idle  sees press
:: given
:: note What is lost at one machine and read at the other.
:: file net @two.net
:: file trc
x
x
:: case a loses its x, and b doesn't
:: file jnl
polis journal 1
dep env a x
dep env b x
fire b : x ; - -> - ; yb
dep env a x
dep env b x
fire a : x ; - -> - ; ya
fire b : x ; - -> - ; yb
end 7 complete
:: call chart net trc jnl
:: shows Done
          env       a        b
     0     |-- x -->|        |
     1     |------- x ------>|
     2     |        |       []  emits yb
     3     |-- x -->|        |  lost 0
     4     |------- x ------>|
     5     |       []        |  emits ya
     6     |        |       []  emits yb
:: given
:: note Arrows to the left, arrows over other machines, and machines that have no column.
:: case an arrow to the left
:: file net @pong.net
:: file trc go
:: file jnl @played.jnl
:: call chart net trc jnl --to 5
:: shows Done
          env       a        b
     0     |- go -->|        |
     1     |       []        |  emits p
     2     |        |-- p -->|
     3     |        |       []  emits q
     4     |        |<-- q --|
:: case machines alone
:: file net @pong.net
:: file trc go
:: file jnl @played.jnl
:: call chart net trc jnl --from 8 --to 9
:: shows Done
          env       a        b
     8     |        |<-- q --|
:: case an arrow over a machine
:: file net @two.net
:: file trc x
:: file jnl
polis journal 2
@1 dep env b x
@2 fire b : x ; - -> - ; yb
@1 dep env a x
@2 fire a : x ; - -> - ; ya
end 4 complete
:: call chart net trc jnl --to 3
:: shows Done
          env       a        b
     0     |------- x ------>|
     1     |        |       []  emits yb
     2     |-- x -->|        |
:: case a machine that no entry names
:: file net @two.net
:: file trc x
:: file jnl
polis journal 2
@1 dep env b x
@2 fire b : x ; - -> - ; yb
@1 dep env a x
@2 fire a : x ; - -> - ; ya
end 4 complete
:: call chart net trc jnl --from 2
:: shows Done
          env       a
     2     |-- x -->|
     3     |       []  emits ya
:: case the second machine alone
:: file net @two.net
:: file trc x
:: file jnl
polis journal 2
@1 dep env b x
@2 fire b : x ; - -> - ; yb
@1 dep env a x
@2 fire a : x ; - -> - ; ya
end 4 complete
:: call chart net trc jnl --to 2
:: shows Done
          env       b
     0     |-- x -->|
     1     |       []  emits yb
:: case the alarm
:: file net @belt.net
:: file trc @belt.trc
:: file jnl @belted.jnl
:: call chart net trc jnl --from 12 --to 16
:: shows Done
           env       belt       timer
    12      |------- tick ------->|
    13      |          |        [n=5]  emits end5
    14      |          |<- end5 --|
    15      |      [s=alarm]      |  emits alarm_on
:: case deliveries to oneself
:: file net @loop.net
:: file trc go
:: file jnl @looped.jnl
:: call chart net trc jnl
:: shows Done
          env       m
     0     |- go -->|
     1     |      [c=1]  emits x
     2     |       (x)
     3     |      [c=2]  emits x
     4     |       (x)
     5     |      [c=3]
:: given
:: note Events that are used for nothing, and events that block each other.
:: file net @odd.net
:: case an unused event and a jam
:: file trc
c
b
settle
a
b
:: file jnl
polis journal 2
@1 dep env m c
@2 dep env m b
@3 fire m : b c ; k=off -> k=on ; -
@4 dep env m a
@5 dep env m b
@6 idle m : a b ; k=on
end 6 complete
:: call chart net trc jnl
:: shows Done
          env       m
     0     |-- c -->|
     1     |-- b -->|
     2     |     [k=on]  unused c
     3     |-- a -->|
     4     |-- b -->|
     5     |     jammed  sees a b
:: case an emission and an unused event
:: file trc
a
c
:: file jnl
polis journal 2
@1 dep env m a
@2 dep env m c
@3 fire m : a c ; k=off -> - ; x
end 3 complete
:: call chart net trc jnl
:: shows Done
          env       m
     0     |-- a -->|
     1     |-- c -->|
     2     |       []  emits x, unused c
:: case a jam in which one place was filled twice
:: file trc
a
b
b
a
:: file jnl
polis journal 1
dep env m a
dep env m b
dep env m b
idle m : a b ; k=off
dep env m a
idle m : a b ; k=off
end 6 complete
:: call chart net trc jnl --from 2
:: shows Done
          env       m
     2     |-- b -->|  lost 1
     3     |     jammed  sees a b
     4     |-- a -->|  lost 0
     5     |     jammed  sees a b
:: given
:: note Labels as wide as their column, and wider.
:: case two values set
:: file net
network wide version 1
domain d = { three, eleven }
event a from env
event b from env
event c : d to env
machine m priority 0 {
  input a, b
  output c
  state n : d = eleven
  state k : d = eleven
  when a, absent b do n := three, emit c = three
  when b, absent a do n := eleven, emit c = eleven
  when a, b do n := three, k := eleven
}
:: file trc
a
settle
b
settle
a
b
:: call run net trc o
:: ends Done
:: call chart net trc o.jnl
:: ends Done
          env       m
     0     |-- a -->|
     1     |    [n=three]  emits c=three
     2     |-- b -->|
     3     |      [..]  sets n=eleven, emits c=eleven
     4     |-- a -->|
     5     |-- b -->|
     6     |      [..]  sets n=three k=eleven
:: any o.out
:: any o.jnl
:: any o.lst
:: given
:: note Columns as wide as the longest item that is shown, and all that may stand behind a firing.
:: file net
network notes version 1
domain d = { to_begin_with, ever_after }
event first from env
event second : d from env
event x : d to env
event y to env
machine m priority 0 {
  input first, second
  output x, y
  state n : d = to_begin_with
  when first do n := ever_after, emit x = ever_after, emit y
}
:: file trc
second ever_after
second to_begin_with
first
settle
first
:: file jnl
polis journal 1
dep env m second=ever_after
dep env m second=to_begin_with
dep env m first
fire m : first second=to_begin_with ; n=to_begin_with -> n=ever_after ; x=ever_after y
dep env m first
fire m : first ; n=ever_after -> n=ever_after ; x=ever_after y
end 6 complete
:: case wide columns
:: call chart net trc jnl
:: shows Done
                   env                        m
     0              |--- second=ever_after -->|
     1              |- second=to_begin_with ->|  lost 0
     2              |--------- first -------->|
     3              |                  [n=ever_after]  emits x=ever_after y, unused second
     4              |--------- first -------->|
     5              |                  [n=ever_after]  emits x=ever_after y
:: case what is set in narrow ones
:: call chart net trc jnl --from 2
:: shows Done
           env         m
     2      |- first ->|
     3      |        [..]  sets n=ever_after, emits x=ever_after y, unused second
     4      |- first ->|
     5      |        [..]  sets n=ever_after, emits x=ever_after y
:: given
:: note Twelve machines, each of which hands on what it gets.
:: file net
network twelve version 1
event go from env
event e0
event e1
event e2
event e3
event e4
event e5
event e6
event e7
event e8
event e9
event e10
event e11
machine m0 priority 0 {
  input go, e11
  output e0
  when go, absent e11 do emit e0
  when e11 do nothing
}
machine m1 priority 0 {
  input e0
  output e1
  when e0 do emit e1
}
machine m2 priority 0 {
  input e1
  output e2
  when e1 do emit e2
}
machine m3 priority 0 {
  input e2
  output e3
  when e2 do emit e3
}
machine m4 priority 0 {
  input e3
  output e4
  when e3 do emit e4
}
machine m5 priority 0 {
  input e4
  output e5
  when e4 do emit e5
}
machine m6 priority 0 {
  input e5
  output e6
  when e5 do emit e6
}
machine m7 priority 0 {
  input e6
  output e7
  when e6 do emit e7
}
machine m8 priority 0 {
  input e7
  output e8
  when e7 do emit e8
}
machine m9 priority 0 {
  input e8
  output e9
  when e8 do emit e9
}
machine m10 priority 0 {
  input e9
  output e10
  when e9 do emit e10
}
machine m11 priority 0 {
  input e10
  output e11
  when e10 do emit e11
}
:: file trc go
:: call run net trc o
:: ends Done
:: any o.out
:: any o.jnl
:: any o.lst
:: case all of them
:: call chart net trc o.jnl
:: ends Done
          env      m0       m1       m2       m3       m4       m5       m6       m7       m8       m9       m10      m11
     0     |- go -->|        |        |        |        |        |        |        |        |        |        |        |
     1     |       []        |        |        |        |        |        |        |        |        |        |        |  emits e0
     2     |        |- e0 -->|        |        |        |        |        |        |        |        |        |        |
     3     |        |       []        |        |        |        |        |        |        |        |        |        |  emits e1
     4     |        |        |- e1 -->|        |        |        |        |        |        |        |        |        |
     5     |        |        |       []        |        |        |        |        |        |        |        |        |  emits e2
     6     |        |        |        |- e2 -->|        |        |        |        |        |        |        |        |
     7     |        |        |        |       []        |        |        |        |        |        |        |        |  emits e3
     8     |        |        |        |        |- e3 -->|        |        |        |        |        |        |        |
     9     |        |        |        |        |       []        |        |        |        |        |        |        |  emits e4
    10     |        |        |        |        |        |- e4 -->|        |        |        |        |        |        |
    11     |        |        |        |        |        |       []        |        |        |        |        |        |  emits e5
    12     |        |        |        |        |        |        |- e5 -->|        |        |        |        |        |
    13     |        |        |        |        |        |        |       []        |        |        |        |        |  emits e6
    14     |        |        |        |        |        |        |        |- e6 -->|        |        |        |        |
    15     |        |        |        |        |        |        |        |       []        |        |        |        |  emits e7
    16     |        |        |        |        |        |        |        |        |- e7 -->|        |        |        |
    17     |        |        |        |        |        |        |        |        |       []        |        |        |  emits e8
    18     |        |        |        |        |        |        |        |        |        |- e8 -->|        |        |
    19     |        |        |        |        |        |        |        |        |        |       []        |        |  emits e9
    20     |        |        |        |        |        |        |        |        |        |        |- e9 -->|        |
    21     |        |        |        |        |        |        |        |        |        |        |       []        |  emits e10
    22     |        |        |        |        |        |        |        |        |        |        |        |- e10 ->|
    23     |        |        |        |        |        |        |        |        |        |        |        |       []  emits e11
    24     |        |<---------------------------------------------- e11 ----------------------------------------------|
    25     |       []        |        |        |        |        |        |        |        |        |        |        |
:: case four of them
:: call chart net trc o.jnl --from 13 --to 19
:: ends Done
          env      m6       m7       m8       m9
    13     |       []        |        |        |  emits e6
    14     |        |- e6 -->|        |        |
    15     |        |       []        |        |  emits e7
    16     |        |        |- e7 -->|        |
    17     |        |        |       []        |  emits e8
    18     |        |        |        |- e8 -->|
:: case the first and the last one
:: call chart net trc o.jnl --from 24
:: ends Done
          env      m0       m11
    24     |        |<- e11 -|
    25     |       []        |
:: given
:: note The alternating-bit protocol with its fault, in the run of a seed.
:: file net @protocol_fault.net
:: file trc @protocol.trc
:: call shuffle net trc o 128
:: ends Done
:: any o.out
:: any o.jnl
:: case a line that takes no part
:: call chart net trc o.jnl --to 14 --from 7
:: ends Done
             env          sender        data_line      receiver
     7        |             []              |              |  emits data=0
     8        |              |-- data=0 --->|              |
     9        |              |             []              |  emits frame=0
    10        |              |              |-- frame=0 -->|
    11        |              |              |            [e=1]  emits ack=0 got
    12        |--- send ---->|              |              |
    13        |            idle             |              |  sees send
:: case the fault
:: call chart net trc o.jnl --from 24 --to 44
:: ends Done
             env          sender        data_line      receiver       ack_line
    24        |              |              |              |--- ack=1 --->|
    25        |-- timeout -->|              |              |              |
    26        |              |              |              |             []  emits back=1
    27        |             []              |              |              |  emits data=1
    28        |              |<----------------- back=1 ------------------|
    29        |        [p=ready b=0]        |              |              |  emits sent
    30        |              |-- data=1 --->|              |              |
    31        |              |             []              |              |  emits frame=1
    32        |--- send ---->|              |              |              |
    33        |              |              |-- frame=1 -->|              |
    34        |              |              |             []              |  emits ack=1
    35        |          [p=wait]           |              |              |  emits data=0
    36        |              |              |              |--- ack=1 --->|
    37        |              |-- data=0 --->|              |              |
    38        |              |              |              |             []  emits back=1
    39        |              |             []              |              |  emits frame=0
    40        |              |              |-- frame=0 -->|              |
    41        |              |<----------------- back=1 ------------------|
    42        |        [p=ready b=1]        |              |              |  emits sent
    43        |              |              |            [e=1]            |  emits ack=0 got
:: given
:: note Calls of the host that fail.
:: file net @lamp.net
:: file trc press
:: file jnl @pressed.jnl
:: call chart net trc jnl --to 1
:: case the network
:: fail 0
:: shows ReadFault read fault net
:: faults 1 0
:: case the trace
:: fail 1
:: shows ReadFault read fault trc
:: faults 1 0
:: case the journal
:: fail 2
:: shows ReadFault read fault jnl
:: faults 1 0
:: case the chart
:: fail 3
:: shows WriteFault
:: faults 0 1
:: case a part of the chart
:: tear 3 20
:: shows WriteFault
             env    \
:: faults 0 1
:: case a call after the last one
:: fail 4
:: shows Done
             env        lamp_ctl
     0        |--- press -->|
"#;
