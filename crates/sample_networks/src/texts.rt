// The texts of examples/: NAME is that of name.net, and NAME_TRACE that of name.trc. The script
// tools/examples compares them.

/// A lamp that a press turns on.
pub const LAMP: &str = "network lamp version 1
domain bit = { off, on }
event press from env
event light to env
machine lamp_ctl priority 1 {
  input press
  output light
  state s : bit = off
  when press, s = off do s := on, emit light
}
";

/// Two events of the environment together give a third to it.
pub const JOIN: &str = "network join version 1
event a from env
event b from env
event c to env
machine m priority 0 {
  input a, b
  output c
  when a, b do emit c
}
";

/// A machine that reads a value.
pub const VALUE: &str = "network val version 1
domain d = 0 .. 7
event v : d from env
event hit to env
machine m priority 0 {
  input v
  output hit
  when v = 5 do emit hit
}
";

/// A machine that passes a value on, and counts round a domain.
pub const ECHO: &str = "network echo version 2
domain d = 0 .. 7
event v : d from env
event w : d to env
machine m priority 0 {
  input v
  output w
  state s : d = 6
  when v do s := s + 3, emit w = value v
}
";

/// Two machines that read one event.
pub const TWO: &str = "network two version 1
event x from env
event ya to env
event yb to env
machine a priority 2 {
  input x
  output ya
  when x do emit ya
}
machine b priority 1 {
  input x
  output yb
  when x do emit yb
}
";

/// A machine that reads what it emits.
pub const LOOP: &str = "network loop version 1
domain n = 0 .. 3
event go from env
event x
machine m priority 0 {
  input go, x
  output x
  state c : n = 0
  when go, c = 0 do c := 1, emit x
  when x, c = 1 do c := 2, emit x
  when x, c = 2 do c := 3
}
";

/// Two machines that go on for ever.
pub const PONG: &str = "network pong version 1
event go from env
event p
event q
machine a priority 1 {
  input go, q
  output p
  when go do emit p
  when q do emit p
}
machine b priority 1 {
  input p
  output q
  when p do emit q
}
";

/// A seat belt controller with a timer.
pub const BELT: &str = "network belt version 1
domain mode = { off, wait, alarm }
domain count = 0 .. 10
event key_on from env
event key_off from env
event belt_on from env
event tick from env
event start
event end5
event end10
event alarm_on to env
event alarm_off to env
machine belt priority 1 {
  input key_on, key_off, belt_on, end5, end10
  output start, alarm_on, alarm_off
  state s : mode = off
  when key_on, absent key_off, s = off do s := wait, emit start
  when key_off, s = off do nothing
  when key_off, s = wait do s := off
  when belt_on, s = wait do s := off
  when end5, absent key_off, absent belt_on, s = wait do s := alarm, emit alarm_on
  when key_off, s = alarm do s := off, emit alarm_off
  when belt_on, s = alarm do s := off, emit alarm_off
  when end10, s = alarm do s := off, emit alarm_off
}
machine timer priority 2 {
  input start, tick
  output end5, end10
  state n : count = 10
  when start do n := 0
  when tick, absent start, n = 0 do n := 1
  when tick, absent start, n = 1 do n := 2
  when tick, absent start, n = 2 do n := 3
  when tick, absent start, n = 3 do n := 4
  when tick, absent start, n = 4 do n := 5, emit end5
  when tick, absent start, n = 5 do n := 6
  when tick, absent start, n = 6 do n := 7
  when tick, absent start, n = 7 do n := 8
  when tick, absent start, n = 8 do n := 9
  when tick, absent start, n = 9 do n := 10, emit end10
  when tick, absent start, n = 10 do nothing
}
";

/// A monitor of the seat belt controller: each alarm is turned on before it is turned off.
pub const PAIRS: &str = "network pairs version 1
domain yesno = { no, yes }
event alarm_on from env
event alarm_off from env
event early to env
machine m priority 0 {
  input alarm_on, alarm_off
  output early
  state on : yesno = no
  when alarm_on do on := yes
  when alarm_off, absent alarm_on, on = yes do on := no
  when alarm_off, absent alarm_on, on = no do emit early
}
";

/// A monitor of it: no alarm sounds.
pub const QUIET: &str = "network quiet version 1
event alarm_on from env
event loud to env
machine m priority 0 {
  input alarm_on
  output loud
  when alarm_on do emit loud
}
";

/// A machine whose first and last row conflict.
pub const CLASH: &str = "network clash version 1
event a from env
event b from env
event c to env
machine m priority 0 {
  input a, b
  output c
  when a do emit c
  when b, absent a do nothing
  when a, b do nothing
}
";

/// The lamp is pressed.
pub const PRESS_TRACE: &str = "press
";

/// A repeated event, and then the other one.
pub const JOIN_TRACE: &str = "a
a
b
";

/// A value that nobody reads, and then another one.
pub const VALUE_TRACE: &str = "v 3
v 5
";

/// Two values, the second after the network is at rest.
pub const ECHO_TRACE: &str = "v 5
settle
v 2
";

/// The event that both machines read.
pub const TWO_TRACE: &str = "x
";

/// What begins the loop.
pub const LOOP_TRACE: &str = "go
";

/// What begins the play.
pub const PONG_TRACE: &str = "go
";

/// The key is turned on, and eleven ticks follow, each after the network is at rest.
pub const BELT_TRACE: &str = "key_on
settle
tick
settle
tick
settle
tick
settle
tick
settle
tick
settle
tick
settle
tick
settle
tick
settle
tick
settle
tick
settle
tick
settle
";

/// Both events.
pub const CLASH_TRACE: &str = "a
b
";

/// The alternating-bit protocol over two lines that lose what they carry.
pub const PROTOCOL: &str =
    "# The alternating-bit protocol over two lines that lose frames and acknowledgements.
# The user sends the next message after the answer `sent`.
network protocol version 2
domain bit = 0 .. 1
domain phase = { ready, wait }
event send from env      # the user hands over a message
event timeout from env   # no acknowledgement came for long
event drop_d from env    # the data line loses the frame that it has, or its next one
event drop_a from env    # so does the other line with an acknowledgement
event data : bit         # sender -> data line
event frame : bit        # data line -> receiver
event ack : bit          # receiver -> ack line
event back : bit         # ack line -> sender
event got to env         # the receiver hands a message on
event sent to env        # the user's message has arrived
machine sender priority 1 {
  input send, timeout, back
  output data, sent
  state p : phase = ready
  state b : bit = 0
  when send, p = ready, b = 0 do p := wait, emit data = 0
  when send, p = ready, b = 1 do p := wait, emit data = 1
  when timeout, absent back, p = wait, b = 0 do emit data = 0
  when timeout, absent back, p = wait, b = 1 do emit data = 1
  when back = 0, p = wait, b = 0 do p := ready, b := 1, emit sent
  when back = 1, p = wait, b = 1 do p := ready, b := 0, emit sent
  when back = 1, timeout, p = wait, b = 0 do emit data = 0
  when back = 0, timeout, p = wait, b = 1 do emit data = 1
  when back = 1, absent timeout, p = wait, b = 0 do nothing
  when back = 0, absent timeout, p = wait, b = 1 do nothing
  when back, absent send, p = ready do nothing
  when timeout, absent send, p = ready do nothing
}
machine data_line priority 2 {
  input data, drop_d
  output frame
  when data, absent drop_d do emit frame = value data
  when data, drop_d do nothing
}
machine receiver priority 1 {
  input frame
  output ack, got
  state e : bit = 0
  when frame = 0, e = 0 do e := 1, emit ack = 0, emit got
  when frame = 1, e = 1 do e := 0, emit ack = 1, emit got
  when frame = 1, e = 0 do emit ack = 1
  when frame = 0, e = 1 do emit ack = 0
}
machine ack_line priority 2 {
  input ack, drop_a
  output back
  when ack, absent drop_a do emit back = value ack
  when ack, drop_a do nothing
}
";

/// The same with a fault: any acknowledgement ends the wait.
pub const PROTOCOL_FAULT: &str =
    "# The alternating-bit protocol with a fault: any acknowledgement ends the wait.
network protocol version 2
domain bit = 0 .. 1
domain phase = { ready, wait }
event send from env      # the user hands over a message
event timeout from env   # no acknowledgement came for long
event drop_d from env    # the data line loses the frame that it has, or its next one
event drop_a from env    # so does the other line with an acknowledgement
event data : bit         # sender -> data line
event frame : bit        # data line -> receiver
event ack : bit          # receiver -> ack line
event back : bit         # ack line -> sender
event got to env         # the receiver hands a message on
event sent to env        # the user's message has arrived
machine sender priority 1 {
  input send, timeout, back
  output data, sent
  state p : phase = ready
  state b : bit = 0
  when send, p = ready, b = 0 do p := wait, emit data = 0
  when send, p = ready, b = 1 do p := wait, emit data = 1
  when timeout, absent back, p = wait, b = 0 do emit data = 0
  when timeout, absent back, p = wait, b = 1 do emit data = 1
  when back, p = wait, b = 0 do p := ready, b := 1, emit sent
  when back, p = wait, b = 1 do p := ready, b := 0, emit sent
  when back, absent send, p = ready do nothing
  when timeout, absent send, p = ready do nothing
}
machine data_line priority 2 {
  input data, drop_d
  output frame
  when data, absent drop_d do emit frame = value data
  when data, drop_d do nothing
}
machine receiver priority 1 {
  input frame
  output ack, got
  state e : bit = 0
  when frame = 0, e = 0 do e := 1, emit ack = 0, emit got
  when frame = 1, e = 1 do e := 0, emit ack = 1, emit got
  when frame = 1, e = 0 do emit ack = 1
  when frame = 0, e = 1 do emit ack = 0
}
machine ack_line priority 2 {
  input ack, drop_a
  output back
  when ack, absent drop_a do emit back = value ack
  when ack, drop_a do nothing
}
";

/// A monitor of the two: nothing is confirmed before it was handed on.
pub const PROTOCOL_MONITOR: &str =
    "# A monitor of the protocol: no message is confirmed before it was handed on.
network protocol_monitor version 2
domain seen = 0 .. 1
event got from env
event sent from env
event early to env
machine mon priority 0 {
  input got, sent
  output early
  state k : seen = 0
  when got, absent sent do k := 1
  when sent, absent got, k = 1 do k := 0
  when sent, absent got, k = 0 do emit early
}
";

/// Four messages, a timeout that came early, and a frame that is lost.
pub const PROTOCOL_TRACE: &str = "send
settle
timeout
send
settle
drop_d
send
settle
timeout
settle
send
settle
";

/// A traffic light with a pedestrian's button, and its timer.
pub const LIGHT: &str = "# A traffic light with a pedestrian's button; the timer counts seconds.
network light version 2
domain phase = { boot, green, long, yellow, walk, clear }
domain yesno = { no, yes }
domain secs = 0 .. 15
domain lamp = { red, amber, go }
domain ped = { stop, walk }
event start from env
event button from env
event second from env
event cars : lamp to env
event people : ped to env
event wait_lamp to env
event arm : secs
event expired
machine control priority 2 {
  input start, button, expired
  output cars, people, wait_lamp, arm
  state p : phase = boot
  state req : yesno = no
  # boot
  when start, p = boot do p := green, emit cars = go, emit people = stop, emit arm = 10
  when button, absent start, p = boot do nothing
  when start, absent button, absent expired, p in { green, long, yellow, walk, clear } do nothing
  # green, minimum time not over
  when button, absent expired, p = green, req = no do req := yes, emit wait_lamp
  when button, absent expired, p = green, req = yes do nothing
  when expired, p = green, req = yes do p := yellow, emit cars = amber, emit arm = 3
  when expired, button, p = green, req = no
    do p := yellow, req := yes, emit wait_lamp, emit cars = amber, emit arm = 3
  when expired, absent button, p = green, req = no do p := long
  # green, minimum time over
  when button, p = long do p := yellow, req := yes, emit wait_lamp, emit cars = amber, emit arm = 3
  # yellow
  when expired, p = yellow
    do p := walk, req := no, emit cars = red, emit people = walk, emit arm = 8
  when button, absent expired, p = yellow do nothing
  # walk
  when expired, absent button, p = walk do p := clear, emit people = stop, emit arm = 4
  when expired, button, p = walk
    do p := clear, req := yes, emit wait_lamp, emit people = stop, emit arm = 4
  when button, absent expired, p = walk, req = no do nothing
  # clear
  when expired, absent button, p = clear do p := green, emit cars = go, emit arm = 10
  when expired, button, p = clear, req = no
    do p := green, req := yes, emit wait_lamp, emit cars = go, emit arm = 10
  when button, absent expired, p = clear, req = no do req := yes, emit wait_lamp
  when button, absent expired, p = clear, req = yes do nothing
}
machine timer priority 1 {
  input arm, second
  output expired
  state n : secs = 0
  when arm do n := value arm
  when second, absent arm, n = 0 do nothing
  when second, absent arm, n = 1 do n := 0, emit expired
  when second, absent arm, n in { 2, 3, 4, 5, 6, 7, 8, 9, 10, 11, 12, 13, 14, 15 } do n := n + 15
}
";

/// Seconds, and now and then a press of the button.
pub const LIGHT_TRACE: &str = "start
settle
button
settle
second
settle
second
settle
second
settle
second
settle
second
settle
second
settle
second
settle
second
settle
second
settle
second
settle
second
settle
second
settle
second
settle
second
settle
second
settle
second
settle
second
settle
second
settle
second
settle
second
settle
second
settle
button
settle
second
settle
second
settle
second
settle
button
second
settle
second
settle
second
settle
second
settle
second
settle
second
settle
second
settle
second
settle
second
settle
second
settle
second
settle
second
settle
second
settle
second
settle
second
settle
second
settle
second
settle
second
settle
second
settle
second
settle
second
settle
second
settle
second
settle
second
settle
second
settle
second
settle
second
settle
second
settle
second
settle
second
settle
second
settle
button
settle
button
settle
";
