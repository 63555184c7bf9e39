// Cases that the runner of polis_cli's tests reads.

/// Surveys of drawn runs, by what an independent program drew and counted.
pub const SURVEYS: &str = r#"
:: given
:: note A hundred runs of the seat belt, by one, two and eight workers.
:: file net @belt.net
:: file trc @belt.trc
:: case in an order that is drawn with each run
:: call survey net trc 100
:: shows Done @surveyed.shown
:: case by two workers
:: call survey net trc 100 --workers 2
:: shows Done @surveyed.shown
:: case by eight workers
:: call survey net trc 100 --workers 8
:: shows Done @surveyed.shown
:: case with each option by its name
:: call survey net trc 100 --limit 60000 --order mixed --workers 3 --seed 0
:: shows Done @surveyed.shown
:: case free
:: call survey net trc 100 --order free
:: shows Done @surveyed_free.shown
:: case free, by two workers
:: call survey net trc 100 --order free --workers 2
:: shows Done @surveyed_free.shown
:: case free, by eight workers
:: call survey net trc 100 --workers 8 --order free
:: shows Done @surveyed_free.shown
:: given
:: note Two machines that read one event.
:: file net @two.net
:: file trc x
:: case two kinds
:: call survey net trc 10
:: shows Done
runs 10 complete 10
kinds 2
kind 8 seed 0 outputs 2 : ya yb
kind 2 seed 2 outputs 2 : yb ya
:: case two kinds, by two workers
:: call survey net trc 10 --workers 2
:: shows Done
runs 10 complete 10
kinds 2
kind 8 seed 0 outputs 2 : ya yb
kind 2 seed 2 outputs 2 : yb ya
:: case more workers than a share of the runs
:: call survey net trc 10 --workers 8
:: shows Done
runs 10 complete 10
kinds 2
kind 8 seed 0 outputs 2 : ya yb
kind 2 seed 2 outputs 2 : yb ya
:: case the last seed that there is
:: call survey net trc 1 --seed 18446744073709551615
:: shows Done
runs 1 complete 1
kinds 1
kind 1 seed 18446744073709551615 outputs 2 : ya yb
:: case the last seed that there is, by two workers
:: call survey net trc 1 --seed 18446744073709551615 --workers 2
:: shows Done
runs 1 complete 1
kinds 1
kind 1 seed 18446744073709551615 outputs 2 : ya yb
:: case a seed more
:: call survey net trc 2 --seed 18446744073709551615
:: shows Usage usage
:: given
:: note Runs without a choice, and runs that are cut off.
:: case a press
:: file net @lamp.net
:: file trc press
:: call survey net trc 40 --workers 2
:: shows Done
runs 40 complete 40
kinds 1
kind 40 seed 0 outputs 1 : light
:: case no press
:: file net @lamp.net
:: file trc
:: call survey net trc 3 --seed 7
:: shows Done
runs 3 complete 3
kinds 1
kind 3 seed 7 outputs 0 : -
never lamp_ctl 1 : 0
:: case within a limit of one entry
:: file net @lamp.net
:: file trc press
:: call survey net trc 3 --limit 1
:: shows Done
runs 3 complete 0
kinds 1
kind 3 seed 0 outputs 0 : -
never lamp_ctl 1 : 0
:: given
:: note Monitors of the seat belt, over ten runs.
:: file net @belt.net
:: file trc @belt.trc
:: case each alarm is turned on before it is turned off
:: file mon @pairs.net
:: call survey net trc 10 --watch mon --order free
:: ends Done held
:: case no alarm may sound
:: file mon @quiet.net
:: call survey net trc 10 --watch mon --order free
:: shows Found
runs 10 complete 10
kinds 3
kind 2 seed 0 outputs 0 : -
kind 6 seed 1 outputs 1 : alarm_on
kind 2 seed 5 outputs 2 : alarm_on alarm_off
lost timer tick least 0 most 5 seed 2 runs 7
unused timer tick least 0 most 1 seed 3 runs 1
never belt 5 : 1 2 3 5 6
found 8 seed 1 : loud
:: case no alarm may sound, by two workers
:: file mon @quiet.net
:: call survey net trc 10 --watch mon --order free --workers 2
:: ends Found found 8 seed 1 : loud
:: case no alarm may sound, by eight workers
:: file mon @quiet.net
:: call survey net trc 10 --workers 8 --watch mon --order free
:: ends Found found 8 seed 1 : loud
:: case a monitor that never comes to rest
:: file mon
network restless version 1
event alarm_on from env
event p
machine m priority 0 {
  input alarm_on, p
  output p
  when alarm_on do emit p
  when p do emit p
}
:: call survey net trc 10 --watch mon --order free
:: ends Limit unfinished 8 seed 1
:: case a monitor that hears nothing
:: file mon
network deaf version 1
event p
machine m priority 0 {
  input p
  output p
  when p do emit p
}
:: call survey net trc 10 --watch mon --order free --workers 2
:: ends Done held
:: case an event between its machines
:: file mon
network quiet version 1
event start from env
event loud to env
machine m priority 0 {
  input start
  output loud
  when start do emit loud
}
:: call survey net trc 10 --watch mon
:: shows Refused refused mon shape
:: case a monitor that isn't accepted
:: file mon @clash.net
:: call survey net trc 10 --watch mon --workers 2
:: shows Refused refused mon conflict m 0 2 a b ; -
:: case no monitor
:: call survey net trc 10 --watch mon
:: shows Refused refused mon absent
:: given
:: note A thousand runs of two designs.
:: case a fault in a protocol
:: file net @protocol_fault.net
:: file trc @protocol.trc
:: file mon @protocol_monitor.net
:: call survey net trc 1000 --watch mon --workers 4
:: shows Found
runs 1000 complete 1000
kinds 10
kind 560 seed 0 outputs 8 : got sent got sent got sent got sent
kind 145 seed 2 outputs 2 : got sent
kind 158 seed 6 outputs 6 : got sent got sent got sent
kind 117 seed 16 outputs 4 : got sent got sent
kind 11 seed 69 outputs 0 : -
kind 2 seed 128 outputs 6 : got sent got sent sent got
kind 2 seed 158 outputs 6 : got sent sent sent got sent
kind 3 seed 404 outputs 4 : got sent sent got
kind 1 seed 538 outputs 6 : got sent sent got sent got
kind 1 seed 802 outputs 5 : got sent got sent sent
lost sender send least 0 most 3 seed 740 runs 209
lost sender timeout least 0 most 1 seed 69 runs 13
lost sender back least 0 most 1 seed 79 runs 7
lost data_line data least 0 most 1 seed 11 runs 53
lost receiver frame least 0 most 1 seed 193 runs 18
lost ack_line ack least 0 most 1 seed 98 runs 13
unused sender send least 0 most 3 seed 667 runs 332
unused sender timeout least 0 most 2 seed 57 runs 285
unused sender back least 0 most 1 seed 197 runs 5
never ack_line 1 : 1
found 9 seed 128 : early
:: case a protocol without the fault
:: file net @protocol.net
:: file trc @protocol.trc
:: file mon @protocol_monitor.net
:: call survey net trc 1000 --watch mon --workers 2
:: shows Done
runs 1000 complete 1000
kinds 5
kind 560 seed 0 outputs 8 : got sent got sent got sent got sent
kind 145 seed 2 outputs 2 : got sent
kind 161 seed 6 outputs 6 : got sent got sent got sent
kind 123 seed 16 outputs 4 : got sent got sent
kind 11 seed 69 outputs 0 : -
lost sender send least 0 most 3 seed 740 runs 209
lost sender timeout least 0 most 1 seed 69 runs 13
lost sender back least 0 most 1 seed 79 runs 7
lost data_line data least 0 most 1 seed 11 runs 52
lost receiver frame least 0 most 1 seed 193 runs 18
lost ack_line ack least 0 most 1 seed 98 runs 13
unused sender send least 0 most 3 seed 667 runs 335
unused sender timeout least 0 most 2 seed 57 runs 285
unused sender back least 0 most 1 seed 197 runs 4
never sender 2 : 6 7
never ack_line 1 : 1
held
:: case events that block each other
:: file net @light.net
:: file trc @light.trc
:: call survey net trc 1000 --workers 4
:: shows Done
runs 1000 complete 1000
kinds 7
kind 526 seed 0 outputs 15 : cars=go people=stop wait_lamp cars=amber cars=red people=walk people=stop wait_lamp ..
kind 117 seed 1 outputs 8 : cars=go people=stop wait_lamp cars=amber cars=red people=walk people=stop wait_lamp
kind 41 seed 2 outputs 7 : cars=go people=stop wait_lamp cars=amber cars=red people=walk people=stop
kind 283 seed 3 outputs 8 : cars=go people=stop wait_lamp cars=amber cars=red people=walk people=stop cars=go
kind 30 seed 67 outputs 6 : cars=go people=stop wait_lamp cars=amber cars=red people=walk
kind 1 seed 72 outputs 4 : cars=go people=stop wait_lamp cars=amber
kind 2 seed 276 outputs 2 : cars=go people=stop
lost control button least 0 most 4 seed 276 runs 331
lost timer second least 0 most 38 seed 72 runs 355
unused control button least 0 most 2 seed 125 runs 94
unused timer second least 0 most 5 seed 157 runs 287
jammed control least 0 most 3 seed 1 runs 117
never control 6 : 1 2 6 8 12 15
:: given
:: note Files that aren't accepted, and calls of the host that fail.
:: file net @belt.net
:: file trc @belt.trc
:: call survey net trc 10 --watch mon --order free
:: case a network that isn't accepted
:: file net @clash.net
:: file mon @quiet.net
:: shows Refused refused net conflict m 0 2 a b ; -
:: case a trace that isn't one of the network
:: file trc bell
:: file mon @quiet.net
:: shows Refused refused trc line 1 event
:: case the trace comes before the monitor
:: file trc bell
:: shows Refused refused trc line 1 event
:: case the network isn't loaded
:: file mon @quiet.net
:: fail 0
:: shows ReadFault read fault net
:: faults 1 0
:: case the trace isn't loaded
:: file mon @quiet.net
:: fail 1
:: shows ReadFault read fault trc
:: faults 1 0
:: case the monitor isn't loaded
:: file mon @quiet.net
:: fail 2
:: shows ReadFault read fault mon
:: faults 1 0
:: case the lines aren't shown
:: file mon @pairs.net
:: fail 3
:: shows WriteFault
:: faults 0 1
:: case the lines of a complaint aren't shown
:: file mon @quiet.net
:: fail 3
:: shows WriteFault
:: faults 0 1
:: case a part of the lines
:: file mon @quiet.net
:: tear 3 5
:: shows WriteFault runs \
:: faults 0 1
:: case a call after the last one
:: file mon @quiet.net
:: fail 4
:: ends Found found 8 seed 1 : loud
:: given
:: note Command lines that ask for no survey.
:: file net @two.net
:: file trc x
:: case no run
:: call survey net trc 0
:: shows Usage usage
:: case too many runs
:: call survey net trc 100001
:: shows Usage usage
:: case no number of runs
:: call survey net trc
:: shows Usage usage
:: case a number with a zero before it
:: call survey net trc 010
:: shows Usage usage
:: case an option without a value
:: call survey net trc 10 --seed
:: shows Usage usage
:: case an option twice
:: call survey net trc 10 --seed 1 --seed 1
:: shows Usage usage
:: case an image
:: call survey net trc 10 --image i
:: shows Usage usage
:: case nine workers
:: call survey net trc 10 --workers 9
:: shows Usage usage
:: case no worker
:: call survey net trc 10 --workers 0
:: shows Usage usage
:: case an order that there isn't
:: call survey net trc 10 --order fair
:: shows Usage usage
:: case an empty name of a monitor
:: call survey net trc 10 --watch ""
:: shows Usage usage
:: case a stem
:: call survey net trc o 10
:: shows Usage usage
"#;
