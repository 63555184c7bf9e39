// Cases that the runner of polis_cli's tests reads.

/// Traces that a run reads, and traces that it refuses.
pub const TRACES: &str = r#"
:: given
:: note Traces at fault: the lamp reads the pure event `press`, and the other network an event
with the values 0 to 7.
:: call run net trc o
:: case two words where one is settle
:: file net @lamp.net
:: file trc settle press
:: shows Refused refused trc line 1 shape
:: case three words
:: file net @lamp.net
:: file trc
# a

foo 1 2
:: shows Refused refused trc line 3 shape
:: case an unknown event
:: file net @lamp.net
:: file trc
press
foo
:: shows Refused refused trc line 2 event
:: case an event to the environment
:: file net @lamp.net
:: file trc light
:: shows Refused refused trc line 1 event
:: case a value that the event has not, before an unknown event
:: file net @lamp.net
:: file trc
press 1
foo
:: shows Refused refused trc line 1 value
:: case a value that the event has not
:: file net @lamp.net
:: file trc press 1
:: shows Refused refused trc line 1 value
:: case no value
:: file net @value.net
:: file trc v
:: shows Refused refused trc line 1 value
:: case a value above the greatest
:: file net @value.net
:: file trc v 8
:: shows Refused refused trc line 1 value
:: case a value with a zero before it
:: file net @value.net
:: file trc v 07
:: shows Refused refused trc line 1 value
:: given
:: note Traces that are read. At the first and the last value the code tests v and halts.
:: call run net trc o
:: case blanks, comments, empty lines and a last line without its end
:: file net @lamp.net
:: file trc
\x09press \x0d
# press

   # press
settle# wait
press\
:: shows Done
entries 4 complete
lost 0
gathered 0 adopted 0
machine lamp_ctl vertices 7 code 6 tries 2 steps 9
:: holds o.out light
:: holds o.jnl
polis journal 2
@1 dep env lamp_ctl press
@2 fire lamp_ctl : press ; s=off -> s=on ; light
@3 dep env lamp_ctl press
@4 idle lamp_ctl : press ; s=on
end 4 complete
:: holds o.lst @lamp.lst
:: case the first and the last value
:: file net @value.net
:: file trc
v 0
v 7
:: shows Done
entries 3 complete
lost 1
gathered 0 adopted 0
machine m vertices 5 code 4 tries 1 steps 2
:: holds o.out
:: holds o.jnl
polis journal 2
@1 dep env m v=0
@2 dep env m v=7
@3 idle m : v=7 ; -
end 3 complete
:: holds o.lst @value.lst
"#;
