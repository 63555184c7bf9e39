// Cases that the runner of polis_cli's tests reads.

/// Journal texts that `replay` refuses, and journals that `migrate` prints as they are read.
pub const JOURNAL_FAULTS: &str = r#"
:: given
:: note Journals at fault: those of the join, whose machine reads the pure events a and b and
sends c, and then those of the lamp and of machines that read a value.
:: file trc
:: call replay net trc jnl
:: case a header without a line end
:: file net @join.net
:: file jnl polis journal 1\
:: shows Refused refused jnl line 1 header
:: case no last line
:: file net @join.net
:: file jnl
polis journal 1
dep env m a
:: shows Refused refused jnl line 3 end
:: case a line after the last one
:: file net @join.net
:: file jnl
polis journal 1
end 0 limit
x\
:: shows Refused refused jnl line 3 after
:: case a last line without a line end
:: file net @join.net
:: file jnl
polis journal 1
end 0 limit\
:: shows Refused refused jnl line 2 shape
:: case two blanks
:: file net @join.net
:: file jnl
polis journal 1
dep env  m a
:: shows Refused refused jnl line 2 shape
:: case a blank at the end
:: file net @join.net
:: file jnl
polis journal 1
dep env m a\x20
:: shows Refused refused jnl line 2 shape
:: case a stamp in version 1
:: file net @join.net
:: file jnl
polis journal 1
@1 dep env m a
:: shows Refused refused jnl line 2 shape
:: case a dash among what is read
:: file net @join.net
:: file jnl
polis journal 1
fire m : a - ; - -> - ; c
:: shows Refused refused jnl line 2 shape
:: case a number with a zero before it
:: file net @join.net
:: file jnl
polis journal 1
end 00 limit
:: shows Refused refused jnl line 2 shape
:: case a value of the environment
:: file net @join.net
:: file jnl
polis journal 1
dep env=1 m a
:: shows Refused refused jnl line 2 name
:: case an output twice
:: file net @join.net
:: file jnl
polis journal 1
fire m : a ; - -> - ; c c
:: shows Refused refused jnl line 2 name
:: case an unknown name, before a line that is cut off
:: file net @join.net
:: file jnl
polis journal 1
dep env m zz
dep env
:: shows Refused refused jnl line 2 name
:: case a wrong number of entries, before what comes after them
:: file net @join.net
:: file jnl
polis journal 1
dep env m a
end 2 limit
x\
:: shows Refused refused jnl line 3 count
:: case no stamp in version 2
:: file net @join.net
:: file jnl
polis journal 2
dep env m a
:: shows Refused refused jnl line 2 shape
:: case a stamp with a zero before it
:: file net @join.net
:: file jnl
polis journal 2
@01 dep env m a
:: shows Refused refused jnl line 2 shape
:: case a stamp of zero, before an unknown name
:: file net @join.net
:: file jnl
polis journal 2
@0 dep env m zz
:: shows Refused refused jnl line 2 stamp
:: case a stamp above the greatest
:: file net @join.net
:: file jnl
polis journal 2
@1099511627777 dep env m a
:: shows Refused refused jnl line 2 stamp
:: case a value that no event has
:: file net @join.net
:: file jnl
polis journal 2
@1 dep env m a
@2 dep env m a=1
:: shows Refused refused jnl line 3 value
:: case a wrong number of entries
:: file net @join.net
:: file jnl
polis journal 2
@1 dep env m a
end 0 limit
:: shows Refused refused jnl line 3 count
:: case a state left out
:: file net @lamp.net
:: file jnl
polis journal 1
idle lamp_ctl : press ; -
end 1 limit
:: shows Refused refused jnl line 2 name
:: case a value, before an unknown name
:: file net @lamp.net
:: file jnl
polis journal 1
idle lamp_ctl : press=1 ; zz
end 1 limit
:: shows Refused refused jnl line 2 value
:: case a state twice
:: file net @lamp.net
:: file jnl
polis journal 1
idle lamp_ctl : press ; s=on s=on
end 1 limit
:: shows Refused refused jnl line 2 name
:: case a state without a value, before an unknown name
:: file net @lamp.net
:: file jnl
polis journal 1
fire lamp_ctl : press ; s=off -> s ; zz
end 1 limit
:: shows Refused refused jnl line 2 value
:: case an event without its value
:: file net @value.net
:: file jnl
polis journal 1
dep env m v
end 1 limit
:: shows Refused refused jnl line 2 value
:: case a value above the greatest
:: file net @value.net
:: file jnl
polis journal 1
dep env m v=8
end 1 limit
:: shows Refused refused jnl line 2 value
:: case an event to the environment
:: file net @value.net
:: file jnl
polis journal 1
dep env hit v=8
end 1 limit
:: shows Refused refused jnl line 2 name
:: case a value of more than 32 bits
:: file net
network t version 1
domain d = 4294967264 .. 4294967295
event v : d from env
machine m priority 0 {
  input v
}
:: file jnl
polis journal 1
dep env m v=4294967296
end 1 limit
:: shows Refused refused jnl line 2 value
:: given
:: note Migrations: of the journals of runs, which have the least stamps, and of one with stamps
up to the greatest.
:: call migrate net trc jnl o
:: case no entry
:: file net @lamp.net
:: file trc
:: file jnl
polis journal 2
end 0 complete
:: shows Done migrated 0
:: holds o.jnl
polis journal 2
end 0 complete
:: case a press
:: file net @lamp.net
:: file trc press
:: file jnl @pressed.jnl
:: shows Done migrated 2
:: holds o.jnl @pressed.jnl
:: case two values
:: file net @value.net
:: file trc @value.trc
:: file jnl
polis journal 2
@1 dep env m v=3
@2 dep env m v=5
@3 fire m : v=5 ; - -> - ; hit
end 3 complete
:: shows Done migrated 3
:: holds o.jnl
polis journal 2
@1 dep env m v=3
@2 dep env m v=5
@3 fire m : v=5 ; - -> - ; hit
end 3 complete
:: case a value passed on
:: file net @echo.net
:: file trc v 5
:: file jnl
polis journal 2
@1 dep env m v=5
@2 fire m : v=5 ; s=6 -> s=1 ; w=5
end 2 complete
:: shows Done migrated 2
:: holds o.jnl
polis journal 2
@1 dep env m v=5
@2 fire m : v=5 ; s=6 -> s=1 ; w=5
end 2 complete
:: case the greatest value
:: file net
network t version 1
domain d = 4294967264 .. 4294967295
event v : d from env
machine m priority 0 {
  input v
}
:: file trc v 4294967295
:: file jnl
polis journal 2
@1 dep env m v=4294967295
end 1 limit
:: shows Done migrated 1
:: holds o.jnl
polis journal 2
@1 dep env m v=4294967295
end 1 limit
:: case stamps up to the greatest
:: file net @join.net
:: file trc
a
settle
b
:: file jnl
polis journal 2
@1 dep env m a
@2 idle m : a ; -
@5 dep env m b
@1099511627776 fire m : a b ; - -> - ; c
end 4 limit
:: shows Done migrated 4
:: holds o.jnl
polis journal 2
@1 dep env m a
@2 idle m : a ; -
@3 dep env m b
@4 fire m : a b ; - -> - ; c
end 4 complete
"#;
