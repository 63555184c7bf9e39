// Cases that the runner of polis_cli's tests reads.

/// Calls that judge journals.
pub const REPLAYS: &str = r#"
:: given
:: note Journals that are legal.
:: file net @join.net
:: file trc @join.trc
:: call replay net trc jnl
:: case a run to its end
:: file jnl @joined_1.jnl
:: shows Done legal 4 complete
:: case a run to its end that says limit
:: file jnl
polis journal 1
dep env m a
dep env m a
dep env m b
fire m : a b ; - -> - ; c
end 4 limit
:: shows Done legal 4 complete
:: case one entry
:: file jnl
polis journal 1
dep env m a
end 1 limit
:: shows Done legal 1 open
:: case a run that is open and says complete
:: file jnl
polis journal 1
dep env m a
dep env m a
dep env m b
end 3 complete
:: shows Done legal 3 open
:: given
:: note Journals that aren't legal: an entry twice, too early, left out or out of order, a
reaction with another outcome or snapshot, one without a delivery, and a delivery that
nobody sent.
:: file net @join.net
:: file trc @join.trc
:: call replay net trc jnl
:: case an entry twice
:: file jnl
polis journal 1
dep env m a
dep env m a
dep env m a
dep env m b
fire m : a b ; - -> - ; c
end 5 complete
:: shows Illegal illegal 2
:: case a reaction too early
:: file jnl
polis journal 1
dep env m a
dep env m a
fire m : a b ; - -> - ; c
dep env m b
end 4 complete
:: shows Illegal illegal 2
:: case an entry left out
:: file jnl
polis journal 1
dep env m a
dep env m b
fire m : a b ; - -> - ; c
end 3 complete
:: shows Illegal illegal 1
:: case a reaction before its second event
:: file jnl
polis journal 1
dep env m a
dep env m a
fire m : a b ; - -> - ; c
end 3 complete
:: shows Illegal illegal 2
:: case an entry out of order
:: file jnl
polis journal 1
dep env m a
dep env m b
dep env m a
fire m : a b ; - -> - ; c
end 4 complete
:: shows Illegal illegal 1
:: case a reaction that emits nothing
:: file jnl
polis journal 1
dep env m a
dep env m a
dep env m b
fire m : a b ; - -> - ; -
end 4 complete
:: shows Illegal illegal 3
:: case a reaction that does nothing
:: file jnl
polis journal 1
dep env m a
dep env m a
dep env m b
idle m : a b ; -
end 4 complete
:: shows Illegal illegal 3
:: case a reaction to one of two events
:: file jnl
polis journal 1
dep env m a
dep env m a
dep env m b
fire m : a ; - -> - ; c
end 4 complete
:: shows Illegal illegal 3
:: case a reaction without a delivery
:: file jnl
polis journal 1
dep env m a
dep env m a
dep env m b
fire m : a b ; - -> - ; c
fire m : a b ; - -> - ; c
end 5 complete
:: shows Illegal illegal 4
:: case a delivery that nobody sent
:: file jnl
polis journal 1
dep m m a
dep env m a
dep env m b
fire m : a b ; - -> - ; c
end 4 complete
:: shows Illegal illegal 0
:: given
:: note Journals that don't read.
:: file net @join.net
:: file trc @join.trc
:: call replay net trc jnl
:: case no last line
:: file jnl
polis journal 1
dep env m a
dep env m a
dep env m b
fire m : a b ; - -> - ; c
:: shows Refused refused jnl line 6 end
:: case a wrong number of entries
:: file jnl
polis journal 1
dep env m a
dep env m a
dep env m b
fire m : a b ; - -> - ; c
end 5 complete
:: shows Refused refused jnl line 6 count
:: case a number with a zero before it
:: file jnl
polis journal 1
dep env m a
dep env m a
dep env m b
fire m : a b ; - -> - ; c
end 04 complete
:: shows Refused refused jnl line 6 shape
:: case a line after the last one
:: file jnl
polis journal 1
dep env m a
dep env m a
dep env m b
fire m : a b ; - -> - ; c
end 4 complete
x
:: shows Refused refused jnl line 7 after
:: case an unknown event
:: file jnl
polis journal 1
dep env m zz
dep env m a
dep env m b
fire m : a b ; - -> - ; c
end 4 complete
:: shows Refused refused jnl line 2 name
:: case a value that the event has not
:: file jnl
polis journal 1
dep env m a=1
dep env m a
dep env m b
fire m : a b ; - -> - ; c
end 4 complete
:: shows Refused refused jnl line 2 value
:: case events out of order
:: file jnl
polis journal 1
dep env m a
dep env m a
dep env m b
fire m : b a ; - -> - ; c
end 4 complete
:: shows Refused refused jnl line 5 name
:: case an unknown version
:: file jnl polis journal 3
:: shows Refused refused jnl line 1 header
:: given
:: note Stamps that rise and stamps that don't, and what is no stamp.
:: file net @two.net
:: file trc x
:: call replay net trc jnl
:: case stamps that rise
:: file jnl
polis journal 2
@1 dep env a x
@1 dep env b x
@2 fire b : x ; - -> - ; yb
@2 fire a : x ; - -> - ; ya
end 4 complete
:: shows Done legal 4 complete
:: case a stamp that leaps
:: file jnl
polis journal 2
@1 dep env a x
@1 dep env b x
@2 fire b : x ; - -> - ; yb
@9 fire a : x ; - -> - ; ya
end 4 complete
:: shows Done legal 4 complete
:: case a stamp that falls
:: file jnl
polis journal 2
@1 dep env a x
@1 dep env b x
@2 fire b : x ; - -> - ; yb
@1 fire a : x ; - -> - ; ya
end 4 complete
:: shows Illegal illegal 3
:: case a stamp of zero
:: file jnl
polis journal 2
@0 dep env a x
@1 dep env b x
@2 fire b : x ; - -> - ; yb
@2 fire a : x ; - -> - ; ya
end 4 complete
:: shows Refused refused jnl line 2 stamp
:: case a stamp with a zero before it
:: file jnl
polis journal 2
@01 dep env a x
@1 dep env b x
@2 fire b : x ; - -> - ; yb
@2 fire a : x ; - -> - ; ya
end 4 complete
:: shows Refused refused jnl line 2 shape
:: given
:: note Migrations.
:: file net @join.net
:: file trc @join.trc
:: call migrate net trc jnl o
:: case a journal of the first version
:: file jnl @joined_1.jnl
:: shows Done migrated 4
:: holds o.jnl @joined.jnl
:: case a journal that says complete and is open
:: file jnl
polis journal 2
@7 dep env m a
end 1 complete
:: shows Done migrated 1
:: holds o.jnl
polis journal 2
@1 dep env m a
end 1 limit
:: case a journal that is not legal
:: file jnl
polis journal 1
dep env m b
end 1 limit
:: shows Illegal illegal 0
:: given
:: note Calls in which a file isn't there.
:: file net @join.net
:: case no journal
:: file trc @join.trc
:: call replay net trc jnl
:: shows Refused refused jnl absent
:: case no trace
:: file jnl @joined_1.jnl
:: call migrate net trc jnl o
:: shows Refused refused trc absent
:: given
:: note Calls on a join in which a call of the host fails.
:: case the network fails
:: file net @lamp.net
:: file trc press
:: file jnl @joined_1.jnl
:: fail 0
:: call replay net trc jnl
:: shows ReadFault read fault net
:: faults 1 0
:: case the trace fails
:: file net @lamp.net
:: file trc press
:: file jnl @joined_1.jnl
:: fail 1
:: call replay net trc jnl
:: shows ReadFault read fault trc
:: faults 1 0
:: case the journal fails
:: file net @join.net
:: file trc @join.trc
:: file jnl @joined_1.jnl
:: fail 2
:: call replay net trc jnl
:: shows ReadFault read fault jnl
:: faults 1 0
:: case the line of a legal journal fails
:: file net @join.net
:: file trc @join.trc
:: file jnl @joined_1.jnl
:: fail 3
:: call replay net trc jnl
:: shows WriteFault
:: faults 0 1
:: case the line of an illegal journal fails
:: file net @join.net
:: file trc @join.trc
:: file jnl
polis journal 1
dep env m b
end 1 limit
:: fail 3
:: call replay net trc jnl
:: shows Illegal
:: faults 0 1
:: case the journal that is saved fails
:: file net @join.net
:: file trc @join.trc
:: file jnl @joined_1.jnl
:: fail 3
:: call migrate net trc jnl o
:: shows WriteFault write fault o.jnl
:: faults 0 1
:: case the line of a migration fails
:: file net @join.net
:: file trc @join.trc
:: file jnl @joined_1.jnl
:: fail 4
:: call migrate net trc jnl o
:: shows WriteFault
:: holds o.jnl @joined.jnl
:: faults 0 1
"#;
