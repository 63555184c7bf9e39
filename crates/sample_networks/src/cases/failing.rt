// Cases that the runner of polis_cli's tests reads.

/// Calls in which calls of the host fail or are torn, and calls that name no file.
pub const FAILING: &str = r#"
:: given
:: note Calls over a lamp and one press in which a call of the host fails.
:: file trc press
:: case a call after the line on usage
:: file net @lamp.net
:: fail 1
:: call run net trc
:: shows Usage usage
:: case the network
:: file net @lamp.net
:: fail 0
:: call run net trc o
:: shows ReadFault read fault net
:: faults 1 0
:: case the trace
:: file net @lamp.net
:: fail 1
:: call run net trc o
:: shows ReadFault read fault trc
:: faults 1 0
:: case the outputs
:: file net @lamp.net
:: fail 2
:: call run net trc o
:: shows WriteFault write fault o.out
:: faults 0 1
:: case the journal
:: file net @lamp.net
:: fail 3
:: call run net trc o
:: shows WriteFault write fault o.jnl
:: holds o.out light
:: faults 0 1
:: case the listing
:: file net @lamp.net
:: fail 4
:: call run net trc o
:: shows WriteFault write fault o.lst
:: holds o.out light
:: holds o.jnl @pressed.jnl
:: faults 0 1
:: case the summary
:: file net @lamp.net
:: fail 5
:: call run net trc o
:: shows WriteFault
:: holds o.out light
:: holds o.jnl @pressed.jnl
:: holds o.lst @lamp.lst
:: faults 0 1
:: case the outputs and the line of it
:: file net @lamp.net
:: fail 2
:: fail 3
:: call run net trc o
:: shows WriteFault
:: faults 0 2
:: case a torn journal
:: file net @lamp.net
:: tear 3 10
:: call run net trc o
:: shows WriteFault write fault o.jnl
:: holds o.out light
:: holds o.jnl polis jour\
:: faults 0 1
:: case a call after the last one
:: file net @lamp.net
:: fail 6
:: call run net trc o
:: shows Done @pressed.shown
:: holds o.out light
:: holds o.jnl @pressed.jnl
:: holds o.lst @lamp.lst
:: case the line of a refusal
:: file net network %\
:: fail 1
:: call run net trc o
:: shows Refused
:: faults 0 1
:: case the line of a check
:: file net @lamp.net
:: fail 1
:: call check net
:: shows WriteFault
:: faults 0 1
:: case the lines of an explanation
:: file net @lamp.net
:: fail 1
:: call explain net
:: shows WriteFault
:: faults 0 1
:: case the network of a compilation
:: file net @lamp.net
:: fail 0
:: call compile net o
:: shows ReadFault read fault net
:: faults 1 0
:: case the listing of a compilation
:: file net @lamp.net
:: fail 1
:: call compile net o
:: shows WriteFault write fault o.lst
:: faults 0 1
:: case the line of a compilation
:: file net @lamp.net
:: fail 2
:: call compile net o
:: shows WriteFault
:: holds o.lst @lamp.lst
:: faults 0 1
:: given
:: note Calls that name a file that isn't there.
:: case no network to run
:: file trc press
:: call run net trc o
:: shows Refused refused net absent
:: case no trace to run
:: file net @lamp.net
:: call run net trc o
:: shows Refused refused trc absent
:: case no network to check
:: file trc press
:: call check net
:: shows Refused refused net absent
:: case no network to compile
:: file trc press
:: call compile net o
:: shows Refused refused net absent
:: case no network to explain
:: file trc press
:: call explain net
:: shows Refused
refused net absent
net: no file has this name
:: given
:: note The lamp on one press by two workers.
:: file net @lamp.net
:: file trc press
:: call run net trc o --workers 2
:: case the network, by two
:: fail 0
:: shows ReadFault read fault net
:: faults 1 0
:: case the trace, by two
:: fail 1
:: shows ReadFault read fault trc
:: faults 1 0
:: case the outputs, by two
:: fail 2
:: shows WriteFault write fault o.out
:: faults 0 1
:: case the journal, by two
:: fail 3
:: shows WriteFault write fault o.jnl
:: holds o.out light
:: faults 0 1
:: case the listing, by two
:: fail 4
:: shows WriteFault write fault o.lst
:: holds o.out light
:: holds o.jnl @pressed.jnl
:: faults 0 1
:: case the summary, by two
:: fail 5
:: shows WriteFault
:: holds o.out light
:: holds o.jnl @pressed.jnl
:: holds o.lst @lamp.lst
:: faults 0 1
:: case the outputs and the line of it, by two
:: fail 2
:: fail 3
:: shows WriteFault
:: faults 0 2
:: case a torn journal, by two
:: tear 3 10
:: shows WriteFault write fault o.jnl
:: holds o.out light
:: holds o.jnl polis jour\
:: faults 0 1
:: given
:: note Shows and saves of which only some bytes are taken: what was torn shows, or holds, these.
Then a demo whose show fails, and a refusal after which no further call is made.
:: case a torn summary
:: file net @lamp.net
:: file trc press
:: tear 5 9
:: call run net trc o
:: shows WriteFault entries 2\
:: holds o.out light
:: holds o.jnl @pressed.jnl
:: holds o.lst @lamp.lst
:: faults 0 1
:: case a torn line of a refusal
:: file net network %\
:: tear 1 7
:: call run net trc o
:: shows Refused refused\
:: faults 0 1
:: case outputs torn after more bytes than they have
:: file net @lamp.net
:: file trc press
:: tear 2 100
:: call run net trc o
:: shows WriteFault write fault o.out
:: holds o.out light
:: faults 0 1
:: case outputs torn after no byte
:: file net @lamp.net
:: file trc press
:: tear 2 0
:: call run net trc o
:: shows WriteFault write fault o.out
:: faults 0 1
:: case the summary of a demo
:: file net @lamp.net
:: file trc press
:: fail 0
:: call demo 7
:: shows WriteFault
:: faults 0 1
:: case a call after the line of a refusal
:: file net network %\
:: file trc press
:: fail 2
:: call run net trc o
:: shows Refused refused net lex byte 8
"#;
