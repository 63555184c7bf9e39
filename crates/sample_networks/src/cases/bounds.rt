// Cases that the runner of polis_cli's tests reads.

/// Calls that bound what reactions cost.
pub const BOUNDS: &str = r#"
:: given
:: note The costs were found by running the listed code on each snapshot, and of a lamp, a join
and a belt by hand.
:: file trc press
:: case the lamp, where each instruction costs 1
:: file net @lamp.net
:: call bound net
:: shows Done machine lamp_ctl worst 6 at press ; s=off best 2 at - ; s=off
:: case the lamp, where that is said
:: file net @lamp.net
:: call bound net 1 1 1 1
:: shows Done machine lamp_ctl worst 6 at press ; s=off best 2 at - ; s=off
:: case four costs
:: file net @lamp.net
:: call bound net 2 3 1 1
:: shows Done machine lamp_ctl worst 14 at press ; s=off best 3 at - ; s=off
:: case nothing costs anything
:: file net @lamp.net
:: call bound net 0 0 0 0
:: shows Done machine lamp_ctl worst 0 at - ; s=off best 0 at - ; s=off
:: case the greatest costs
:: file net @lamp.net
:: call bound net 1000000 1000000 1000000 1000000
:: shows Done machine lamp_ctl worst 6000000 at press ; s=off best 2000000 at - ; s=off
:: case the join
:: file net @join.net
:: call bound net
:: shows Done machine m worst 5 at a b ; - best 2 at - ; -
:: case the join, where only tests cost
:: file net @join.net
:: call bound net 1 0 0 0
:: shows Done machine m worst 2 at a ; - best 1 at - ; -
:: case a value passed on
:: file net @echo.net
:: call bound net
:: shows Done machine m worst 8 at v=1 ; s=1 best 2 at - ; s=0
:: case the loop
:: file net @loop.net
:: call bound net 2 3 1 1
:: shows Done machine m worst 16 at go ; c=0 best 5 at - ; c=1
:: case two machines that go on for ever
:: file net @pong.net
:: call bound net
:: shows Done
machine a worst 5 at q ; - best 3 at - ; -
machine b worst 4 at p ; - best 2 at - ; -
:: case the seat belt
:: file net @belt.net
:: call bound net
:: shows Done
machine belt worst 9 at end10 ; s=alarm best 5 at - ; s=off
machine timer worst 8 at tick ; n=4 best 3 at - ; n=0
:: case the seat belt at four costs
:: file net @belt.net
:: call bound net 1 10 100 1000
:: shows Done
machine belt worst 1134 at end10 ; s=alarm best 1004 at - ; s=off
machine timer worst 1133 at tick ; n=4 best 1002 at - ; n=0
:: given
:: note Command lines that ask for no bounds, and calls that fail.
:: file trc press
:: case no network
:: file net @lamp.net
:: call bound
:: shows Usage usage
:: case an empty name
:: file net @lamp.net
:: call bound ""
:: shows Usage usage
:: case three costs
:: file net @lamp.net
:: call bound net 1 1 1
:: shows Usage usage
:: case five costs
:: file net @lamp.net
:: call bound net 1 1 1 1 1
:: shows Usage usage
:: case a cost above the greatest
:: file net @lamp.net
:: call bound net 1 1 1 1000001
:: shows Usage usage
:: case a cost with a zero before it
:: file net @lamp.net
:: call bound net 01 1 1 1
:: shows Usage usage
:: case a cost with a sign
:: file net @lamp.net
:: call bound net 1 +1 1 1
:: shows Usage usage
:: case a network that is not there
:: call bound net
:: shows Refused refused net absent
:: case a conflict
:: file net @clash.net
:: call bound net
:: shows Refused refused net conflict m 0 2 a b ; -
:: case the network fails
:: file net @lamp.net
:: fail 0
:: call bound net
:: shows ReadFault read fault net
:: faults 1 0
:: case the lines fail
:: file net @lamp.net
:: fail 1
:: call bound net
:: shows WriteFault
:: faults 0 1
"#;
