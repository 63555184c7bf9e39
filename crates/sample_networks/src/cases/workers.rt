// Cases that the runner of polis_cli's tests reads.

/// Runs by several workers.
pub const WORKERS: &str = r#"
:: given
:: note A machine that reads what it emits, run by 2 to 8 workers. The journal that a run left is
judged.
:: file net @loop.net
:: file trc go
:: case the loop, by 2 workers
:: call run net trc o --workers 2
:: ends Done
:: call replay net trc o.jnl
:: ends Done
 complete
:: holds o.out
:: holds o.jnl @looped.jnl
:: holds o.lst @loop.lst
:: case the loop, by 3 workers
:: call run net trc o --workers 3
:: ends Done
:: call replay net trc o.jnl
:: ends Done
 complete
:: holds o.out
:: holds o.jnl @looped.jnl
:: holds o.lst @loop.lst
:: case the loop, by 4 workers
:: call run net trc o --workers 4
:: ends Done
:: call replay net trc o.jnl
:: ends Done
 complete
:: holds o.out
:: holds o.jnl @looped.jnl
:: holds o.lst @loop.lst
:: case the loop, by 5 workers
:: call run net trc o --workers 5
:: ends Done
:: call replay net trc o.jnl
:: ends Done
 complete
:: holds o.out
:: holds o.jnl @looped.jnl
:: holds o.lst @loop.lst
:: case the loop, by 6 workers
:: call run net trc o --workers 6
:: ends Done
:: call replay net trc o.jnl
:: ends Done
 complete
:: holds o.out
:: holds o.jnl @looped.jnl
:: holds o.lst @loop.lst
:: case the loop, by 7 workers
:: call run net trc o --workers 7
:: ends Done
:: call replay net trc o.jnl
:: ends Done
 complete
:: holds o.out
:: holds o.jnl @looped.jnl
:: holds o.lst @loop.lst
:: case the loop, by 8 workers
:: call run net trc o --workers 8
:: ends Done
:: call replay net trc o.jnl
:: ends Done
 complete
:: holds o.out
:: holds o.jnl @looped.jnl
:: holds o.lst @loop.lst
:: given
:: note The seat belt, which reads a key and two ticks, run by 2 to 8 workers. What lands when is
not the same in each run.
:: file net @belt.net
:: file trc
key_on
settle
tick
settle
tick
:: case the seat belt, by 2 workers
:: call run net trc o --workers 2
:: ends Done
:: call replay net trc o.jnl
:: ends Done
 complete
:: any o.out
:: any o.jnl
:: holds o.lst @belt.lst
:: case the seat belt, by 3 workers
:: call run net trc o --workers 3
:: ends Done
:: call replay net trc o.jnl
:: ends Done
 complete
:: any o.out
:: any o.jnl
:: holds o.lst @belt.lst
:: case the seat belt, by 4 workers
:: call run net trc o --workers 4
:: ends Done
:: call replay net trc o.jnl
:: ends Done
 complete
:: any o.out
:: any o.jnl
:: holds o.lst @belt.lst
:: case the seat belt, by 5 workers
:: call run net trc o --workers 5
:: ends Done
:: call replay net trc o.jnl
:: ends Done
 complete
:: any o.out
:: any o.jnl
:: holds o.lst @belt.lst
:: case the seat belt, by 6 workers
:: call run net trc o --workers 6
:: ends Done
:: call replay net trc o.jnl
:: ends Done
 complete
:: any o.out
:: any o.jnl
:: holds o.lst @belt.lst
:: case the seat belt, by 7 workers
:: call run net trc o --workers 7
:: ends Done
:: call replay net trc o.jnl
:: ends Done
 complete
:: any o.out
:: any o.jnl
:: holds o.lst @belt.lst
:: case the seat belt, by 8 workers
:: call run net trc o --workers 8
:: ends Done
:: call replay net trc o.jnl
:: ends Done
 complete
:: any o.out
:: any o.jnl
:: holds o.lst @belt.lst
:: given
:: note Runs by two workers of which all that is saved is known.
:: case two machines of one priority, by two
:: file net @even.net
:: file trc x
:: call run net trc o --workers 2
:: shows Done @even.shown
:: holds o.out
ya
yb
:: holds o.jnl @even.jnl
:: holds o.lst @two.lst
:: case the loop, all of it gathered
:: file net @loop.net
:: file trc go
:: call run net trc o --workers 2
:: shows Done
entries 6 complete
lost 0
gathered 6 adopted 6
machine m vertices 12 code 13 tries 3 steps 20
:: holds o.out
:: holds o.jnl @looped.jnl
:: holds o.lst @loop.lst
:: case two machines that go on for ever, within a limit
:: file net @pong.net
:: file trc go
:: call run net trc o --workers 2 --limit 10
:: ends Limit
machine a vertices 6 code 5 tries 3 steps 14
machine b vertices 5 code 4 tries 2 steps 8
:: holds o.out
:: holds o.jnl @played.jnl
:: holds o.lst @pong.lst
"#;
