// Cases that the runner of polis_cli's tests reads.

/// Calls that ask for nothing.
pub const USAGE: &str = r#"
:: given
:: note Command lines that ask for nothing. In some of them an empty word stands.
:: file net @lamp.net
:: file trc press
:: case no words
:: call
:: shows Usage usage
:: case run net trc
:: call run net trc
:: shows Usage usage
:: case run net trc o --workers 0
:: call run net trc o --workers 0
:: shows Usage usage
:: case run net trc o --workers 9
:: call run net trc o --workers 9
:: shows Usage usage
:: case run net trc o --workers 1 --workers 2
:: call run net trc o --workers 1 --workers 2
:: shows Usage usage
:: case demo
:: call demo
:: shows Usage usage
:: case demo 007
:: call demo 007
:: shows Usage usage
:: case demo 18446744073709551616
:: call demo 18446744073709551616
:: shows Usage usage
:: case run net trc o --limit 0
:: call run net trc o --limit 0
:: shows Usage usage
:: case run net trc o --limit 60001
:: call run net trc o --limit 60001
:: shows Usage usage
:: case run net trc o --limit 05
:: call run net trc o --limit 05
:: shows Usage usage
:: case run net trc o --limit
:: call run net trc o --limit
:: shows Usage usage
:: case run net trc o --limit 5 --limit 5
:: call run net trc o --limit 5 --limit 5
:: shows Usage usage
:: case run net  o
:: call run net "" o
:: shows Usage usage
:: case check
:: call check
:: shows Usage usage
:: case check 
:: call check ""
:: shows Usage usage
:: case check net trc
:: call check net trc
:: shows Usage usage
:: case compile net
:: call compile net
:: shows Usage usage
:: case compile net 
:: call compile net ""
:: shows Usage usage
:: case compile net o --limit 5
:: call compile net o --limit 5
:: shows Usage usage
:: case replay net trc
:: call replay net trc
:: shows Usage usage
:: case replay net  jnl
:: call replay net "" jnl
:: shows Usage usage
:: case replay net trc jnl o
:: call replay net trc jnl o
:: shows Usage usage
:: case migrate net trc jnl
:: call migrate net trc jnl
:: shows Usage usage
:: case migrate net trc jnl 
:: call migrate net trc jnl ""
:: shows Usage usage
:: case cover net trc
:: call cover net trc
:: shows Usage usage
:: case cover net "" jnl
:: call cover net "" jnl
:: shows Usage usage
:: case cover net trc jnl o
:: call cover net trc jnl o
:: shows Usage usage
:: case watch net trc jnl
:: call watch net trc jnl
:: shows Usage usage
:: case watch net trc jnl ""
:: call watch net trc jnl ""
:: shows Usage usage
:: case watch net "" jnl mon
:: call watch net "" jnl mon
:: shows Usage usage
:: case watch net trc jnl mon o
:: call watch net trc jnl mon o
:: shows Usage usage
:: case lint
:: call lint
:: shows Usage usage
:: case lint ""
:: call lint ""
:: shows Usage usage
:: case lint net trc
:: call lint net trc
:: shows Usage usage
"#;
