// Cases that the runner of polis_cli's tests reads.

/// A run of two machines that can react side by side.
pub const SIDE_BY_SIDE: &str = r#"
:: given
:: note Two machines of one priority that read one event, run by two workers, and the journal that
the run left, judged.
:: case two machines of one priority that read one event, by two workers
:: file net @even.net
:: file trc x
:: call run net trc o --workers 2
:: shows Done @even.shown
:: call replay net trc o.jnl
:: ends Done legal 4 complete
:: holds o.out
ya
yb
:: holds o.jnl @even.jnl
:: holds o.lst @two.lst
"#;
