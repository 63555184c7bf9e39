// Cases that the runner of polis_cli's tests reads.

/// Journals of as many entries, and traces of as many items, as there may be, and of more.
pub const MANY: &str = r#"
:: given
:: note 60,000 deliveries to the join, where the environment sends one, and what stands after
them.
:: file net @join.net
:: file trc a
:: call replay net trc jnl
:: case one entry more than there may be
:: file jnl polis journal 1
:: repeat jnl 60000 dep env m a
:: repeat jnl 1 dep env m zz
:: shows Refused refused jnl line 60002 many
:: case as many entries as there may be
:: file jnl polis journal 1
:: repeat jnl 60000 dep env m a
:: repeat jnl 1 end 60000 limit
:: shows Illegal illegal 1
:: given
:: note 5,000 times an event and a settle item, with empty lines between them, and what stands
after them.
:: file net @lamp.net
:: file jnl
polis journal 1
end 0 limit
:: call replay net trc jnl
:: case one item more than there may be
:: file trc
:: repeat trc 5000
press

settle
:: repeat trc 1
# press
settle\
:: shows Refused refused trc line 15002 many
:: case as many items as there may be
:: file trc
:: repeat trc 5000
press

settle
:: repeat trc 1 # press
:: shows Done legal 0 open
:: given
:: note A chart of the end of 60,000 entries.
:: file net @pong.net
:: file trc go
:: file jnl
polis journal 1
dep env a go
fire a : go ; - -> - ; p
:: repeat jnl 14999
dep a b p
fire b : p ; - -> - ; q
dep b a q
fire a : q ; - -> - ; p
:: repeat jnl 1
dep a b p
fire b : p ; - -> - ; q
end 60000 limit
:: case the last two entries
:: call chart net trc jnl --from 59998 --to 60000
:: shows Done
          env       a        b
 59998     |        |-- p -->|
 59999     |        |       []  emits q
:: case behind the last entry
:: call chart net trc jnl --from 60000
:: shows Done
          env
:: given
:: case a press more than there may be
:: file net @lamp.net
:: file trc
:: repeat trc 10001 press
:: call run net trc o
:: shows Refused refused trc line 10001 many
"#;
