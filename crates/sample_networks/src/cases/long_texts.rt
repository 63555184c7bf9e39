// Cases that the runner of polis_cli's tests reads.

/// What `explain` shows of long texts.
pub const LONG_TEXTS: &str = r#"
:: given
:: note Long texts of each of the three files: a fault in column 4,000,000, and one text more than
each limit allows.
:: case a fault in column 4,000,000
:: file net network\
:: repeat net 499999
        \
:: repeat net 1 %
:: call explain net
:: shows Refused
refused net lex byte 3999999
net:1:4000000: no token begins with this byte
                                                                               %
                                                                               ^
:: case a network of more bytes than it may have
:: file net
:: repeat net 1048576
    \
:: repeat net 1 \x0a\
:: call explain net
:: shows Refused
refused net long
net: the file is longer than 4194304 bytes
:: case a machine more than there may be
:: file net network t version 1 event g from env\
:: repeat net 65
 machine m priority 0 { input g }\
:: call explain net
:: shows Refused
refused net rule 2 2157
net:1:2158: a network has at most 64 domains, 256 events and 64 machines
 } machine m priority 0 { input g } machine m priority 0 { input g } machine m p
                                                                             ^
:: case an item more than there may be
:: file net @lamp.net
:: file trc
:: repeat trc 5000
press

settle
:: repeat trc 1
# press
settle\
:: call explain net trc
:: shows Refused
refused trc line 15002 many
trc:15002: a trace has at most 10000 items
settle
:: case an entry more than there may be
:: file net @join.net
:: file trc a
:: file jnl polis journal 1
:: repeat jnl 60000 dep env m a
:: repeat jnl 1 dep env m zz
:: call explain net trc jnl
:: shows Refused
refused jnl line 60002 many
jnl:60002: a journal has at most 60000 entries
dep env m zz
"#;
