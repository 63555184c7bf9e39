// Cases that the runner of polis_cli's tests reads.

/// Network texts of as much as there may be of a thing, and of more.
pub const LIMITS: &str = r#"
:: given
:: note The lamp's text, of 216 bytes, padded to as many bytes as a network may have.
:: case a network of as many bytes as it may have
:: file net @lamp.net
:: repeat net 4194088 \x0a\
:: file trc press
:: call run net trc o
:: shows Done @pressed.shown
:: holds o.out light
:: holds o.jnl @pressed.jnl
:: holds o.lst @lamp.lst
:: given
:: note As many declarations as there may be, of which the second has the first one's name, and
one more. Up to the parts there are 19, 19 and 36 bytes, and the parts have 18, 8 and 33.
Then as many braces as a text may have bytes, and the lamp's text of 216 bytes, padded to
one byte more.
:: file trc press
:: call check net
:: case 64 domains of one name
:: file net network t version 1\
:: repeat net 64
 domain d = 0 .. 0\
:: repeat net 1
 event g from env machine m priority 0 { input g }\
:: shows Refused refused net rule 3 45
:: case 65 domains
:: file net network t version 1\
:: repeat net 65
 domain d = 0 .. 0\
:: repeat net 1
 event g from env machine m priority 0 { input g }\
:: shows Refused refused net rule 2 1179
:: case 256 events of one name
:: file net network t version 1\
:: repeat net 256
 event g\
:: repeat net 1
 machine m priority 0 { input g }\
:: shows Refused refused net rule 3 34
:: case 257 events
:: file net network t version 1\
:: repeat net 257
 event g\
:: repeat net 1
 machine m priority 0 { input g }\
:: shows Refused refused net rule 2 2074
:: case 64 machines of one name
:: file net network t version 1 event g from env\
:: repeat net 64
 machine m priority 0 { input g }\
:: shows Refused refused net rule 3 78
:: case 65 machines
:: file net network t version 1 event g from env\
:: repeat net 65
 machine m priority 0 { input g }\
:: shows Refused refused net rule 2 2157
:: case 513 rows
:: file net network t version 1 event g from env machine m priority 0 { input g\
:: repeat net 513
 when g do nothing\
:: repeat net 1
 }\
:: shows Refused refused net rule 9 45
:: case as many braces as a text may have bytes
:: file net
:: repeat net 65536 {{{{{{{{{{{{{{{{{{{{{{{{{{{{{{{{{{{{{{{{{{{{{{{{{{{{{{{{{{{{{{{{\
:: shows Refused refused net syntax 0
:: case a byte more than a text may have
:: file net @lamp.net
:: repeat net 4194089 \x0a\
:: shows Refused refused net long
"#;
