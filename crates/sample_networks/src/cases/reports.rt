// Cases that the runner of polis_cli's tests reads.

/// What `losses`, `wave` and `draw` make of small networks, written by hand.
pub const REPORTS: &str = r#"
:: given
:: note What became of deliveries.
:: call losses net trc jnl
:: case a loses its first delivery
:: file net @join.net
:: file trc @join.trc
:: file jnl @joined.jnl
:: shows Done
buffer m a delivered 2 read 1 lost 1 left 0 first 1
buffer m b delivered 1 read 1 lost 0 left 0 first -
:: case no event was read
:: file net @join.net
:: file trc a
:: file jnl
polis journal 2
@1 dep env m a
@2 idle m : a ; -
end 2 limit
:: shows Done
buffer m a delivered 1 read 0 lost 0 left 1 first -
buffer m b delivered 0 read 0 lost 0 left 0 first -
:: case an illegal journal
:: file net @lamp.net
:: file trc press
:: file jnl
polis journal 2
@1 dep env lamp_ctl press
@2 fire lamp_ctl : press ; s=off -> s=on ; -
end 2 complete
:: shows Illegal illegal 1
:: case a journal of the first version with no entry
:: file net @lamp.net
:: file trc press
:: file jnl
polis journal 1
end 0 limit
:: shows Done buffer lamp_ctl press delivered 0 read 0 lost 0 left 0 first -
:: case a run by several workers in which the timer lost ten ticks
:: file net @belt.net
:: file trc @belt.trc
:: file jnl
polis journal 2
@1 dep env belt key_on
@1 dep env timer tick
@2 fire belt : key_on ; s=off -> s=wait ; start
@2 dep env timer tick
@3 dep env timer tick
@4 dep env timer tick
@5 dep env timer tick
@6 dep env timer tick
@7 dep env timer tick
@8 dep env timer tick
@9 dep env timer tick
@10 dep env timer tick
@11 dep env timer tick
@12 dep belt timer start
@13 fire timer : start tick ; n=10 -> n=0 ; -
end 15 complete
:: shows Done
buffer belt key_on delivered 1 read 1 lost 0 left 0 first -
buffer belt key_off delivered 0 read 0 lost 0 left 0 first -
buffer belt belt_on delivered 0 read 0 lost 0 left 0 first -
buffer belt end5 delivered 0 read 0 lost 0 left 0 first -
buffer belt end10 delivered 0 read 0 lost 0 left 0 first -
buffer timer start delivered 1 read 1 lost 0 left 0 first -
buffer timer tick delivered 11 read 1 lost 10 left 0 first 3
:: given
:: note Waves and drawings.
:: case a wave of the lamp
:: file net @lamp.net
:: file trc press
:: file jnl @pressed.jnl
:: call wave net trc jnl o
:: shows Done wave 2
:: holds o.vcd @pressed.vcd
:: case a wave of the join, whose one loss stands at the second moment
:: file net @join.net
:: file trc @join.trc
:: file jnl @joined.jnl
:: call wave net trc jnl o
:: shows Done wave 4
:: holds o.vcd
$version polis wave 1 $end
$timescale 1 ns $end
$scope module join $end
$scope module m $end
$var wire 1 0 a $end
$var wire 1 1 b $end
$scope module lost-events $end
$var event 1 2 a $end
$var event 1 3 b $end
$upscope $end
$upscope $end
$scope module env $end
$var event 1 4 c $end
$upscope $end
$upscope $end
$enddefinitions $end
#0
$dumpvars
00
01
$end
#1
10
#2
12
#3
11
#4
00
01
14
:: case a drawing of the lamp
:: file net @lamp.net
:: file trc
:: file jnl
:: call draw net o
:: shows Done machine lamp_ctl vertices 7 code 6
:: holds o.dot @lamp.dot
:: given
:: note Reports whose line isn't shown.
:: file net @lamp.net
:: file trc press
:: file jnl @pressed.jnl
:: case the lines of losses
:: fail 3
:: call losses net trc jnl
:: shows WriteFault
:: faults 0 1
:: case the line of a wave
:: fail 4
:: call wave net trc jnl o
:: shows WriteFault
:: holds o.vcd @pressed.vcd
:: faults 0 1
:: case the lines of a drawing
:: fail 2
:: call draw net o
:: shows WriteFault
:: holds o.dot @lamp.dot
:: faults 0 1
"#;
