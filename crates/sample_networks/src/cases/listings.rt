// Texts that cases name, which the runner of polis_cli's tests reads.

/// Texts that several cases name: listings of compiled networks, worked out from the rules of the
/// texts, the image of the lamp (the magic, version 1, one machine, its name, the sizes of two
/// variables and of three results, six instructions: two tests, three sets, a halt), its drawing,
/// the wave of one press, three networks, what runs save and show, and surveys of the seat belt.
pub const SHARED: &str = r#"
:: text lamp.lst
polis listing 1
machine lamp_ctl
order in press, st s, go, to s, out light
diagram 8 8
vertices 7
0 begin 1
1 test in press 6 2
2 test st s 3 6
3 assign go 1 4
4 assign to s 2 5
5 assign out light 1 6
6 end
code 6
0 test in press 5 1
1 test st s 2 5
2 set go 1
3 set to s 2
4 set out light 1
5 halt
end
:: text join.lst
polis listing 1
machine m
order in a, in b, go, out c
diagram 6 6
vertices 6
0 begin 1
1 test in a 5 2
2 test in b 5 3
3 assign go 1 4
4 assign out c 1 5
5 end
code 5
0 test in a 4 1
1 test in b 4 2
2 set go 1
3 set out c 1
4 halt
end
:: text value.lst
polis listing 1
machine m
order in v, go, out hit
diagram 5 5
vertices 5
0 begin 1
1 test in v 4 4 4 4 4 4 2 4 4
2 assign go 1 3
3 assign out hit 1 4
4 end
code 4
0 test in v 3 3 3 3 3 3 1 3 3
1 set go 1
2 set out hit 1
3 halt
end
:: text two.lst
polis listing 1
machine a
order in x, go, out ya
diagram 5 5
vertices 5
0 begin 1
1 test in x 4 2
2 assign go 1 3
3 assign out ya 1 4
4 end
code 4
0 test in x 3 1
1 set go 1
2 set out ya 1
3 halt
machine b
order in x, go, out yb
diagram 5 5
vertices 5
0 begin 1
1 test in x 4 2
2 assign go 1 3
3 assign out yb 1 4
4 end
code 4
0 test in x 3 1
1 set go 1
2 set out yb 1
3 halt
end
:: text loop.lst
polis listing 1
machine m
order in x, st c, in go, to c, go, out x
diagram 16 13
vertices 12
0 begin 1
1 test in x 6 2
2 test st c 7 5 3 11
3 assign to c 4 4
4 assign go 1 11
5 assign to c 3 9
6 test st c 7 11 11 11
7 test in go 11 8
8 assign to c 2 9
9 assign go 1 10
10 assign out x 1 11
11 end
code 13
0 test in x 7 1
1 test st c 8 5 2 12
2 set to c 4
3 set go 1
4 goto 12
5 set to c 3
6 goto 10
7 test st c 8 12 12 12
8 test in go 12 9
9 set to c 2
10 set go 1
11 set out x 1
12 halt
end
:: text pong.lst
polis listing 1
machine a
order in go, in q, go, out p
diagram 6 6
vertices 6
0 begin 1
1 test in go 2 3
2 test in q 5 3
3 assign go 1 4
4 assign out p 1 5
5 end
code 5
0 test in go 1 2
1 test in q 4 2
2 set go 1
3 set out p 1
4 halt
machine b
order in p, go, out q
diagram 5 5
vertices 5
0 begin 1
1 test in p 4 2
2 assign go 1 3
3 assign out q 1 4
4 end
code 4
0 test in p 3 1
1 set go 1
2 set out q 1
3 halt
end
:: text belt.lst
polis listing 1
machine belt
order in key_off, in belt_on, st s, in end10, in end5, in key_on, go, to s, out start, out \
alarm_on, out alarm_off
diagram 41 28
vertices 22
0 begin 1
1 test in key_off 4 2
2 test st s 3 6 10
3 assign go 1 21
4 test in belt_on 8 5
5 test st s 17 6 10
6 assign go 1 7
7 assign to s 1 21
8 test st s 17 13 9
9 test in end10 21 10
10 assign go 1 11
11 assign to s 1 12
12 assign out alarm_off 1 21
13 test in end5 21 14
14 assign go 1 15
15 assign to s 3 16
16 assign out alarm_on 1 21
17 test in key_on 21 18
18 assign go 1 19
19 assign to s 2 20
20 assign out start 1 21
21 end
code 25
0 test in key_off 4 1
1 test st s 2 6 11
2 set go 1
3 goto 24
4 test in belt_on 9 5
5 test st s 20 6 11
6 set go 1
7 set to s 1
8 goto 24
9 test st s 20 15 10
10 test in end10 24 11
11 set go 1
12 set to s 1
13 set out alarm_off 1
14 goto 24
15 test in end5 24 16
16 set go 1
17 set to s 3
18 set out alarm_on 1
19 goto 24
20 test in key_on 24 21
21 set go 1
22 set to s 2
23 set out start 1
24 halt
machine timer
order in start, in tick, go, st n, to n, out end5, out end10
diagram 23 23
vertices 20
0 begin 1
1 test in start 4 2
2 assign go 1 3
3 assign to n 1 19
4 test in tick 19 5
5 assign go 1 6
6 test st n 18 17 16 15 13 12 11 10 9 7 19
7 assign to n 11 8
8 assign out end10 1 19
9 assign to n 10 19
10 assign to n 9 19
11 assign to n 8 19
12 assign to n 7 19
13 assign to n 6 14
14 assign out end5 1 19
15 assign to n 5 19
16 assign to n 4 19
17 assign to n 3 19
18 assign to n 2 19
19 end
code 29
0 test in start 4 1
1 set go 1
2 set to n 1
3 goto 28
4 test in tick 28 5
5 set go 1
6 test st n 27 25 23 21 18 16 14 12 10 7 28
7 set to n 11
8 set out end10 1
9 goto 28
10 set to n 10
11 goto 28
12 set to n 9
13 goto 28
14 set to n 8
15 goto 28
16 set to n 7
17 goto 28
18 set to n 6
19 set out end5 1
20 goto 28
21 set to n 5
22 goto 28
23 set to n 4
24 goto 28
25 set to n 3
26 goto 28
27 set to n 2
28 halt
end
:: text echo.lst
polis listing 1
machine m
order in v, out w, go, st s, to s
diagram 29 22
vertices 21
0 begin 1
1 test in v 20 9 8 7 6 5 4 3 2
2 assign out w 8 10
3 assign out w 7 10
4 assign out w 6 10
5 assign out w 5 10
6 assign out w 4 10
7 assign out w 3 10
8 assign out w 2 10
9 assign out w 1 10
10 assign go 1 11
11 test st s 19 18 17 16 15 14 13 12
12 assign to s 3 20
13 assign to s 2 20
14 assign to s 1 20
15 assign to s 8 20
16 assign to s 7 20
17 assign to s 6 20
18 assign to s 5 20
19 assign to s 4 20
20 end
code 34
0 test in v 33 15 13 11 9 7 5 3 1
1 set out w 8
2 goto 16
3 set out w 7
4 goto 16
5 set out w 6
6 goto 16
7 set out w 5
8 goto 16
9 set out w 4
10 goto 16
11 set out w 3
12 goto 16
13 set out w 2
14 goto 16
15 set out w 1
16 set go 1
17 test st s 32 30 28 26 24 22 20 18
18 set to s 3
19 goto 33
20 set to s 2
21 goto 33
22 set to s 1
23 goto 33
24 set to s 8
25 goto 33
26 set to s 7
27 goto 33
28 set to s 6
29 goto 33
30 set to s 5
31 goto 33
32 set to s 4
33 halt
end
:: text lamp.img
PIMG\x01\x01\x08lamp_ctl\x02\x02\x02\x03\x02\x03\x02\
\x00\x00\x00\x06\
\x01\x00\x00\x00\x00\x05\x00\x00\x00\x01\
\x01\x01\x00\x00\x00\x02\x00\x00\x00\x05\
\x02\x00\x01\x02\x01\x02\x02\x02\x01\x00\
:: text even.net
network two version 1
event x from env
event ya to env
event yb to env
machine a priority 1 {
  input x
  output ya
  when x do emit ya
}
machine b priority 1 {
  input x
  output yb
  when x do emit yb
}
:: text open_row.net
network t version 1 event g from env machine a priority 0 { input g when g do\
:: text odd.net
network odd version 1
domain bit = { off, on }
domain spare = 0 .. 3
event a from env
event b from env
event c from env
event x to env
event y to env
machine m priority 0 {
  input a, b, c
  output x, y
  state k : bit = off
  when a, absent b do emit x
  when b, absent a do k := on
  when a, absent b, absent c do emit x
  when a, absent a do emit y
}
:: text pressed.jnl
polis journal 2
@1 dep env lamp_ctl press
@2 fire lamp_ctl : press ; s=off -> s=on ; light
end 2 complete
:: text pressed.shown
entries 2 complete
lost 0
gathered 0 adopted 0
machine lamp_ctl vertices 7 code 6 tries 1 steps 6
:: text pressed.vcd
$version polis wave 1 $end
$timescale 1 ns $end
$scope module lamp $end
$scope module lamp_ctl $end
$var wire 1 0 press $end
$var string 1 1 s $end
$scope module lost-events $end
$var event 1 2 press $end
$upscope $end
$upscope $end
$scope module env $end
$var event 1 3 light $end
$upscope $end
$upscope $end
$enddefinitions $end
#0
$dumpvars
00
soff 1
$end
#1
10
#2
00
son 1
13
:: text lamp.dot
digraph "lamp" {
  rankdir=LR;
  env [label="environment", shape=plaintext];
  out [label="environment", shape=plaintext];
  m0 [label="lamp_ctl\x5cnpriority 1", shape=box];
  env -> m0 [label="press"];
  m0 -> out [label="light"];
}
digraph "lamp_ctl" {
  v0 [label="begin lamp_ctl", shape=oval];
  v1 [label="press", shape=diamond];
  v2 [label="s", shape=diamond];
  v3 [label="go", shape=box];
  v4 [label="s := on", shape=box];
  v5 [label="emit light", shape=box];
  v6 [label="end", shape=oval];
  v0 -> v1;
  v1 -> v2 [label="present"];
  v1 -> v6 [label="absent"];
  v2 -> v3 [label="off"];
  v2 -> v6 [label="on"];
  v3 -> v4;
  v4 -> v5;
  v5 -> v6;
}
:: text joined.jnl
polis journal 2
@1 dep env m a
@2 dep env m a
@3 dep env m b
@4 fire m : a b ; - -> - ; c
end 4 complete
:: text joined_1.jnl
polis journal 1
dep env m a
dep env m a
dep env m b
fire m : a b ; - -> - ; c
end 4 complete
:: text looped.jnl
polis journal 2
@1 dep env m go
@2 fire m : go ; c=0 -> c=1 ; x
@3 dep m m x
@4 fire m : x ; c=1 -> c=2 ; x
@5 dep m m x
@6 fire m : x ; c=2 -> c=3 ; -
end 6 complete
:: text played.jnl
polis journal 2
@1 dep env a go
@2 fire a : go ; - -> - ; p
@3 dep a b p
@4 fire b : p ; - -> - ; q
@5 dep b a q
@6 fire a : q ; - -> - ; p
@7 dep a b p
@8 fire b : p ; - -> - ; q
@9 dep b a q
@10 fire a : q ; - -> - ; p
end 10 limit
:: text belted.jnl
polis journal 2
@1 dep env belt key_on
@2 fire belt : key_on ; s=off -> s=wait ; start
@3 dep belt timer start
@4 fire timer : start ; n=10 -> n=0 ; -
@5 dep env timer tick
@6 fire timer : tick ; n=0 -> n=1 ; -
@7 dep env timer tick
@8 fire timer : tick ; n=1 -> n=2 ; -
@9 dep env timer tick
@10 fire timer : tick ; n=2 -> n=3 ; -
@11 dep env timer tick
@12 fire timer : tick ; n=3 -> n=4 ; -
@13 dep env timer tick
@14 fire timer : tick ; n=4 -> n=5 ; end5
@15 dep timer belt end5
@16 fire belt : end5 ; s=wait -> s=alarm ; alarm_on
@15 dep env timer tick
@16 fire timer : tick ; n=5 -> n=6 ; -
@17 dep env timer tick
@18 fire timer : tick ; n=6 -> n=7 ; -
@19 dep env timer tick
@20 fire timer : tick ; n=7 -> n=8 ; -
@21 dep env timer tick
@22 fire timer : tick ; n=8 -> n=9 ; -
@23 dep env timer tick
@24 fire timer : tick ; n=9 -> n=10 ; end10
@25 dep timer belt end10
@26 fire belt : end10 ; s=alarm -> s=off ; alarm_off
@25 dep env timer tick
@26 fire timer : tick ; n=10 -> - ; -
end 30 complete
:: text even.jnl
polis journal 2
@1 dep env a x
@1 dep env b x
@2 fire a : x ; - -> - ; ya
@2 fire b : x ; - -> - ; yb
end 4 complete
:: text even.shown
entries 4 complete
lost 0
gathered 4 adopted 4
machine a vertices 5 code 4 tries 1 steps 4
machine b vertices 5 code 4 tries 1 steps 4
:: text surveyed.shown
runs 100 complete 100
kinds 3
kind 73 seed 0 outputs 2 : alarm_on alarm_off
kind 22 seed 2 outputs 1 : alarm_on
kind 5 seed 60 outputs 0 : -
lost timer tick least 0 most 7 seed 69 runs 27
unused timer tick least 0 most 1 seed 3 runs 19
never belt 5 : 1 2 3 5 6
:: text surveyed_free.shown
runs 100 complete 100
kinds 3
kind 17 seed 0 outputs 0 : -
kind 67 seed 1 outputs 1 : alarm_on
kind 16 seed 5 outputs 2 : alarm_on alarm_off
lost timer tick least 0 most 8 seed 69 runs 81
unused timer tick least 0 most 1 seed 3 runs 37
never belt 5 : 1 2 3 5 6
:: text end
"#;
