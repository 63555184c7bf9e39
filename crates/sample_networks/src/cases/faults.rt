// Cases that the runner of polis_cli's tests reads.

/// Network texts that `check` refuses, and what it shows. The places were counted by hand.
pub const FAULTS: &str = r#"
:: given
:: note Texts whose tokens don't read; in the last one a fault of syntax stands before the token.
:: file trc press
:: call check net
:: case a byte that begins no token
:: file net network %\
:: shows Refused refused net lex byte 8
:: case a name of 25 bytes
:: file net network abcdefghijklmnopqrstuvwxy\
:: shows Refused refused net lex name 8
:: case a number of more than 32 bits
:: file net network t version 4294967296\
:: shows Refused refused net lex number 18
:: case a token at fault after a fault of syntax
:: file net network network .\
:: shows Refused refused net lex byte 16
:: given
:: note Texts that are no sentence. A name says which word is at fault, and which one stands
before it.
:: file trc press
:: call check net
:: case the end first
:: file net
:: shows Refused refused net syntax 0
:: case domain first
:: file net domain\
:: shows Refused refused net syntax 0
:: case the end after network
:: file net network \
:: shows Refused refused net syntax 8
:: case version after network
:: file net network version\
:: shows Refused refused net syntax 8
:: case the end after n
:: file net network n \
:: shows Refused refused net syntax 10
:: case 1 after n
:: file net network n 1\
:: shows Refused refused net syntax 10
:: case the end after version
:: file net network n version \
:: shows Refused refused net syntax 18
:: case x after version
:: file net network n version x\
:: shows Refused refused net syntax 18
:: case the end after 1
:: file net network n version 1 \
:: shows Refused refused net syntax 20
:: case input after 1
:: file net network n version 1 input\
:: shows Refused refused net syntax 20
:: case , after 1
:: file net network n version 1 ,\
:: shows Refused refused net syntax 20
:: case = after domain
:: file net network n version 1 domain =\
:: shows Refused refused net syntax 27
:: case { after d
:: file net network n version 1 domain d {\
:: shows Refused refused net syntax 29
:: case a after =
:: file net network n version 1 domain d = a\
:: shows Refused refused net syntax 31
:: case } after { (33)
:: file net network n version 1 domain d = { }\
:: shows Refused refused net syntax 33
:: case b after a (35)
:: file net network n version 1 domain d = { a b }\
:: shows Refused refused net syntax 35
:: case } after ,
:: file net network n version 1 domain d = { a, }\
:: shows Refused refused net syntax 36
:: case 1 after ,
:: file net network n version 1 domain d = { a, 1\
:: shows Refused refused net syntax 36
:: case 7 after 0
:: file net network n version 1 domain d = 0 7\
:: shows Refused refused net syntax 33
:: case a after ..
:: file net network n version 1 domain d = 0 .. a\
:: shows Refused refused net syntax 36
:: case , after 7
:: file net network n version 1 domain d = 0 .. 7 ,\
:: shows Refused refused net syntax 38
:: case from after event
:: file net network n version 1 event from\
:: shows Refused refused net syntax 26
:: case env after :
:: file net network n version 1 event e : env\
:: shows Refused refused net syntax 30
:: case to after to
:: file net network n version 1 event e to to\
:: shows Refused refused net syntax 31
:: case to after from
:: file net network n version 1 event e from to\
:: shows Refused refused net syntax 33
:: case machine after to
:: file net network n version 1 event e to machine\
:: shows Refused refused net syntax 31
:: case : after env
:: file net network n version 1 event e from env : d\
:: shows Refused refused net syntax 37
:: case domain after e
:: file net network n version 1 event e domain d = 0 .. 1\
:: shows Refused refused net syntax 28
:: case priority after machine
:: file net network n version 1 machine priority\
:: shows Refused refused net syntax 28
:: case { after m
:: file net network n version 1 machine m {\
:: shows Refused refused net syntax 30
:: case x after priority
:: file net network n version 1 machine m priority x\
:: shows Refused refused net syntax 39
:: case input after 0
:: file net network n version 1 machine m priority 0 input\
:: shows Refused refused net syntax 41
:: case } after { (43)
:: file net network n version 1 machine m priority 0 { }\
:: shows Refused refused net syntax 43
:: case output after {
:: file net network n version 1 machine m priority 0 { output b\
:: shows Refused refused net syntax 43
:: case } after input
:: file net network n version 1 machine m priority 0 { input }\
:: shows Refused refused net syntax 49
:: case b after a (51)
:: file net network n version 1 machine m priority 0 { input a b\
:: shows Refused refused net syntax 51
:: case } after output
:: file net network n version 1 machine m priority 0 { input a output }\
:: shows Refused refused net syntax 58
:: case input after a
:: file net network n version 1 machine m priority 0 { input a input b\
:: shows Refused refused net syntax 51
:: case = after s (59)
:: file net network n version 1 machine m priority 0 { input a state s = 0\
:: shows Refused refused net syntax 59
:: case := after d
:: file net network n version 1 machine m priority 0 { input a state s : d := 0\
:: shows Refused refused net syntax 63
:: case } after =
:: file net network n version 1 machine m priority 0 { input a state s : d = }\
:: shows Refused refused net syntax 65
:: case do after when
:: file net network n version 1 machine m priority 0 { input a when do\
:: shows Refused refused net syntax 56
:: case absent after absent
:: file net network n version 1 machine m priority 0 { input a when absent absent\
:: shows Refused refused net syntax 63
:: case { after =
:: file net network n version 1 machine m priority 0 { input a when a = {\
:: shows Refused refused net syntax 60
:: case b after in
:: file net network n version 1 machine m priority 0 { input a when a in b\
:: shows Refused refused net syntax 61
:: case } after { (63)
:: file net network n version 1 machine m priority 0 { input a when a in { }\
:: shows Refused refused net syntax 63
:: case b after a (58)
:: file net network n version 1 machine m priority 0 { input a when a b do\
:: shows Refused refused net syntax 58
:: case } after do
:: file net network n version 1 machine m priority 0 { input a when a do }\
:: shows Refused refused net syntax 61
:: case nothing after emit
:: file net network n version 1 machine m priority 0 { input a when a do emit nothing\
:: shows Refused refused net syntax 66
:: case := after a
:: file net network n version 1 machine m priority 0 { input a when a do emit a := 1\
:: shows Refused refused net syntax 68
:: case = after s (63)
:: file net network n version 1 machine m priority 0 { input a when a do s = 1\
:: shows Refused refused net syntax 63
:: case value after := (66, version 1)
:: file net network n version 1 machine m priority 0 { input a when a do s := value a\
:: shows Refused refused net syntax 66
:: case + after a (68, version 1)
:: file net network n version 1 machine m priority 0 { input a when a do s := a + 1\
:: shows Refused refused net syntax 68
:: case , after nothing
:: file net network n version 1 machine m priority 0 { input a when a do nothing , emit a\
:: shows Refused refused net syntax 69
:: case state after nothing
:: file net network n version 1 machine m priority 0 { input a when a do nothing state s : d = 0\
:: shows Refused refused net syntax 69
:: case event after }
:: file net network n version 1 machine m priority 0 { input a } event e\
:: shows Refused refused net syntax 53
:: case } after }
:: file net network n version 1 machine m priority 0 { input a } }\
:: shows Refused refused net syntax 53
:: case value after = (70)
:: file net network n version 1 machine m priority 0 { input a when a do emit a = value a\
:: shows Refused refused net syntax 70
:: case value after := (66, version 3)
:: file net network n version 3 machine m priority 0 { input a when a do s := value a\
:: shows Refused refused net syntax 66
:: case + after a (68, version 3)
:: file net network n version 3 machine m priority 0 { input a when a do s := a + 1\
:: shows Refused refused net syntax 68
:: case 1 after value
:: file net network n version 2 machine m priority 0 { input a when a do s := value 1\
:: shows Refused refused net syntax 72
:: case + after a (74)
:: file net network n version 2 machine m priority 0 { input a when a do s := value a + 1\
:: shows Refused refused net syntax 74
:: case a after +
:: file net network n version 2 machine m priority 0 { input a when a do s := a + a\
:: shows Refused refused net syntax 70
:: case + after 1
:: file net network n version 2 machine m priority 0 { input a when a do s := 1 + 1\
:: shows Refused refused net syntax 68
:: case the end after value
:: file net network n version 2 machine m priority 0 { input a when a do emit a = value\
:: shows Refused refused net syntax 75
:: case + after a (72)
:: file net network n version 2 machine m priority 0 { input a when a do emit a = a + 1\
:: shows Refused refused net syntax 72
:: case value after a
:: file net network n version 2 machine m priority 0 { input a when a do emit a value a\
:: shows Refused refused net syntax 68
:: case settle after do
:: file net network n version 2 machine m priority 0 { input a when a do settle\
:: shows Refused refused net syntax 61
:: case value after = (60)
:: file net network n version 2 machine m priority 0 { input a when a = value a\
:: shows Refused refused net syntax 60
:: case value after = (65)
:: file net network n version 2 machine m priority 0 { input a state s : d = value\
:: shows Refused refused net syntax 65
:: given
:: note Sentences that break a rule and none before it. In that of rule 20, 2 * 23 * 19 * 3 * 5 *
5 are 65,550 snapshots.
:: file trc press
:: call check net
:: case rule 1 at 18
:: file net network t version 3 event g from env machine m priority 0 { input g }\
:: shows Refused refused net rule 1 18
:: case rule 3 at 60
:: file net network t version 1 event g from env event h from env event g machine m priority 0 { \
input g, h }\
:: shows Refused refused net rule 3 60
:: case rule 4 at 39
:: file net network t version 1 domain d = { a, b, a } event g from env machine m priority 0 { \
input g }\
:: shows Refused refused net rule 4 39
:: case rule 4 at 36
:: file net network t version 1 domain d = 7 .. 3 event g from env machine m priority 0 { input g }\
:: shows Refused refused net rule 4 36
:: case rule 5 at 27
:: file net network t version 1 domain d = 0 .. 4294967295 event g from env machine m priority 0 \
{ input g }\
:: shows Refused refused net rule 5 27
:: case rule 6 at 81
:: file net network t version 1 event g from env machine m priority 0 { input g, z state s : d = \
0 }\
:: shows Refused refused net rule 6 81
:: case rule 7 at 66
:: file net network t version 1 event g from env machine m priority 0 { input z }\
:: shows Refused refused net rule 7 66
:: case rule 8 at 69
:: file net network t version 1 event g from env machine m priority 0 { input g, g }\
:: shows Refused refused net rule 8 69
:: case rule 9 at 63
:: file net network t version 1 domain d = 0 .. 0 event g from env machine m priority 256 { input \
g state s0 : d = 0 state s1 : d = 0 state s2 : d = 0 state s3 : d = 0 state s4 : d = 0 state s5 : \
d = 0 state s6 : d = 0 state s7 : d = 0 state s8 : d = 0 }\
:: shows Refused refused net rule 9 63
:: case rule 10 at 56
:: file net network t version 1 event g from env machine m priority 256 { input g }\
:: shows Refused refused net rule 10 56
:: case rule 11 at 75
:: file net network t version 1 event g from env machine m priority 0 { input g output g }\
:: shows Refused refused net rule 11 75
:: case rule 11 at 132
:: file net network t version 1 event g from env event p to env machine a priority 0 { input g \
output p } machine b priority 0 { input g output p }\
:: shows Refused refused net rule 11 132
:: case rule 12 at 43
:: file net network t version 1 event g from env event p machine m priority 0 { input g, p }\
:: shows Refused refused net rule 12 43
:: case rule 13 at 43
:: file net network t version 1 event g from env event p machine m priority 0 { input g output p }\
:: shows Refused refused net rule 13 43
:: case rule 14 at 100
:: file net network t version 1 domain d = 1 .. 2 event g from env machine m priority 0 { input g \
state s : d = 0 }\
:: shows Refused refused net rule 14 100
:: case rule 15 at 161
:: file net network t version 1 domain d = { x, y } event v : d from env event g from env event p \
: d to env machine m priority 0 { input v, g output p state s : d = x when p do nothing }\
:: shows Refused refused net rule 15 161
:: case rule 16 at 171
:: file net network t version 1 domain d = { x, y } event v : d from env event g from env event p \
: d to env machine m priority 0 { input v, g output p state s : d = x when g, absent s do nothing \
}\
:: shows Refused refused net rule 16 171
:: case rule 17 at 171
:: file net network t version 1 domain d = { x, y } event v : d from env event g from env event p \
: d to env machine m priority 0 { input v, g output p state s : d = x when v in { x, z } do \
nothing }\
:: shows Refused refused net rule 17 171
:: case rule 18 at 186
:: file net network t version 1 domain d = { x, y } event v : d from env event g from env event p \
: d to env machine m priority 0 { input v, g output p state s : d = x when g do s := x, emit p = \
y, s := y }\
:: shows Refused refused net rule 18 186
:: case rule 19: no value
:: file net network t version 1 domain d = { x, y } event v : d from env event g from env event p \
: d to env machine m priority 0 { input v, g output p state s : d = x when g do emit p }\
:: shows Refused refused net rule 19 171
:: case rule 19: a value that is not of the domain
:: file net network t version 1 domain d = { x, y } event v : d from env event g from env event p \
: d to env machine m priority 0 { input v, g output p state s : d = x when g do s := z }\
:: shows Refused refused net rule 19 171
:: case rule 20 at 161
:: file net network t version 1 domain a = 0 .. 21 domain b = 0 .. 17 domain c = 0 .. 2 domain d \
= 0 .. 4 event p from env event q : a from env event r : b from env machine m priority 0 { input \
p, q, r state s : c = 0 state t : d = 0 state u : d = 0 }\
:: shows Refused refused net rule 20 161
:: case rule 21 at 199
:: file net network t version 2 domain e = 0 .. 3 domain d = { x, y } event v : d from env event \
g from env event p : d to env machine m priority 0 { input v, g output p state s : d = x when g \
do emit p = value g }\
:: shows Refused refused net rule 21 199
:: case rule 22 at 209
:: file net network t version 2 domain e = 0 .. 3 domain d = { x, y } event v : d from env event \
g from env event p : d to env machine m priority 0 { input v, g output p state s : d = x when g, \
absent v do emit p = value v }\
:: shows Refused refused net rule 22 209
:: case rule 22 at 150
:: file net network t version 2 domain d = 0 .. 1 event v : d from env event w : d to env machine \
m priority 0 { input v output w when absent v do emit w = value v }\
:: shows Refused refused net rule 22 150
:: case rule 23 at 215
:: file net network t version 2 domain e = 0 .. 3 domain d = { x, y } event v : d from env event \
g from env event p : d to env machine m priority 0 { input v, g output p state s : d = x state r \
: e = 0 when v = x do r := value v }\
:: shows Refused refused net rule 23 215
:: case rule 24 at 205
:: file net network t version 2 domain e = 0 .. 3 domain d = { x, y } event v : d from env event \
g from env event p : d to env machine m priority 0 { input v, g output p state s : d = x state r \
: d = x when g do s := r + 1 }\
:: shows Refused refused net rule 24 205
:: case rule 25 at 193
:: file net network t version 2 domain e = 0 .. 3 domain d = { x, y } event v : d from env event \
g from env event p : d to env machine m priority 0 { input v, g output p state s : d = x when g \
do s := s + 2 }\
:: shows Refused refused net rule 25 193
:: given
:: note Texts with two rows that conflict: the least pair of rows is named, and then the least
snapshot. In the first one the first row conflicts with the third where v is 1, and the
third with the fourth. In the second one the first two rows conflict where v is 1, the
second and the third already where it is 0. In the last one 0 + 3 is 3, and 1 + 3 isn't.
:: file trc press
:: call check net
:: case the first row and the third
:: file net network t version 1 domain d = 0 .. 2 event v : d from env event w : d from env event \
c to env machine m priority 0 { input v, w output c when v in { 0, 1 } do emit c when absent v do \
nothing when v in { 1, 2 }, w in { 0, 2 } do nothing when w = 2, v do emit c }\
:: shows Refused refused net conflict m 0 2 v=1 w=0 ; -
:: case the first two rows
:: file net network t version 1 domain d = 0 .. 1 event v : d from env event c to env machine m \
priority 0 { input v output c when v = 1 do emit c when v do nothing when v = 0 do emit c }\
:: shows Refused refused net conflict m 0 1 v=1 ; -
:: case a sum that is 3 at 0 alone
:: file net network t version 2 domain d = 0 .. 7 event a from env machine m priority 0 { input a \
state s : d = 0 when a do s := s + 3 when a do s := 3 }\
:: shows Refused refused net conflict m 0 1 a ; s=1
:: given
:: note Two inputs and two rows that exclude each other, that give the same, of which one is never
enabled.
:: file trc press
:: call check net
:: case two rows that exclude each other
:: file net network t version 1 event a from env event b from env event c to env machine m \
priority 0 { input a, b output c when a do emit c when b, absent a do nothing }\
:: shows Done
accepted machines 1 events 3
machine m snapshots 4 rows 2
:: case two rows that give the same
:: file net network t version 1 event a from env event b from env event c to env machine m \
priority 0 { input a, b output c when a do emit c when b do emit c }\
:: shows Done
accepted machines 1 events 3
machine m snapshots 4 rows 2
:: case two rows of which one is never enabled
:: file net network t version 1 event a from env event b from env event c to env machine m \
priority 0 { input a, b output c when a do emit c when a, absent a do nothing }\
:: shows Done
accepted machines 1 events 3
machine m snapshots 4 rows 2
"#;
