// Cases that the runner of polis_cli's tests reads.

/// Orders of variables and results with the sizes of diagrams.
pub const ORDERS: &str = r#"
:: given
:: note Orders of variables and results with the sizes of diagrams, worked out by hand.
:: note A size is the sum over the places of the order. At each place, fix what stands before it
in every possible way: of the different functions that are left, those count that change
with what stands at the place. So a result counts where it has one code, and a variable of
one code never.
:: file trc press
:: call compile net o
:: case no row
:: note No row: each result has one code, so 1 + 1, and nothing depends on the input.
:: file net
network t version 1
event a from env
event c to env
machine m priority 0 {
  input a
  output c
}
:: shows Done machine m vertices 2 code 1
:: holds o.lst
polis listing 1
machine m
order go, out c, in a
diagram 2 2
vertices 2
0 begin 1
1 end
code 1
0 halt
end
:: case a state variable of one value
:: note The state variable has one value: 1 + 2 + 2 + 2 + 0, since the input decides each result.
:: file net
network t version 1
domain u = { only }
event a from env
event c to env
machine m priority 0 {
  input a
  output c
  state s : u = only
  when a do s := only, emit c
}
:: shows Done machine m vertices 6 code 5
:: holds o.lst
polis listing 1
machine m
order in a, go, to s, out c, st s
diagram 7 7
vertices 6
0 begin 1
1 test in a 5 2
2 assign go 1 3
3 assign to s 1 4
4 assign out c 1 5
5 end
code 5
0 test in a 4 1
1 set go 1
2 set to s 1
3 set out c 1
4 halt
end
:: case a copy where two are present
:: note Where v and b are present, the output gets v's value. In the first order v, b, go, w the
size is 1 + 2 + 3 + 3: two values of v let b decide, and three outcomes are left. In the
order b, v, w, go it is 1 + 1 + 3 + 2, and no single move makes that smaller.
:: file net
network t version 2
domain d = 0 .. 1
event v : d from env
event b from env
event w : d to env
machine m priority 0 {
  input v, b
  output w
  when v, b do emit w = value v
}
:: shows Done machine m vertices 7 code 7
:: holds o.lst
polis listing 1
machine m
order in b, in v, out w, go
diagram 9 7
vertices 7
0 begin 1
1 test in b 6 2
2 test in v 6 4 3
3 assign out w 2 5
4 assign out w 1 5
5 assign go 1 6
6 end
code 7
0 test in b 6 1
1 test in v 6 4 2
2 set out w 2
3 goto 5
4 set out w 1
5 set go 1
6 halt
end
:: case a copy with nine more inputs
:: note The same with nine more inputs, on which nothing depends: 3,072 snapshots, so that the
first order stays.
:: file net
network t version 2
domain d = 0 .. 1
event v : d from env
event b from env
event e0 from env
event e1 from env
event e2 from env
event e3 from env
event e4 from env
event e5 from env
event e6 from env
event e7 from env
event e8 from env
event w : d to env
machine m priority 0 {
  input v, b, e0, e1, e2, e3, e4, e5, e6, e7, e8
  output w
  when v, b do emit w = value v
}
:: shows Done machine m vertices 9 code 9
:: holds o.lst
polis listing 1
machine m
order in v, in b, go, out w, in e0, in e1, in e2, in e3, in e4, in e5, in e6, in e7, in e8
diagram 9 9
vertices 9
0 begin 1
1 test in v 8 5 2
2 test in b 8 3
3 assign go 1 4
4 assign out w 2 8
5 test in b 8 6
6 assign go 1 7
7 assign out w 1 8
8 end
code 9
0 test in v 8 5 1
1 test in b 8 2
2 set go 1
3 set out w 2
4 goto 8
5 test in b 8 6
6 set go 1
7 set out w 1
8 halt
end
:: case 16 inputs together
:: note 16 inputs, which fire together: 65,536 snapshots. Each of them decides where those before
it are present, and then each result has one of two codes: 16 + 2 + 2.
:: file net
network t version 1
event e0 from env
event e1 from env
event e2 from env
event e3 from env
event e4 from env
event e5 from env
event e6 from env
event e7 from env
event e8 from env
event e9 from env
event e10 from env
event e11 from env
event e12 from env
event e13 from env
event e14 from env
event e15 from env
event c to env
machine m priority 0 {
  input e0, e1, e2, e3, e4, e5, e6, e7, e8, e9, e10, e11, e12, e13, e14, e15
  output c
  when e0, e1, e2, e3, e4, e5, e6, e7, e8, e9, e10, e11, e12, e13, e14, e15 do emit c
}
:: shows Done machine m vertices 20 code 19
:: holds o.lst
polis listing 1
machine m
order in e0, in e1, in e2, in e3, in e4, in e5, in e6, in e7, in e8, in e9, in e10, in e11, in \
e12, in e13, in e14, in e15, go, out c
diagram 20 20
vertices 20
0 begin 1
1 test in e0 19 2
2 test in e1 19 3
3 test in e2 19 4
4 test in e3 19 5
5 test in e4 19 6
6 test in e5 19 7
7 test in e6 19 8
8 test in e7 19 9
9 test in e8 19 10
10 test in e9 19 11
11 test in e10 19 12
12 test in e11 19 13
13 test in e12 19 14
14 test in e13 19 15
15 test in e14 19 16
16 test in e15 19 17
17 assign go 1 18
18 assign out c 1 19
19 end
code 19
0 test in e0 18 1
1 test in e1 18 2
2 test in e2 18 3
3 test in e3 18 4
4 test in e4 18 5
5 test in e5 18 6
6 test in e6 18 7
7 test in e7 18 8
8 test in e8 18 9
9 test in e9 18 10
10 test in e10 18 11
11 test in e11 18 12
12 test in e12 18 13
13 test in e13 18 14
14 test in e14 18 15
15 test in e15 18 16
16 set go 1
17 set out c 1
18 halt
end
"#;
