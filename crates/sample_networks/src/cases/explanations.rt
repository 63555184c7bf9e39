// Cases that the runner of polis_cli's tests reads.

/// What `explain` shows, with a text for each sentence. A script wrote the texts and what is shown
/// by the rules of explanations, from the texts and the byte places of their faults, and never ran
/// the program.
pub const EXPLANATIONS: &str = r#"
:: given
:: case no token begins with this byte (net:1:1)
:: file net %
:: call explain net
:: shows Refused
refused net lex byte 0
net:1:1: no token begins with this byte
%
^
:: case a name has at most 24 bytes
:: file net network abcdefghijklmnopqrstuvwxy
:: call explain net
:: shows Refused
refused net lex name 8
net:1:9: a name has at most 24 bytes
network abcdefghijklmnopqrstuvwxy
        ^
:: case a number is at most 4294967295
:: file net network t version 4294967296
:: call explain net
:: shows Refused
refused net lex number 18
net:1:19: a number is at most 4294967295
network t version 4294967296
                  ^
:: case no token begins with this byte (net:1:80)
:: file net network                                                                        %
:: call explain net
:: shows Refused
refused net lex byte 79
net:1:80: no token begins with this byte
network                                                                        %
                                                                               ^
:: case no token begins with this byte (net:1:81)
:: file net network                                                                         %
:: call explain net
:: shows Refused
refused net lex byte 80
net:1:81: no token begins with this byte
%
^
:: case no token begins with this byte (net:1:9)
:: file net network\x09é # \x7f
:: call explain net
:: shows Refused
refused net lex byte 8
net:1:9: no token begins with this byte
network ?? # ?
        ^
:: case no token begins with this byte (net:2:9)
:: file net
network t
version %\x0d
:: call explain net
:: shows Refused
refused net lex byte 18
net:2:9: no token begins with this byte
version %\x20
        ^
:: case the text is empty (net:1:1)
:: file net
:: call explain net
:: shows Refused
refused net syntax 0
net:1:1: the text is empty

^
:: case the text is empty (net:2:1)
:: file net # nothing
:: call explain net
:: shows Refused
refused net syntax 10
net:2:1: the text is empty

^
:: case no text begins with this
:: file net domain
:: call explain net
:: shows Refused
refused net syntax 0
net:1:1: no text begins with this
domain
^
:: case the text ends too early, after version
:: file net network t version
:: call explain net
:: shows Refused
refused net syntax 18
net:2:1: the text ends too early, after version

^
:: case this can't stand after 1
:: file net network t version 1 ,
:: call explain net
:: shows Refused
refused net syntax 20
net:1:21: this can't stand after 1
network t version 1 ,
                    ^
:: case this can't stand after {
:: file net
network t version 1
machine m priority 0 { }
:: call explain net
:: shows Refused
refused net syntax 43
net:2:24: this can't stand after {
machine m priority 0 { }
                       ^
:: case the machine has no such input or state variable (net:9:8)
:: file net
network lamp version 1
domain bit = { off, on }
event press from env
event light to env
machine lamp_ctl priority 1 {
  input press
  output light
  state s : bit = off
  when pres, s = off do s := on, emit light
}
:: call explain net
:: shows Refused
refused net rule 15 176
net:9:8: the machine has no such input or state variable
  when pres, s = off do s := on, emit light
       ^
:: case the text ends too early, after light
:: file net
network lamp version 1
domain bit = { off, on }
event press from env
event light to env
machine lamp_ctl priority 1 {
  input press
  output light
  state s : bit = off
  when press, s = off do s := on, emit light

:: call explain net
:: shows Refused
refused net syntax 215
net:11:1: the text ends too early, after light

^
:: case the version is 1 or 2
:: file net network t version 3 event g from env machine m priority 0 { input g }
:: call explain net
:: shows Refused
refused net rule 1 18
net:1:19: the version is 1 or 2
network t version 3 event g from env machine m priority 0 { input g }
                  ^
:: case an earlier declaration of this kind has this name
:: file net network t version 1 event g from env event h from env event g machine m priority 0 { \
input g, h }
:: call explain net
:: shows Refused
refused net rule 3 60
net:1:61: an earlier declaration of this kind has this name
network t version 1 event g from env event h from env event g machine m priority
                                                            ^
:: case the names of a domain differ, and a range doesn't go down
:: file net network t version 1 domain d = 7 .. 3 event g from env machine m priority 0 { input g }
:: call explain net
:: shows Refused
refused net rule 4 36
net:1:37: the names of a domain differ, and a range doesn't go down
network t version 1 domain d = 7 .. 3 event g from env machine m priority 0 { in
                                    ^
:: case a domain has at most 32 values
:: file net network t version 1 domain d = 0 .. 4294967295 event g from env machine m priority 0 \
{ input g }
:: call explain net
:: shows Refused
refused net rule 5 27
net:1:28: a domain has at most 32 values
network t version 1 domain d = 0 .. 4294967295 event g from env machine m priori
                           ^
:: case no domain has this name
:: file net network t version 1 event g from env machine m priority 0 { input g, z state s : d = 0 }
:: call explain net
:: shows Refused
refused net rule 6 81
net:1:82: no domain has this name
 d = 0 }
 ^
:: case no event has this name
:: file net network t version 1 event g from env machine m priority 0 { input z }
:: call explain net
:: shows Refused
refused net rule 7 66
net:1:67: no event has this name
network t version 1 event g from env machine m priority 0 { input z }
                                                                  ^
:: case an earlier input, output or state variable of the machine has this name
:: file net network t version 1 event g from env machine m priority 0 { input g, g }
:: call explain net
:: shows Refused
refused net rule 8 69
net:1:70: an earlier input, output or state variable of the machine has this name
network t version 1 event g from env machine m priority 0 { input g, g }
                                                                     ^
:: case a machine has at most 16 inputs, 16 outputs, 8 state variables and 512 rows
:: file net network t version 1 domain d = 0 .. 0 event g from env machine m priority 256 { input \
g state s0 : d = 0 state s1 : d = 0 state s2 : d = 0 state s3 : d = 0 state s4 : d = 0 state s5 : \
d = 0 state s6 : d = 0 state s7 : d = 0 state s8 : d = 0 }
:: call explain net
:: shows Refused
refused net rule 9 63
net:1:64: a machine has at most 16 inputs, 16 outputs, 8 state variables and 512 rows
network t version 1 domain d = 0 .. 0 event g from env machine m priority 256 {\x20
                                                               ^
:: case a priority is at most 255
:: file net network t version 1 event g from env machine m priority 256 { input g }
:: call explain net
:: shows Refused
refused net rule 10 56
net:1:57: a priority is at most 255
network t version 1 event g from env machine m priority 256 { input g }
                                                        ^
:: case an event has one sender, a machine or the environment
:: file net network t version 1 event g from env machine m priority 0 { input g output g }
:: call explain net
:: shows Refused
refused net rule 11 75
net:1:76: an event has one sender, a machine or the environment
network t version 1 event g from env machine m priority 0 { input g output g }
                                                                           ^
:: case no machine sends this event, and it isn't from env
:: file net network t version 1 event g from env event p machine m priority 0 { input g, p }
:: call explain net
:: shows Refused
refused net rule 12 43
net:1:44: no machine sends this event, and it isn't from env
network t version 1 event g from env event p machine m priority 0 { input g, p }
                                           ^
:: case no machine reads this event, and it isn't to env
:: file net network t version 1 event g from env event p machine m priority 0 { input g output p }
:: call explain net
:: shows Refused
refused net rule 13 43
net:1:44: no machine reads this event, and it isn't to env
network t version 1 event g from env event p machine m priority 0 { input g outp
                                           ^
:: case this is no value of the variable's domain
:: file net network t version 1 domain d = 1 .. 2 event g from env machine m priority 0 { input g \
state s : d = 0 }
:: call explain net
:: shows Refused
refused net rule 14 100
net:1:101: this is no value of the variable's domain
put g state s : d = 0 }
                    ^
:: case the machine has no such input or state variable (net:1:162)
:: file net network t version 1 domain d = { x, y } event v : d from env event g from env event p \
: d to env machine m priority 0 { input v, g output p state s : d = x when p do nothing }
:: call explain net
:: shows Refused
refused net rule 15 161
net:1:162: the machine has no such input or state variable
 p do nothing }
 ^
:: case a state variable stands before = or in, an event without a domain doesn't
:: file net network t version 1 domain d = { x, y } event v : d from env event g from env event p \
: d to env machine m priority 0 { input v, g output p state s : d = x when g, absent s do nothing \
}
:: call explain net
:: shows Refused
refused net rule 16 171
net:1:172: a state variable stands before = or in, an event without a domain doesn't
 g, absent s do nothing }
           ^
:: case this is no value of the domain
:: file net network t version 1 domain d = { x, y } event v : d from env event g from env event p \
: d to env machine m priority 0 { input v, g output p state s : d = x when v in { x, z } do \
nothing }
:: call explain net
:: shows Refused
refused net rule 17 171
net:1:172: this is no value of the domain
 v in { x, z } do nothing }
           ^
:: case emit takes an output of the machine and := a state variable, each at most once in a row
:: file net network t version 1 domain d = { x, y } event v : d from env event g from env event p \
: d to env machine m priority 0 { input v, g output p state s : d = x when g do s := x, emit p = \
y, s := y }
:: call explain net
:: shows Refused
refused net rule 18 186
net:1:187: emit takes an output of the machine and := a state variable, each at most once in a row
 g do s := x, emit p = y, s := y }
                          ^
:: case the value is missing, not wanted, or not of the domain
:: file net network t version 1 domain d = { x, y } event v : d from env event g from env event p \
: d to env machine m priority 0 { input v, g output p state s : d = x when g do emit p }
:: call explain net
:: shows Refused
refused net rule 19 171
net:1:172: the value is missing, not wanted, or not of the domain
 g do emit p }
           ^
:: case a machine has at most 65536 snapshots
:: file net network t version 1 domain a = 0 .. 21 domain b = 0 .. 17 domain c = 0 .. 2 domain d \
= 0 .. 4 event p from env event q : a from env event r : b from env machine m priority 0 { input \
p, q, r state s : c = 0 state t : d = 0 state u : d = 0 }
:: call explain net
:: shows Refused
refused net rule 20 161
net:1:162: a machine has at most 65536 snapshots
 m priority 0 { input p, q, r state s : c = 0 state t : d = 0 state u : d = 0 }
 ^
:: case only an input with a domain stands after value
:: file net network t version 2 domain e = 0 .. 3 domain d = { x, y } event v : d from env event \
g from env event p : d to env machine m priority 0 { input v, g output p state s : d = x when g \
do emit p = value g }
:: call explain net
:: shows Refused
refused net rule 21 199
net:1:200: only an input with a domain stands after value
ate s : d = x when g do emit p = value g }
                                       ^
:: case the row's conditions don't say that this input is present
:: file net network t version 2 domain d = 0 .. 1 event v : d from env event w : d to env machine \
m priority 0 { input v output w when absent v do emit w = value v }
:: call explain net
:: shows Refused
refused net rule 22 150
net:1:151: the row's conditions don't say that this input is present
chine m priority 0 { input v output w when absent v do emit w = value v }
                                                                      ^
:: case this input has another domain
:: file net network t version 2 domain e = 0 .. 3 domain d = { x, y } event v : d from env event \
g from env event p : d to env machine m priority 0 { input v, g output p state s : d = x state r \
: e = 0 when v = x do r := value v }
:: call explain net
:: shows Refused
refused net rule 23 215
net:1:216: this input has another domain
ate s : d = x state r : e = 0 when v = x do r := value v }
                                                       ^
:: case a sum adds to the variable that it sets
:: file net network t version 2 domain e = 0 .. 3 domain d = { x, y } event v : d from env event \
g from env event p : d to env machine m priority 0 { input v, g output p state s : d = x state r \
: d = x when g do s := r + 1 }
:: call explain net
:: shows Refused
refused net rule 24 205
net:1:206: a sum adds to the variable that it sets
ate s : d = x state r : d = x when g do s := r + 1 }
                                             ^
:: case what is added is below the domain's size
:: file net network t version 2 domain e = 0 .. 3 domain d = { x, y } event v : d from env event \
g from env event p : d to env machine m priority 0 { input v, g output p state s : d = x when g \
do s := s + 2 }
:: call explain net
:: shows Refused
refused net rule 25 193
net:1:194: what is added is below the domain's size
ate s : d = x when g do s := s + 2 }
                                 ^
:: case row 0 of machine m is enabled on a b ; -
:: file net @clash.net
:: call explain net
:: shows Refused
refused net conflict m 0 2 a b ; -
net:8:8: row 0 of machine m is enabled on a b ; -
  when a do emit c
       ^
net:10:8: row 2 is too, with another result
  when a, b do nothing
       ^
:: case a line has an event, an event and its value, or settle
:: file net @lamp.net
:: file trc settle press
:: call explain net trc
:: shows Refused
refused trc line 1 shape
trc:1: a line has an event, an event and its value, or settle
settle press
:: case this is no event from the environment
:: file net @lamp.net
:: file trc
press
\x09foo\x0d
:: call explain net trc
:: shows Refused
refused trc line 2 event
trc:2: this is no event from the environment
 foo\x20
:: case the value is missing, not wanted, or not of the event's domain
:: file net @lamp.net
:: file trc press 1
:: call explain net trc
:: shows Refused
refused trc line 1 value
trc:1: the value is missing, not wanted, or not of the event's domain
press 1
:: case line 1 is polis journal 1 or polis journal 2, with its line end
:: file net @join.net
:: file trc
:: file jnl polis journal 1\
:: call explain net trc jnl
:: shows Refused
refused jnl line 1 header
jnl:1: line 1 is polis journal 1 or polis journal 2, with its line end
polis journal 1
:: case nothing stands after the last line
:: file net @join.net
:: file trc
:: file jnl
polis journal 1
end 0 limit
x\
:: call explain net trc jnl
:: shows Refused
refused jnl line 3 after
jnl:3: nothing stands after the last line
x
:: case the last line, end K complete or end K limit, is missing
:: file net @join.net
:: file trc
:: file jnl
polis journal 1
dep env m a
:: call explain net trc jnl
:: shows Refused
refused jnl line 3 end
jnl:3: the last line, end K complete or end K limit, is missing
:: case this is no line of a journal, or its line end is missing
:: file net @join.net
:: file trc
:: file jnl
polis journal 1
dep env\x09m a
:: call explain net trc jnl
:: shows Refused
refused jnl line 2 shape
jnl:2: this is no line of a journal, or its line end is missing
dep env?m a
:: case a stamp is from 1 to 1099511627776
:: file net @join.net
:: file trc
:: file jnl
polis journal 2
@0 dep env m a
:: call explain net trc jnl
:: shows Refused
refused jnl line 2 stamp
jnl:2: a stamp is from 1 to 1099511627776
@0 dep env m a
:: case a name is missing, not known here, or not in its place
:: file net @join.net
:: file trc
:: file jnl
polis journal 1
dep env m zz
end 1 limit
:: call explain net trc jnl
:: shows Refused
refused jnl line 2 name
jnl:2: a name is missing, not known here, or not in its place
dep env m zz
:: case a value is missing, not wanted, or not of its domain
:: file net @value.net
:: file trc
:: file jnl
polis journal 1
dep env m v=8
end 1 limit
:: call explain net trc jnl
:: shows Refused
refused jnl line 2 value
jnl:2: a value is missing, not wanted, or not of its domain
dep env m v=8
:: case this isn't the number of entries
:: file net @join.net
:: file trc
:: file jnl
polis journal 2
@1 dep env m a
end 0 limit
:: call explain net trc jnl
:: shows Refused
refused jnl line 3 count
jnl:3: this isn't the number of entries
end 0 limit
:: case its sender doesn't owe its receiver this delivery next
:: file net @lamp.net
:: file trc press
:: file jnl
polis journal 2
@1 dep env lamp_ctl press
@2 dep env lamp_ctl press
end 2 limit
:: call explain net trc jnl
:: shows Illegal
illegal 1
jnl:3: its sender doesn't owe its receiver this delivery next
@2 dep env lamp_ctl press
:: case nothing came to this machine since its last reaction
:: file net @lamp.net
:: file trc press
:: file jnl
polis journal 2
@1 idle lamp_ctl : - ; s=off
end 1 limit
:: call explain net trc jnl
:: shows Illegal
illegal 0
jnl:2: nothing came to this machine since its last reaction
@1 idle lamp_ctl : - ; s=off
:: case this isn't what the machine reads here
:: file net @lamp.net
:: file trc press
:: file jnl
polis journal 2
@1 dep env lamp_ctl press
@2 idle lamp_ctl : press ; s=on
end 2 limit
:: call explain net trc jnl
:: shows Illegal
illegal 1
jnl:3: this isn't what the machine reads here
@2 idle lamp_ctl : press ; s=on
:: case this isn't what the machine's table gives
:: file net @lamp.net
:: file trc press
:: file jnl
polis journal 2
@1 dep env lamp_ctl press
@2 fire lamp_ctl : press ; s=off -> s=on ; -
end 2 limit
:: call explain net trc jnl
:: shows Illegal
illegal 1
jnl:3: this isn't what the machine's table gives
@2 fire lamp_ctl : press ; s=off -> s=on ; -
:: case the stamp isn't above those that it comes after
:: file net @lamp.net
:: file trc press
:: file jnl
polis journal 2
@2 dep env lamp_ctl press
@2 fire lamp_ctl : press ; s=off -> s=on ; light
end 2 complete
:: call explain net trc jnl
:: shows Illegal
illegal 1
jnl:3: the stamp isn't above those that it comes after
@2 fire lamp_ctl : press ; s=off -> s=on ; light
:: case accepted machines 1 events 2
:: file net @lamp.net
:: call explain net
:: shows Done
accepted machines 1 events 2
machine lamp_ctl snapshots 4 rows 1
:: case accepted items 1
:: file net @lamp.net
:: file trc press
:: call explain net trc
:: shows Done accepted items 1
:: case legal 2 complete
:: file net @lamp.net
:: file trc press
:: file jnl @pressed.jnl
:: call explain net trc jnl
:: shows Done legal 2 complete
"#;
