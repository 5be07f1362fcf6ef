// Further whole sources.

pub(crate) const FURTHER_SOURCES: &[(&str, &str, &str, &str)] = &[
    (
        "schema { entity E { q: CInt } array A[k: int] { p: CInt } }
client a {
  var x = 1;
  if x == 1 { var y = 2; x = x + y; } else { var y = 3; x = y; }
  if x == 3 { var z = 4; A[z].p.add(z); }
  foreach k in entries A.p { var w = k; A[w + 1].p.add(1); print k; }
  foreach k in entries A.p { print k; print A[k].p; }
  var e = new E;
  e.q.add(x);
  var f = e;
  delete f;
  print alive e;
  print e.q;
  e.q.add(1);
  delete e;
  print f == e;
  foreach d in all E { print d; }
}
",
        "schema {
  entity E {
    q: CInt;
  }
  array A[k: int] {
    p: CInt;
  }
}
client a {
  var x = 1;
  if x == 1 {
    var y = 2;
    x = x + y;
  } else {
    var y = 3;
    x = y;
  }
  if x == 3 {
    var z = 4;
    A[z].p.add(z);
  }
  foreach k in entries A.p {
    var w = k;
    A[w + 1].p.add(1);
    print k;
  }
  foreach k in entries A.p {
    print k;
    print A[k].p;
  }
  var e = new E;
  e.q.add(x);
  var f = e;
  delete f;
  print alive e;
  print e.q;
  e.q.add(1);
  delete e;
  print f == e;
  foreach d in all E {
    print d;
  }
}
",
        "client a
0 begin
1 push 1
2 store 0
3 begin
4 load 0
5 push 1
6 eq
7 jumpf 17
8 begin
9 push 2
10 store 1
11 begin
12 load 0
13 load 1
14 add
15 store 0
16 jump 23
17 begin
18 push 3
19 store 1
20 begin
21 load 1
22 store 0
23 begin
24 load 0
25 push 3
26 eq
27 jumpf 35
28 begin
29 push 4
30 store 1
31 begin
32 load 1
33 load 1
34 put.add 1 1
35 begin
36 entries 1
37 next 52 1
38 store 1
39 begin
40 load 1
41 store 2
42 begin
43 load 2
44 push 1
45 add
46 push 1
47 put.add 1 1
48 begin
49 load 1
50 say
51 jump 37
52 begin
53 entries 1
54 next 64 1
55 store 1
56 begin
57 load 1
58 say
59 begin
60 load 1
61 get 1 1
62 say
63 jump 54
64 begin
65 new 0 0
66 store 1
67 begin
68 load 1
69 load 0
70 put.add 0 1
71 begin
72 load 1
73 store 2
74 begin
75 load 2
76 delete
77 begin
78 load 1
79 alive
80 say
81 begin
82 load 1
83 get 0 1
84 say
85 begin
86 load 1
87 push 1
88 put.add 0 1
89 begin
90 load 1
91 delete
92 begin
93 load 2
94 load 1
95 eq
96 say
97 begin
98 all 0
99 next 105 1
100 store 3
101 begin
102 load 3
103 say
104 jump 99
105 end
",
        "fork 0 1 a
do 1 A[4].p.add(4)
ask 1 entries A.p = [(4)]
do 1 A[5].p.add(1)
say 1 4
ask 1 entries A.p = [(4), (5)]
say 1 4
ask 1 A[4].p = 4
say 1 4
say 1 5
ask 1 A[5].p = 1
say 1 1
do 1 new E = @0.0
do 1 E[@0.0].q.add(3)
do 1 delete @0.0
ask 1 alive @0.0 = false
say 1 false
ask 1 E[@0.0].q = 0
say 1 0
do 1 E[@0.0].q.add(1)
do 1 delete @0.0
say 1 true
ask 1 all E = []
end a Done
",
    ),
    (
        "// The first to arrive at the server has the seat.\n\
         schema { array Seat[row: int, place: int] { who: CString } }\n\
         client ann { Seat[1, 2].who.setIfEmpty(\"ann\"); flush; print Seat[1, 2].who; }\n\
         client bob { Seat[1, 2].who.setIfEmpty(\"bob\"); print Seat[1, 2].who; flush; print \
         Seat[1, 2].who; Seat[1, 2].who.set(\"\"); Seat[1, 2].who.setIfEmpty(\"eve\"); flush; \
         }\n\
         client cat { flush; flush; print Seat[1, 2].who; foreach r, p in entries Seat.who { \
         print r * 10 + p; } }\n\
         schedule { bob 3; ann 2; serve bob pass; serve ann pass; }\n",
        r#"schema {
  array Seat[row: int, place: int] {
    who: CString;
  }
}
client ann {
  Seat[1, 2].who.setIfEmpty("ann");
  flush;
  print Seat[1, 2].who;
}
client bob {
  Seat[1, 2].who.setIfEmpty("bob");
  print Seat[1, 2].who;
  flush;
  print Seat[1, 2].who;
  Seat[1, 2].who.set("");
  Seat[1, 2].who.setIfEmpty("eve");
  flush;
}
client cat {
  flush;
  flush;
  print Seat[1, 2].who;
  foreach r, p in entries Seat.who {
    print (r * 10) + p;
  }
}
schedule {
  bob 3;
  ann 2;
  serve bob pass;
  serve ann pass;
}
"#,
        r#"client ann
0 begin
1 push 1
2 push 2
3 push "ann"
4 put.empty 0 2
5 begin
6 flush
7 begin
8 push 1
9 push 2
10 get 0 2
11 say
12 end
client bob
0 begin
1 push 1
2 push 2
3 push "bob"
4 put.empty 0 2
5 begin
6 push 1
7 push 2
8 get 0 2
9 say
10 begin
11 flush
12 begin
13 push 1
14 push 2
15 get 0 2
16 say
17 begin
18 push 1
19 push 2
20 push ""
21 put.set 0 2
22 begin
23 push 1
24 push 2
25 push "eve"
26 put.empty 0 2
27 begin
28 flush
29 end
client cat
0 begin
1 flush
2 begin
3 flush
4 begin
5 push 1
6 push 2
7 get 0 2
8 say
9 begin
10 entries 0
11 next 22 2
12 store 1
13 store 0
14 begin
15 load 0
16 push 10
17 mul
18 load 1
19 add
20 say
21 jump 11
22 end
"#,
        r#"fork 0 1 ann
fork 0 2 bob
fork 0 3 cat
do 1 Seat[1, 2].who.setIfEmpty("ann")
mark 1 flush
fork 1 4 ann
join 0 1
fork 0 5 ann
do 2 Seat[1, 2].who.setIfEmpty("bob")
ask 2 Seat[1, 2].who = "bob"
say 2 "bob"
mark 2 flush
fork 2 6 bob
join 0 2
fork 0 7 bob
mark 3 flush
fork 3 8 cat
join 0 3
fork 0 9 cat
join 9 8
mark 9 flush
fork 9 10 cat
join 0 9
fork 0 11 cat
join 7 6
ask 7 Seat[1, 2].who = "ann"
say 7 "ann"
do 7 Seat[1, 2].who.set("")
do 7 Seat[1, 2].who.setIfEmpty("eve")
mark 7 flush
fork 7 12 bob
join 0 7
fork 0 13 bob
join 5 4
ask 5 Seat[1, 2].who = "ann"
say 5 "ann"
join 13 12
join 11 10
ask 11 Seat[1, 2].who = "ann"
say 11 "ann"
ask 11 entries Seat.who = [(1, 2)]
say 11 12
end ann Done
end bob Done
end cat Done
"#,
    ),
    (
        "schema { global g : CInt; }\n\
         client a {\n\
         \x20 g.add(7);\n\
         \x20 print g % 4;\n\
         \x20 print -7 / 2;\n\
         \x20 print 7 % -2;\n\
         \x20 if g > 6 and (g == 7 or 1 / 0 == 1) { print \"right\"; }\n\
         \x20 yield;\n\
         \x20 g.set(\n\
         \x20   g / (g - 7));\n\
         \x20 print g;\n\
         }\n\
         client b { print \"a\\\"b\" ++ \"\\\\\"; print not (1 < 2) or \"a\" < \"b\"; print \
         9223372036854775807 + 1; }\n",
        r#"schema {
  global g : CInt;
}
client a {
  g.add(7);
  print g % 4;
  print (-7) / 2;
  print 7 % (-2);
  if (g > 6) and ((g == 7) or ((1 / 0) == 1)) {
    print "right";
  }
  yield;
  g.set(g / (g - 7));
  print g;
}
client b {
  print "a\"b" ++ "\\";
  print (not (1 < 2)) or ("a" < "b");
  print 9223372036854775807 + 1;
}
"#,
        r#"client a
0 begin
1 push 7
2 put.add 0 0
3 begin
4 get 0 0
5 push 4
6 rem 4
7 say
8 begin
9 push 7
10 neg
11 push 2
12 div 5
13 say
14 begin
15 push 7
16 push 2
17 neg
18 rem 6
19 say
20 begin
21 get 0 0
22 push 6
23 gt
24 jumpf 37
25 get 0 0
26 push 7
27 eq
28 jumpf 31
29 push true
30 jump 36
31 push 1
32 push 0
33 div 7
34 push 1
35 eq
36 jump 38
37 push false
38 jumpf 42
39 begin
40 push "right"
41 say
42 begin
43 yield
44 begin
45 get 0 0
46 get 0 0
47 push 7
48 sub
49 div 9
50 put.set 0 0
51 begin
52 get 0 0
53 say
54 end
client b
0 begin
1 push "a\"b"
2 push "\\"
3 cat
4 say
5 begin
6 push 1
7 push 2
8 lt
9 not
10 jumpf 13
11 push true
12 jump 16
13 push "a"
14 push "b"
15 lt
16 say
17 begin
18 push 9223372036854775807
19 push 1
20 add
21 say
22 end
"#,
        r#"fork 0 1 a
fork 0 2 b
do 1 g.add(7)
ask 1 g = 7
say 1 3
say 1 -3
say 1 1
ask 1 g = 7
ask 1 g = 7
say 1 "right"
mark 1 yield
fork 1 3 a
join 0 1
ask 3 g = 7
ask 3 g = 7
say 2 "a\"b\\"
say 2 true
say 2 -9223372036854775808
end a Trap 9
end b Done
"#,
    ),
    (
        "schema { global g : CInt; global s : CString; }\n\
         client a { g.set(9223372036854775807); g.add(1); print g; g.add(-1); print g; print g \
         * 2; print -9223372036854775807 - 1; \
         s.set(\"0123456789012345678901234567890123456789012345678901234567890123456789\"); \
         s.set(s ++ s); print s; s.setIfEmpty(\"no\"); print s == s ++ \"x\"; }\n",
        r#"schema {
  global g : CInt;
  global s : CString;
}
client a {
  g.set(9223372036854775807);
  g.add(1);
  print g;
  g.add(-1);
  print g;
  print g * 2;
  print (-9223372036854775807) - 1;
  s.set("0123456789012345678901234567890123456789012345678901234567890123456789");
  s.set(s ++ s);
  print s;
  s.setIfEmpty("no");
  print s == (s ++ "x");
}
"#,
        r#"client a
0 begin
1 push 9223372036854775807
2 put.set 0 0
3 begin
4 push 1
5 put.add 0 0
6 begin
7 get 0 0
8 say
9 begin
10 push 1
11 neg
12 put.add 0 0
13 begin
14 get 0 0
15 say
16 begin
17 get 0 0
18 push 2
19 mul
20 say
21 begin
22 push 9223372036854775807
23 neg
24 push 1
25 sub
26 say
27 begin
28 push "0123456789012345678901234567890123456789012345678901234567890123456789"
29 put.set 1 0
30 begin
31 get 1 0
32 get 1 0
33 cat
34 put.set 1 0
35 begin
36 get 1 0
37 say
38 begin
39 push "no"
40 put.empty 1 0
41 begin
42 get 1 0
43 get 1 0
44 push "x"
45 cat
46 eq
47 say
48 end
"#,
        "fork 0 1 a\n\
         do 1 g.set(9223372036854775807)\n\
         do 1 g.add(1)\n\
         ask 1 g = -9223372036854775808\n\
         say 1 -9223372036854775808\n\
         do 1 g.add(-1)\n\
         ask 1 g = 9223372036854775807\n\
         say 1 9223372036854775807\n\
         ask 1 g = 9223372036854775807\n\
         say 1 -2\n\
         say 1 -9223372036854775808\n\
         do 1 \
         s.set(\"0123456789012345678901234567890123456789012345678901234567890123456789\")\n\
         ask 1 s = \"0123456789012345678901234567890123456789012345678901234567890123456789\"\n\
         ask 1 s = \"0123456789012345678901234567890123456789012345678901234567890123456789\"\n\
         do 1 \
         s.set(\"012345678901234567890123456789012345678901234567890123456789012345678901234567\
         89012345678901234567890123456789012345678901234567\")\n\
         ask 1 s = \
         \"012345678901234567890123456789012345678901234567890123456789012345678901234567890123\
         45678901234567890123456789012345678901234567\"\n\
         say 1 \
         \"012345678901234567890123456789012345678901234567890123456789012345678901234567890123\
         45678901234567890123456789012345678901234567\"\n\
         do 1 s.setIfEmpty(\"no\")\n\
         ask 1 s = \
         \"012345678901234567890123456789012345678901234567890123456789012345678901234567890123\
         45678901234567890123456789012345678901234567\"\n\
         ask 1 s = \
         \"012345678901234567890123456789012345678901234567890123456789012345678901234567890123\
         45678901234567890123456789012345678901234567\"\n\
         say 1 true\n\
         end a Done\n",
    ),
];
