// Whole sources, their canonical texts, their listings and the reports of their runs.

pub(crate) const SOURCES: &[(&str, &str, &str, &str)] = &[
    (
        "// A loop that never ends runs out of turns.
schema { }
client a { var i = 0; while true { i = i + 1; } }
client b { var i = 5000; while i < 10001 { i = i + 5000; } print i; }
",
        "schema {
}
client a {
  var i = 0;
  while true {
    i = i + 1;
  }
}
client b {
  var i = 5000;
  while i < 10001 {
    i = i + 5000;
  }
  print i;
}
",
        "client a
0 begin
1 push 0
2 store 0
3 begin
4 push true
5 jumpf 12
6 begin
7 load 0
8 push 1
9 add
10 store 0
11 jump 3
12 end
client b
0 begin
1 push 5000
2 store 0
3 begin
4 load 0
5 push 10001
6 lt
7 jumpf 14
8 begin
9 load 0
10 push 5000
11 add
12 store 0
13 jump 3
14 begin
15 load 0
16 say
17 end
",
        "fork 0 1 a
fork 0 2 b
say 2 15000
end a Spent
end b Done
",
    ),
    (
        "schema { global g : CInt; array A[k: string] { p: CInt } }\n\
         client a { g.add(1); A[\"a\"].p.add(1); flush; flush; print g; }\n\
         client b { g.add(1); A[\"b\"].p.add(1); flush; flush; print g; }\n\
         client c { g.add(1); A[\"a\"].p.add(1); yield; print g; }\n\
         client d { g.set(9); flush; print g; }\n\
         client e { print g; yield; yield; yield; foreach k in entries A.p { print k; } }\n\
         client f { }\n\
         client h { g.add(1); }\n\
         client i { flush; print g; }\n\
         schedule { i 1; a 3; b 3; serve b hold; serve a pass; d 2; serve d twice; c 4; serve \
         c losepush; e 2; serve e pass; }\n",
        r#"schema {
  global g : CInt;
  array A[k: string] {
    p: CInt;
  }
}
client a {
  g.add(1);
  A["a"].p.add(1);
  flush;
  flush;
  print g;
}
client b {
  g.add(1);
  A["b"].p.add(1);
  flush;
  flush;
  print g;
}
client c {
  g.add(1);
  A["a"].p.add(1);
  yield;
  print g;
}
client d {
  g.set(9);
  flush;
  print g;
}
client e {
  print g;
  yield;
  yield;
  yield;
  foreach k in entries A.p {
    print k;
  }
}
client f {
}
client h {
  g.add(1);
}
client i {
  flush;
  print g;
}
schedule {
  i 1;
  a 3;
  b 3;
  serve b hold;
  serve a pass;
  d 2;
  serve d twice;
  c 4;
  serve c losepush;
  e 2;
  serve e pass;
}
"#,
        r#"client a
0 begin
1 push 1
2 put.add 0 0
3 begin
4 push "a"
5 push 1
6 put.add 1 1
7 begin
8 flush
9 begin
10 flush
11 begin
12 get 0 0
13 say
14 end
client b
0 begin
1 push 1
2 put.add 0 0
3 begin
4 push "b"
5 push 1
6 put.add 1 1
7 begin
8 flush
9 begin
10 flush
11 begin
12 get 0 0
13 say
14 end
client c
0 begin
1 push 1
2 put.add 0 0
3 begin
4 push "a"
5 push 1
6 put.add 1 1
7 begin
8 yield
9 begin
10 get 0 0
11 say
12 end
client d
0 begin
1 push 9
2 put.set 0 0
3 begin
4 flush
5 begin
6 get 0 0
7 say
8 end
client e
0 begin
1 get 0 0
2 say
3 begin
4 yield
5 begin
6 yield
7 begin
8 yield
9 begin
10 entries 1
11 next 17 1
12 store 0
13 begin
14 load 0
15 say
16 jump 11
17 end
client f
0 end
client h
0 begin
1 push 1
2 put.add 0 0
3 end
client i
0 begin
1 flush
2 begin
3 get 0 0
4 say
5 end
"#,
        r#"fork 0 1 a
fork 0 2 b
fork 0 3 c
fork 0 4 d
fork 0 5 e
fork 0 6 f
fork 0 7 h
fork 0 8 i
do 2 g.add(1)
do 2 A["b"].p.add(1)
mark 2 flush
fork 2 9 b
join 0 2
fork 0 10 b
do 1 g.add(1)
do 1 A["a"].p.add(1)
mark 1 flush
fork 1 11 a
join 0 1
fork 0 12 a
do 4 g.set(9)
mark 4 flush
fork 4 13 d
join 0 4
fork 0 14 d
ask 5 g = 0
say 5 0
mark 5 yield
fork 5 15 e
join 0 5
fork 0 16 e
mark 8 flush
fork 8 17 i
join 0 8
fork 0 18 i
join 12 11
mark 12 flush
fork 12 19 a
join 0 12
fork 0 20 a
join 10 9
mark 10 flush
fork 10 21 b
join 0 10
fork 0 22 b
mark 15 yield
join 16 15
fork 16 23 e
join 0 16
fork 0 24 e
mark 23 yield
join 24 23
fork 24 25 e
join 0 24
join 20 19
ask 20 g = 9
say 20 9
join 22 21
ask 22 g = 9
say 22 9
do 3 g.add(1)
do 3 A["a"].p.add(1)
mark 3 yield
fork 3 26 c
ask 26 g = 1
say 26 1
join 14 13
ask 14 g = 9
say 14 9
ask 25 entries A.p = [("a"), ("b")]
say 25 "a"
say 25 "b"
do 7 g.add(1)
join 18 17
ask 18 g = 9
say 18 9
end a Done
end b Done
end c Done
end d Done
end e Done
end f Done
end h Done
end i Done
"#,
    ),
    (
        "schema { } client a { yield; flush; } client b { } schedule { serve b pass; a 1; \
         serve a pass; }\n",
        "schema {
}
client a {
  yield;
  flush;
}
client b {
}
schedule {
  serve b pass;
  a 1;
  serve a pass;
}
",
        "client a
0 begin
1 yield
2 begin
3 flush
4 end
client b
0 end
",
        "fork 0 1 a
fork 0 2 b
mark 1 yield
fork 1 3 a
join 0 1
fork 0 4 a
mark 3 flush
join 4 3
fork 4 5 a
join 0 4
fork 0 6 a
join 6 5
end a Done
end b Done
",
    ),
    (
        "// Every fate once, on one client's pushes, and another that watches.\n\
         schema { global n : CInt; }\n\
         client a { n.add(1); yield; n.add(10); yield; n.add(100); yield; n.add(1000); yield; \
         n.add(10000); yield; n.add(100000); flush; print n; }\n\
         client b { yield; yield; yield; yield; print n; flush; print n; }\n\
         schedule {\n\
         \x20 a 2; serve a hold; a 2; serve a twice; a 2; serve a losepush; a 2; serve a \
         losereply; a 2; serve a pass; a 1;\n\
         \x20 b 1; serve b pass; b 1; serve b hold; b 1; serve b losereply; b 2;\n\
         }\n",
        "schema {
  global n : CInt;
}
client a {
  n.add(1);
  yield;
  n.add(10);
  yield;
  n.add(100);
  yield;
  n.add(1000);
  yield;
  n.add(10000);
  yield;
  n.add(100000);
  flush;
  print n;
}
client b {
  yield;
  yield;
  yield;
  yield;
  print n;
  flush;
  print n;
}
schedule {
  a 2;
  serve a hold;
  a 2;
  serve a twice;
  a 2;
  serve a losepush;
  a 2;
  serve a losereply;
  a 2;
  serve a pass;
  a 1;
  b 1;
  serve b pass;
  b 1;
  serve b hold;
  b 1;
  serve b losereply;
  b 2;
}
",
        "client a
0 begin
1 push 1
2 put.add 0 0
3 begin
4 yield
5 begin
6 push 10
7 put.add 0 0
8 begin
9 yield
10 begin
11 push 100
12 put.add 0 0
13 begin
14 yield
15 begin
16 push 1000
17 put.add 0 0
18 begin
19 yield
20 begin
21 push 10000
22 put.add 0 0
23 begin
24 yield
25 begin
26 push 100000
27 put.add 0 0
28 begin
29 flush
30 begin
31 get 0 0
32 say
33 end
client b
0 begin
1 yield
2 begin
3 yield
4 begin
5 yield
6 begin
7 yield
8 begin
9 get 0 0
10 say
11 begin
12 flush
13 begin
14 get 0 0
15 say
16 end
",
        "fork 0 1 a
fork 0 2 b
do 1 n.add(1)
mark 1 yield
fork 1 3 a
join 0 1
fork 0 4 a
do 3 n.add(10)
mark 3 yield
join 4 3
fork 4 5 a
join 0 4
fork 0 6 a
do 5 n.add(100)
mark 5 yield
join 6 5
fork 6 7 a
join 0 6
fork 0 8 a
mark 2 yield
fork 2 9 b
join 0 2
fork 0 10 b
mark 9 yield
join 10 9
fork 10 11 b
join 0 10
fork 0 12 b
mark 11 yield
join 12 11
fork 12 13 b
join 0 12
do 7 n.add(1000)
mark 7 yield
do 7 n.add(10000)
mark 7 yield
do 7 n.add(100000)
mark 7 flush
join 8 7
fork 8 14 a
join 0 8
fork 0 15 a
fork 0 16 b
mark 13 yield
ask 13 n = 111
say 13 111
mark 13 flush
join 16 13
fork 16 17 b
join 0 16
fork 0 18 b
join 15 14
ask 15 n = 111111
say 15 111111
join 18 17
ask 18 n = 111111
say 18 111111
end a Done
end b Done
",
    ),
];
