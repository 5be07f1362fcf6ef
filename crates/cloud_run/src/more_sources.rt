// More whole sources.

pub(crate) const MORE_SOURCES: &[(&str, &str, &str, &str)] = &[
    (
        "// Two people and one list, each offline for a while.\n\
         schema { array Grocery[item: string] { need: CInt; note: CString } global shops : \
         CInt; }\n\
         client ann {\n\
         \x20 Grocery[\"milk\"].need.add(2);\n\
         \x20 Grocery[\"tea\"].need.add(1);\n\
         \x20 yield;\n\
         \x20 Grocery[\"milk\"].note.setIfEmpty(\"oat\");\n\
         \x20 flush;\n\
         \x20 foreach i in entries Grocery.need { print i; print Grocery[i].need; print \
         Grocery[i].note; }\n\
         }\n\
         client bob {\n\
         \x20 Grocery[\"milk\"].need.add(3);\n\
         \x20 Grocery[\"milk\"].note.setIfEmpty(\"fresh\");\n\
         \x20 shops.add(1);\n\
         \x20 flush;\n\
         \x20 Grocery[\"milk\"].need.add(-5);\n\
         \x20 yield;\n\
         \x20 foreach i in entries Grocery.need { print i; }\n\
         \x20 print shops;\n\
         }\n\
         schedule { ann 4; bob 5; serve bob hold; bob 1; serve ann losereply; ann 2; serve bob \
         pass; serve ann pass; bob 3; }\n",
        r#"schema {
  array Grocery[item: string] {
    need: CInt;
    note: CString;
  }
  global shops : CInt;
}
client ann {
  Grocery["milk"].need.add(2);
  Grocery["tea"].need.add(1);
  yield;
  Grocery["milk"].note.setIfEmpty("oat");
  flush;
  foreach i in entries Grocery.need {
    print i;
    print Grocery[i].need;
    print Grocery[i].note;
  }
}
client bob {
  Grocery["milk"].need.add(3);
  Grocery["milk"].note.setIfEmpty("fresh");
  shops.add(1);
  flush;
  Grocery["milk"].need.add(-5);
  yield;
  foreach i in entries Grocery.need {
    print i;
  }
  print shops;
}
schedule {
  ann 4;
  bob 5;
  serve bob hold;
  bob 1;
  serve ann losereply;
  ann 2;
  serve bob pass;
  serve ann pass;
  bob 3;
}
"#,
        r#"client ann
0 begin
1 push "milk"
2 push 2
3 put.add 1 1
4 begin
5 push "tea"
6 push 1
7 put.add 1 1
8 begin
9 yield
10 begin
11 push "milk"
12 push "oat"
13 put.empty 2 1
14 begin
15 flush
16 begin
17 entries 1
18 next 32 1
19 store 0
20 begin
21 load 0
22 say
23 begin
24 load 0
25 get 1 1
26 say
27 begin
28 load 0
29 get 2 1
30 say
31 jump 18
32 end
client bob
0 begin
1 push "milk"
2 push 3
3 put.add 1 1
4 begin
5 push "milk"
6 push "fresh"
7 put.empty 2 1
8 begin
9 push 1
10 put.add 0 0
11 begin
12 flush
13 begin
14 push "milk"
15 push 5
16 neg
17 put.add 1 1
18 begin
19 yield
20 begin
21 entries 1
22 next 28 1
23 store 0
24 begin
25 load 0
26 say
27 jump 22
28 begin
29 get 0 0
30 say
31 end
"#,
        r#"fork 0 1 ann
fork 0 2 bob
do 2 Grocery["milk"].need.add(3)
do 2 Grocery["milk"].note.setIfEmpty("fresh")
do 2 shops.add(1)
mark 2 flush
fork 2 3 bob
join 0 2
fork 0 4 bob
do 1 Grocery["milk"].need.add(2)
do 1 Grocery["tea"].need.add(1)
mark 1 yield
fork 1 5 ann
join 0 1
fork 0 6 ann
do 5 Grocery["milk"].note.setIfEmpty("oat")
mark 5 flush
join 6 5
fork 6 7 ann
join 0 6
fork 0 8 ann
join 4 3
do 4 Grocery["milk"].need.add(-5)
mark 4 yield
fork 4 9 bob
join 0 4
join 8 7
ask 8 entries Grocery.need = [("milk"), ("tea")]
say 8 "milk"
ask 8 Grocery["milk"].need = 5
say 8 5
ask 8 Grocery["milk"].note = "fresh"
say 8 "fresh"
say 8 "tea"
ask 8 Grocery["tea"].need = 1
say 8 1
ask 8 Grocery["tea"].note = ""
say 8 ""
ask 9 entries Grocery.need = [("milk")]
say 9 "milk"
ask 9 shops = 1
say 9 1
end ann Done
end bob Done
"#,
    ),
    (
        "// A flush whose push is lost is pushed again by the sweeps.\n\
         schema { global g : CInt; global s : CString; }\n\
         client a { g.add(1); s.set(\"a\"); flush; g.add(2); flush; print g; print s; }\n\
         client b { g.add(4); s.setIfEmpty(\"b\"); yield; yield; print g; print s; flush; \
         print g; print s; }\n\
         schedule { b 3; a 3; serve a losepush; a 1; serve a losereply; a 1; serve b hold; b \
         1; serve b pass; serve a twice; }\n",
        r#"schema {
  global g : CInt;
  global s : CString;
}
client a {
  g.add(1);
  s.set("a");
  flush;
  g.add(2);
  flush;
  print g;
  print s;
}
client b {
  g.add(4);
  s.setIfEmpty("b");
  yield;
  yield;
  print g;
  print s;
  flush;
  print g;
  print s;
}
schedule {
  b 3;
  a 3;
  serve a losepush;
  a 1;
  serve a losereply;
  a 1;
  serve b hold;
  b 1;
  serve b pass;
  serve a twice;
}
"#,
        r#"client a
0 begin
1 push 1
2 put.add 0 0
3 begin
4 push "a"
5 put.set 1 0
6 begin
7 flush
8 begin
9 push 2
10 put.add 0 0
11 begin
12 flush
13 begin
14 get 0 0
15 say
16 begin
17 get 1 0
18 say
19 end
client b
0 begin
1 push 4
2 put.add 0 0
3 begin
4 push "b"
5 put.empty 1 0
6 begin
7 yield
8 begin
9 yield
10 begin
11 get 0 0
12 say
13 begin
14 get 1 0
15 say
16 begin
17 flush
18 begin
19 get 0 0
20 say
21 begin
22 get 1 0
23 say
24 end
"#,
        r#"fork 0 1 a
fork 0 2 b
do 1 g.add(1)
do 1 s.set("a")
mark 1 flush
fork 1 3 a
join 0 1
do 2 g.add(4)
do 2 s.setIfEmpty("b")
mark 2 yield
fork 2 4 b
join 0 2
fork 0 5 b
mark 4 yield
join 5 4
fork 5 6 b
join 0 5
fork 0 7 a
fork 0 8 b
join 7 3
do 7 g.add(2)
mark 7 flush
fork 7 9 a
join 0 7
fork 0 10 a
ask 6 g = 5
say 6 5
ask 6 s = "a"
say 6 "a"
mark 6 flush
join 8 6
fork 8 11 b
join 0 8
fork 0 12 b
join 10 9
ask 10 g = 7
say 10 7
ask 10 s = "a"
say 10 "a"
join 12 11
ask 12 g = 7
say 12 7
ask 12 s = "a"
say 12 "a"
end a Done
end b Done
"#,
    ),
    (
        r#"// Orders die with their customer, and what is kept by order dies with the order.
schema {
  entity Customer { name: CString }
  entity Order[of: Customer] { total: CInt }
  array Line[o: Order, item: string] { count: CInt }
}
client shop {
  var c = new Customer;
  c.name.set("Ada");
  var o = new Order[c];
  o.total.add(10);
  Line[o, "pen"].count.add(3);
  flush;
  foreach d in all Order { print d; print d.total; print Line[d, "pen"].count; }
  flush;
  print alive o;
  print o.total;
  print Line[o, "pen"].count;
  foreach d in all Order { print d; }
  foreach d, i in entries Line.count { print i; }
}
client desk {
  flush;
  foreach c in all Customer { print c.name; delete c; }
  foreach o in all Order { print o; }
  flush;
}
schedule { shop 7; serve shop twice; desk 2; serve desk pass; desk 8; serve desk losepush; }
"#,
        r#"schema {
  entity Customer {
    name: CString;
  }
  entity Order[of: Customer] {
    total: CInt;
  }
  array Line[o: Order, item: string] {
    count: CInt;
  }
}
client shop {
  var c = new Customer;
  c.name.set("Ada");
  var o = new Order[c];
  o.total.add(10);
  Line[o, "pen"].count.add(3);
  flush;
  foreach d in all Order {
    print d;
    print d.total;
    print Line[d, "pen"].count;
  }
  flush;
  print alive o;
  print o.total;
  print Line[o, "pen"].count;
  foreach d in all Order {
    print d;
  }
  foreach d, i in entries Line.count {
    print i;
  }
}
client desk {
  flush;
  foreach c in all Customer {
    print c.name;
    delete c;
  }
  foreach o in all Order {
    print o;
  }
  flush;
}
schedule {
  shop 7;
  serve shop twice;
  desk 2;
  serve desk pass;
  desk 8;
  serve desk losepush;
}
"#,
        r#"client shop
0 begin
1 new 0 0
2 store 0
3 begin
4 load 0
5 push "Ada"
6 put.set 0 1
7 begin
8 load 0
9 new 1 1
10 store 1
11 begin
12 load 1
13 push 10
14 put.add 1 1
15 begin
16 load 1
17 push "pen"
18 push 3
19 put.add 2 2
20 begin
21 flush
22 begin
23 all 1
24 next 39 1
25 store 2
26 begin
27 load 2
28 say
29 begin
30 load 2
31 get 1 1
32 say
33 begin
34 load 2
35 push "pen"
36 get 2 2
37 say
38 jump 24
39 begin
40 flush
41 begin
42 load 1
43 alive
44 say
45 begin
46 load 1
47 get 1 1
48 say
49 begin
50 load 1
51 push "pen"
52 get 2 2
53 say
54 begin
55 all 1
56 next 62 1
57 store 2
58 begin
59 load 2
60 say
61 jump 56
62 begin
63 entries 2
64 next 71 2
65 store 3
66 store 2
67 begin
68 load 3
69 say
70 jump 64
71 end
client desk
0 begin
1 flush
2 begin
3 all 0
4 next 14 1
5 store 0
6 begin
7 load 0
8 get 0 1
9 say
10 begin
11 load 0
12 delete
13 jump 4
14 begin
15 all 1
16 next 22 1
17 store 0
18 begin
19 load 0
20 say
21 jump 16
22 begin
23 flush
24 end
"#,
        r#"fork 0 1 shop
fork 0 2 desk
do 1 new Customer = @0.0
do 1 Customer[@0.0].name.set("Ada")
do 1 new Order[@0.0] = @0.1
do 1 Order[@0.1].total.add(10)
do 1 Line[@0.1, "pen"].count.add(3)
mark 1 flush
fork 1 3 shop
join 0 1
fork 0 4 shop
mark 2 flush
fork 2 5 desk
join 0 2
fork 0 6 desk
join 6 5
ask 6 all Customer = [@0.0]
ask 6 Customer[@0.0].name = "Ada"
say 6 "Ada"
do 6 delete @0.0
ask 6 all Order = []
mark 6 flush
fork 6 7 desk
join 0 6
fork 0 8 desk
join 4 3
ask 4 all Order = [@0.1]
say 4 @0.1
ask 4 Order[@0.1].total = 10
say 4 10
ask 4 Line[@0.1, "pen"].count = 3
say 4 3
mark 4 flush
fork 4 9 shop
join 0 4
fork 0 10 shop
join 10 9
ask 10 alive @0.1 = false
say 10 false
ask 10 Order[@0.1].total = 0
say 10 0
ask 10 Line[@0.1, "pen"].count = 0
say 10 0
ask 10 all Order = []
ask 10 entries Line.count = []
join 8 7
end shop Done
end desk Done
"#,
    ),
];
