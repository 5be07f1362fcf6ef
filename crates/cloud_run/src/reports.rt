// Sources and the reports of their runs.

pub(crate) const REPORTS: &[(&str, &str)] = &[
    (
        "schema { global g : CInt; }
client a { g.set(9223372036854775807); g.add(1); print g; }",
        "fork 0 1 a
do 1 g.set(9223372036854775807)
do 1 g.add(1)
ask 1 g = -9223372036854775808
say 1 -9223372036854775808
end a Done
",
    ),
    (
        "schema { global g : CInt; } client a { g.add(2); print g; yield; print g; }",
        "fork 0 1 a
do 1 g.add(2)
ask 1 g = 2
say 1 2
mark 1 yield
fork 1 2 a
join 0 1
ask 2 g = 2
say 2 2
end a Done
",
    ),
    (
        "schema { global g : CInt; }
client a { g.add(2); print g; yield; print g; yield; print g; }",
        "fork 0 1 a
do 1 g.add(2)
ask 1 g = 2
say 1 2
mark 1 yield
fork 1 2 a
join 0 1
fork 0 3 a
ask 2 g = 2
say 2 2
mark 2 yield
join 3 2
fork 3 4 a
join 0 3
ask 4 g = 2
say 4 2
end a Done
",
    ),
    (
        "schema { } client a { print 7 / -2; print 7 % -2; print -7 / 2; }",
        "fork 0 1 a
say 1 -3
say 1 1
say 1 -3
end a Done
",
    ),
    (
        "schema { entity E { n: CInt } }
client a { var x = new E; x.n.add(4); print x.n; delete x; print x.n; print alive x; }",
        "fork 0 1 a
do 1 new E = @0.0
do 1 E[@0.0].n.add(4)
ask 1 E[@0.0].n = 4
say 1 4
do 1 delete @0.0
ask 1 E[@0.0].n = 0
say 1 0
ask 1 alive @0.0 = false
say 1 false
end a Done
",
    ),
    (
        "schema { entity E { } entity F[e: E] { } array A[f: F, n: int] { t: CString } }
client a {
  var e = new E;
  var f = new F[e];
  A[f, 1].t.setIfEmpty(\"x\");
  yield;
  delete e;
  A[f, 2].t.set(\"y\");
  yield;
  var g = new F[e];
  foreach x in all F { print x; }
  foreach x, n in entries A.t { print n; }
  print alive g;
}",
        "fork 0 1 a
do 1 new E = @0.0
do 1 new F[@0.0] = @0.1
do 1 A[@0.1, 1].t.setIfEmpty(\"x\")
mark 1 yield
fork 1 2 a
join 0 1
fork 0 3 a
do 2 delete @0.0
do 2 A[@0.1, 2].t.set(\"y\")
mark 2 yield
join 3 2
fork 3 4 a
join 0 3
do 4 new F[@0.0] = @0.2
ask 4 all F = []
ask 4 entries A.t = []
ask 4 alive @0.2 = false
say 4 false
end a Done
",
    ),
    (
        "schema { array A[k: int] { } } client a { if 1 < 2 and not false { yield; } }",
        "fork 0 1 a
mark 1 yield
fork 1 2 a
join 0 1
end a Done
",
    ),
    (
        "schema { } client a { while true { } }",
        "fork 0 1 a
end a Spent
",
    ),
    (
        "schema { global g : CInt; }
client a {
  g.add(1);
  print 1 / 0;
}",
        "fork 0 1 a
do 1 g.add(1)
end a Trap 4
",
    ),
    (
        "schema { }
client a { var x = \"xxxxxxxxxxxxxxxxxxxxxxxxxxxxxxxxxxxxxxxxxxxxxxxxxxxxxxxxxxxxxxxxxxxxxxxxx\
         xxxxxxxxxxxxxxxxxxxxxxxxxxx\"; print x ++ x; }",
        "fork 0 1 a
say 1 \"xxxxxxxxxxxxxxxxxxxxxxxxxxxxxxxxxxxxxxxxxxxxxxxxxxxxxxxxxxxxxxxxxxxxxxxxxxxxxxxxxxxx\
         xxxxxxxxxxxxxxxxxxxxxxxxxxxxxxxxxxxxxxxxxxxx\"
end a Done
",
    ),
];
