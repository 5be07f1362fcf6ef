// Runs of several clients, and of pushes that are lost, repeated and held.

/// Sources and the reports of their runs.
pub(crate) const RUNS: &[(&str, &str)] = &[
    ("schema { } client a { }", "fork 0 1 a\nend a Done\n"),
    (
        "schema { } client a { } client b { } schedule { }",
        "fork 0 1 a
fork 0 2 b
end a Done
end b Done
",
    ),
    (
        "schema { entity E { } } client a { foreach e in all E { flush; } } schedule { a 1; }",
        "fork 0 1 a
ask 1 all E = []
end a Done
",
    ),
    (
        r#"schema { array Grocery[item: string] { quantity: CInt } }
client ann { Grocery["milk"].quantity.add(2); flush;
  print Grocery["milk"].quantity; }
client bob { Grocery["milk"].quantity.add(1);
  Grocery["eggs"].quantity.add(12); flush;
  foreach i in entries Grocery.quantity { print i; } }
client cy { yield; flush;
  foreach i in entries Grocery.quantity { print Grocery[i].quantity; } }
"#,
        r#"fork 0 1 ann
fork 0 2 bob
fork 0 3 cy
mark 3 yield
fork 3 4 cy
join 0 3
fork 0 5 cy
do 1 Grocery["milk"].quantity.add(2)
mark 1 flush
fork 1 6 ann
join 0 1
fork 0 7 ann
mark 4 flush
join 5 4
fork 5 8 cy
join 0 5
fork 0 9 cy
do 2 Grocery["milk"].quantity.add(1)
do 2 Grocery["eggs"].quantity.add(12)
mark 2 flush
fork 2 10 bob
join 0 2
fork 0 11 bob
join 7 6
ask 7 Grocery["milk"].quantity = 2
say 7 2
join 11 10
ask 11 entries Grocery.quantity = [("eggs"), ("milk")]
say 11 "eggs"
say 11 "milk"
join 9 8
ask 9 entries Grocery.quantity = [("milk")]
ask 9 Grocery["milk"].quantity = 2
say 9 2
end ann Done
end bob Done
end cy Done
"#,
    ),
    (
        "schema { entity Customer { } entity Order[c: Customer] { }
  array Note[o: Order] { n: CInt } }
client a { var c = new Customer; var o = new Order[c];
  Note[o].n.add(1); flush; delete c; flush; }
client b { flush; foreach o in all Order { Note[o].n.add(5);
  print Note[o].n; flush; print Note[o].n; print alive o; } }
schedule { a 4; serve a pass; b 1; serve b pass; a 1; b 1;
  a 2; serve a pass; b 5; serve b pass; }
",
        "fork 0 1 a
fork 0 2 b
do 1 new Customer = @0.0
do 1 new Order[@0.0] = @0.1
do 1 Note[@0.1].n.add(1)
mark 1 flush
fork 1 3 a
join 0 1
fork 0 4 a
mark 2 flush
fork 2 5 b
join 0 2
fork 0 6 b
join 4 3
do 4 delete @0.0
mark 4 flush
fork 4 7 a
join 0 4
fork 0 8 a
join 6 5
ask 6 all Order = [@0.1]
do 6 Note[@0.1].n.add(5)
ask 6 Note[@0.1].n = 6
say 6 6
mark 6 flush
fork 6 9 b
join 0 6
fork 0 10 b
join 8 7
join 10 9
ask 10 Note[@0.1].n = 0
say 10 0
ask 10 alive @0.1 = false
say 10 false
end a Done
end b Done
",
    ),
    (
        "schema { global g : CInt; } client a { g.add(1); flush; print g; }
schedule { a 2; serve a losepush; a 1; serve a losepush; a 1; serve a twice; }
",
        "fork 0 1 a
do 1 g.add(1)
mark 1 flush
fork 1 2 a
join 0 1
fork 0 3 a
join 3 2
ask 3 g = 1
say 3 1
end a Done
",
    ),
    (
        "schema { global g : CInt; } client a { g.add(1); yield; g.add(2); yield; print g; }
schedule { a 2; serve a hold; a 2; serve a pass; }
",
        "fork 0 1 a
do 1 g.add(1)
mark 1 yield
fork 1 2 a
join 0 1
fork 0 3 a
do 2 g.add(2)
mark 2 yield
join 3 2
fork 3 4 a
join 0 3
ask 4 g = 3
say 4 3
end a Done
",
    ),
    (
        "schema { global g : CInt; } client a { g.add(1); yield; g.add(2); yield; flush; print g; }
schedule { a 2; serve a losereply; a 2; }
",
        "fork 0 1 a
do 1 g.add(1)
mark 1 yield
fork 1 2 a
join 0 1
fork 0 3 a
do 2 g.add(2)
mark 2 yield
mark 2 flush
join 3 2
fork 3 4 a
join 0 3
fork 0 5 a
join 5 4
ask 5 g = 3
say 5 3
end a Done
",
    ),
    (
        "schema { } client a { flush; }",
        "fork 0 1 a
mark 1 flush
fork 1 2 a
join 0 1
fork 0 3 a
join 3 2
end a Done
",
    ),
];

/// Sources, and lines that their reports have in this order.
pub(crate) const TOLD: &[(&str, &[&str])] = &[
    (
        "schema { global g : CInt; } client a { g.set(5); flush; } client b { g.add(3); flush; }
client c { flush; print g; } schedule { a 2; serve a pass; b 2; serve b pass; }
",
        &["say 9 8"],
    ),
    (
        "schema { global g : CInt; } client a { g.set(5); flush; } client b { g.add(3); flush; }
client c { flush; print g; } schedule { b 2; serve b pass; a 2; serve a pass; }
",
        &["say 9 5"],
    ),
    (
        r#"schema { array Seat[n: int] { who: CString } }
client a { Seat[1].who.setIfEmpty("ann"); flush; print Seat[1].who; }
client b { Seat[1].who.setIfEmpty("bob"); print Seat[1].who; flush; print Seat[1].who; }
"#,
        &[r#"say 2 "bob""#, r#"say 4 "ann""#, r#"say 6 "ann""#],
    ),
    (
        "schema { entity Customer { } entity Order[c: Customer] { } }
client a { var c = new Customer; flush; delete c; flush; }
client b { flush; foreach c in all Customer { var o = new Order[c]; print alive o; flush;
  print alive o; } }
schedule { a 2; serve a pass; b 1; serve b pass; a 1; b 1; a 2; serve a pass; b 5; serve b pass; }
",
        &["do 6 new Order[@0.0] = @1.0", "say 6 true", "say 10 false"],
    ),
    (
        "schema { entity A { } entity B[a: A] { } entity C[b: B] { } }
client a { var x = new A; var y = new B[x]; var z = new C[y]; flush; delete x;
  foreach c in all C { print c; } print alive z; flush; }
client b { flush; foreach c in all C { print c; } flush; foreach c in all C { print c; } }
schedule { a 4; serve a pass; b 1; serve b pass; a 5; }
",
        &[
            "ask 4 all C = []",
            "say 4 false",
            "say 6 @0.2",
            "ask 10 all C = []",
        ],
    ),
];
