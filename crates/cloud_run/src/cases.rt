// Sources, the line of the status of `check`, and what it writes.

pub(crate) const CASES: &[(&str, &str, &str)] = &[
    (
        "schema { global g : CInt; }
client a { h.add(1);
 print ; }",
        "syntax 3 8",
        "",
    ),
    ("schema { } client a { print \"ab", "syntax 1 29", ""),
    ("schema { } client a {", "syntax 1 22", ""),
    ("schema { } client a { x 1; }", "syntax 1 25", ""),
    ("schema { } client a { print A[1; }", "syntax 1 32", ""),
    (
        "schema { } client a { print 1 < 2 < 3; }",
        "syntax 1 35",
        "",
    ),
    (
        "schema{global g:CInt;array A[k:int]{p:CInt;q:CString}}client a{A[1+2*3].p.add(-1);if \
         g==1 or true{yield;}}",
        "",
        "schema {
  global g : CInt;
  array A[k: int] {
    p: CInt;
    q: CString;
  }
}
client a {
  A[1 + (2 * 3)].p.add(-1);
  if (g == 1) or true {
    yield;
  }
}
",
    ),
    (
        "schema { global g : CInt; global s : CString; entity E { q: CInt } array A[k: int, \
         e: E] { p: CInt } array B[k: string] { p: CInt; t: CString } entity F[of: E, n: int] \
         { q: CString } }\nclient a { B[\"x\"].add(1); }",
        "syntax 2 19",
        "",
    ),
    (
        "schema { global g : CInt; global s : CString; entity E { q: CInt } array A[k: int, \
         e: E] { p: CInt } array B[k: string] { p: CInt; t: CString } entity F[of: E, n: int] \
         { q: CString } }\nclient E { } client g { print g; }",
        "",
        "schema {
  global g : CInt;
  global s : CString;
  entity E {
    q: CInt;
  }
  array A[k: int, e: E] {
    p: CInt;
  }
  array B[k: string] {
    p: CInt;
    t: CString;
  }
  entity F[of: E, n: int] {
    q: CString;
  }
}
client E {
}
client g {
  print g;
}
",
    ),
    (
        "schema { global g : CInt; global s : CString; entity E { q: CInt } array A[k: int, \
         e: E] { p: CInt } array B[k: string] { p: CInt; t: CString } entity F[of: E, n: int] \
         { q: CString } }\nclient a { print not 1 == 1; }",
        "",
        "schema {
  global g : CInt;
  global s : CString;
  entity E {
    q: CInt;
  }
  array A[k: int, e: E] {
    p: CInt;
  }
  array B[k: string] {
    p: CInt;
    t: CString;
  }
  entity F[of: E, n: int] {
    q: CString;
  }
}
client a {
  print not (1 == 1);
}
",
    ),
    (
        "schema { global g : CInt; } client a { g.add(1) }",
        "syntax 1 49",
        "",
    ),
    ("schema { global g : CInt } client a { }", "syntax 1 26", ""),
    ("schema { } client a { print 1 }", "syntax 1 31", ""),
    ("schema { } client a { print (1; }", "syntax 1 31", ""),
    ("schema { } client a { print 1 + ; }", "syntax 1 33", ""),
    ("schema { } client a { yield }", "syntax 1 29", ""),
    ("schema { } client a { var new = 1; }", "syntax 1 27", ""),
    (
        "schema { } client a { } schedule { a -1; }",
        "syntax 1 38",
        "",
    ),
    ("schema { } client a { } x", "syntax 1 25", ""),
    ("schema { } client a { print \"abc; }", "syntax 1 29", ""),
    ("schema { } client a { print 1 # 2; }", "syntax 1 31", ""),
    (
        "schema { } client a { if true { } else if true { } }",
        "syntax 1 40",
        "",
    ),
    (
        "schema { } client a { print not 1 == not 1; }",
        "syntax 1 38",
        "",
    ),
    (
        "schema { } client a { print 1 == 1 == 1; }",
        "syntax 1 36",
        "",
    ),
    (
        "schema { } client a { print 9223372036854775808; }",
        "limit Number",
        "",
    ),
    (
        "schema { } client a { print 00009223372036854775807; print -9223372036854775808; }",
        "limit Number",
        "",
    ),
    (
        "schema { } client a { print \
         ((((((((((((((((((((((((((((((((((((((((((((((((((((((((((((1))))))))))))))))))))))))\
         )))))))))))))))))))))))))))))))))))); }",
        "",
        "schema {
}
client a {
  print 1;
}
",
    ),
    (
        "schema { } client a { print \
         ((((((((((((((((((((((((((((((((((((((((((((((((((((((((((((((((1))))))))))))))))))))\
         )))))))))))))))))))))))))))))))))))))))))))); }",
        "limit Brackets",
        "",
    ),
    (
        "schema { } client a { print - - - - - - - - - - - - - - - - - - - - - - - - - - - - \
         - 1; }",
        "",
        "schema {
}
client a {
  print -(-(-(-(-(-(-(-(-(-(-(-(-(-(-(-(-(-(-(-(-(-(-(-(-(-(-(-(-1))))))))))))))))))))))))))));
}
",
    ),
    (
        "schema { } client a { print - - - - - - - - - - - - - - - - - - - - - - - - - - - - \
         - - - - - - - - - - - - 1; }",
        "limit Height",
        "",
    ),
    (
        "schema { } client a { print \
         \"xxxxxxxxxxxxxxxxxxxxxxxxxxxxxxxxxxxxxxxxxxxxxxxxxxxxxxxxxxxxxxxxxxxxxxxxxxxxxxxxxxx\
         xxxxxxxxxxxxxxxxxxxxxxxxxxxxxxxxxxxxxxxxxxxxx\"; }",
        "",
        "schema {\n}\nclient a {\n  print \
         \"xxxxxxxxxxxxxxxxxxxxxxxxxxxxxxxxxxxxxxxxxxxxxxxxxxxxxxxxxxxxxxxxxxxxxxxxxxxxxxxxxxx\
         xxxxxxxxxxxxxxxxxxxxxxxxxxxxxxxxxxxxxxxxxxxxx\";\n}\n",
    ),
    (
        "schema { } client a { print \
         \"xxxxxxxxxxxxxxxxxxxxxxxxxxxxxxxxxxxxxxxxxxxxxxxxxxxxxxxxxxxxxxxxxxxxxxxxxxxxxxxxxxx\
         xxxxxxxxxxxxxxxxxxxxxxxxxxxxxxxxxxxxxxxxxxxxxx\"; }",
        "limit Text",
        "",
    ),
    (
        "schema { } client a { print \
         \"xxxxxxxxxxxxxxxxxxxxxxxxxxxxxxxxxxxxxxxxxxxxxxxxxxxxxxxxxxxxxxxxxxxxxxxxxxxxxxxxxxx\
         xxxxxxxxxxxxxxxxxxxxxxxxxxxxxxxxxxxxxxxxxxxx\\\"\"; }",
        "",
        "schema {\n}\nclient a {\n  print \
         \"xxxxxxxxxxxxxxxxxxxxxxxxxxxxxxxxxxxxxxxxxxxxxxxxxxxxxxxxxxxxxxxxxxxxxxxxxxxxxxxxxxx\
         xxxxxxxxxxxxxxxxxxxxxxxxxxxxxxxxxxxxxxxxxxxx\\\"\";\n}\n",
    ),
    ("schema { } client a { /", "syntax 1 23", ""),
    ("schema { } // no client", "syntax 1 24", ""),
    ("", "syntax 1 1", ""),
    (" ", "syntax 1 2", ""),
    (
        "schema { } client a { } client b { } client c { } client d { } client e { } client f \
         { } client g { } client h { } client i { }",
        "limit Clients",
        "",
    ),
    (
        "schema { } client a { } schedule { a 100000; }",
        "",
        "schema {
}
client a {
}
schedule {
  a 100000;
}
",
    ),
    (
        "schema { } client a { } schedule { a 60000; a 40001; }",
        "limit Steps",
        "",
    ),
    (
        "schema { } client a { }\r\n// end",
        "",
        "schema {
}
client a {
}
",
    ),
    (
        "schema { } client a { print 1<=2; print 1< =2; }",
        "syntax 1 44",
        "",
    ),
    (
        "schema { } client a { print \"tab\t\"; }",
        "syntax 1 29",
        "",
    ),
    ("schema { } client a { print \"\\n\"; }", "syntax 1 29", ""),
];
