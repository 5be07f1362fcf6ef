// Sources that break a rule of kinds, and some that keep them, with the line of the status.

/// What is declared in the sources below, but for those alone.
pub(crate) const SHOP: &str = "schema { global g : CInt; global s : CString; entity E { q: CInt } \
    array A[k: int, e: E] { p: CInt } array B[k: string] { p: CInt; t: CString } \
    entity F[of: E, n: int] { q: CString } }\n";

/// Names that are taken.
pub(crate) const TAKEN: &[(&str, &str)] = &[
    ("client a { var x = 1; if true { var x = 2; } }", "kind 1 2"),
    ("client a { foreach k, k in entries A.p { } }", "kind 1 2"),
    ("client a { } client a { }", "kind 1 2"),
];

/// Names that are none of what is due.
pub(crate) const UNKNOWN: &[(&str, &str)] = &[
    ("client a { g = 1; }", "kind 2 2"),
    ("client a { var x = x; }", "kind 2 2"),
    ("client a { if true { var x = 1; } print x; }", "kind 2 2"),
    ("client a { print A; }", "kind 2 2"),
    ("client a { print s.q; }", "kind 2 2"),
    ("client a { print B[\"x\"].q; }", "kind 2 2"),
    ("client a { print alive g; }", "kind 2 2"),
    ("client a { x.q.add(1); }", "kind 2 2"),
    ("client a { var e = new E; e.p.add(1); }", "kind 2 2"),
];

/// Keys, by their number and kinds.
pub(crate) const KEYS: &[(&str, &str)] = &[
    ("client a { var e = new E; var f = new F[e]; }", "kind 4 2"),
    ("client a { foreach k in entries A.p { } }", "kind 4 2"),
    (
        "client a { var e = new E; var f = new F[1, e]; }",
        "kind 5 2",
    ),
];

/// Operations that a cell doesn't have, and operands of other kinds.
pub(crate) const OPERATIONS: &[(&str, &str)] = &[
    ("client a { g.setIfEmpty(1); }", "kind 6 2"),
    ("client a { s.add(\"x\"); }", "kind 6 2"),
    (
        "client a { var e = new E; var f = new F[e, 2]; print f.q; print e == f; }",
        "kind 7 2",
    ),
    ("client a { s.set(1); }", "kind 7 2"),
    ("client a { g.set(s); }", "kind 7 2"),
    ("client a { var x = 1; delete x; }", "kind 7 2"),
    (
        "client a { var x = true; x = 1 < 2; print x and 1; }",
        "kind 7 2",
    ),
    ("client a { print 1 + (2 + \"x\") + true; }", "kind 7 2"),
    ("client a { print -s; }", "kind 7 2"),
    ("client a { print \"a\" < 1; }", "kind 7 2"),
    ("client a { print true < false; }", "kind 7 2"),
    ("client a { print\n 1 +\n \"x\"; }", "kind 7 2"),
];

/// Assignments, conditions, entries and turns.
pub(crate) const OTHERS: &[(&str, &str)] = &[
    ("client a { foreach x in all E { x = 1; } }", "kind 8 2"),
    ("client a { while 1 + 1 { } }", "kind 9 2"),
    ("client a {\n if 1 {\n print x; } }", "kind 9 3"),
    ("client a { foreach k in entries F.q { } }", "kind 10 2"),
    ("client a { foreach k in entries g.p { } }", "kind 10 2"),
    ("client a { } schedule { serve b pass; }", "kind 11 2"),
];

/// Sources that keep the rules.
pub(crate) const KEPT: &[(&str, &str)] = &[
    ("client E { } client g { print g; }", ""),
    ("client a { print not 1 == 1; }", ""),
];

/// Whole sources.
pub(crate) const ALONE: &[(&str, &str)] = &[
    (
        "schema { entity E[f: F] { } entity F { } } client a { }",
        "kind 3 1",
    ),
    (
        "schema { array A[a: int, b: int, c: int, d: int] { } } client a { }",
        "kind 4 1",
    ),
    (
        "schema { array A[k: int] { p: CInt; p: CInt } } client a { }",
        "kind 1 1",
    ),
    (
        "schema { global g : CInt; entity g { } } client a { }",
        "kind 1 1",
    ),
    (
        "schema {} client a{var x=1;x=-x- -x;print x++\"\";}",
        "kind 7 1",
    ),
];
