// Sites by their conditions.
use crate::sites::SiteRow;

const OK: &str = "<TEMPLATE F>ok</TEMPLATE>";

/// Their sites, each with the outcomes of its pages.
pub const SITES: &[SiteRow] = &[
    // A negation over variables that other conditions bind.
    SiteRow {
        data_text: "object a in C { e &b } object b in C { } object c in C { e &c }",
        query: "INPUT D WHERE C(x), C(y), not(x -> 'e' -> y) CREATE F(x, y) OUTPUT S",
        templates: OK,
        outside: &["/F/na/nb.html", "/F/nc/nc.html", "/F/na/nd.html"],
        outcomes: "/F/na/na.html ok;/F/na/nc.html ok;/F/nb/na.html ok;/F/nb/nb.html ok;/F/nb/nc.html \
            ok;/F/nc/na.html ok;/F/nc/nb.html ok;/F/na/nb.html -;/F/nc/nc.html -;/F/na/nd.html -;",
    },
    // A negation alone: its variables range over their whole domains.
    SiteRow {
        data_text: "object a { e &b }",
        query: "INPUT D WHERE not(p -> l -> q) CREATE F(p, l, q) LINK F(p, l, q) -> 'q' -> q OUTPUT S",
        templates: "<TEMPLATE F><SFMT @q></TEMPLATE>",
        outside: &["/F/na/te/nb.html", "/F/na/tf/na.html"],
        outcomes: "/F/na/te/na.html a;/F/nb/te/na.html a;/F/nb/te/nb.html b;/F/na/te/nb.html -;/F/na/tf/na.html -;",
    },
    // Walks, round a cycle too.
    SiteRow {
        data_text: "object p { a &q } object q { b &r } object r { b &q }",
        query: "INPUT D WHERE x -> 'a'.'b'* -> y CREATE F(x, y) OUTPUT S",
        templates: OK,
        outside: &["/F/np/np.html", "/F/nq/nr.html"],
        outcomes: "/F/np/nq.html ok;/F/np/nr.html ok;/F/np/np.html -;/F/nq/nr.html -;",
    },
    // Any label, an alternative, and the empty word.
    SiteRow {
        data_text: "object a in C { e 1 f 2 g 3 }",
        query: "INPUT D WHERE C(x), x -> ()|'e'|'g' -> y, x -> true -> z CREATE F(y, z) OUTPUT S",
        templates: OK,
        outside: &["/F/i2/i1.html", "/F/na/na.html"],
        outcomes: "/F/i1/i1.html ok;/F/i1/i2.html ok;/F/i1/i3.html ok;/F/i3/i1.html ok;/F/i3/i2.html \
            ok;/F/i3/i3.html ok;/F/na/i1.html ok;/F/na/i2.html ok;/F/na/i3.html ok;/F/i2/i1.html \
            -;/F/na/na.html -;",
    },
    // Collections with quoted names, one of them a test's.
    SiteRow {
        data_text: "object a in 'my file', isInt { } object b in 'my file' { } object c in isInt { }",
        query: "INPUT D WHERE 'my file'(x), not('isInt'(x)) CREATE F(x) OUTPUT S",
        templates: OK,
        outside: &["/F/na.html", "/F/nc.html"],
        outcomes: "/F/nb.html ok;/F/na.html -;/F/nc.html -;",
    },
    // Pages collected under a quoted name.
    SiteRow {
        data_text: "object a in C { } object b in C { }",
        query: "INPUT D WHERE 'C'(x) CREATE F(x), R() LINK F(x) -> 'n' -> x COLLECT 'my file'(F(x)) OUTPUT S",
        templates: "<TEMPLATE R><SFMT #'my file'.n DELIM=','></TEMPLATE><TEMPLATE F><SFMT @n></TEMPLATE>",
        outside: &["/F/nc.html"],
        outcomes: "/F/na.html a;/F/nb.html b;/R.html a,b;/F/nc.html -;",
    },
    // A number and its text are equal under version 2.
    SiteRow {
        data_text: "object o { v 7 v '7' v '07' }",
        query: "STRUQL 2 INPUT D WHERE x -> 'v' -> y, y = 7 CREATE F(y) OUTPUT S",
        templates: OK,
        outside: &["/F/t07.html"],
        outcomes: "/F/i7.html ok;/F/t7.html ok;/F/t07.html -;",
    },
    // They are different under version 1.
    SiteRow {
        data_text: "object o { v 7 v '7' v '07' }",
        query: "INPUT D WHERE x -> 'v' -> y, y = 7 CREATE F(y) OUTPUT S",
        templates: OK,
        outside: &["/F/t7.html"],
        outcomes: "/F/i7.html ok;/F/t7.html -;",
    },
    // Orders under version 2: by number between a number and a text that spells one.
    SiteRow {
        data_text: "object o { v 9 v '8' v '10' v '9x' v 11 }",
        query: "STRUQL 2 INPUT D WHERE x -> 'v' -> y, y < 10 CREATE F(y) OUTPUT S",
        templates: OK,
        outside: &["/F/t10.html", "/F/t9x.html", "/F/i11.html"],
        outcomes: "/F/i9.html ok;/F/t8.html ok;/F/t10.html -;/F/t9x.html -;/F/i11.html -;",
    },
    // One of some constants, under version 2.
    SiteRow {
        data_text: "object o { v 1 v '1' v 2 v '2' v 3 v '3' }",
        query: "STRUQL 2 INPUT D WHERE x -> 'v' -> y, y in {1, '2'} CREATE F(y) OUTPUT S",
        templates: OK,
        outside: &["/F/i3.html"],
        outcomes: "/F/i1.html ok;/F/i2.html ok;/F/t1.html ok;/F/t2.html ok;/F/i3.html -;",
    },
];
