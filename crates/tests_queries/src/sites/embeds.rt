// Sites whose pages embed one another, themselves, and nodes of the data.
use crate::sites::SiteRow;

/// Their sites, each with the outcomes of its pages.
pub const SITES: &[SiteRow] = &[
    // Nodes of the data, by their collection's template.
    SiteRow {
        data_text: "object p in P { name 'Ann' knows &q } object q in P { name 'Bob' }",
        query: "INPUT D WHERE P(x) CREATE F(x) LINK F(x) -> 'who' -> x OUTPUT S",
        templates: "<TEMPLATE F>[<SFMT @who EMBED>]</TEMPLATE><TEMPLATE COLLECTION P><SFMT @name>(<SFMT @knows EMBED>)</TEMPLATE>",
        outside: &["/F/nr.html"],
        outcomes: "/F/np.html [Ann(Bob())];/F/nq.html [Bob()];/F/nr.html -;",
    },
    // The same, with a quoted name.
    SiteRow {
        data_text: "object p in 'my file' { name 'Ann' knows &q } object q in 'my file' { name 'Bob' }",
        query: "INPUT D WHERE 'my file'(x) CREATE F(x) LINK F(x) -> 'who' -> x OUTPUT S",
        templates: "<TEMPLATE F>[<SFMT @who EMBED>]</TEMPLATE><TEMPLATE COLLECTION 'my file'><SFMT @name>(<SFMT @knows EMBED>)</TEMPLATE>",
        outside: &["/F/nr.html"],
        outcomes: "/F/np.html [Ann(Bob())];/F/nq.html [Bob()];/F/nr.html -;",
    },
    // A page in a page, where a branch that isn't taken would come round again.
    SiteRow {
        data_text: "",
        query: "INPUT D CREATE A(), B() LINK A() -> 'e' -> B(), B() -> 'e' -> A() OUTPUT S",
        templates: "<TEMPLATE A>[<SFMT @e EMBED>]</TEMPLATE><TEMPLATE B>(<SIF @f><SFMT @e EMBED></SIF>)</TEMPLATE>",
        outside: &["/C.html"],
        outcomes: "/A.html [()];/B.html ();/C.html -;",
    },
    // Two pages embed each other; a third comes to them from outside.
    SiteRow {
        data_text: "",
        query: "INPUT D CREATE A(), B(), C() LINK A() -> 'e' -> B(), B() -> 'e' -> A(), C() -> 'e' -> A() OUTPUT S",
        templates: "<TEMPLATE A><SFMT @e EMBED></TEMPLATE><TEMPLATE B><SFMT @e EMBED></TEMPLATE><TEMPLATE C><SFMT @e EMBED></TEMPLATE>",
        outside: &["/E.html"],
        outcomes: "/A.html @/A.html;/B.html @/B.html;/C.html @/A.html;/E.html -;",
    },
    // Nodes that embed each other, and nodes that don't.
    SiteRow {
        data_text: "object a in N { next &b } object b in N { next &a } object c in N { } object d in N { next &c }",
        query: "INPUT D WHERE N(x) CREATE F(x) LINK F(x) -> 'n' -> x OUTPUT S",
        templates: "<TEMPLATE F><SFMT @n EMBED></TEMPLATE><TEMPLATE COLLECTION N>.<SFMT @next EMBED></TEMPLATE>",
        outside: &["/F/ne.html"],
        outcomes: "/F/na.html @a;/F/nb.html @b;/F/nc.html .;/F/nd.html ..;/F/ne.html -;",
    },
    // A text of 111,111,111 bytes.
    SiteRow {
        data_text: "object n1 in N, Top { next &n2 } object n2 in N { next &n3 } object n3 in N { next &n4 \
            } object n4 in N { next &n5 } object n5 in N { next &n6 } object n6 in N { next &n7 } object n7 \
            in N { next &n8 } object n8 in N { next &n9 } object n9 in N { }",
        query: "INPUT D WHERE Top(x) CREATE R() LINK R() -> 'top' -> x OUTPUT S",
        templates: "<TEMPLATE R><SFMT @top EMBED></TEMPLATE><TEMPLATE COLLECTION N>x<SFMT @next EMBED><SFMT \
            @next EMBED><SFMT @next EMBED><SFMT @next EMBED><SFMT @next EMBED><SFMT @next EMBED><SFMT @next \
            EMBED><SFMT @next EMBED><SFMT @next EMBED><SFMT @next EMBED></TEMPLATE>",
        outside: &["/R/i1.html"],
        outcomes: "/R.html +;/R/i1.html -;",
    },
    // A page without a template isn't a page, and is shown where it is embedded.
    SiteRow {
        data_text: "object o { v 1 }",
        query: "INPUT D WHERE y -> 'v' -> x CREATE F(x), G(x) LINK F(x) -> 'g' -> G(x), F(x) -> 'o' -> y OUTPUT S",
        templates: "<TEMPLATE F><SFMT @g EMBED>,<SFMT @g LINK>,<SFMT @o EMBED></TEMPLATE>",
        outside: &["/G/i2.html"],
        outcomes: "/F/i1.html /G/i1.html,<a href='/G/i1.html'>/G/i1.html</a>,o;/G/i1.html -;/G/i2.html -;",
    },
];
