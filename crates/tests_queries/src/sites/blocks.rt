// Sites by how their blocks and clauses are to one another.
use crate::inputs::BIBLIOGRAPHY;
use crate::sites::SiteRow;

const OK: &str = "<TEMPLATE F>ok</TEMPLATE>";

const BIBLIOGRAPHY_QUERY: &str =
    "INPUT Bib { CREATE RootPage() } { WHERE Publications(x), x -> l -> v CREATE PaperPage(x) LINK \
        PaperPage(x) -> l -> v, RootPage() -> 'Paper' -> PaperPage(x) { WHERE l = 'year' CREATE YearPage(v) \
        LINK YearPage(v) -> 'Year' -> v, YearPage(v) -> 'Paper' -> PaperPage(x), RootPage() -> 'Year' -> \
        YearPage(v) } } OUTPUT Home";

const BIBLIOGRAPHY_TEMPLATES: &str =
    "<TEMPLATE RootPage><h1>Home</h1><SFMT @Paper LINK=title DELIM=', '></TEMPLATE> <TEMPLATE \
        PaperPage><h1><SFMT @title></h1><SFMT @author DELIM=' and '></TEMPLATE> <TEMPLATE \
        YearPage><h1><SFMT @Year></h1><SFMT @Paper LINK=title DELIM=', '></TEMPLATE>";

/// Three blocks, one within another's, over two publications.
pub const YEARS: SiteRow = SiteRow {
    data_text: BIBLIOGRAPHY,
    query: BIBLIOGRAPHY_QUERY,
    templates: BIBLIOGRAPHY_TEMPLATES,
    outside: &[
        "/YearPage/i1996.html",
        "/YearPage/t1998.html",
        "/PaperPage/npub3.html",
        "/Other.html",
    ],
    outcomes: "/PaperPage/npub1.html <h1>Strudel</h1>Dan and Mary;/PaperPage/npub2.html <h1>Lorel \
        &lt;1&gt;</h1>Dan;/RootPage.html <h1>Home</h1><a href='/PaperPage/npub1.html'>Strudel</a>, <a \
        href='/PaperPage/npub2.html'>Lorel &lt;1&gt;</a>;/YearPage/i1997.html <h1>1997</h1><a \
        href='/PaperPage/npub2.html'>Lorel &lt;1&gt;</a>;/YearPage/i1998.html <h1>1998</h1><a \
        href='/PaperPage/npub1.html'>Strudel</a>;/YearPage/i1996.html -;/YearPage/t1998.html \
        -;/PaperPage/npub3.html -;/Other.html -;",
};

/// Their sites, each with the outcomes of its pages.
pub const SITES: &[SiteRow] = &[
    YEARS,
    // The same over no data: the block without conditions has its one row.
    SiteRow {
        data_text: "",
        query: BIBLIOGRAPHY_QUERY,
        templates: BIBLIOGRAPHY_TEMPLATES,
        outside: &["/PaperPage/npub1.html"],
        outcomes: "/RootPage.html <h1>Home</h1>;/PaperPage/npub1.html -;",
    },
    // Blocks nested twice: an inner row has the conditions round it.
    SiteRow {
        data_text: "object a in C { p &b v 1 } object b { q 'x' } object c { p &b }",
        query: "INPUT D WHERE C(x) CREATE F(x) { WHERE x -> 'p' -> y CREATE G(x, y) LINK F(x) -> 'g' -> \
            G(x, y) { WHERE y -> 'q' -> z CREATE H(z) LINK G(x, y) -> 'h' -> H(z), F(x) -> 'z' -> z } } \
            OUTPUT S",
        templates: "<TEMPLATE F>F<SFMT @z><SFMT @g></TEMPLATE><TEMPLATE G>G<SFMT @h></TEMPLATE><TEMPLATE H>H</TEMPLATE>",
        outside: &["/F/nc.html", "/G/nc/nb.html", "/G/nb/na.html", "/H/ty.html"],
        outcomes: "/F/na.html Fx/G/na/nb.html;/G/na/nb.html G/H/tx.html;/H/tx.html H;/F/nc.html \
            -;/G/nc/nb.html -;/G/nb/na.html -;/H/ty.html -;",
    },
    // Two sibling blocks link from the same page, by one label and by two.
    SiteRow {
        data_text: "object a in C, E { } object b in C { } object c in E { }",
        query: "INPUT D { WHERE C(x) CREATE F(x) LINK F(x) -> 'c' -> 1, F(x) -> 'n' -> 'one' } { WHERE E(y) \
            CREATE F(y) LINK F(y) -> 'e' -> 2, F(y) -> 'n' -> 'two' } OUTPUT S",
        templates: "<TEMPLATE F><SFMT @c>-<SFMT @e>:<SFMT @n DELIM='+'></TEMPLATE>",
        outside: &["/F/nd.html"],
        outcomes: "/F/na.html 1-2:one+two;/F/nb.html 1-:one;/F/nc.html -2:two;/F/nd.html -;",
    },
    // A page that only a sibling block's link creates, and a page that only a link names.
    SiteRow {
        data_text: "object a in C { } object b in E { }",
        query: "INPUT D CREATE R() { WHERE C(x) CREATE F(x) } { WHERE E(x) LINK R() -> 'to' -> F(x), G(x) \
            -> 'to' -> R() } { WHERE C(y), E(y) CREATE G(y) } OUTPUT S",
        templates: "<TEMPLATE F>f</TEMPLATE><TEMPLATE G><SFMT @to></TEMPLATE><TEMPLATE R><SFMT @to></TEMPLATE>",
        outside: &["/G/na.html"],
        outcomes: "/F/na.html f;/F/nb.html f;/G/nb.html /R.html;/R.html /F/nb.html;/G/na.html -;",
    },
    // One variable is two arguments.
    SiteRow {
        data_text: "object o { v 1 v 2 }",
        query: "INPUT D WHERE y -> 'v' -> x CREATE F(x, x) LINK F(x, x) -> 'of' -> y OUTPUT S",
        templates: "<TEMPLATE F><SFMT @of></TEMPLATE>",
        outside: &[
            "/F/i1/i2.html",
            "/F/i2/i1.html",
            "/F/i1.html",
            "/F/i1/t1.html",
        ],
        outcomes: "/F/i1/i1.html o;/F/i2/i2.html o;/F/i1/i2.html -;/F/i2/i1.html -;/F/i1.html -;/F/i1/t1.html -;",
    },
    // Constants among the arguments.
    SiteRow {
        data_text: "object o { v 1 v 'b' }",
        query: "INPUT D WHERE y -> 'v' -> x CREATE F(x, 1, 'a', x) OUTPUT S",
        templates: OK,
        outside: &[
            "/F/i1/i2/ta/i1.html",
            "/F/tb/i1/ta/i1.html",
            "/F/i1/i1/na/i1.html",
        ],
        outcomes: "/F/i1/i1/ta/i1.html ok;/F/tb/i1/ta/tb.html ok;/F/i1/i2/ta/i1.html -;/F/tb/i1/ta/i1.html -;/F/i1/i1/na/i1.html -;",
    },
    // No conditions, and constants at every place.
    SiteRow {
        data_text: "object o { a 'c' }",
        query: "INPUT D CREATE F(1) LINK F(1) -> 'a' -> 'b' OUTPUT S",
        templates: "<TEMPLATE F><SFMT @a></TEMPLATE>",
        outside: &["/F/i2.html"],
        outcomes: "/F/i1.html b;/F/i2.html -;",
    },
];
