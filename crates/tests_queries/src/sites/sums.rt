// Sites with links that end at aggregates.
use crate::sites::SiteRow;

const ITEMS: &str = "object a in A { y 1998 p 10 au 'M' au 'D' } object b in A { y 1998 p 10 } \
    object c in A { y 1999 p 'x' }";

/// Their sites, each with the outcomes of its pages.
pub const SITES: &[SiteRow] = &[
    // For each page, of the rows that give it.
    SiteRow {
        data_text: ITEMS,
        query: "STRUQL 3 INPUT D { CREATE R() } { WHERE A(x), x -> 'y' -> y CREATE F(y) \
            LINK F(y) -> 'n' -> count(x), R() -> 'years' -> count(y), R() -> 'first' -> min(y), \
            R() -> 'last' -> max(y) } OUTPUT S",
        templates: "<TEMPLATE F><SFMT @n></TEMPLATE><TEMPLATE R><SFMT @years>|<SFMT @first>|<SFMT @last></TEMPLATE>",
        outside: &["/F/i1997.html"],
        outcomes: "/F/i1998.html 2;/F/i1999.html 1;/R.html 2|1998|1999;/F/i1997.html -;",
    },
    // A sum takes each pair of values once, and there is none of texts.
    SiteRow {
        data_text: ITEMS,
        query: "STRUQL 3 INPUT D { CREATE R() } { WHERE A(x), x -> 'p' -> p CREATE F(p) \
            LINK R() -> 'sum' -> sum(p OF x), R() -> 'itself' -> sum(p OF p), F(p) -> 's' -> sum(p OF x) } OUTPUT S",
        templates: "<TEMPLATE F><SFMT @s></TEMPLATE><TEMPLATE R><SFMT @sum>|<SFMT @itself></TEMPLATE>",
        outside: &["/F/i1.html"],
        outcomes: "/F/i10.html 20;/F/tx.html ;/R.html 20|10;/F/i1.html -;",
    },
    // Another variable of the chain doesn't multiply it.
    SiteRow {
        data_text: ITEMS,
        query: "STRUQL 3 INPUT D { CREATE R() } { WHERE A(x), x -> 'p' -> p, x -> 'au' -> a \
            LINK R() -> 'sum' -> sum(p of x), R() -> 'author' -> sum(p OF a) } OUTPUT S",
        templates: "<TEMPLATE R><SFMT @sum>|<SFMT @author></TEMPLATE>",
        outside: &["/R/i1.html"],
        outcomes: "/R.html 10|20;/R/i1.html -;",
    },
    // A page without a row has no link, and not one to 0.
    SiteRow {
        data_text: ITEMS,
        query: "STRUQL 3 INPUT D { WHERE A(x) CREATE F(x) } \
            { WHERE A(x), x -> 'au' -> a LINK F(x) -> 'n' -> count(a) } OUTPUT S",
        templates: "<TEMPLATE F><SIF @n><SFMT @n><SELSE>none</SIF></TEMPLATE>",
        outside: &["/F/nd.html"],
        outcomes: "/F/na.html 2;/F/nb.html none;/F/nc.html none;/F/nd.html -;",
    },
    // For each label, if it is a variable.
    SiteRow {
        data_text: ITEMS,
        query: "STRUQL 3 INPUT D WHERE A(x), x -> k -> v CREATE R() LINK R() -> k -> count(v) OUTPUT S",
        templates: "<TEMPLATE R><SFMT @au>|<SFMT @p>|<SFMT @y></TEMPLATE>",
        outside: &["/R/i1.html"],
        outcomes: "/R.html 2|2|2;/R/i1.html -;",
    },
    // Two links of one label are two values, unless they are equal.
    SiteRow {
        data_text: ITEMS,
        query: "STRUQL 3 INPUT D WHERE A(x), x -> 'y' -> y CREATE R() \
            LINK R() -> 'n' -> count(x), R() -> 'n' -> count(y), R() -> 'm' -> count(y), R() -> 'm' -> count(y) OUTPUT S",
        templates: "<TEMPLATE R><SFMT @n DELIM=','>|<SFMT @m DELIM=','></TEMPLATE>",
        outside: &["/R/i1.html"],
        outcomes: "/R.html 2,3|2;/R/i1.html -;",
    },
    // A sum beyond 64 bits is none; one that only passes beyond them on its way is.
    SiteRow {
        data_text: "object a in A { p 9223372036854775807 p 1 } object b in B { p 9223372036854775807 p 1 p -2 }",
        query: "STRUQL 3 INPUT D { CREATE R() } \
            { WHERE A(x), x -> 'p' -> p LINK R() -> 's' -> sum(p OF x), R() -> 'm' -> max(p) } \
            { WHERE B(x), x -> 'p' -> p LINK R() -> 't' -> sum(p OF x) } OUTPUT S",
        templates: "<TEMPLATE R><SFMT @s>|<SFMT @m>|<SFMT @t></TEMPLATE>",
        outside: &["/R/i1.html"],
        outcomes: "/R.html |9223372036854775807|9223372036854775806;/R/i1.html -;",
    },
];
