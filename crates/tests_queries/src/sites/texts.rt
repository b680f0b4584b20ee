// Sites whose queries test texts.
use crate::sites::SiteRow;

const HOME: &str =
    "<TEMPLATE R><SFMT @starts DELIM=','>|<SFMT @ends DELIM=','>|<SFMT @has DELIM=','></TEMPLATE>";

/// Their sites, each with the outcomes of its pages.
pub const SITES: &[SiteRow] = &[
    // Of texts by case, of a number, and of a node, which has no text.
    SiteRow {
        data_text: "object a in A { t 'Abc' t 'abc' t 17 t '17b' t &b }",
        query: "STRUQL 3 INPUT D { CREATE R() } \
            { WHERE A(x), x -> 't' -> t, starts(t, 'Ab') LINK R() -> 'starts' -> t } \
            { WHERE A(x), x -> 't' -> t, ends(t, 'c') LINK R() -> 'ends' -> t } \
            { WHERE A(x), x -> 't' -> t, has(t, 'b') LINK R() -> 'has' -> t } OUTPUT S",
        templates: HOME,
        outside: &["/R/na.html"],
        outcomes: "/R.html Abc|Abc,abc|17b,Abc,abc;/R/na.html -;",
    },
    // In `not`, and of a label: a node has no text, so that `has` doesn't hold of it.
    SiteRow {
        data_text: "object a in A { t1 'abc' t2 'c' u 'd' t3 &b }",
        query: "STRUQL 3 INPUT D { CREATE R() } \
            { WHERE A(x), x -> k -> v, starts(k, 't'), not(has(v, 'b')) LINK R() -> 'has' -> v } OUTPUT S",
        templates: HOME,
        outside: &["/R/na.html"],
        outcomes: "/R.html ||c,b;/R/na.html -;",
    },
    // Numbers are their decimals on both sides, a url and a file are texts, and the empty text is in each of them.
    SiteRow {
        data_text: "collection A { u url f file } object a in A { u 'http://a' f '-17' t -17 t 170 t '' }",
        query: "STRUQL 3 INPUT D { CREATE R() } \
            { WHERE A(x), x -> k -> t, starts(t, -17) LINK R() -> 'starts' -> t } \
            { WHERE A(x), x -> k -> t, ends(t, '') LINK R() -> 'ends' -> k } \
            { WHERE A(x), x -> k -> t, has('(http://a)', t) LINK R() -> 'has' -> k } OUTPUT S",
        templates: HOME,
        outside: &["/R/na.html"],
        outcomes: "/R.html -17,-17|f,t,u|t,u;/R/na.html -;",
    },
    // A membership of a collection that is named as a test, in each version.
    SiteRow {
        data_text: "object a in starts, ends { } object b in starts { }",
        query: "STRUQL 3 INPUT D WHERE 'starts'(x), not('ends'(x)) CREATE F(x) OUTPUT S",
        templates: "<TEMPLATE F>ok</TEMPLATE>",
        outside: &["/F/na.html"],
        outcomes: "/F/nb.html ok;/F/na.html -;",
    },
];
