// Pages and refusals of the command `page`, over files and outputs in memory.
use crate::runs::{FileRow, PLAIN, Run, check_run};
use crate::site::{BIB, LOOKS, SITE, YEAR};
use std::process::Abort;
use std::test::Fail;

// The files `d`, `q` and `t`, the address of the page, the exit code, and the output and the standard error.
struct PageRow {
    data_text: &'static str,
    query: &'static str,
    templates: &'static str,
    address: &'static str,
    code: u8,
    out: &'static str,
    err: &'static str,
}

const OK: &str = "<TEMPLATE F>ok</TEMPLATE>";

const NOT_FOUND: &str = "strudel: not found\n";

const ENDS: &str = "INPUT D WHERE y -> \"v\" -> x CREATE F(x) OUTPUT S";

const VALUES: &str = "INPUT D WHERE x -> \"a\" -> y CREATE F(x) LINK F(x) -> \"a\" -> y OUTPUT S";

const CYCLE: &str =
    "INPUT D CREATE A(), B() LINK A() -> \"e\" -> B(), B() -> \"e\" -> A() OUTPUT S";

const BRACKETS: &str =
    "<TEMPLATE A>[<SFMT @e EMBED>]</TEMPLATE><TEMPLATE B>(<SFMT @e EMBED>)</TEMPLATE>";

// (of what is put in, `@` is the page)
const FRAGMENTS: &str =
    "<SNOTE>notes</SNOTE><FRAGMENT a>(<SFMT @a>)</FRAGMENT><FRAGMENT b>[<SINCLUDE a><SNOTE>\
    </FRAGMENT></SNOTE><SFMT @a>]</FRAGMENT><TEMPLATE F><SINCLUDE b> <SINCLUDE a></TEMPLATE>";

const SEVENS: &str = "object o { v 7 v \"7\" v \"07\" }";

const EQUAL_TO_SEVEN: &str = "STRUQL 2 INPUT D WHERE x -> \"v\" -> y, y = 7 CREATE F(y) OUTPUT S";

const PAGES: &[PageRow] = &[
    PageRow {
        data_text: BIB,
        query: SITE,
        templates: LOOKS,
        address: "/YearPage/i1998.html",
        code: 0,
        out: YEAR,
        err: "",
    },
    PageRow {
        data_text: BIB,
        query: SITE,
        templates: LOOKS,
        address: "/%59earPage/i1998.html?x=1",
        code: 0,
        out: YEAR,
        err: "",
    },
    PageRow {
        data_text: BIB,
        query: SITE,
        templates: LOOKS,
        address: "http://a/YearPage/i1998.html",
        code: 0,
        out: YEAR,
        err: "",
    },
    PageRow {
        data_text: BIB,
        query: SITE,
        templates: LOOKS,
        address: "/YearPage/i1996.html",
        code: 9,
        out: "",
        err: NOT_FOUND,
    },
    PageRow {
        data_text: BIB,
        query: SITE,
        templates: LOOKS,
        address: "/PaperPage/npub2.html",
        code: 0,
        out: "<h1>Lorel &lt;1&gt;</h1>Dan",
        err: "",
    },
    PageRow {
        data_text: BIB,
        query: SITE,
        templates: LOOKS,
        address: "/PaperPage/npub1.html",
        code: 0,
        out: "<h1>Strudel</h1>Dan and Mary",
        err: "",
    },
    PageRow {
        data_text: BIB,
        query: SITE,
        templates: LOOKS,
        address: "/",
        code: 0,
        out: "<h1>Home</h1><a href=\"/PaperPage/npub1.html\">Strudel</a>, <a href=\"/PaperPage/npub2.html\">Lorel &lt;1&gt;</a>",
        err: "",
    },
    PageRow {
        data_text: "object o { a \"Bob's <\\\"b\\\" & c>\" }",
        query: VALUES,
        templates: "<TEMPLATE F><a title='<SFMT @a>'></TEMPLATE>",
        address: "/F/no.html",
        code: 0,
        out: "<a title='Bob&#39;s &lt;&quot;b&quot; &amp; c&gt;'>",
        err: "",
    },
    PageRow {
        data_text: "",
        query: SITE,
        templates: LOOKS,
        address: "/",
        code: 0,
        out: "<h1>Home</h1>",
        err: "",
    },
    PageRow {
        data_text: "",
        query: SITE,
        templates: LOOKS,
        address: "/PaperPage/npub1.html",
        code: 9,
        out: "",
        err: NOT_FOUND,
    },
    PageRow {
        data_text: "object o { v 1 v 2 }",
        query: "INPUT D WHERE y -> \"v\" -> x CREATE F(x, x) OUTPUT S",
        templates: OK,
        address: "/F/i1/i1.html",
        code: 0,
        out: "ok",
        err: "",
    },
    PageRow {
        data_text: "object o { v 1 v 2 }",
        query: "INPUT D WHERE y -> \"v\" -> x CREATE F(x, x) OUTPUT S",
        templates: OK,
        address: "/F/i1/i2.html",
        code: 9,
        out: "",
        err: NOT_FOUND,
    },
    PageRow {
        data_text: "object o { v \"a b\" }",
        query: ENDS,
        templates: OK,
        address: "/F/ta~20b.html",
        code: 0,
        out: "ok",
        err: "",
    },
    PageRow {
        data_text: "object o { v \"a b\" }",
        query: ENDS,
        templates: OK,
        address: "/F/ta%7E20b.html",
        code: 0,
        out: "ok",
        err: "",
    },
    PageRow {
        data_text: "object o { v \"a b\" }",
        query: ENDS,
        templates: OK,
        address: "/F/ta%20b.html",
        code: 9,
        out: "",
        err: NOT_FOUND,
    },
    PageRow {
        data_text: "object o { v 1 }",
        query: ENDS,
        templates: OK,
        address: "/F/i01.html",
        code: 9,
        out: "",
        err: NOT_FOUND,
    },
    PageRow {
        data_text: "object o { a 1 a 2 }",
        query: VALUES,
        templates: "<TEMPLATE F><SFOR v IN @a ORDER=descend DELIM=\", \"><SIF v GT 1>big<SELSE><SFMT v></SIF></SFOR></TEMPLATE>",
        address: "/F/no.html",
        code: 0,
        out: "big, 1",
        err: "",
    },
    PageRow {
        data_text: "object o { a &p a &q } object p { k 2 } object q { k 1 }",
        query: VALUES,
        templates: "<TEMPLATE F><SFMT @a KEY=k DELIM=\" \"></TEMPLATE>",
        address: "/F/no.html",
        code: 0,
        out: "q p",
        err: "",
    },
    PageRow {
        data_text: "object o { a \"100% %zz %2 %20 %fF%\" }",
        query: VALUES,
        templates: "<TEMPLATE F><SFMT @a URL></TEMPLATE>",
        address: "/F/no.html",
        code: 0,
        out: "100%25%20%25zz%20%252%20%20%20%fF%25",
        err: "",
    },
    PageRow {
        data_text: "object o { a \"a\\r\\nb\\nc\\rd\\n\\r<\" }",
        query: VALUES,
        templates: "<TEMPLATE F><SFMT @a LINES></TEMPLATE>",
        address: "/F/no.html",
        code: 0,
        out: "a<br>\nb<br>\nc<br>\nd<br>\n<br>\n&lt;",
        err: "",
    },
    PageRow {
        data_text: "object o { a \"<b>\\\"&\\n2\\\\\" }",
        query: VALUES,
        templates: "<TEMPLATE F>{\"a\": \"<SFMT @a JSON>\"} <SFMT @a RAW></TEMPLATE>",
        address: "/F/no.html",
        code: 0,
        out: "{\"a\": \"\\u003cb>\\\"&\\n2\\\\\"} <b>\"&\n2\\",
        err: "",
    },
    PageRow {
        data_text: "object o { a url \"http://x/\" a 3 a 1 a 2 }",
        query: VALUES,
        templates: "<TEMPLATE F><SFMT @a LIMIT=2 DELIM=\",\"> of <SFMT @a COUNT>: <SFOR v IN @a ORDER=descend \
            LIMIT=1><SFMT v LINK LABEL=\"<x>\"></SFOR></TEMPLATE>",
        address: "/F/no.html",
        code: 0,
        out: "1,2 of 4: <a href=\"http://x/\">&lt;x&gt;</a>",
        err: "",
    },
    PageRow {
        data_text: "object p { n \"Zug\" y 1 } object q { n \"Öl\" y 2 } object r { n \"apfel\" y 2 } object o { a &p a &q a &r }",
        query: VALUES,
        templates: "<TEMPLATE F><SFOR v IN @a KEY=n FOLD DELIM=\" \"><SFMT v.n></SFOR>;<SFMT @a LINK=n KEY=y DESCEND \
            KEY=n FOLD DELIM=\" \">;<SIF COUNT @a GE 3>all</SIF><SIF @a.y SAME @a>none<SELSE>apart</SIF></TEMPLATE>",
        address: "/F/no.html",
        code: 0,
        out: "apfel Öl Zug;apfel Öl Zug;allapart",
        err: "",
    },
    PageRow {
        data_text: "object o { a 1 }",
        query: VALUES,
        templates: "<TEMPLATE F><SFMT @a>=x</TEMPLATE>",
        address: "/F/no.html",
        code: 0,
        out: "1=x",
        err: "",
    },
    PageRow {
        data_text: "",
        query: CYCLE,
        templates: BRACKETS,
        address: "/A.html",
        code: 7,
        out: "",
        err: "strudel: page /A.html: cyclic embedding at /A.html\n",
    },
    PageRow {
        data_text: "",
        query: CYCLE,
        templates: BRACKETS,
        address: "/B.html",
        code: 7,
        out: "",
        err: "strudel: page /B.html: cyclic embedding at /B.html\n",
    },
    PageRow {
        data_text: "",
        query: CYCLE,
        templates: "<TEMPLATE A>[<SFMT @e EMBED>]</TEMPLATE><TEMPLATE B>(<SIF @f><SFMT @e EMBED></SIF>)</TEMPLATE>",
        address: "/A.html",
        code: 0,
        out: "[()]",
        err: "",
    },
];

const MORE_PAGES: &[PageRow] = &[
    PageRow {
        data_text: "object n1 in Ns { next &n2 } object n2 in Ns { next &n3 } object n3 in Ns { next &n4 } \
            object n4 in Ns { next &n5 } object n5 in Ns { next &n6 } object n6 in Ns { next &n7 } object \
            n7 in Ns { next &n8 } object n8 in Ns { next &n9 } object n9 in Ns { next &n10 } object n10 in \
            Ns { next &n11 } object n11 in Ns { next &n12 } object n12 in Ns { next &n13 } object n13 in Ns \
            { next &n14 } object n14 in Ns { } object n1 in Top { }",
        query: "INPUT D WHERE Top(x) CREATE R() LINK R() -> \"top\" -> x OUTPUT S",
        templates: "<TEMPLATE R><SFMT @top EMBED></TEMPLATE><TEMPLATE COLLECTION Ns>x<SFMT @next \
            EMBED><SFMT @next EMBED><SFMT @next EMBED><SFMT @next EMBED></TEMPLATE>",
        address: "/R.html",
        code: 7,
        out: "",
        err: "strudel: page /R.html: too long\n",
    },
    PageRow {
        data_text: SEVENS,
        query: EQUAL_TO_SEVEN,
        templates: OK,
        address: "/F/i7.html",
        code: 0,
        out: "ok",
        err: "",
    },
    PageRow {
        data_text: SEVENS,
        query: EQUAL_TO_SEVEN,
        templates: OK,
        address: "/F/t7.html",
        code: 0,
        out: "ok",
        err: "",
    },
    PageRow {
        data_text: SEVENS,
        query: EQUAL_TO_SEVEN,
        templates: OK,
        address: "/F/t07.html",
        code: 9,
        out: "",
        err: NOT_FOUND,
    },
    PageRow {
        data_text: SEVENS,
        query: "INPUT D WHERE x -> \"v\" -> y, y = 7 CREATE F(y) OUTPUT S",
        templates: OK,
        address: "/F/t7.html",
        code: 9,
        out: "",
        err: NOT_FOUND,
    },
    // The first fault of inputs that are refused.
    PageRow {
        data_text: "$",
        query: SITE,
        templates: LOOKS,
        address: "/",
        code: 3,
        out: "",
        err: "strudel: d: 21 BadByte at 0\n",
    },
    PageRow {
        data_text: "object a { v \"x",
        query: SITE,
        templates: LOOKS,
        address: "/",
        code: 3,
        out: "",
        err: "strudel: d: 22 OpenString at 13\n",
    },
    PageRow {
        data_text: "object a { n 9223372036854775808 }",
        query: SITE,
        templates: LOOKS,
        address: "/",
        code: 3,
        out: "",
        err: "strudel: d: 23 IntOutOfRange at 13\n",
    },
    PageRow {
        data_text: "object a {",
        query: SITE,
        templates: LOOKS,
        address: "/",
        code: 3,
        out: "",
        err: "strudel: d: 31 Expected at 10\n",
    },
    PageRow {
        data_text: "collection A { u url } collection B { u file } object o in A, B { u \"x\" }",
        query: SITE,
        templates: LOOKS,
        address: "/",
        code: 3,
        out: "",
        err: "strudel: d: 32 KindConflict at 68\n",
    },
    PageRow {
        data_text: "",
        query: "INPUT D CREATE F(x) OUTPUT S",
        templates: LOOKS,
        address: "/",
        code: 3,
        out: "",
        err: "strudel: q: 61 Unbound at 17\n",
    },
    PageRow {
        data_text: "",
        query: "INPUT D WHERE C(x) CREATE F(x) LINK F(x) -> \"l\" -> G(x) OUTPUT S",
        templates: LOOKS,
        address: "/",
        code: 3,
        out: "",
        err: "strudel: q: 62 NeverCreated at 51\n",
    },
    PageRow {
        data_text: "",
        query: "INPUT D WHERE C(x) CREATE F(x), F(x, x) OUTPUT S",
        templates: LOOKS,
        address: "/",
        code: 3,
        out: "",
        err: "strudel: q: 63 Arity at 32\n",
    },
    PageRow {
        data_text: "",
        query: "INPUT D WHERE C(x) LINK x -> \"l\" -> F(x) OUTPUT S",
        templates: LOOKS,
        address: "/",
        code: 3,
        out: "",
        err: "strudel: q: 64 LinkFromData at 24\n",
    },
    PageRow {
        data_text: "",
        query: "INPUT D WHERE x -> l -> y, l -> \"a\" -> z CREATE F(y) OUTPUT S",
        templates: LOOKS,
        address: "/",
        code: 3,
        out: "",
        err: "strudel: q: 65 ArcAsNode at 27\n",
    },
    PageRow {
        data_text: "",
        query: "INPUT D WHERE C(x) CREATE F(x) LINK F(x) -> x -> x OUTPUT S",
        templates: LOOKS,
        address: "/",
        code: 3,
        out: "",
        err: "strudel: q: 66 NotLabel at 44\n",
    },
    PageRow {
        data_text: "",
        query: "INPUT D CREATE index() OUTPUT S",
        templates: LOOKS,
        address: "/",
        code: 3,
        out: "",
        err: "strudel: q: 67 Reserved at 15\n",
    },
    PageRow {
        data_text: "",
        query: "INPUT",
        templates: LOOKS,
        address: "/",
        code: 3,
        out: "",
        err: "strudel: q: 71 Expected at 5\n",
    },
    PageRow {
        data_text: "",
        query: "INPUT D {{{{{{{{{{{{{{{{{",
        templates: LOOKS,
        address: "/",
        code: 3,
        out: "",
        err: "strudel: q: 72 TooDeep at 24\n",
    },
    PageRow {
        data_text: "",
        query: "STRUQL 4",
        templates: LOOKS,
        address: "/",
        code: 3,
        out: "",
        err: "strudel: q: 73 BadVersion at 7\n",
    },
    PageRow {
        data_text: "object o { a \"B\" }",
        query: VALUES,
        templates: FRAGMENTS,
        address: "/F/no.html",
        code: 0,
        out: "[(B)B] (B)",
        err: "",
    },
    PageRow {
        data_text: "",
        query: SITE,
        templates: "<TEMPLATE F><SINCLUDE a></TEMPLATE>",
        address: "/",
        code: 3,
        out: "",
        err: "strudel: t: 86 Unknown at 22\n",
    },
    PageRow {
        data_text: "",
        query: SITE,
        templates: "x",
        address: "/",
        code: 3,
        out: "",
        err: "strudel: t: 81 Expected at 0\n",
    },
    PageRow {
        data_text: "",
        query: SITE,
        templates: "<TEMPLATE F>",
        address: "/",
        code: 3,
        out: "",
        err: "strudel: t: 82 Unclosed at 0\n",
    },
    PageRow {
        data_text: "",
        query: SITE,
        templates: "<TEMPLATE F></TEMPLATE><TEMPLATE F></TEMPLATE>",
        address: "/",
        code: 3,
        out: "",
        err: "strudel: t: 83 Twice at 33\n",
    },
    PageRow {
        data_text: "",
        query: SITE,
        templates: "<TEMPLATE F><SIF @a><SIF @a><SIF @a><SIF @a><SIF @a><SIF @a><SIF @a><SIF @a><SIF \
            @a><SIF @a><SIF @a><SIF @a><SIF @a><SIF @a><SIF @a><SIF @a><SIF @a><SIF @a><SIF @a><SIF @a><SIF \
            @a><SIF @a><SIF @a><SIF @a><SIF @a><SIF @a><SIF @a><SIF @a><SIF @a><SIF @a><SIF @a><SIF @a><SIF \
            @a>",
        address: "/",
        code: 3,
        out: "",
        err: "strudel: t: 84 TooDeep at 268\n",
    },
    PageRow {
        data_text: "",
        query: SITE,
        templates: "<TEMPLATE F><SFMT v.a></TEMPLATE>",
        address: "/",
        code: 3,
        out: "",
        err: "strudel: t: 85 UnknownVariable at 18\n",
    },
    PageRow {
        data_text: "$",
        query: "INPUT",
        templates: "x",
        address: "/",
        code: 3,
        out: "",
        err: "strudel: d: 21 BadByte at 0\n",
    },
    PageRow {
        data_text: "",
        query: "INPUT",
        templates: "x",
        address: "/",
        code: 3,
        out: "",
        err: "strudel: q: 71 Expected at 5\n",
    },
];

fn check_page<R: AllocGlobal + Abort>(rt: &R, row: &PageRow) -> Result<(), Fail> {
    let files = [
        FileRow {
            path: "d",
            text: row.data_text,
        },
        FileRow {
            path: "q",
            text: row.query,
        },
        FileRow {
            path: "t",
            text: row.templates,
        },
    ];
    let run = Run {
        name: row.query,
        words: &["page", "q", "t", row.address, "d"],
        code: row.code,
        out: row.out,
        err: row.err,
        ..PLAIN
    };
    check_run(rt, &files, &run)
}

#[test]
fn each_page_is_as_its_row_says(rt: HostRuntime) -> Result<(), Fail> {
    for row in PAGES {
        check_page(&rt, row)?;
    }
    Ok(())
}

#[test]
fn more_pages_are_as_their_rows_say(rt: HostRuntime) -> Result<(), Fail> {
    for row in MORE_PAGES {
        check_page(&rt, row)?;
    }
    Ok(())
}
