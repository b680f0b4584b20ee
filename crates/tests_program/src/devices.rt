// Runs over the bibliography of which a file or an output fails, or an input is refused.
use crate::runs::{FileRow, PLAIN, Run, Written, check_runs};
use crate::site::{BIB, LOOKS, SITE, YEAR};
use std::test::Fail;

const FILES: &[FileRow] = &[
    FileRow {
        path: "bib.ddl",
        text: BIB,
    },
    FileRow {
        path: "q.struql",
        text: SITE,
    },
    FileRow {
        path: "t.tmpl",
        text: LOOKS,
    },
    FileRow {
        path: "deep.tmpl",
        text: "<TEMPLATE F><SIF @a><SIF @a><SIF @a><SIF @a><SIF @a><SIF @a><SIF @a><SIF @a><SIF @a><SIF \
            @a><SIF @a><SIF @a><SIF @a><SIF @a><SIF @a><SIF @a><SIF @a><SIF @a><SIF @a><SIF @a><SIF @a><SIF \
            @a><SIF @a><SIF @a><SIF @a><SIF @a><SIF @a><SIF @a><SIF @a><SIF @a><SIF @a><SIF @a><SIF @a>",
    },
    FileRow {
        path: "open.ddl",
        text: "object a {",
    },
    FileRow {
        path: "quote.ddl",
        text: "object a { v \"x",
    },
];

const PAGE: &[&str] = &[
    "page",
    "q.struql",
    "t.tmpl",
    "/YearPage/i1998.html",
    "bib.ddl",
];

const NO_PAGE: &[&str] = &[
    "page",
    "q.struql",
    "t.tmpl",
    "/YearPage/i1996.html",
    "bib.ddl",
];

const BUILD: &[&str] = &["build", "q.struql", "t.tmpl", "DIR", "bib.ddl"];

const FIVE_PAGES: &[Written] = &[
    Written {
        path: "DIR/PaperPage/npub1.html",
        text: Some("<h1>Strudel</h1>Dan and Mary"),
    },
    Written {
        path: "DIR/PaperPage/npub2.html",
        text: Some("<h1>Lorel &lt;1&gt;</h1>Dan"),
    },
    Written {
        path: "DIR/RootPage.html",
        text: Some(
            "<h1>Home</h1><a href=\"/PaperPage/npub1.html\">Strudel</a>, <a href=\"/PaperPage/npub2.html\">Lorel &lt;1&gt;</a>",
        ),
    },
    Written {
        path: "DIR/YearPage/i1997.html",
        text: Some("<h1>1997</h1><a href=\"/PaperPage/npub2.html\">Lorel &lt;1&gt;</a>"),
    },
    Written {
        path: "DIR/YearPage/i1998.html",
        text: Some(YEAR),
    },
    Written {
        path: "DIR/index.html",
        text: None,
    },
];

const RUNS: &[Run] = &[
    // A file or an output that fails ends the run.
    Run {
        words: PAGE,
        failing_calls: &[2],
        code: 4,
        out: "",
        err: "strudel: cannot read q.struql\n",
        ..PLAIN
    },
    Run {
        words: PAGE,
        failing_puts: &[1],
        code: 5,
        out: "",
        err: "strudel: cannot write\n",
        ..PLAIN
    },
    Run {
        words: NO_PAGE,
        failing_lines: &[1],
        code: 9,
        out: "",
        err: "",
        ..PLAIN
    },
    // The three inputs are read before the sixth write.
    Run {
        words: BUILD,
        failing_calls: &[9],
        code: 5,
        out: "",
        err: "strudel: cannot write DIR/index.html\n",
        written: FIVE_PAGES,
        ..PLAIN
    },
    // A refused input has its place.
    Run {
        words: &["page", "q.struql", "deep.tmpl", "/", "bib.ddl"],
        code: 3,
        out: "",
        err: "strudel: deep.tmpl: 84 TooDeep at 268\n",
        ..PLAIN
    },
    Run {
        words: &["data", "open.ddl"],
        code: 3,
        out: "",
        err: "strudel: open.ddl: 31 Expected at 10\n",
        ..PLAIN
    },
    Run {
        words: &["data", "quote.ddl"],
        code: 3,
        out: "",
        err: "strudel: quote.ddl: 22 OpenString at 13\n",
        ..PLAIN
    },
];

#[test]
fn each_run_over_failing_devices_ends_as_its_row_says(rt: HostRuntime) -> Result<(), Fail> {
    check_runs(&rt, FILES, RUNS)
}
