// Runs over a first query: its site as the data of `data`, `page` and `build`, the faults of the inputs in their order,
// and texts that change its data.
use crate::connections::{Replay, check_replays};
use crate::runs::{FileRow, PLAIN, Run, check_runs};
use std::test::Fail;

const FILES: &[FileRow] = &[
    FileRow {
        path: "d",
        text: "object o in C { v 1 }",
    },
    FileRow {
        path: "slash",
        text: "object \"/a\" in C { }",
    },
    FileRow {
        path: "empty",
        text: "",
    },
    // A page for each member of C, which is collected, with a link to it.
    FileRow {
        path: "q1",
        text: "INPUT D WHERE C(x) CREATE F(x) LINK F(x) -> \"at\" -> x COLLECT Made(F(x)) OUTPUT S",
    },
    FileRow {
        path: "q2",
        text: "INPUT S WHERE Made(y), y -> \"at\".\"v\" -> z CREATE G(z) LINK G(z) -> \"v\" -> z OUTPUT T",
    },
    FileRow {
        path: "t",
        text: "<TEMPLATE G><SFMT @v></TEMPLATE>",
    },
    FileRow {
        path: "no_data",
        text: "object o in {",
    },
    FileRow {
        path: "no_query",
        text: "INPUT",
    },
    FileRow {
        path: "unbound",
        text: "INPUT D WHERE C(x) CREATE F(y) OUTPUT S",
    },
];

const MADE: &str =
    "object \"/F/no.html\" in \"Made\" {\n  \"at\" &\"o\"\n}\nobject \"o\" in \"C\" {\n  \"v\" 1\n}\n";

const SLASHED: &str =
    "object \"//a\" in \"C\" {\n}\nobject \"/F/n~2Fa.html\" in \"Made\" {\n  \"at\" &\"//a\"\n}\n";

const RUNS: &[Run] = &[
    Run {
        words: &["data", "--over", "q1", "d"],
        code: 0,
        out: MADE,
        err: "",
        ..PLAIN
    },
    Run {
        words: &["data", "slash", "--over=q1"],
        code: 0,
        out: SLASHED,
        err: "",
        ..PLAIN
    },
    Run {
        words: &["data", "--over", "q1", "empty"],
        code: 0,
        out: "",
        err: "",
        ..PLAIN
    },
    // The file d stands twice, and states the same twice.
    Run {
        words: &["data", "--over", "q1", "d", "empty", "d"],
        code: 0,
        out: MADE,
        err: "",
        ..PLAIN
    },
    Run {
        words: &["page", "--over", "q1", "q2", "t", "/G/i1.html", "d"],
        code: 0,
        out: "1",
        err: "",
        ..PLAIN
    },
    // The second query has none of the first query's pages, and without the first it has no page at all.
    Run {
        words: &["page", "--over", "q1", "q2", "t", "/F/no.html", "d"],
        code: 9,
        out: "",
        err: "strudel: not found\n",
        ..PLAIN
    },
    Run {
        words: &["page", "q2", "t", "/G/i1.html", "d"],
        code: 9,
        out: "",
        err: "strudel: not found\n",
        ..PLAIN
    },
    Run {
        words: &["build", "--over", "q1", "q2", "t", "site", "d"],
        code: 0,
        out: "pages 1\n",
        err: "",
        ..PLAIN
    },
    Run {
        words: &["build", "q2", "t", "site", "d"],
        code: 0,
        out: "pages 0\n",
        err: "",
        ..PLAIN
    },
    // The data files are read first, then the first query, then the query, and then the templates.
    Run {
        words: &["page", "--over", "no_query", "unbound", "t", "/", "no_data"],
        code: 3,
        out: "",
        err: "strudel: no_data: 31 Expected at 12\n",
        ..PLAIN
    },
    Run {
        words: &["page", "--over", "lost", "unbound", "t", "/", "no_data"],
        code: 3,
        out: "",
        err: "strudel: no_data: 31 Expected at 12\n",
        ..PLAIN
    },
    Run {
        words: &["page", "--over", "no_query", "unbound", "t", "/", "gone"],
        code: 4,
        out: "",
        err: "strudel: cannot read gone\n",
        ..PLAIN
    },
    Run {
        words: &["page", "--over", "no_query", "unbound", "t", "/", "d"],
        code: 3,
        out: "",
        err: "strudel: no_query: 71 Expected at 5\n",
        ..PLAIN
    },
    Run {
        words: &["build", "--over", "lost", "no_query", "t", "site", "d"],
        code: 4,
        out: "",
        err: "strudel: cannot read lost\n",
        ..PLAIN
    },
    Run {
        words: &["data", "--over", "unbound", "d"],
        code: 3,
        out: "",
        err: "strudel: unbound: 61 Unbound at 28\n",
        ..PLAIN
    },
    Run {
        words: &["page", "--over", "q1", "unbound", "lost", "/", "d"],
        code: 3,
        out: "",
        err: "strudel: unbound: 61 Unbound at 28\n",
        ..PLAIN
    },
    Run {
        words: &["page", "--over", "q1", "q2", "q2", "/", "d"],
        code: 3,
        out: "",
        err: "strudel: q2: 81 Expected at 0\n",
        ..PLAIN
    },
];

#[test]
fn each_run_over_a_first_query_ends_as_its_row_says(rt: HostRuntime) -> Result<(), Fail> {
    check_runs(&rt, FILES, RUNS)
}

const CHANGES: &[Replay] = &[
    // A text is accepted, and the graph of the first query's site over it replaces the data. The next is no data text.
    Replay {
        script: "open 1 bytes 1 \"GET /G/i1.html HTTP/1.1\\r\\nHost: a\\r\\n\\r\\n\" change \"object o in C \
            { v 2 }\" open 2 bytes 2 \"GET /G/i2.html HTTP/1.1\\r\\nHost: a\\r\\n\\r\\n\" open 3 bytes 3 \
            \"GET /G/i1.html HTTP/1.1\\r\\nHost: a\\r\\n\\r\\n\" change \"object\" open 4 bytes 4 \"GET \
            /G/i2.html HTTP/1.1\\r\\nHost: a\\r\\n\\r\\n\"",
        out: "connection 1 98\nHTTP/1.1 200 OK\r\nContent-Type: text/html; charset=utf-8\r\nContent-Length: \
            1\r\nConnection: close\r\n\r\n1\nconnection 2 98\nHTTP/1.1 200 OK\r\nContent-Type: text/html; \
            charset=utf-8\r\nContent-Length: 1\r\nConnection: close\r\n\r\n2\nconnection 3 116\nHTTP/1.1 \
            404 Not Found\r\nContent-Type: text/plain; charset=utf-8\r\nContent-Length: 10\r\nConnection: \
            close\r\n\r\nnot found\n\nconnection 4 98\nHTTP/1.1 200 OK\r\nContent-Type: text/html; \
            charset=utf-8\r\nContent-Length: 1\r\nConnection: close\r\n\r\n2\nconnections 4\nreplies 4\n\
            hits 1\nchanges 2\nrefused 1\n",
    },
    // The site of the first query has the stated data too.
    Replay {
        script: "change \"object p in Made { at &o } object o in E { v 3 } object q in C { v 4 }\" open 1 \
            bytes 1 \"GET /G/i3.html HTTP/1.1\\r\\nHost: a\\r\\n\\r\\n\" open 2 bytes 2 \"GET /G/i4.html \
            HTTP/1.1\\r\\nHost: a\\r\\n\\r\\n\"",
        out: "connection 1 98\nHTTP/1.1 200 OK\r\nContent-Type: text/html; charset=utf-8\r\nContent-Length: \
            1\r\nConnection: close\r\n\r\n3\nconnection 2 98\nHTTP/1.1 200 OK\r\nContent-Type: text/html; \
            charset=utf-8\r\nContent-Length: 1\r\nConnection: close\r\n\r\n4\nconnections 2\nreplies 2\n\
            hits 0\nchanges 1\nrefused 0\n",
    },
];

#[test]
fn texts_change_the_data_of_a_first_query(rt: HostRuntime) -> Result<(), Fail> {
    let words = ["replay", "--over", "q1", "q2", "t", "s", "d"];
    check_replays(&rt, FILES, &words, CHANGES)
}
