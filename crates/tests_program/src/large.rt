// One page of a site of 8,000,000,000 terms, which no run could make whole, by each command that gives a page.
use crate::runs::{FileRow, PLAIN, Part, Run, Taken, check_runs};
use sd_value::NoMemory;
use std::alloc::Global;
use std::test::Fail;

// The nodes a1 to a2000, in the collection A.
fn many_nodes(alloc: Global) -> Result<String, NoMemory> {
    let mut text = String::new(alloc);
    for number in 1..=2000 {
        let object = format!(in alloc; "object a{number} in A {{ }}\n")?;
        text.push_str(object.as_str())?;
    }
    Ok(text)
}

const QUERY: &str = "INPUT D WHERE A(x), A(y), A(z) CREATE F(x, y, z) OUTPUT S";

const TEMPLATES: &str = "<TEMPLATE F>ok</TEMPLATE>";

const SCRIPT: &str =
    "open 1 bytes 1 \"GET /F/na1/na2/na3.html HTTP/1.1\\r\\nHost: a\\r\\n\\r\\n\" end 1";

// The same, where the connection stays open at its end.
const OPEN_SCRIPT: &str =
    "open 1 bytes 1 \"GET /F/na1/na2/na3.html HTTP/1.1\\r\\nHost: a\\r\\n\\r\\n\"";

// The reply, of 99 bytes.
const REPLY: &str =
    "HTTP/1.1 200 OK\r\nContent-Type: text/html; charset=utf-8\r\nContent-Length: 2\r\nConnection: close\r\n\r\nok";

const REPLAYED: &str =
    "connection 1 99\nHTTP/1.1 200 OK\r\nContent-Type: text/html; charset=utf-8\r\nContent-Length: \
        2\r\nConnection: close\r\n\r\nok\nconnections 1\nreplies 1\nhits 0\n";

const NOTHING_TAKEN: &[Taken] = &[Taken {
    connection: 1,
    bytes: "",
    is_closed: false,
}];

const REPLIED: &[Taken] = &[Taken {
    connection: 1,
    bytes: REPLY,
    is_closed: true,
}];

const RUNS: &[Run] = &[
    Run {
        words: &["page", "q", "t", "/F/na1/na2/na3.html", "d"],
        code: 0,
        out: "ok",
        err: "",
        taken: NOTHING_TAKEN,
        ..PLAIN
    },
    Run {
        words: &["serve", "q", "t", "d"],
        script: &[Part {
            text: SCRIPT,
            count: 1,
        }],
        code: 0,
        out: "serving 8080\nconnections 1\nreplies 1\nhits 0\n",
        err: "",
        taken: REPLIED,
        ..PLAIN
    },
    Run {
        name: "open at its end",
        words: &["serve", "q", "t", "d"],
        script: &[Part {
            text: OPEN_SCRIPT,
            count: 1,
        }],
        code: 0,
        out: "serving 8080\nconnections 1\nreplies 1\nhits 0\n",
        err: "",
        taken: REPLIED,
        ..PLAIN
    },
    Run {
        words: &["replay", "q", "t", "s", "d"],
        code: 0,
        out: REPLAYED,
        err: "",
        taken: NOTHING_TAKEN,
        ..PLAIN
    },
    Run {
        words: &["replay", "q", "t", "open", "d"],
        code: 0,
        out: REPLAYED,
        err: "",
        taken: NOTHING_TAKEN,
        ..PLAIN
    },
];

#[test]
fn a_page_of_a_site_that_is_never_made_is_given(rt: HostRuntime) -> Result<(), Fail> {
    let nodes = many_nodes(rt.alloc())?;
    let files = [
        FileRow {
            path: "d",
            text: nodes.as_str(),
        },
        FileRow {
            path: "q",
            text: QUERY,
        },
        FileRow {
            path: "t",
            text: TEMPLATES,
        },
        FileRow {
            path: "s",
            text: SCRIPT,
        },
        FileRow {
            path: "open",
            text: OPEN_SCRIPT,
        },
    ];
    check_runs(&rt, &files, RUNS)
}
