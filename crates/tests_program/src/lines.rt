// Small files that are refused, each with the line that reports its first fault, beside files that are read.
use crate::runs::{FileRow, PLAIN, Run, check_beside};
use std::test::Fail;

/// A site of one page, and an empty script.
pub const FILES: &[FileRow] = &[
    FileRow {
        path: "d",
        text: "",
    },
    FileRow {
        path: "q",
        text: "INPUT D CREATE F() OUTPUT S",
    },
    FileRow {
        path: "t",
        text: "<TEMPLATE F>ok</TEMPLATE>",
    },
    FileRow {
        path: "s",
        text: "",
    },
];

/// Its page.
pub const PAGE: &[&str] = &["page", "q", "t", "/F.html", "d"];

/// The same over data in CSV.
pub const PAGE_OF_CSV: &[&str] = &["page", "q", "t", "/F.html", "d.csv"];

/// The same over data in JSON.
pub const PAGE_OF_JSON: &[&str] = &["page", "q", "t", "/F.html", "d.json"];

/// The site over a script.
pub const REPLAY: &[&str] = &["replay", "q", "t", "s", "d"];

// The words of a run, the bytes that are at a path, and how it ends.
struct LineRow {
    words: &'static [&'static str],
    path: &'static str,
    bytes: &'static [u8],
    code: u8,
    out: &'static str,
    err: &'static str,
}

const LINES: &[LineRow] = &[
    // Queries that don't split into tokens, and an empty one.
    LineRow {
        words: PAGE,
        path: "q",
        bytes: b"INPUT D $",
        code: 3,
        out: "",
        err: "strudel: q: 21 BadByte at 8\n",
    },
    LineRow {
        words: PAGE,
        path: "q",
        bytes: b"INPUT D WHERE x = \"a",
        code: 3,
        out: "",
        err: "strudel: q: 22 OpenString at 18\n",
    },
    LineRow {
        words: PAGE,
        path: "q",
        bytes: b"INPUT D WHERE x = 9223372036854775808 OUTPUT S",
        code: 3,
        out: "",
        err: "strudel: q: 23 IntOutOfRange at 18\n",
    },
    LineRow {
        words: PAGE,
        path: "q",
        bytes: b"",
        code: 3,
        out: "",
        err: "strudel: q: 71 Expected at 0\n",
    },
    // Scripts.
    LineRow {
        words: REPLAY,
        path: "s",
        bytes: b"open 1 $",
        code: 3,
        out: "",
        err: "strudel: s: 21 BadByte at 7\n",
    },
    LineRow {
        words: REPLAY,
        path: "s",
        bytes: b"bytes 1 \"x",
        code: 3,
        out: "",
        err: "strudel: s: 22 OpenString at 8\n",
    },
    LineRow {
        words: REPLAY,
        path: "s",
        bytes: b"open 9223372036854775808",
        code: 3,
        out: "",
        err: "strudel: s: 23 IntOutOfRange at 5\n",
    },
    LineRow {
        words: REPLAY,
        path: "s",
        bytes: b"open",
        code: 3,
        out: "",
        err: "strudel: s: 111 Expected at 4\n",
    },
    LineRow {
        words: REPLAY,
        path: "s",
        bytes: b"open 0",
        code: 3,
        out: "",
        err: "strudel: s: 111 Expected at 5\n",
    },
    LineRow {
        words: REPLAY,
        path: "s",
        bytes: b"open 1 bytes 1 end 1",
        code: 3,
        out: "",
        err: "strudel: s: 111 Expected at 15\n",
    },
    LineRow {
        words: REPLAY,
        path: "s",
        bytes: b"",
        code: 0,
        out: "connections 0\nreplies 0\nhits 0\n",
        err: "",
    },
    // Data in JSON. The last text isn't UTF-8.
    LineRow {
        words: PAGE_OF_JSON,
        path: "d.json",
        bytes: b"",
        code: 3,
        out: "",
        err: "strudel: d.json: 44 NotJson at 0\n",
    },
    LineRow {
        words: PAGE_OF_JSON,
        path: "d.json",
        bytes: b"3",
        code: 3,
        out: "",
        err: "strudel: d.json: 46 NotRecords at #\n",
    },
    LineRow {
        words: PAGE_OF_JSON,
        path: "d.json",
        bytes: b"{\"a\": [{}, 1]}",
        code: 3,
        out: "",
        err: "strudel: d.json: 46 NotRecords at #/a/1\n",
    },
    LineRow {
        words: PAGE_OF_JSON,
        path: "d.json",
        bytes: b"[{\"n\": 9223372036854775808}]",
        code: 3,
        out: "",
        err: "strudel: d.json: 45 NotInteger at #/0/n\n",
    },
    LineRow {
        words: PAGE_OF_JSON,
        path: "d.json",
        bytes: b"[]",
        code: 0,
        out: "ok",
        err: "",
    },
    LineRow {
        words: PAGE_OF_JSON,
        path: "d.json",
        bytes: b"[\"\xff\"]",
        code: 3,
        out: "",
        err: "strudel: d.json: 44 NotJson at 0\n",
    },
    // Data in CSV that aren't UTF-8: in a row, before an empty label, and after a fault in the number of a row's fields.
    LineRow {
        words: PAGE_OF_CSV,
        path: "d.csv",
        bytes: b"a,b\n1,2\n3,\xff\n",
        code: 3,
        out: "",
        err: "strudel: d.csv: 41 NotUtf8 at row 2\n",
    },
    LineRow {
        words: PAGE_OF_CSV,
        path: "d.csv",
        bytes: b"\xff,,b\n",
        code: 3,
        out: "",
        err: "strudel: d.csv: 41 NotUtf8 at row 0\n",
    },
    LineRow {
        words: PAGE_OF_CSV,
        path: "d.csv",
        bytes: b"a,b\n\xff\n",
        code: 3,
        out: "",
        err: "strudel: d.csv: 43 Ragged at row 1\n",
    },
];

#[test]
fn each_file_is_read_or_reports_its_first_fault(rt: HostRuntime) -> Result<(), Fail> {
    for row in LINES {
        let run = Run {
            name: row.err,
            words: row.words,
            code: row.code,
            out: row.out,
            err: row.err,
            ..PLAIN
        };
        check_beside(&rt, FILES, row.path, row.bytes, &run)?;
    }
    Ok(())
}
