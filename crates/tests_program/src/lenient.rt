// Runs over data that are read leniently, each beside the run that reads them strictly.
use crate::runs::{FileRow, PLAIN, Run, check_runs};
use std::test::Fail;

const FILES: &[FileRow] = &[
    // A record with a decimal and a link, and no list.
    FileRow {
        path: "r.json",
        text: "{\"home\": \"https://a.b/\", \"price\": 1.50, \"size\": 3}",
    },
    FileRow {
        path: "d/R.JSON",
        text: "{\"size\": 3}",
    },
    // Semicolons, and a short record.
    FileRow {
        path: "s.csv",
        text: "name;price\nPen;1\nInk\n",
    },
    FileRow {
        path: "long.csv",
        text: "name\nPen,1\n",
    },
    FileRow {
        path: "d.ddl",
        text: "object o in r { home \"https://a.b/\" price 2 }",
    },
    FileRow {
        path: "q",
        text: "INPUT D WHERE r(x), x -> \"home\" -> h, x -> \"price\" -> p CREATE P() \
            LINK P() -> \"home\" -> h, P() -> \"price\" -> p OUTPUT S",
    },
    FileRow {
        path: "t",
        text: "<TEMPLATE P><SFMT @home LINK> <SFMT @price></TEMPLATE>",
    },
    FileRow {
        path: "c",
        text: "ONE P LINKS \"price\"",
    },
    FileRow {
        path: "script",
        text: "",
    },
];

const NOT_RECORDS: &str = "strudel: r.json: 46 NotRecords at #/home\n";

const BAD_WORDS: &str = "strudel: bad command line\n";

const SHOWN: &str = "<a href=\"https://a.b/\">https://a.b/</a> 1.50";

const PLANNED: &str =
    "block 1\n  use r(x) cost 1\n  use x -> \"home\" -> h cost 2\n  use x -> \"price\" -> p cost 2\n";

const RUNS: &[Run] = &[
    Run {
        words: &["data", "--lenient", "r.json"],
        code: 0,
        out: "object \"r_1\" in \"r\" {\n  \"home\" url \"https://a.b/\"\n  \"price\" \"1.50\"\n  \"size\" 3\n}\n",
        err: "",
        ..PLAIN
    },
    Run {
        words: &["data", "r.json"],
        code: 3,
        out: "",
        err: NOT_RECORDS,
        ..PLAIN
    },
    // Without the option the file is a data text by its ending.
    Run {
        words: &["data", "d/R.JSON", "--lenient"],
        code: 0,
        out: "object \"R_1\" in \"R\" {\n  \"size\" 3\n}\n",
        err: "",
        ..PLAIN
    },
    Run {
        words: &["data", "d/R.JSON"],
        code: 3,
        out: "",
        err: "strudel: d/R.JSON: 21 BadByte at 7\n",
        ..PLAIN
    },
    Run {
        words: &["data", "--lenient", "s.csv"],
        code: 0,
        out: "object \"s_1\" in \"s\" {\n  \"name\" \"Pen\"\n  \"price\" 1\n}\nobject \"s_2\" in \"s\" {\n  \
            \"name\" \"Ink\"\n}\n",
        err: "",
        ..PLAIN
    },
    Run {
        words: &["data", "s.csv"],
        code: 0,
        out: "object \"s_1\" in \"s\" {\n  \"name;price\" \"Pen;1\"\n}\nobject \"s_2\" in \"s\" {\n  \
            \"name;price\" \"Ink\"\n}\n",
        err: "",
        ..PLAIN
    },
    // A record longer than the header is refused in both ways, and a data text is read as ever.
    Run {
        words: &["data", "--lenient", "long.csv"],
        code: 3,
        out: "",
        err: "strudel: long.csv: 43 Ragged at row 1\n",
        ..PLAIN
    },
    Run {
        words: &["data", "--lenient", "d.ddl"],
        code: 0,
        out: "object \"o\" in \"r\" {\n  \"home\" \"https://a.b/\"\n  \"price\" 2\n}\n",
        err: "",
        ..PLAIN
    },
    // Each command that reads data.
    Run {
        words: &["page", "--lenient", "q", "t", "/", "r.json"],
        code: 0,
        out: SHOWN,
        err: "",
        ..PLAIN
    },
    Run {
        words: &["page", "q", "t", "/", "r.json"],
        code: 3,
        out: "",
        err: NOT_RECORDS,
        ..PLAIN
    },
    Run {
        words: &["build", "q", "t", "site", "--lenient", "r.json"],
        code: 0,
        out: "pages 1\n",
        err: "",
        ..PLAIN
    },
    Run {
        words: &["build", "q", "t", "site", "r.json"],
        code: 3,
        out: "",
        err: NOT_RECORDS,
        ..PLAIN
    },
    Run {
        words: &["explain", "--lenient", "q", "r.json"],
        code: 0,
        out: PLANNED,
        err: "",
        ..PLAIN
    },
    Run {
        words: &["explain", "q", "r.json"],
        code: 3,
        out: "",
        err: NOT_RECORDS,
        ..PLAIN
    },
    Run {
        words: &["lint", "--lenient", "q", "t", "r.json"],
        code: 0,
        out: "",
        err: "",
        ..PLAIN
    },
    Run {
        words: &["lint", "q", "t", "r.json"],
        code: 3,
        out: "",
        err: NOT_RECORDS,
        ..PLAIN
    },
    Run {
        words: &["check", "--here", "--lenient", "q", "c", "r.json"],
        code: 0,
        out: "1 met\n",
        err: "",
        ..PLAIN
    },
    Run {
        words: &["check", "--here", "q", "c", "r.json"],
        code: 3,
        out: "",
        err: NOT_RECORDS,
        ..PLAIN
    },
    Run {
        words: &["replay", "--lenient", "q", "t", "script", "r.json"],
        code: 0,
        out: "connections 0\nreplies 0\nhits 0\n",
        err: "",
        ..PLAIN
    },
    Run {
        words: &["replay", "q", "t", "script", "r.json"],
        code: 3,
        out: "",
        err: NOT_RECORDS,
        ..PLAIN
    },
    Run {
        words: &["serve", "--lenient", "q", "t", "r.json"],
        code: 0,
        out: "serving 8080\nconnections 0\nreplies 0\nhits 0\n",
        err: "",
        ..PLAIN
    },
    Run {
        words: &["serve", "q", "t", "r.json"],
        code: 3,
        out: "",
        err: NOT_RECORDS,
        ..PLAIN
    },
    // The option stands once, and where data are read.
    Run {
        words: &["data", "--lenient", "--lenient", "r.json"],
        code: 2,
        out: "",
        err: BAD_WORDS,
        ..PLAIN
    },
    Run {
        words: &["data", "--lenient=1", "r.json"],
        code: 2,
        out: "",
        err: BAD_WORDS,
        ..PLAIN
    },
    Run {
        words: &["data", "--lenient"],
        code: 2,
        out: "",
        err: BAD_WORDS,
        ..PLAIN
    },
    Run {
        words: &["schema", "--lenient", "q"],
        code: 2,
        out: "",
        err: BAD_WORDS,
        ..PLAIN
    },
    Run {
        words: &["check", "--lenient", "q", "c"],
        code: 2,
        out: "",
        err: BAD_WORDS,
        ..PLAIN
    },
    Run {
        words: &["trial", "--lenient", "5"],
        code: 2,
        out: "",
        err: BAD_WORDS,
        ..PLAIN
    },
    Run {
        words: &["help", "--lenient"],
        code: 2,
        out: "",
        err: BAD_WORDS,
        ..PLAIN
    },
    Run {
        words: &["--lenient", "data", "r.json"],
        code: 2,
        out: "",
        err: BAD_WORDS,
        ..PLAIN
    },
];

#[test]
fn each_run_over_lenient_data_ends_as_its_row_says(rt: HostRuntime) -> Result<(), Fail> {
    check_runs(&rt, FILES, RUNS)
}
