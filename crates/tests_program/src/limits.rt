// Files of the greatest size and one byte more, and queries and data at the limits of what they may have.
use crate::lines::{FILES, PAGE, PAGE_OF_CSV, PAGE_OF_JSON, REPLAY};
use crate::runs::{PLAIN, Part, Run, check_beside, text_of};
use std::process::Abort;
use std::test::Fail;

// The words of a run, the parts of the file at a path, which blanks fill up to a length, and how it ends.
struct LongFile {
    name: &'static str,
    words: &'static [&'static str],
    path: &'static str,
    parts: &'static [Part],
    length: usize,
    code: u8,
    out: &'static str,
    err: &'static str,
}

// 64 of them: one by one they would take long.
const BLANKS: &str = "                                                                ";

fn check_files<R: AllocGlobal + Abort>(rt: &R, rows: &[LongFile]) -> Result<(), Fail> {
    for row in rows {
        let mut text = text_of(rt.alloc(), row.parts)?;
        if text.len() < row.length {
            let blanks = BLANKS.repeat(rt.alloc(), row.length / 64 + 1)?;
            text.extend_from_slice(blanks.as_bytes())?;
            text.truncate(row.length);
        }
        let run = Run {
            name: row.name,
            words: row.words,
            code: row.code,
            out: row.out,
            err: row.err,
            ..PLAIN
        };
        check_beside(rt, FILES, row.path, &text, &run)?;
    }
    Ok(())
}

// The most bytes of a query or of templates, and of data or a script.
const MEBIBYTE: usize = 1_048_576;

const GREATEST: usize = 67_108_864;

const CHAIN: &str =
    "INPUT D CREATE F() WHERE C(a1), C(a2), C(a3), C(a4), C(a5), C(a6), C(a7), C(a8), C(a9), C(a10), \
        C(a11), C(a12), C(a13), C(a14), C(a15), C(a16), C(a17), C(a18), C(a19), C(a20), C(a21), C(a22), \
        C(a23), C(a24), C(a25), C(a26), C(a27), C(a28), C(a29), C(a30), C(a31), C(a32)";

const QUERIES_AND_TEMPLATES: &[LongFile] = &[
    LongFile {
        name: "a query of the greatest size",
        words: PAGE,
        path: "q",
        parts: &[Part {
            text: "INPUT D CREATE F() OUTPUT S",
            count: 1,
        }],
        length: MEBIBYTE,
        code: 0,
        out: "ok",
        err: "",
    },
    LongFile {
        name: "a query of one byte more",
        words: PAGE,
        path: "q",
        parts: &[Part {
            text: "INPUT D CREATE F() OUTPUT S",
            count: 1,
        }],
        length: MEBIBYTE + 1,
        code: 3,
        out: "",
        err: "strudel: q: 24 TooLong at 1048576\n",
    },
    LongFile {
        name: "templates of the greatest size",
        words: PAGE,
        path: "t",
        parts: &[Part {
            text: "<TEMPLATE F>ok</TEMPLATE>",
            count: 1,
        }],
        length: MEBIBYTE,
        code: 0,
        out: "ok",
        err: "",
    },
    LongFile {
        name: "templates of one byte more",
        words: PAGE,
        path: "t",
        parts: &[Part {
            text: "<TEMPLATE F>ok</TEMPLATE>",
            count: 1,
        }],
        length: MEBIBYTE + 1,
        code: 3,
        out: "",
        err: "strudel: t: 24 TooLong at 1048576\n",
    },
    // An expression that has the label once, and then this many times more.
    LongFile {
        name: "256 positions",
        words: PAGE,
        path: "q",
        parts: &[
            Part {
                text: "INPUT D CREATE F() WHERE x -> \"a\"",
                count: 1,
            },
            Part {
                text: ".\"a\"",
                count: 255,
            },
            Part {
                text: " -> y OUTPUT S",
                count: 1,
            },
        ],
        length: 0,
        code: 0,
        out: "ok",
        err: "",
    },
    LongFile {
        name: "257 positions",
        words: PAGE,
        path: "q",
        parts: &[
            Part {
                text: "INPUT D CREATE F() WHERE x -> \"a\"",
                count: 1,
            },
            Part {
                text: ".\"a\"",
                count: 256,
            },
            Part {
                text: " -> y OUTPUT S",
                count: 1,
            },
        ],
        length: 0,
        code: 3,
        out: "",
        err: "strudel: q: 51 TooManyPositions at 30\n",
    },
    // A chain that has 32 variables, and one more.
    LongFile {
        name: "32 variables",
        words: PAGE,
        path: "q",
        parts: &[
            Part {
                text: CHAIN,
                count: 1,
            },
            Part {
                text: " OUTPUT S",
                count: 1,
            },
        ],
        length: 0,
        code: 0,
        out: "ok",
        err: "",
    },
    LongFile {
        name: "33 variables",
        words: PAGE,
        path: "q",
        parts: &[
            Part {
                text: CHAIN,
                count: 1,
            },
            Part {
                text: ", C(a33)",
                count: 1,
            },
            Part {
                text: " OUTPUT S",
                count: 1,
            },
        ],
        length: 0,
        code: 3,
        out: "",
        err: "strudel: q: 68 TooManyVariables at 274\n",
    },
];

#[test]
fn queries_and_templates_are_read_up_to_their_limits(rt: HostRuntime) -> Result<(), Fail> {
    check_files(&rt, QUERIES_AND_TEMPLATES)
}

const LONGEST_DATA: &[LongFile] = &[LongFile {
    name: "data of the greatest size",
    words: PAGE,
    path: "d",
    parts: &[],
    length: GREATEST,
    code: 0,
    out: "ok",
    err: "",
}];

#[test]
fn data_of_the_greatest_size_are_read(rt: HostRuntime) -> Result<(), Fail> {
    check_files(&rt, LONGEST_DATA)
}

// A length that is too great is reported before a fault of the text.
const TOO_LONG: &[LongFile] = &[
    LongFile {
        name: "data of one byte more",
        words: PAGE,
        path: "d",
        parts: &[Part {
            text: "$",
            count: 1,
        }],
        length: GREATEST + 1,
        code: 3,
        out: "",
        err: "strudel: d: 24 TooLong at 67108864\n",
    },
    LongFile {
        name: "a CSV file of one byte more",
        words: PAGE_OF_CSV,
        path: "d.csv",
        parts: &[Part {
            text: ",\n",
            count: 1,
        }],
        length: GREATEST + 1,
        code: 3,
        out: "",
        err: "strudel: d.csv: 24 TooLong at 67108864\n",
    },
    LongFile {
        name: "a JSON file of one byte more",
        words: PAGE_OF_JSON,
        path: "d.json",
        parts: &[Part {
            text: "3",
            count: 1,
        }],
        length: GREATEST + 1,
        code: 3,
        out: "",
        err: "strudel: d.json: 24 TooLong at 67108864\n",
    },
    LongFile {
        name: "a script of one byte more",
        words: REPLAY,
        path: "s",
        parts: &[Part {
            text: "frob",
            count: 1,
        }],
        length: GREATEST + 1,
        code: 3,
        out: "",
        err: "strudel: s: 24 TooLong at 67108864\n",
    },
];

#[test]
fn data_and_scripts_that_are_too_long_are_refused(rt: HostRuntime) -> Result<(), Fail> {
    check_files(&rt, TOO_LONG)
}

const TOO_MANY: &[LongFile] = &[
    // Each record is a node.
    LongFile {
        name: "one node more",
        words: PAGE_OF_CSV,
        path: "d.csv",
        parts: &[
            Part {
                text: "a\n",
                count: 1,
            },
            Part {
                text: "1\n",
                count: 1_048_577,
            },
        ],
        length: 0,
        code: 3,
        out: "",
        err: "strudel: d.csv: 12 TooManyNodes at row 1048577\n",
    },
    // Each record states 63 edges and a member, and so 65,536 of them state as many as a graph may have.
    LongFile {
        name: "one record more",
        words: PAGE_OF_CSV,
        path: "d.csv",
        parts: &[
            Part {
                text: "c0,c1,c2,c3,c4,c5,c6,c7,c8,c9,c10,c11,c12,c13,c14,c15,c16,c17,c18,c19,c20,c21,c22,\
                    c23,c24,c25,c26,c27,c28,c29,c30,c31,c32,c33,c34,c35,c36,c37,c38,c39,c40,c41,c42,c43,c44,\
                    c45,c46,c47,c48,c49,c50,c51,c52,c53,c54,c55,c56,c57,c58,c59,c60,c61,c62\n",
                count: 1,
            },
            Part {
                text: "1,1,1,1,1,1,1,1,1,1,1,1,1,1,1,1,1,1,1,1,1,1,1,1,1,1,1,1,1,1,1,1,1,1,1,1,1,1,1,1,1,1,\
                    1,1,1,1,1,1,1,1,1,1,1,1,1,1,1,1,1,1,1,1,1\n",
                count: 65_537,
            },
        ],
        length: 0,
        code: 3,
        out: "",
        err: "strudel: d.csv: 11 TooManyEdges at row 65537\n",
    },
];

#[test]
fn one_node_or_record_of_edges_past_the_limit_is_refused(rt: HostRuntime) -> Result<(), Fail> {
    check_files(&rt, TOO_MANY)
}
