// Connections in turns, runs without connections, turns that are spent, and calls of the wire that fail while pages are
// served.
use super::{FILES, REPLAY, Replay, SERVE, YEAR_REPLY, check_replays};
use crate::runs::{PLAIN, Part, Run, Taken, check_runs};
use mem_wire::FailingSend;
use std::test::Fail;

// Two connections send the same request byte by byte, turn by turn.
const IN_TURNS: &[Replay] = &[Replay {
    script: "open 1 open 2 bytes 1 \"G\" bytes 2 \"G\" bytes 1 \"E\" bytes 2 \"E\" bytes 1 \"T\" bytes 2 \
        \"T\" bytes 1 \" \" bytes 2 \" \" bytes 1 \"/\" bytes 2 \"/\" bytes 1 \"Y\" bytes 2 \"Y\" bytes 1 \
        \"e\" bytes 2 \"e\" bytes 1 \"a\" bytes 2 \"a\" bytes 1 \"r\" bytes 2 \"r\" bytes 1 \"P\" bytes 2 \
        \"P\" bytes 1 \"a\" bytes 2 \"a\" bytes 1 \"g\" bytes 2 \"g\" bytes 1 \"e\" bytes 2 \"e\" bytes 1 \
        \"/\" bytes 2 \"/\" bytes 1 \"i\" bytes 2 \"i\" bytes 1 \"1\" bytes 2 \"1\" bytes 1 \"9\" bytes 2 \
        \"9\" bytes 1 \"9\" bytes 2 \"9\" bytes 1 \"8\" bytes 2 \"8\" bytes 1 \".\" bytes 2 \".\" bytes 1 \
        \"h\" bytes 2 \"h\" bytes 1 \"t\" bytes 2 \"t\" bytes 1 \"m\" bytes 2 \"m\" bytes 1 \"l\" bytes 2 \
        \"l\" bytes 1 \" \" bytes 2 \" \" bytes 1 \"H\" bytes 2 \"H\" bytes 1 \"T\" bytes 2 \"T\" bytes 1 \
        \"T\" bytes 2 \"T\" bytes 1 \"P\" bytes 2 \"P\" bytes 1 \"/\" bytes 2 \"/\" bytes 1 \"1\" bytes 2 \
        \"1\" bytes 1 \".\" bytes 2 \".\" bytes 1 \"1\" bytes 2 \"1\" bytes 1 \"\\r\" bytes 2 \"\\r\" bytes \
        1 \"\\n\" bytes 2 \"\\n\" bytes 1 \"H\" bytes 2 \"H\" bytes 1 \"o\" bytes 2 \"o\" bytes 1 \"s\" \
        bytes 2 \"s\" bytes 1 \"t\" bytes 2 \"t\" bytes 1 \":\" bytes 2 \":\" bytes 1 \" \" bytes 2 \" \" \
        bytes 1 \"a\" bytes 2 \"a\" bytes 1 \"\\r\" bytes 2 \"\\r\" bytes 1 \"\\n\" bytes 2 \"\\n\" bytes 1 \
        \"\\r\" bytes 2 \"\\r\" bytes 1 \"\\n\" bytes 2 \"\\n\"",
    out: "connection 1 154\nHTTP/1.1 200 OK\r\nContent-Type: text/html; charset=utf-8\r\nContent-Length: \
        56\r\nConnection: close\r\n\r\n<h1>1998</h1><a href=\"/PaperPage/npub1.html\">Strudel</a>\n\
        connection 2 154\nHTTP/1.1 200 OK\r\nContent-Type: text/html; charset=utf-8\r\nContent-Length: \
        56\r\nConnection: close\r\n\r\n<h1>1998</h1><a href=\"/PaperPage/npub1.html\">Strudel</a>\n\
        connections 2\nreplies 2\nhits 1\n",
}];

#[test]
fn two_connections_in_turns(rt: HostRuntime) -> Result<(), Fail> {
    check_replays(&rt, FILES, REPLAY, IN_TURNS)
}

const RUNS: &[Run] = &[
    Run {
        name: "no connections",
        words: SERVE,
        code: 0,
        out: "serving 8080\nconnections 0\nreplies 0\nhits 0\n",
        err: "",
        ..PLAIN
    },
    Run {
        name: "the port 9000",
        words: &["serve", "--port", "9000", "--turns", "1", "q", "t", "d"],
        code: 0,
        out: "serving 9000\nconnections 0\nreplies 0\nhits 0\n",
        err: "",
        ..PLAIN
    },
    // The first call is `listen`.
    Run {
        name: "no listen",
        words: SERVE,
        failing_nexts: &[1],
        code: 6,
        out: "connections 0\nreplies 0\nhits 0\n",
        err: "strudel: connection source failed\n",
        ..PLAIN
    },
    Run {
        name: "no event",
        words: SERVE,
        failing_nexts: &[2],
        code: 6,
        out: "serving 8080\nconnections 0\nreplies 0\nhits 0\n",
        err: "strudel: connection source failed\n",
        ..PLAIN
    },
    Run {
        name: "no cache",
        words: &["serve", "--cache", "0", "q", "t", "d"],
        code: 2,
        out: "",
        err: "strudel: bad command line\n",
        ..PLAIN
    },
    Run {
        name: "one turn",
        words: &["serve", "--turns", "1", "q", "t", "d"],
        script: &[Part {
            text: "open 1",
            count: 1,
        }],
        code: 10,
        out: "serving 8080\nconnections 1\nreplies 0\nhits 0\n",
        err: "strudel: turns spent\n",
        ..PLAIN
    },
    // Connection 1 asks for the page, and then the wire fails: its fourth call is the third for an event.
    Run {
        name: "no third event",
        words: SERVE,
        script: &[Part {
            text: "open 1 bytes 1 \"GET /YearPage/i1998.html HTTP/1.1\\r\\nHost: a\\r\\n\\r\\n\"",
            count: 1,
        }],
        failing_nexts: &[4],
        code: 6,
        out: "serving 8080\nconnections 1\nreplies 1\nhits 0\n",
        err: "strudel: connection source failed\n",
        taken: &[Taken {
            connection: 1,
            bytes: YEAR_REPLY,
            is_closed: true,
        }],
        ..PLAIN
    },
    // Two connections ask for the page, and the first send to the first of them fails without a byte.
    Run {
        name: "a failed send",
        words: SERVE,
        script: &[Part {
            text: "open 1 open 2 bytes 1 \"GET /YearPage/i1998.html HTTP/1.1\\r\\nHost: a\\r\\n\\r\\n\" \
                bytes 2 \"GET /YearPage/i1998.html HTTP/1.1\\r\\nHost: a\\r\\n\\r\\n\"",
            count: 1,
        }],
        failing_sends: &[FailingSend {
            connection: 1,
            number: 1,
            taken: 0,
        }],
        code: 0,
        out: "serving 8080\nconnections 2\nreplies 2\nhits 1\n",
        err: "",
        taken: &[
            Taken {
                connection: 1,
                bytes: "",
                is_closed: false,
            },
            Taken {
                connection: 2,
                bytes: YEAR_REPLY,
                is_closed: true,
            },
        ],
        ..PLAIN
    },
    // Connection 1 asks for the page three times in one piece, and the third send to it fails after five bytes: it is
    // sent two whole replies of 159 bytes, and five bytes of the third.
    Run {
        name: "a send that fails after five bytes",
        words: &["serve", "--requests", "3", "q", "t", "d"],
        script: &[Part {
            text: "open 1 open 2 bytes 1 \"GET /YearPage/i1998.html HTTP/1.1\\r\\nHost: a\\r\\n\\r\\nGET \
                /YearPage/i1998.html HTTP/1.1\\r\\nHost: a\\r\\n\\r\\nGET /YearPage/i1998.html \
                HTTP/1.1\\r\\nHost: a\\r\\n\\r\\n\" bytes 2 \"GET /YearPage/i1998.html HTTP/1.1\\r\\nHost: \
                a\\r\\n\\r\\n\"",
            count: 1,
        }],
        failing_sends: &[FailingSend {
            connection: 1,
            number: 3,
            taken: 5,
        }],
        code: 0,
        out: "serving 8080\nconnections 2\nreplies 4\nhits 3\n",
        err: "",
        taken: &[
            Taken {
                connection: 1,
                bytes: "HTTP/1.1 200 OK\r\nContent-Type: text/html; charset=utf-8\r\nContent-Length: 56\r\n\
                    Connection: keep-alive\r\n\r\n<h1>1998</h1><a \
                    href=\"/PaperPage/npub1.html\">Strudel</a>HTTP/1.1 200 OK\r\nContent-Type: text/html; \
                    charset=utf-8\r\nContent-Length: 56\r\nConnection: keep-alive\r\n\r\n<h1>1998</h1><a \
                    href=\"/PaperPage/npub1.html\">Strudel</a>HTTP/",
                is_closed: false,
            },
            Taken {
                connection: 2,
                bytes: "HTTP/1.1 200 OK\r\nContent-Type: text/html; charset=utf-8\r\nContent-Length: 56\r\n\
                    Connection: keep-alive\r\n\r\n<h1>1998</h1><a href=\"/PaperPage/npub1.html\">Strudel</a>",
                is_closed: false,
            },
        ],
        ..PLAIN
    },
    Run {
        name: "one turn for two connections",
        words: &["replay", "--turns", "1", "q", "t", "two", "d"],
        code: 10,
        out: "connection 1 0\n\nconnections 1\nreplies 0\nhits 0\n",
        err: "strudel: turns spent\n",
        ..PLAIN
    },
];

#[test]
fn each_run_over_connections_ends_as_its_row_says(rt: HostRuntime) -> Result<(), Fail> {
    check_runs(&rt, FILES, RUNS)
}
