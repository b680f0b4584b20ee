// What one connection sends and is sent, by `replay` and by `serve`: requests of each kind, one of them byte by byte,
// and heads at their limits.
use super::{BAD_REPLY, CYCLIC_REPLY, FILES, HOME_REPLY, NOT_FOUND, REPLAY, SERVE, YEAR_REPLY};
use crate::runs::{PLAIN, Part, Run, Taken, check_beside, check_run, text_of};
use std::process::Abort;
use std::test::Fail;

// The words of both runs, the script of the one connection, what it is sent with its length as it is printed, and the
// printed counts.
#[derive(Drop)]
struct Exchange {
    name: &'static str,
    replay: &'static [&'static str],
    serve: &'static [&'static str],
    script: &'static [Part],
    length: &'static str,
    sent: &'static [Taken; 1],
    counts: &'static str,
}

const YEAR: &[Taken; 1] = &[Taken {
    connection: 1,
    bytes: YEAR_REPLY,
    is_closed: true,
}];

const HOME: &[Taken; 1] = &[Taken {
    connection: 1,
    bytes: HOME_REPLY,
    is_closed: true,
}];

const BAD: &[Taken; 1] = &[Taken {
    connection: 1,
    bytes: BAD_REPLY,
    is_closed: true,
}];

const NOTHING: &[Taken; 1] = &[Taken {
    connection: 1,
    bytes: "",
    is_closed: true,
}];

// One reply, after which the connection closes.
const ONE_REPLY: Exchange = Exchange {
    name: "",
    replay: REPLAY,
    serve: SERVE,
    script: &[],
    length: "",
    sent: NOTHING,
    counts: "connections 1\nreplies 1\nhits 0\n",
};

const EXCHANGES: &[Exchange] = &[
    // The path in other spellings.
    Exchange {
        name: "a path with an encoded letter and a query",
        script: &[Part {
            text: "open 1 bytes 1 \"GET /%59earPage/i1998.html?x=1 HTTP/1.1\\r\\nHost: a\\r\\n\\r\\n\"",
            count: 1,
        }],
        length: "154",
        sent: YEAR,
        ..ONE_REPLY
    },
    Exchange {
        name: "a whole address",
        script: &[Part {
            text: "open 1 bytes 1 \"GET http://a/YearPage/i1998.html HTTP/1.1\\r\\nHost: a\\r\\n\\r\\n\"",
            count: 1,
        }],
        length: "154",
        sent: YEAR,
        ..ONE_REPLY
    },
    // Host is needed once, but not in HTTP/1.0, which closes.
    Exchange {
        name: "no Host",
        script: &[Part {
            text: "open 1 bytes 1 \"GET / HTTP/1.1\\r\\n\\r\\n\"",
            count: 1,
        }],
        length: "120",
        sent: BAD,
        ..ONE_REPLY
    },
    Exchange {
        name: "Host twice",
        script: &[Part {
            text: "open 1 bytes 1 \"GET / HTTP/1.1\\r\\nHost: a\\r\\nHost: a\\r\\n\\r\\n\"",
            count: 1,
        }],
        length: "120",
        sent: BAD,
        ..ONE_REPLY
    },
    Exchange {
        name: "HTTP/1.0",
        replay: &["replay", "--requests", "2", "q", "t", "s", "d"],
        serve: &["serve", "--requests", "2", "q", "t", "d"],
        script: &[Part {
            text: "open 1 bytes 1 \"GET / HTTP/1.0\\r\\n\\r\\n\"",
            count: 1,
        }],
        length: "208",
        sent: HOME,
        ..ONE_REPLY
    },
    Exchange {
        name: "a page that embeds itself",
        replay: &["replay", "cycle", "brackets", "s", "none"],
        serve: &["serve", "cycle", "brackets", "none"],
        script: &[Part {
            text: "open 1 bytes 1 \"GET /A.html HTTP/1.1\\r\\nHost: a\\r\\n\\r\\n\"",
            count: 1,
        }],
        length: "146",
        sent: &[Taken {
            connection: 1,
            bytes: CYCLIC_REPLY,
            is_closed: true,
        }],
        ..ONE_REPLY
    },
    Exchange {
        name: "a rest of a head",
        script: &[Part {
            text: "open 1 bytes 1 \"GET / HT\" end 1",
            count: 1,
        }],
        length: "120",
        sent: BAD,
        ..ONE_REPLY
    },
    Exchange {
        name: "line ends alone",
        script: &[Part {
            text: "open 1 bytes 1 \"\\r\\n\\r\\n\" end 1",
            count: 1,
        }],
        length: "0",
        sent: NOTHING,
        counts: "connections 1\nreplies 0\nhits 0\n",
        ..ONE_REPLY
    },
    Exchange {
        name: "a lost connection",
        script: &[Part {
            text: "open 1 bytes 1 \"GET /YearPage/i1998.\" lost 1",
            count: 1,
        }],
        length: "0",
        sent: &[Taken {
            connection: 1,
            bytes: "",
            is_closed: false,
        }],
        counts: "connections 1\nreplies 0\nhits 0\n",
        ..ONE_REPLY
    },
    Exchange {
        name: "byte by byte",
        script: &[Part {
            text: "open 1 bytes 1 \"G\" bytes 1 \"E\" bytes 1 \"T\" bytes 1 \" \" bytes 1 \"/\" bytes 1 \
                \"Y\" bytes 1 \"e\" bytes 1 \"a\" bytes 1 \"r\" bytes 1 \"P\" bytes 1 \"a\" bytes 1 \"g\" \
                bytes 1 \"e\" bytes 1 \"/\" bytes 1 \"i\" bytes 1 \"1\" bytes 1 \"9\" bytes 1 \"9\" bytes 1 \
                \"8\" bytes 1 \".\" bytes 1 \"h\" bytes 1 \"t\" bytes 1 \"m\" bytes 1 \"l\" bytes 1 \" \" \
                bytes 1 \"H\" bytes 1 \"T\" bytes 1 \"T\" bytes 1 \"P\" bytes 1 \"/\" bytes 1 \"1\" bytes 1 \
                \".\" bytes 1 \"1\" bytes 1 \"\\r\" bytes 1 \"\\n\" bytes 1 \"H\" bytes 1 \"o\" bytes 1 \
                \"s\" bytes 1 \"t\" bytes 1 \":\" bytes 1 \" \" bytes 1 \"a\" bytes 1 \"\\r\" bytes 1 \
                \"\\n\" bytes 1 \"\\r\" bytes 1 \"\\n\"",
            count: 1,
        }],
        length: "154",
        sent: YEAR,
        ..ONE_REPLY
    },
    // Heads at their limits: 16,384 bytes, of which 32 are beside the letters of a value, and 64 lines, of which one
    // is Host.
    Exchange {
        name: "the greatest head",
        script: &[
            Part {
                text: "open 1 bytes 1 \"GET / HTTP/1.1\\r\\nHost: a\\r\\nX: ",
                count: 1,
            },
            Part {
                text: "z",
                count: 16_352,
            },
            Part {
                text: "\\r\\n\\r\\n\" end 1",
                count: 1,
            },
        ],
        length: "208",
        sent: HOME,
        ..ONE_REPLY
    },
    Exchange {
        name: "a head of one byte more",
        script: &[
            Part {
                text: "open 1 bytes 1 \"GET / HTTP/1.1\\r\\nHost: a\\r\\nX: ",
                count: 1,
            },
            Part {
                text: "z",
                count: 16_353,
            },
            Part {
                text: "\\r\\n\\r\\n\" end 1",
                count: 1,
            },
        ],
        length: "120",
        sent: BAD,
        ..ONE_REPLY
    },
    Exchange {
        name: "letters alone",
        script: &[
            Part {
                text: "open 1 bytes 1 \"",
                count: 1,
            },
            Part {
                text: "A",
                count: 16_384,
            },
            Part {
                text: "\"",
                count: 1,
            },
        ],
        length: "120",
        sent: BAD,
        ..ONE_REPLY
    },
    Exchange {
        name: "64 lines",
        script: &[
            Part {
                text: "open 1 bytes 1 \"GET / HTTP/1.1\\r\\nHost: a\\r\\n",
                count: 1,
            },
            Part {
                text: "X: y\\r\\n",
                count: 63,
            },
            Part {
                text: "\\r\\n\" end 1",
                count: 1,
            },
        ],
        length: "208",
        sent: HOME,
        ..ONE_REPLY
    },
    Exchange {
        name: "65 lines",
        script: &[
            Part {
                text: "open 1 bytes 1 \"GET / HTTP/1.1\\r\\nHost: a\\r\\n",
                count: 1,
            },
            Part {
                text: "X: y\\r\\n",
                count: 64,
            },
            Part {
                text: "\\r\\n\" end 1",
                count: 1,
            },
        ],
        length: "120",
        sent: BAD,
        ..ONE_REPLY
    },
];

const HOSTS_AND_ROOM: &[Exchange] = &[
    // Hosts: of those that are answered, without case and whatever the port, and of another one.
    Exchange {
        name: "one of the hosts",
        replay: &["replay", "--host", "b,A.example", "q", "t", "s", "d"],
        serve: &["serve", "--host", "b,A.example", "q", "t", "d"],
        script: &[Part {
            text: "open 1 bytes 1 \"GET /YearPage/i1998.html HTTP/1.1\\r\\nHost: a.EXAMPLE:8080\\r\\n\\r\\n\"",
            count: 1,
        }],
        length: "154",
        sent: YEAR,
        ..ONE_REPLY
    },
    Exchange {
        name: "another host",
        replay: &[
            "replay",
            "--requests=2",
            "--host=b,a.example",
            "q",
            "t",
            "s",
            "d",
        ],
        serve: &["serve", "--requests=2", "--host=b,a.example", "q", "t", "d"],
        script: &[Part {
            text: "open 1 bytes 1 \"GET / HTTP/1.1\\r\\nHost: rebound.example:8080\\r\\n\\r\\n\"",
            count: 1,
        }],
        length: "136",
        sent: &[Taken {
            connection: 1,
            bytes: "HTTP/1.1 421 Misdirected Request\r\nContent-Type: text/plain; charset=utf-8\r\n\
                Content-Length: 20\r\nConnection: close\r\n\r\nmisdirected request\n",
            is_closed: true,
        }],
        ..ONE_REPLY
    },
    // Other methods, and bodies.
    Exchange {
        name: "POST",
        replay: &["replay", "--requests=2", "q", "t", "s", "d"],
        serve: &["serve", "--requests=2", "q", "t", "d"],
        script: &[Part {
            text: "open 1 bytes 1 \"POST / HTTP/1.1\\r\\nHost: a\\r\\nContent-Length: 3\\r\\n\\r\\n\"",
            count: 1,
        }],
        length: "152",
        sent: &[Taken {
            connection: 1,
            bytes: "HTTP/1.1 405 Method Not Allowed\r\nContent-Type: text/plain; charset=utf-8\r\nAllow: \
                GET, HEAD\r\nContent-Length: 19\r\nConnection: close\r\n\r\nmethod not allowed\n",
            is_closed: true,
        }],
        ..ONE_REPLY
    },
    Exchange {
        name: "a body of GET",
        script: &[Part {
            text: "open 1 bytes 1 \"GET / HTTP/1.1\\r\\nHost: a\\r\\nContent-Length: 3\\r\\n\\r\\n\"",
            count: 1,
        }],
        length: "120",
        sent: BAD,
        ..ONE_REPLY
    },
    // A head alone, of a page that isn't there.
    Exchange {
        name: "a head alone of no page",
        script: &[Part {
            text: "open 1 bytes 1 \"HEAD /x HTTP/1.1\\r\\nHost: a\\r\\n\\r\\n\"",
            count: 1,
        }],
        length: "106",
        sent: &[Taken {
            connection: 1,
            bytes: "HTTP/1.1 404 Not Found\r\nContent-Type: text/plain; charset=utf-8\r\nContent-Length: 10\r\nConnection: close\r\n\r\n",
            is_closed: true,
        }],
        ..ONE_REPLY
    },
    Exchange {
        name: "no page",
        script: &[Part {
            text: "open 1 bytes 1 \"GET /YearPage/i1996.html HTTP/1.1\\r\\nHost: a\\r\\n\\r\\n\"",
            count: 1,
        }],
        length: "116",
        sent: &[Taken {
            connection: 1,
            bytes: NOT_FOUND,
            is_closed: true,
        }],
        ..ONE_REPLY
    },
    // The request twice in one piece, over a connection of two replies: 159 bytes and 154.
    Exchange {
        name: "twice in one piece",
        replay: &["replay", "--requests", "2", "q", "t", "s", "d"],
        serve: &["serve", "--requests", "2", "q", "t", "d"],
        script: &[Part {
            text: "open 1 bytes 1 \"GET /YearPage/i1998.html HTTP/1.1\\r\\nHost: a\\r\\n\\r\\nGET \
                /YearPage/i1998.html HTTP/1.1\\r\\nHost: a\\r\\n\\r\\n\"",
            count: 1,
        }],
        length: "313",
        sent: &[Taken {
            connection: 1,
            bytes: "HTTP/1.1 200 OK\r\nContent-Type: text/html; charset=utf-8\r\nContent-Length: 56\r\n\
                Connection: keep-alive\r\n\r\n<h1>1998</h1><a \
                href=\"/PaperPage/npub1.html\">Strudel</a>HTTP/1.1 200 OK\r\nContent-Type: text/html; \
                charset=utf-8\r\nContent-Length: 56\r\nConnection: close\r\n\r\n<h1>1998</h1><a \
                href=\"/PaperPage/npub1.html\">Strudel</a>",
            is_closed: true,
        }],
        counts: "connections 1\nreplies 2\nhits 1\n",
        ..ONE_REPLY
    },
    // The page has 56 bytes: it is kept if there is room for as many.
    Exchange {
        name: "room for the page",
        replay: &[
            "replay",
            "--requests",
            "2",
            "--cache-bytes=56",
            "q",
            "t",
            "s",
            "d",
        ],
        serve: &[
            "serve",
            "--requests",
            "2",
            "--cache-bytes=56",
            "q",
            "t",
            "d",
        ],
        script: &[Part {
            text: "open 1 bytes 1 \"GET /YearPage/i1998.html HTTP/1.1\\r\\nHost: a\\r\\n\\r\\nGET \
                /YearPage/i1998.html HTTP/1.1\\r\\nHost: a\\r\\n\\r\\n\"",
            count: 1,
        }],
        length: "313",
        sent: &[Taken {
            connection: 1,
            bytes: "HTTP/1.1 200 OK\r\nContent-Type: text/html; charset=utf-8\r\nContent-Length: 56\r\n\
                Connection: keep-alive\r\n\r\n<h1>1998</h1><a \
                href=\"/PaperPage/npub1.html\">Strudel</a>HTTP/1.1 200 OK\r\nContent-Type: text/html; \
                charset=utf-8\r\nContent-Length: 56\r\nConnection: close\r\n\r\n<h1>1998</h1><a \
                href=\"/PaperPage/npub1.html\">Strudel</a>",
            is_closed: true,
        }],
        counts: "connections 1\nreplies 2\nhits 1\n",
        ..ONE_REPLY
    },
    Exchange {
        name: "no room for the page",
        replay: &[
            "replay",
            "--requests",
            "2",
            "--cache-bytes=55",
            "q",
            "t",
            "s",
            "d",
        ],
        serve: &[
            "serve",
            "--requests",
            "2",
            "--cache-bytes=55",
            "q",
            "t",
            "d",
        ],
        script: &[Part {
            text: "open 1 bytes 1 \"GET /YearPage/i1998.html HTTP/1.1\\r\\nHost: a\\r\\n\\r\\nGET \
                /YearPage/i1998.html HTTP/1.1\\r\\nHost: a\\r\\n\\r\\n\"",
            count: 1,
        }],
        length: "313",
        sent: &[Taken {
            connection: 1,
            bytes: "HTTP/1.1 200 OK\r\nContent-Type: text/html; charset=utf-8\r\nContent-Length: 56\r\n\
                Connection: keep-alive\r\n\r\n<h1>1998</h1><a \
                href=\"/PaperPage/npub1.html\">Strudel</a>HTTP/1.1 200 OK\r\nContent-Type: text/html; \
                charset=utf-8\r\nContent-Length: 56\r\nConnection: close\r\n\r\n<h1>1998</h1><a \
                href=\"/PaperPage/npub1.html\">Strudel</a>",
            is_closed: true,
        }],
        counts: "connections 1\nreplies 2\nhits 0\n",
        ..ONE_REPLY
    },
];

fn check_exchange<R: AllocGlobal + Abort>(rt: &R, row: &Exchange) -> Result<(), Fail> {
    let alloc = rt.alloc();
    let taken = row.sent;
    let [sent] = taken;
    let printed = format!(in alloc;
        "connection 1 {}\n{}\n{}",
        row.length, sent.bytes, row.counts
    )?;
    let replayed = Run {
        name: row.name,
        words: row.replay,
        out: printed.as_str(),
        ..PLAIN
    };
    let script = text_of(alloc, row.script)?;
    check_beside(rt, FILES, "s", &script, &replayed)?;
    let counted = format!(in alloc; "serving 8080\n{}", row.counts)?;
    let served = Run {
        name: row.name,
        words: row.serve,
        script: row.script,
        out: counted.as_str(),
        taken,
        ..PLAIN
    };
    check_run(rt, FILES, &served)
}

#[test]
fn requests_have_their_replies(rt: HostRuntime) -> Result<(), Fail> {
    for row in EXCHANGES {
        check_exchange(&rt, row)?;
    }
    Ok(())
}

#[test]
fn hosts_and_kept_pages_have_their_replies(rt: HostRuntime) -> Result<(), Fail> {
    for row in HOSTS_AND_ROOM {
        check_exchange(&rt, row)?;
    }
    Ok(())
}
