// Data that change during a run: `change` of a script, and `--watch` of `serve`.
use super::{FILES, REPLAY, Replay, check_replays};
use crate::runs::{PLAIN, Part, Run, check, check_with, files_of, wire_of};
use std::test::Fail;

const CHANGES: &[Replay] = &[
    Replay {
        script: "open 1 bytes 1 \"GET /YearPage/i1998.html HTTP/1.1\\r\\nHost: a\\r\\n\\r\\n\" change \
            \"object pub9 in Publications { title \\\"New\\\" year 1996 }\" open 2 bytes 2 \"GET \
            /YearPage/i1998.html HTTP/1.1\\r\\nHost: a\\r\\n\\r\\n\" open 3 bytes 3 \"GET \
            /YearPage/i1996.html HTTP/1.1\\r\\nHost: a\\r\\n\\r\\n\"",
        out: "connection 1 154\nHTTP/1.1 200 OK\r\nContent-Type: text/html; charset=utf-8\r\n\
            Content-Length: 56\r\nConnection: close\r\n\r\n<h1>1998</h1><a \
            href=\"/PaperPage/npub1.html\">Strudel</a>\nconnection 2 116\nHTTP/1.1 404 Not Found\r\n\
            Content-Type: text/plain; charset=utf-8\r\nContent-Length: 10\r\nConnection: close\r\n\r\nnot \
            found\n\nconnection 3 150\nHTTP/1.1 200 OK\r\nContent-Type: text/html; charset=utf-8\r\n\
            Content-Length: 52\r\nConnection: close\r\n\r\n<h1>1996</h1><a \
            href=\"/PaperPage/npub9.html\">New</a>\nconnections 3\nreplies 3\nhits 0\nchanges 1\nrefused 0\n",
    },
    // The last byte of the head comes behind the change.
    Replay {
        script: "open 1 bytes 1 \"GET /YearPage/i1998.html HTTP/1.1\\r\\nHost: a\\r\\n\\r\" change \"object \
            pub9 in Publications { title \\\"New\\\" year 1996 }\" bytes 1 \"\\n\"",
        out: "connection 1 116\nHTTP/1.1 404 Not Found\r\nContent-Type: text/plain; charset=utf-8\r\n\
            Content-Length: 10\r\nConnection: close\r\n\r\nnot found\n\nconnections 1\nreplies 1\nhits 0\n\
            changes 1\nrefused 0\n",
    },
    // The text is no data text.
    Replay {
        script: "open 1 bytes 1 \"GET /YearPage/i1998.html HTTP/1.1\\r\\nHost: a\\r\\n\\r\\n\" change \
            \"object\" open 2 bytes 2 \"GET /YearPage/i1998.html HTTP/1.1\\r\\nHost: a\\r\\n\\r\\n\"",
        out: "connection 1 154\nHTTP/1.1 200 OK\r\nContent-Type: text/html; charset=utf-8\r\n\
            Content-Length: 56\r\nConnection: close\r\n\r\n<h1>1998</h1><a \
            href=\"/PaperPage/npub1.html\">Strudel</a>\nconnection 2 154\nHTTP/1.1 200 OK\r\nContent-Type: \
            text/html; charset=utf-8\r\nContent-Length: 56\r\nConnection: close\r\n\r\n<h1>1998</h1><a \
            href=\"/PaperPage/npub1.html\">Strudel</a>\nconnections 2\nreplies 2\nhits 1\nchanges 1\n\
            refused 1\n",
    },
    // An empty text is an accepted data text: then there are no pages.
    Replay {
        script: "change \"\" open 1 bytes 1 \"GET /YearPage/i1998.html HTTP/1.1\\r\\nHost: a\\r\\n\\r\\n\"",
        out: "connection 1 116\nHTTP/1.1 404 Not Found\r\nContent-Type: text/plain; charset=utf-8\r\n\
            Content-Length: 10\r\nConnection: close\r\n\r\nnot found\n\nconnections 1\nreplies 1\nhits 0\n\
            changes 1\nrefused 0\n",
    },
];

#[test]
fn changes_of_a_script(rt: HostRuntime) -> Result<(), Fail> {
    check_replays(&rt, FILES, REPLAY, CHANGES)
}

// A run that watches the file `w.ddl` once, and the number that `watch` is given.
struct Watched {
    every: u64,
    run: Run<'static, 'static, 'static>,
}

const NOTHING_SERVED: &str = "connections 0\nreplies 0\nhits 0\nchanges 0\nrefused 0\n";

const WATCHED: &[Watched] = &[
    Watched {
        every: 3,
        run: Run {
            words: &["serve", "--watch", "w.ddl", "--every", "3", "q", "t", "d"],
            script: &[Part {
                text: "change \"object\"",
                count: 1,
            }],
            code: 0,
            out: "serving 8080\nconnections 0\nreplies 0\nhits 0\nchanges 1\nrefused 1\n",
            err: "",
            ..PLAIN
        },
    },
    // The first call, or the second, fails: `watch`, or `listen`.
    Watched {
        every: 1,
        run: Run {
            name: "no watch",
            words: &["serve", "--watch", "w.ddl", "q", "t", "d"],
            failing_nexts: &[1],
            code: 6,
            out: NOTHING_SERVED,
            err: "strudel: connection source failed\n",
            ..PLAIN
        },
    },
    Watched {
        every: 1,
        run: Run {
            name: "no listen",
            words: &["serve", "--watch", "w.ddl", "q", "t", "d"],
            failing_nexts: &[2],
            code: 6,
            out: NOTHING_SERVED,
            err: "strudel: connection source failed\n",
            ..PLAIN
        },
    },
];

#[test]
fn serve_watches_once_and_before_it_listens(rt: HostRuntime) -> Result<(), Fail> {
    for row in WATCHED {
        let mut files = files_of(rt.alloc(), FILES, &[])?;
        let mut wire = wire_of(rt.alloc(), &row.run)?;
        check_with(&rt, &row.run, &mut files, &mut wire)?;
        let (path, every) = wire.watched();
        let holds = wire.watches() == 1 && path == b"w.ddl".as_slice() && every == row.every;
        check(&rt, &row.run, holds, "the calls of watch");
    }
    Ok(())
}
