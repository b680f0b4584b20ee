// The commands `serve` and `replay`: what their connections are sent, and what they print.
mod changes;
mod edited;
mod requests;
mod turns;
mod untold;
mod whole;

use crate::runs::{FileRow, PLAIN, Run, check_beside};
use crate::site::{BIB, LOOKS, SITE};
use std::process::Abort;
use std::test::Fail;

/// The bibliography, of two publications, and two pages that embed each other.
const FILES: &[FileRow] = &[
    FileRow {
        path: "d",
        text: BIB,
    },
    FileRow {
        path: "q",
        text: SITE,
    },
    FileRow {
        path: "t",
        text: LOOKS,
    },
    FileRow {
        path: "two",
        text: "open 1 open 2",
    },
    FileRow {
        path: "none",
        text: "",
    },
    FileRow {
        path: "cycle",
        text: "INPUT D CREATE A(), B() LINK A() -> \"e\" -> B(), B() -> \"e\" -> A() OUTPUT S",
    },
    FileRow {
        path: "brackets",
        text: "<TEMPLATE A>[<SFMT @e EMBED>]</TEMPLATE><TEMPLATE B>(<SFMT @e EMBED>)</TEMPLATE>",
    },
];

const SERVE: &[&str] = &["serve", "q", "t", "d"];

const REPLAY: &[&str] = &["replay", "q", "t", "s", "d"];

/// The reply to a request for the page of 1998, after which the connection closes: a head of 98 bytes and a page of 56.
const YEAR_REPLY: &str =
    "HTTP/1.1 200 OK\r\nContent-Type: text/html; charset=utf-8\r\nContent-Length: 56\r\nConnection: \
        close\r\n\r\n<h1>1998</h1><a href=\"/PaperPage/npub1.html\">Strudel</a>";

/// The root page, of 109 bytes, in a reply of 208.
const HOME_REPLY: &str =
    "HTTP/1.1 200 OK\r\nContent-Type: text/html; charset=utf-8\r\nContent-Length: 109\r\nConnection: \
        close\r\n\r\n<h1>Home</h1><a href=\"/PaperPage/npub1.html\">Strudel</a>, <a \
        href=\"/PaperPage/npub2.html\">Lorel &lt;1&gt;</a>";

/// The reply to a bad request, of 120 bytes.
const BAD_REPLY: &str =
    "HTTP/1.1 400 Bad Request\r\nContent-Type: text/plain; charset=utf-8\r\nContent-Length: 12\r\nConnection: close\r\n\r\nbad request\n";

/// The reply to a request for the first of the pages that embed each other, of 146 bytes.
const CYCLIC_REPLY: &str =
    "HTTP/1.1 500 Internal Server Error\r\nContent-Type: text/plain; charset=utf-8\r\nContent-Length: 28\r\n\
        Connection: close\r\n\r\ncyclic embedding at /A.html\n";

/// The reply where no page has the address, of 116 bytes.
const NOT_FOUND: &str =
    "HTTP/1.1 404 Not Found\r\nContent-Type: text/plain; charset=utf-8\r\nContent-Length: 10\r\nConnection: close\r\n\r\nnot found\n";

/// The page of 1996 among the new data: a head of 98 bytes and a page of 52.
const NEW_REPLY: &str =
    "HTTP/1.1 200 OK\r\nContent-Type: text/html; charset=utf-8\r\nContent-Length: 52\r\nConnection: \
        close\r\n\r\n<h1>1996</h1><a href=\"/PaperPage/npub9.html\">New</a>";

/// A script, and what `replay` prints of it.
pub struct Replay {
    pub script: &'static str,
    pub out: &'static str,
}

/// The words over these files and each script, which is at `s`, print what its row says.
pub fn check_replays<R: AllocGlobal + Abort>(
    rt: &R,
    files: &[FileRow],
    words: &[&str],
    rows: &[Replay],
) -> Result<(), Fail> {
    for row in rows {
        let run = Run {
            name: row.script,
            words,
            out: row.out,
            ..PLAIN
        };
        check_beside(rt, files, "s", row.script.as_bytes(), &run)?;
    }
    Ok(())
}
