// Replies to each kind of request.
use crate::inputs::{check, check_text};
use crate::requests::{BAD, GET, HEAD, MISDIRECTED, WRONG};
use http_reply::{NO_MEMORY_REPLY, no_memory_reply, reply};
use http_spec::ParsedRequest;
use page_spec::Outcome;
use sd_value::{Datum, NoMemory, Str, Value};
use std::alloc::Global;
use std::test::Fail;

// What asking for a page gave.
enum Asked {
    // A page of this text.
    Page(&'static [u8]),
    Missing,
    TooLong,
    // Its embedding comes round again at this number.
    Cyclic(i64),
}

// A request, what asking for its page gave, whether the connection closes, and the bytes of the reply.
struct ReplyRow {
    name: &'static str,
    request: ParsedRequest,
    asked: Asked,
    close: bool,
    reply: &'static [u8],
}

const YEAR_PAGE: &[u8] = b"<h1>1998</h1><a href=\"/PaperPage/npub1.html\">Strudel</a>";

const REPLIES: &[ReplyRow] = &[
    // 154 bytes.
    ReplyRow {
        name: "a page on a connection that closes",
        request: GET,
        asked: Asked::Page(YEAR_PAGE),
        close: true,
        reply: b"HTTP/1.1 200 OK\r\nContent-Type: text/html; charset=utf-8\r\nContent-Length: 56\r\nConnection: \
            close\r\n\r\n<h1>1998</h1><a href=\"/PaperPage/npub1.html\">Strudel</a>",
    },
    ReplyRow {
        name: "a page on a connection that stays open",
        request: GET,
        asked: Asked::Page(YEAR_PAGE),
        close: false,
        reply: b"HTTP/1.1 200 OK\r\nContent-Type: text/html; charset=utf-8\r\nContent-Length: 56\r\nConnection: \
            keep-alive\r\n\r\n<h1>1998</h1><a href=\"/PaperPage/npub1.html\">Strudel</a>",
    },
    ReplyRow {
        name: "a head of no page",
        request: HEAD,
        asked: Asked::Missing,
        close: true,
        reply: b"HTTP/1.1 404 Not Found\r\nContent-Type: text/plain; charset=utf-8\r\nContent-Length: 10\r\n\
            Connection: close\r\n\r\n",
    },
    ReplyRow {
        name: "a bad request",
        request: BAD,
        asked: Asked::Missing,
        close: true,
        reply: b"HTTP/1.1 400 Bad Request\r\nContent-Type: text/plain; charset=utf-8\r\nContent-Length: 12\r\n\
            Connection: close\r\n\r\nbad request\n",
    },
    ReplyRow {
        name: "a request for another host",
        request: MISDIRECTED,
        asked: Asked::Missing,
        close: true,
        reply: b"HTTP/1.1 421 Misdirected Request\r\nContent-Type: text/plain; charset=utf-8\r\nContent-Length: 20\r\n\
            Connection: close\r\n\r\nmisdirected request\n",
    },
    ReplyRow {
        name: "a wrong method",
        request: WRONG,
        asked: Asked::TooLong,
        close: true,
        reply: b"HTTP/1.1 405 Method Not Allowed\r\nContent-Type: text/plain; charset=utf-8\r\nAllow: GET, HEAD\r\n\
            Content-Length: 19\r\nConnection: close\r\n\r\nmethod not allowed\n",
    },
    ReplyRow {
        name: "a cyclic page",
        request: GET,
        asked: Asked::Cyclic(-3),
        close: false,
        reply: b"HTTP/1.1 500 Internal Server Error\r\nContent-Type: text/plain; charset=utf-8\r\nContent-Length: \
            23\r\nConnection: keep-alive\r\n\r\ncyclic embedding at -3\n",
    },
];

fn outcome_of(alloc: Global, asked: &Asked) -> Result<Outcome, NoMemory> {
    Ok(match asked {
        Asked::Page(text) => Outcome::Page(Str::new(alloc, text)?),
        Asked::Missing => Outcome::Missing,
        Asked::TooLong => Outcome::TooLong,
        Asked::Cyclic(number) => Outcome::Cyclic(Value::Data(Datum::Int(*number))),
    })
}

// Whether the reply has the row's bytes.
fn is_replied(alloc: Global, row: &ReplyRow) -> Result<bool, NoMemory> {
    let outcome = outcome_of(alloc, &row.asked)?;
    let mut out = Vec::new(alloc);
    reply(alloc, &row.request, &outcome, row.close, &mut out)?;
    Ok(out.as_slice() == row.reply)
}

#[test]
fn each_request_has_its_reply(rt: HostRuntime) -> Result<(), Fail> {
    for row in REPLIES {
        check(is_replied(rt.alloc(), row)?, row.name)?;
    }
    check_text(no_memory_reply(), &NO_MEMORY_REPLY)
}
