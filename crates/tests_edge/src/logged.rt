// Lines of a log of replies, and wires that add them to one.
use crate::folder::Folder;
use access_line::line_of;
use edge_io::RealFiles;
use logged_wire::{AccessLog, LoggedWire, MemLog, open_log};
use mem_wire::{FailingSend, MemWire};
use sd_value::{NoMemory, Str};
use std::alloc::Global;
use std::fs;
use std::io::{Read, Write};
use std::net::{Ipv4Addr, SocketAddr, SocketAddrV4, TcpStream};
use std::test::Fail;
use tcp_wire::{TcpWire, Waits};
use wire::{Wire, WireEvent};

/// A request's first line, the reply, and the line.
struct LineRow {
    request: &'static str,
    reply: &'static str,
    line: &'static str,
}

const LINES: &[LineRow] = &[
    LineRow {
        request: "GET /x.html HTTP/1.1",
        reply: "HTTP/1.1 200 OK\r\nContent-Length: 2\r\n\r\nok",
        line: "- - - [-] \"GET /x.html HTTP/1.1\" 200 2\n",
    },
    LineRow {
        request: "HEAD /y HTTP/1.1",
        reply: "HTTP/1.1 404 Not Found\r\nContent-Length: 10\r\n\r\n",
        line: "- - - [-] \"HEAD /y HTTP/1.1\" 404 0\n",
    },
    // Bytes that are not a request.
    LineRow {
        request: "",
        reply: "HTTP/1.1 400 Bad Request\r\n\r\nbad request\n",
        line: "- - - [-] \"-\" 400 12\n",
    },
    // A target that would forge a line.
    LineRow {
        request: "GET /\" 200 1\n- \\\u{1b}\u{e4} HTTP/1.1",
        reply: "HTTP/1.1 404 Not Found\r\n\r\n",
        line: "- - - [-] \"GET /\\x22 200 1\\x0A- \\x5C\\x1B\\xC3\\xA4 HTTP/1.1\" 404 0\n",
    },
    // The body of a reply may have an empty line too.
    LineRow {
        request: "GET / HTTP/1.1",
        reply: "HTTP/1.1 200 OK\r\n\r\n\r\n\r\n",
        line: "- - - [-] \"GET / HTTP/1.1\" 200 4\n",
    },
    // What is not a reply.
    LineRow {
        request: "GET / HTTP/1.1",
        reply: "HTTP/1.1 2",
        line: "- - - [-] \"GET / HTTP/1.1\" 2 0\n",
    },
];

#[test]
fn each_reply_has_its_line(rt: HostRuntime) -> Result<(), Fail> {
    for row in LINES {
        let line = line_of(rt.alloc(), row.request.as_bytes(), row.reply.as_bytes())?;
        assert_eq!(rt; line.as_slice(), row.line.as_bytes(), "{}", row.request);
    }
    Ok(())
}

// What happens next at a wire.
enum Deed {
    Opened(u64),
    Bytes(u64, &'static str),
    Ended(u64),
    Lost(u64),
    // A reply that is taken whole.
    Reply(u64, &'static str),
    // One that is not.
    ReplyFails(u64, &'static str),
    Close(u64),
}

// What happens at a wire in memory, and the lines of it. The first send that fails is named by its connection and its
// number.
struct LogRow {
    name: &'static str,
    failing: Option<(u64, u64)>,
    deeds: &'static [Deed],
    lines: &'static [&'static str],
}

const OK: &str = "HTTP/1.1 200 OK\r\n\r\nok";

const LOGS: &[LogRow] = &[
    LogRow {
        name: "a request in two pieces",
        failing: None,
        deeds: &[
            Deed::Opened(1),
            Deed::Bytes(1, "GET /a.html HT"),
            Deed::Bytes(1, "TP/1.1\r\nHost: a\r\n\r\n"),
            Deed::Reply(1, OK),
            Deed::Close(1),
        ],
        lines: &["- - - [-] \"GET /a.html HTTP/1.1\" 200 2\n"],
    },
    LogRow {
        name: "two connections in turn, one with two requests",
        failing: None,
        deeds: &[
            Deed::Opened(1),
            Deed::Opened(2),
            Deed::Bytes(1, "GET /1 HTTP/1.1\r\n\r\n"),
            Deed::Bytes(2, "HEAD /2 HTTP/1.1\r\n\r\n"),
            Deed::Reply(2, "HTTP/1.1 200 OK\r\n\r\n"),
            Deed::Reply(1, OK),
            Deed::Bytes(2, "\r\n\nGET /3 HTTP/1.0\n\n"),
            Deed::Ended(2),
            Deed::Reply(2, OK),
        ],
        lines: &[
            "- - - [-] \"HEAD /2 HTTP/1.1\" 200 0\n",
            "- - - [-] \"GET /1 HTTP/1.1\" 200 2\n",
            "- - - [-] \"GET /3 HTTP/1.0\" 200 2\n",
        ],
    },
    LogRow {
        name: "a reply without a request, and one to none",
        failing: None,
        deeds: &[
            Deed::Opened(1),
            Deed::Reply(1, OK),
            Deed::Reply(7, OK),
            Deed::Bytes(1, "\r\n\r\n"),
            Deed::Reply(1, OK),
        ],
        lines: &[
            "- - - [-] \"-\" 200 2\n",
            "- - - [-] \"-\" 200 2\n",
            "- - - [-] \"-\" 200 2\n",
        ],
    },
    LogRow {
        name: "a second head in the same piece",
        failing: None,
        deeds: &[
            Deed::Opened(1),
            Deed::Bytes(1, "GET /1 HTTP/1.1\r\n\r\nGET /2 HTTP/1.1\r\n\r\n"),
            Deed::Reply(1, OK),
            Deed::Reply(1, OK),
        ],
        lines: &[
            "- - - [-] \"GET /1 HTTP/1.1\" 200 2\n",
            "- - - [-] \"-\" 200 2\n",
        ],
    },
    LogRow {
        name: "a reply that is not taken whole has its line",
        failing: Some((1, 1)),
        deeds: &[
            Deed::Opened(1),
            Deed::Bytes(1, "GET /1 HTTP/1.1\r\n\r\n"),
            Deed::ReplyFails(1, OK),
            Deed::Reply(1, OK),
        ],
        lines: &[
            "- - - [-] \"GET /1 HTTP/1.1\" 200 2\n",
            "- - - [-] \"-\" 200 2\n",
        ],
    },
    LogRow {
        name: "what came of connections that are closed or lost is forgotten",
        failing: None,
        deeds: &[
            Deed::Opened(1),
            Deed::Opened(2),
            Deed::Bytes(1, "GET /1 HTTP/1.1\r\n"),
            Deed::Bytes(2, "GET /2 HTTP/1.1\r\n"),
            Deed::Close(1),
            Deed::Lost(2),
            Deed::Bytes(1, "GET /1 HTTP/1.1\r\n"),
            Deed::Reply(1, OK),
            Deed::Reply(2, OK),
        ],
        lines: &["- - - [-] \"-\" 200 2\n", "- - - [-] \"-\" 200 2\n"],
    },
];

// The event that the deed is, if it is one.
fn event_of(alloc: Global, deed: &Deed) -> Result<Option<WireEvent>, NoMemory> {
    Ok(match deed {
        Deed::Opened(number) => Some(WireEvent::Opened(*number)),
        Deed::Bytes(number, piece) => {
            Some(WireEvent::Bytes(*number, Str::new(alloc, piece.as_bytes())?))
        }
        Deed::Ended(number) => Some(WireEvent::Ended(*number)),
        Deed::Lost(number) => Some(WireEvent::Lost(*number)),
        Deed::Reply(..) | Deed::ReplyFails(..) | Deed::Close(_) => None,
    })
}

fn events_of(alloc: Global, deeds: &[Deed]) -> Result<Vec<WireEvent>, NoMemory> {
    let mut events = Vec::new(alloc);
    for deed in deeds {
        if let Some(event) = event_of(alloc, deed)? {
            events.push(event)?;
        }
    }
    Ok(events)
}

// Does what happens next. Does it go as the deed says?
fn does<W: Wire>(alloc: Global, wire: &mut W, deed: &Deed) -> bool {
    match deed {
        Deed::Reply(number, reply) => wire.send(*number, reply.as_bytes()).is_ok(),
        Deed::ReplyFails(number, reply) => wire.send(*number, reply.as_bytes()).is_err(),
        Deed::Close(number) => {
            wire.close(*number);
            true
        }
        _ => wire.next(alloc).is_ok(),
    }
}

// The wire in memory of a row, with a log or without one.
fn wire_of(
    alloc: Global,
    row: &LogRow,
    log: Option<MemLog>,
) -> Result<LoggedWire<MemWire, MemLog>, NoMemory> {
    let mut sends = Vec::new(alloc);
    if let Some((connection, number)) = row.failing {
        sends.push(FailingSend {
            connection,
            number,
            taken: 3,
        })?;
    }
    let wire = MemWire::new(alloc, events_of(alloc, row.deeds)?, Vec::new(alloc), sends)?;
    Ok(LoggedWire::new(alloc, wire, log))
}

#[test]
fn each_run_has_its_lines(rt: HostRuntime) -> Result<(), Fail> {
    let alloc = rt.alloc();
    for row in LOGS {
        let mut wire = wire_of(alloc, row, Some(MemLog::new(alloc)))?;
        for deed in row.deeds {
            assert!(rt; does(alloc, &mut wire, deed), "{}", row.name);
        }
        let Some(log) = wire.log() else {
            return Err(Fail::from("no log"));
        };
        assert_eq!(rt; log.lines().len(), row.lines.len(), "{}", row.name);
        for (line, wanted) in log.lines().iter().zip(row.lines) {
            assert_eq!(rt; line.bytes(), wanted.as_bytes(), "{}", row.name);
        }
    }
    Ok(())
}

#[test]
fn a_wire_without_a_log_has_none(rt: HostRuntime) -> Result<(), Fail> {
    let alloc = rt.alloc();
    for row in LOGS {
        let mut wire = wire_of(alloc, row, None)?;
        for deed in row.deeds {
            assert!(rt; does(alloc, &mut wire, deed), "{}", row.name);
        }
        assert!(rt; wire.log().is_none());
    }
    Ok(())
}

// Nothing waits for so long.
const WAITS: Waits = Waits {
    idle: 60_000,
    stall: 60_000,
};

const REQUEST: &[u8] = b"GET /page.html HTTP/1.1\r\nHost: a\r\n\r\n";

// Whether the wire takes one client's request and sends the reply.
fn answers_one<W: Wire>(alloc: Global, wire: &mut W) -> bool {
    for _ in 0..3 {
        match wire.next(alloc) {
            Ok(WireEvent::Opened(_)) => {}
            Ok(WireEvent::Bytes(number, _)) => {
                let sent = wire.send(number, OK.as_bytes()).is_ok();
                wire.close(number);
                return sent;
            }
            _ => return false,
        }
    }
    false
}

// A wire over sockets that adds lines to the file at the path answers one client. Is all as it should be?
fn logs_one(rt: &HostRuntime, path: &Str) -> bool {
    let alloc = rt.alloc();
    let Ok(log) = open_log(rt, path) else {
        return false;
    };
    let sockets = TcpWire::new(alloc, rt, RealFiles::new(rt, 0), WAITS, 8);
    let mut wire = LoggedWire::new(alloc, sockets, Some(log));
    if wire.listen(0, 1).is_err() {
        return false;
    }
    let Some(port) = wire.wire().port() else {
        return false;
    };
    let address = SocketAddr::from(SocketAddrV4::new(Ipv4Addr::LOCALHOST, port));
    let Ok(mut client) = TcpStream::connect(rt, address) else {
        return false;
    };
    let mut taken = Vec::new(alloc);
    client.write_all(REQUEST).is_ok()
        && answers_one(alloc, &mut wire)
        && client.read_to_end(&mut taken).is_ok()
        && taken.as_slice() == OK.as_bytes()
}

#[test]
fn a_file_gets_a_line_of_each_reply(rt: HostRuntime) -> Result<(), Fail> {
    let alloc = rt.alloc();
    let folder = Folder::fresh(&rt, "logged")?;
    let path = folder.path(alloc, "log")?;
    let name = Str::new(alloc, path.as_bytes())?;
    assert!(rt; logs_one(&rt, &name), "a new file");
    assert!(rt; logs_one(&rt, &name), "a file with a line");
    let text = fs::read(&rt, path.as_str())?;
    let lines =
        "- - - [-] \"GET /page.html HTTP/1.1\" 200 2\n- - - [-] \"GET /page.html HTTP/1.1\" 200 2\n";
    assert_eq!(rt; text.as_slice(), lines.as_bytes());
    let none = folder.path(alloc, "none/log")?;
    assert!(rt; open_log(&rt, &Str::new(alloc, none.as_bytes())?).is_err());
    folder.remove(&rt)
}
