// Whole runs of `serve` over the system's sockets: the worked page, and data that are edited between two requests.
mod visited;

use crate::runs::{FileRow, PLAIN, Run, check_with, files_of};
use crate::site::{BIB, LOOKS, SITE};
use edge_io::RealFiles;
use happenings::Log;
use std::alloc::Global;
use std::io::Read;
use std::net::Net;
use std::process::Abort;
use std::test::Fail;
use std::time::Clock;
use std::{env, fs, process};
use tcp_wire::{TcpWire, Waits};
use visited::Visited;
use wire::Wire;

const FILES: &[FileRow] = &[
    FileRow {
        path: "bib.ddl",
        text: BIB,
    },
    FileRow {
        path: "q.struql",
        text: SITE,
    },
    FileRow {
        path: "t.tmpl",
        text: LOOKS,
    },
];

/// A request for the page of 1998.
pub const REQUEST: &[u8] = b"GET /YearPage/i1998.html HTTP/1.1\r\nHost: a\r\n\r\n";

// A head of 98 bytes and a page of 56.
const REPLY: &[u8] =
    b"HTTP/1.1 200 OK\r\nContent-Type: text/html; charset=utf-8\r\nContent-Length: 56\r\nConnection: \
        close\r\n\r\n<h1>1998</h1><a href=\"/PaperPage/npub1.html\">Strudel</a>";

const WAITS: Waits = Waits {
    idle: 5_000,
    stall: 10_000,
};

// How many connections are open at once.
const OPEN: usize = 100;

// A port at which nothing listens.
fn free_port<R: Net + Clock>(alloc: Global, net: &R) -> Result<u16, Fail> {
    let files = files_of(alloc, &[], &[])?;
    let mut wire = TcpWire::new(alloc, net, files, WAITS, OPEN);
    if wire.listen(0, 1).is_err() {
        return Err(Fail::new("no socket"));
    }
    Ok(wire.port().ok_or("no port")?)
}

// The run of these words, each a line, ends well and puts this on the output.
fn check_serve<R: AllocGlobal + Abort, W: Wire<Log = Log>>(
    rt: &R,
    lines: &str,
    out: &str,
    wire: &mut W,
) -> Result<(), Fail> {
    let alloc = rt.alloc();
    let mut words = Vec::new(alloc);
    for word in lines.lines() {
        words.push(word)?;
    }
    let run = Run {
        words: &words,
        out,
        ..PLAIN
    };
    let mut files = files_of(alloc, FILES, &[])?;
    check_with(rt, &run, &mut files, wire)
}

fn check_reply<R: AllocGlobal + Abort, S: Read>(
    rt: &R,
    client: &mut S,
    wanted: &[u8],
) -> Result<(), Fail> {
    let mut taken = Vec::new(rt.alloc());
    client.read_to_end(&mut taken)?;
    let holds = taken.as_slice() == wanted;
    assert!(rt; holds, "another reply");
    Ok(())
}

#[test]
fn the_worked_page_is_served_at_the_port_that_was_asked_for(rt: HostRuntime) -> Result<(), Fail> {
    let alloc = rt.alloc();
    let port = free_port(alloc, &rt)?;
    let sockets = TcpWire::new(alloc, &rt, files_of(alloc, &[], &[])?, WAITS, OPEN);
    let mut wire = Visited::new(alloc, sockets, &rt, None, &[BIB]);
    let words = format!(in alloc;
        "serve\n--port\n{port}\n--connections\n1\nq.struql\nt.tmpl\nbib.ddl\n"
    )?;
    let out = format!(in alloc; "serving {port}\nconnections 1\nreplies 1\nhits 0\n")?;
    check_serve(&rt, words.as_str(), out.as_str(), &mut wire)?;
    assert!(rt; wire.is_refused_elsewhere, "it listens at another address");
    let holds = wire.clients.len() == 1 && REPLY.len() == 154;
    assert!(rt; holds, "another number of clients, or another length");
    for client in &mut wire.clients {
        check_reply(&rt, client, REPLY)?;
    }
    Ok(())
}

// The title of the page of 1998 is edited, and then half of another edit is written.
const TEXTS: &[&str] = &[
    BIB,
    "object pub1 in Publications { title \"Edited!\" year 1998 }\n",
    "object pub1 in Publications { title \"Once mo",
];

// The page with the title that the edited file gives it.
const EDITED: &[u8] =
    b"HTTP/1.1 200 OK\r\nContent-Type: text/html; charset=utf-8\r\nContent-Length: 56\r\nConnection: \
        close\r\n\r\n<h1>1998</h1><a href=\"/PaperPage/npub1.html\">Edited!</a>";

// A path of the system's temporary folder that no other process has.
fn fresh_path(rt: &HostRuntime) -> Result<String, Fail> {
    let temporary = env::temp_dir(rt)?;
    let number = process::id(rt.process());
    Ok(format!(in rt.alloc(); "{}/strudel_{number}.ddl", temporary.display())?)
}

// An edit shows in the next reply, and a file that is written by half changes nothing.
#[test]
fn an_edited_file_shows_in_the_next_reply(rt: HostRuntime) -> Result<(), Fail> {
    let alloc = rt.alloc();
    let path = fresh_path(&rt)?;
    let watched = fresh_path(&rt)?;
    let port = free_port(alloc, &rt)?;
    let sockets = TcpWire::new(alloc, &rt, RealFiles::new(&rt, 0), WAITS, OPEN);
    let mut wire = Visited::new(alloc, sockets, &rt, Some(path), TEXTS);
    let words = format!(in alloc;
        "serve\n--port\n{port}\n--connections\n3\n--watch\n{watched}\nq.struql\nt.tmpl\nbib.ddl\n"
    )?;
    let out = format!(in alloc;
        "serving {port}\nconnections 3\nreplies 3\nhits 1\nchanges 2\nrefused 1\n"
    )?;
    check_serve(&rt, words.as_str(), out.as_str(), &mut wire)?;
    let holds = wire.clients.len() == 3;
    assert!(rt; holds, "another number of clients");
    for (client, reply) in wire.clients.iter_mut().zip([REPLY, EDITED, EDITED]) {
        check_reply(&rt, client, reply)?;
    }
    fs::remove_file(&rt, watched.as_str())?;
    Ok(())
}
