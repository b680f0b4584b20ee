// Many clients that connect at once, more than the wire has open.
use edge_io::RealFiles;
use std::alloc::Global;
use std::io::{Read, Write};
use std::net::{Ipv4Addr, Net, SocketAddr, SocketAddrV4, TcpStream};
use std::time::Clock;
use tcp_wire::{TcpWire, Waits};
use wire::{Wire, WireEvent};

const WAITS: Waits = Waits {
    idle: 60_000,
    stall: 60_000,
};

// How many connections are open at once.
const OPEN: usize = 128;

const REPLY: &[u8] = b"a reply";

// So many clients that have connected to this port and sent a request.
fn connect_all<R: Net>(
    alloc: Global,
    system: &R,
    port: u16,
    count: usize,
) -> Option<Vec<R::Stream>> {
    let mut clients = Vec::new(alloc);
    let address = SocketAddr::from(SocketAddrV4::new(Ipv4Addr::LOCALHOST, port));
    for _ in 0..count {
        let mut client = TcpStream::connect(system, address).ok()?;
        client.write_all(b"a request").ok()?;
        clients.push(client).ok()?;
    }
    Some(clients)
}

// Answers each request until no more comes: how many connections were opened.
fn answer_all<W: Wire>(alloc: Global, wire: &mut W, events: usize) -> usize {
    let mut opened = 0usize;
    for _ in 0..events {
        match wire.next(alloc) {
            Ok(WireEvent::Opened(_)) => opened = opened.saturating_add(1),
            Ok(WireEvent::Bytes(number, _)) => {
                let _ = wire.send(number, REPLY);
                wire.close(number);
            }
            Ok(WireEvent::Done) => break,
            _ => {}
        }
    }
    opened
}

// Whether the client has the reply, and nothing else.
fn has_reply<S: Read>(alloc: Global, client: &mut S) -> bool {
    let mut taken = Vec::new(alloc);
    client.read_to_end(&mut taken).is_ok() && taken.as_slice() == REPLY
}

/// Whether each of so many clients that connect and ask before the wire takes the first has its reply.
pub fn answers_burst(rt: &HostRuntime, count: usize) -> bool {
    let alloc = rt.alloc();
    let mut wire = TcpWire::new(alloc, rt, RealFiles::new(rt, 0), WAITS, OPEN);
    if wire.listen(0, count as u64).is_err() {
        return false;
    }
    let Some(port) = wire.port() else {
        return false;
    };
    let Some(mut clients) = connect_all(alloc, rt, port, count) else {
        return false;
    };
    let opened = answer_all(alloc, &mut wire, count.saturating_mul(3));
    let mut answered = opened == count;
    for client in &mut clients {
        answered = answered && has_reply(alloc, client);
    }
    answered
}
