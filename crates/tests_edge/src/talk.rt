// A talk of clients with a wire over the system's sockets, by steps. One thread is client and server.
use edge_io::{Failed, RealFiles};
use sd_value::Str;
use std::alloc::Global;
use std::fs;
use std::io::{Read, Write};
use std::net::{Ipv4Addr, Net, OpenStream, Shutdown, SocketAddr, SocketAddrV4, TcpStream};
use std::test::Fail;
use std::time::{Clock, Duration};
use tcp_wire::{TcpWire, Waits};
use wire::{Wire, WireEvent};

/// What is done next, or what the wire's next event must be. Clients are numbered from 0 and connections from 1, each as
/// they come.
#[derive(Drop)]
pub enum Step<'a> {
    /// The wire listens, and takes so many connections.
    Listen(u64),
    /// The wire watches the file, and looks at it after each so many connections.
    Watch(u64),
    /// The watched file is written in its place.
    Write(&'a [u8]),
    /// Another file with these bytes is renamed over the watched one.
    Replace(&'a [u8]),
    /// The watched file is removed.
    Remove,
    /// So many clients connect.
    Connect(u32),
    /// A client connects and sends a byte.
    Come,
    /// Next the connection is opened and has this byte. It is closed, and the client that came last leaves.
    Go(u64),
    /// The client sends the bytes.
    Send(usize, &'a [u8]),
    /// The client sends so many bytes.
    SendMany(usize, usize),
    /// The client says that it sends no more.
    End(usize),
    /// The client takes these bytes until its connection is closed.
    Take(usize, &'a [u8]),
    /// So many times the client takes so many bytes, and then the other one sends a byte, which its connection has next.
    TakeAside(u32, usize, usize, usize, u64),
    /// The wire lets out what is queued, and lets all go.
    Finish,
    /// The reply is sent to the connection.
    Reply(u64, &'a [u8]),
    /// The reply can't be sent to it.
    ReplyFails(u64, &'a [u8]),
    /// A reply of so many bytes is sent to it.
    LongReply(u64, usize),
    /// The connection is closed.
    Close(u64),
    /// Next the connection is opened.
    Opened(u64),
    /// Next the connection isn't opened.
    NotOpened(u64),
    /// Next the connection has these bytes.
    Piece(u64, &'a [u8]),
    /// So many times the client sends a byte, and the connection has it next.
    Pieces(u32, usize, u64),
    /// The client sends a byte each 20 milliseconds, which the connection has next, until it is lost, before 400 came.
    Drip(usize, u64),
    /// Next the connection's input ends.
    Ended(u64),
    /// Next the connection is lost.
    Lost(u64),
    /// Next the watched file has changed to this text.
    Change(&'a [u8]),
    /// Next the wire is done.
    Done,
}

// How many connections are open at once.
const OPEN: usize = 128;

/// A talk with a wire that waits so.
pub struct Talk {
    pub name: &'static str,
    pub waits: Waits,
    pub steps: &'static [Step<'static>],
}

// How often the step is taken.
fn times(step: &Step<'_>) -> u32 {
    match step {
        Step::Connect(times) | Step::Pieces(times, _, _) => *times,
        Step::TakeAside(times, ..) => *times,
        _ => 1,
    }
}

// A client connects to the wire. Does it?
fn connects<R: Net + Clock>(
    system: &R,
    wire: &TcpWire<'_, R, RealFiles<'_, HostRuntime>>,
    clients: &mut Vec<R::Stream>,
) -> bool {
    let Some(port) = wire.port() else {
        return false;
    };
    let address = SocketAddr::from(SocketAddrV4::new(Ipv4Addr::LOCALHOST, port));
    match TcpStream::connect(system, address) {
        Ok(client) => clients.push(client).is_ok(),
        Err(_) => false,
    }
}

// A client connects to the wire and sends a byte. Does it?
fn comes<R: Net + Clock>(
    system: &R,
    wire: &TcpWire<'_, R, RealFiles<'_, HostRuntime>>,
    clients: &mut Vec<R::Stream>,
) -> bool {
    if !connects(system, wire, clients) {
        return false;
    }
    match clients.last_mut() {
        Some(client) => client.write_all(b"x").is_ok(),
        None => false,
    }
}

// The connection is opened and has the byte of the client that came last, and both leave. Do they?
fn passes<W: Wire, S: Drop>(
    alloc: Global,
    wire: &mut W,
    clients: &mut Vec<S>,
    number: u64,
) -> bool {
    let has_come = is_next(alloc, wire, &Step::Opened(number))
        && is_next(alloc, wire, &Step::Piece(number, b"x"));
    wire.close(number);
    has_come && clients.pop().is_some()
}

// Renames another file with these bytes over the path. Does it?
fn replaces(rt: &HostRuntime, path: &str, bytes: &[u8]) -> bool {
    let Ok(other) = format!(in rt.alloc(); "{path}.new") else {
        return false;
    };
    fs::write(rt, other.as_str(), bytes).is_ok() && fs::rename(rt, other.as_str(), path).is_ok()
}

// A client sends a byte now and then, which its connection has next, until it is lost. Is it, before 400 came?
fn drips<C: Clock, W: Wire, S: Write>(
    alloc: Global,
    clock: &C,
    wire: &mut W,
    client: &mut S,
    number: u64,
) -> bool {
    for _ in 0..400 {
        clock.sleep(Duration::from_millis(20));
        if client.write_all(b"x").is_err() {
            return false;
        }
        match wire.next(alloc) {
            Ok(WireEvent::Bytes(found, _)) if found == number => {}
            Ok(WireEvent::Lost(found)) => return found == number,
            _ => return false,
        }
    }
    false
}

// A client takes these bytes until its connection is closed. Does it?
fn takes<S: Read>(alloc: Global, client: &mut S, wanted: &[u8]) -> bool {
    let mut taken = Vec::new(alloc);
    client.read_to_end(&mut taken).is_ok() && taken.as_slice() == wanted
}

// A client takes so many bytes. Does it?
fn takes_some<S: Read>(alloc: Global, client: &mut S, count: usize) -> bool {
    match vec![in alloc; 0u8; count] {
        Ok(mut bytes) => client.read_exact(&mut bytes).is_ok(),
        Err(_) => false,
    }
}

// A client takes so many bytes, and then another one sends a byte. Do they?
fn takes_aside<S: Read + Write>(
    alloc: Global,
    clients: &mut [S],
    reader: usize,
    count: usize,
    writer: usize,
) -> bool {
    let takes = match clients.get_mut(reader) {
        Some(client) => takes_some(alloc, client, count),
        None => false,
    };
    match clients.get_mut(writer) {
        Some(client) => takes && client.write_all(b"x").is_ok(),
        None => false,
    }
}

// A client sends so many bytes. Does it?
fn sends_many<S: Write>(alloc: Global, client: &mut S, count: usize) -> bool {
    match vec![in alloc; b'x'; count] {
        Ok(bytes) => client.write_all(&bytes).is_ok(),
        Err(_) => false,
    }
}

// A client does what the step says. Does it?
fn acts<S: OpenStream + Read + Write>(alloc: Global, clients: &mut [S], step: &Step<'_>) -> bool {
    let number = match step {
        Step::Send(number, _) | Step::SendMany(number, _) | Step::Pieces(_, number, _) => *number,
        Step::End(number) | Step::Take(number, _) => *number,
        _ => return false,
    };
    let Some(client) = clients.get_mut(number) else {
        return false;
    };
    match step {
        Step::Send(_, bytes) => client.write_all(bytes).is_ok(),
        Step::SendMany(_, count) => sends_many(alloc, client, *count),
        Step::Pieces(..) => client.write_all(b"x").is_ok(),
        Step::End(_) => client.shutdown(Shutdown::Write).is_ok(),
        Step::Take(_, wanted) => takes(alloc, client, wanted),
        _ => false,
    }
}

// The wire watches the file. Does it?
fn watches<W: Wire>(alloc: Global, wire: &mut W, path: &str, every: u64) -> bool {
    match Str::new(alloc, path.as_bytes()) {
        Ok(path) => wire.watch(alloc, &path, every).is_ok(),
        Err(_) => false,
    }
}

// The server does what the step says. Does it?
fn serves<W: Wire>(alloc: Global, wire: &mut W, path: &str, step: &Step<'_>) -> bool {
    match step {
        Step::Listen(connections) => wire.listen(0, *connections).is_ok(),
        Step::Watch(every) => watches(alloc, wire, path, *every),
        Step::Reply(number, reply) => wire.send(*number, reply).is_ok(),
        Step::ReplyFails(number, reply) => wire.send(*number, reply) == Err(Failed),
        Step::LongReply(number, count) => match vec![in alloc; b'x'; *count] {
            Ok(reply) => wire.send(*number, &reply).is_ok(),
            Err(_) => false,
        },
        Step::Close(number) => {
            wire.close(*number);
            true
        }
        Step::Finish => {
            wire.finish();
            true
        }
        _ => false,
    }
}

// Whether the wire's next event is this step's.
fn is_next<W: Wire>(alloc: Global, wire: &mut W, step: &Step<'_>) -> bool {
    match (wire.next(alloc), step) {
        (Ok(WireEvent::Opened(found)), Step::Opened(wanted)) => found == *wanted,
        (Ok(WireEvent::Opened(found)), Step::NotOpened(other)) => found != *other,
        (_, Step::NotOpened(_)) => true,
        (Ok(WireEvent::Bytes(found, piece)), Step::Piece(wanted, bytes)) => {
            found == *wanted && piece.bytes() == *bytes
        }
        (
            Ok(WireEvent::Bytes(found, piece)),
            Step::Pieces(_, _, wanted) | Step::TakeAside(_, _, _, _, wanted),
        ) => { found == *wanted && piece.bytes() == b"x".as_slice() }
        (Ok(WireEvent::Ended(found)), Step::Ended(wanted)) => found == *wanted,
        (Ok(WireEvent::Lost(found)), Step::Lost(wanted)) => found == *wanted,
        (Ok(WireEvent::Change(text)), Step::Change(wanted)) => text.bytes() == *wanted,
        (Ok(WireEvent::Done), Step::Done) => true,
        _ => false,
    }
}

// Takes the step once. Does it go as it says?
fn goes<R: Net + Clock>(
    rt: &HostRuntime,
    system: &R,
    path: &str,
    wire: &mut TcpWire<'_, R, RealFiles<'_, HostRuntime>>,
    clients: &mut Vec<R::Stream>,
    step: &Step<'_>,
) -> bool {
    let alloc = rt.alloc();
    match step {
        Step::Write(bytes) => fs::write(rt, path, *bytes).is_ok(),
        Step::Replace(bytes) => replaces(rt, path, bytes),
        Step::Remove => fs::remove_file(rt, path).is_ok(),
        Step::Connect(_) => connects(system, wire, clients),
        Step::Come => comes(system, wire, clients),
        Step::Drip(client, number) => match clients.get_mut(*client) {
            Some(client) => drips(alloc, rt, wire, client, *number),
            None => false,
        },
        Step::Go(number) => passes(alloc, wire, clients, *number),
        Step::Send(..) | Step::SendMany(..) | Step::End(_) | Step::Take(..) => {
            acts(alloc, clients, step)
        }
        Step::Pieces(..) => acts(alloc, clients, step) && is_next(alloc, wire, step),
        Step::TakeAside(_, reader, count, writer, _) => {
            takes_aside(alloc, clients, *reader, *count, *writer) && is_next(alloc, wire, step)
        }
        Step::Listen(_) | Step::Watch(_) | Step::Close(_) | Step::Finish => {
            serves(alloc, wire, path, step)
        }
        Step::Reply(..) | Step::ReplyFails(..) | Step::LongReply(..) => {
            serves(alloc, wire, path, step)
        }
        _ => is_next(alloc, wire, step),
    }
}

// Takes the step as often as it says.
fn goes_each_time<R: Net + Clock>(
    rt: &HostRuntime,
    system: &R,
    path: &str,
    wire: &mut TcpWire<'_, R, RealFiles<'_, HostRuntime>>,
    clients: &mut Vec<R::Stream>,
    step: &Step<'_>,
) -> bool {
    for _ in 0..times(step) {
        if !goes(rt, system, path, wire, clients, step) {
            return false;
        }
    }
    true
}

/// Takes the steps of the talk, whose watched file is at the path.
pub fn take_talk<R: Net + Clock>(
    rt: &HostRuntime,
    system: &R,
    path: &str,
    talk: &Talk,
) -> Result<(), Fail> {
    let alloc = rt.alloc();
    let mut wire = TcpWire::new(alloc, system, RealFiles::new(rt, 0), talk.waits, OPEN);
    let mut clients = Vec::new(alloc);
    for (place, step) in talk.steps.iter().enumerate() {
        if !goes_each_time(rt, system, path, &mut wire, &mut clients, step) {
            return Err(Fail::new(format_args!("{}: step {place}", talk.name)));
        }
    }
    Ok(())
}
