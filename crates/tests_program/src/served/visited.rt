// A wire over sockets with clients of its own, between which a file is edited.
ghost use Rattle.std.specs.Prelude.{◌≡◌};

use crate::served::REQUEST;
use edge_io::Failed;
use sd_value::Str;
use std::alloc::Global;
use std::fs;
use std::io::Write;
use std::net::{Ipv4Addr, Net, SocketAddr, SocketAddrV4, TcpStream};
use std::rt::Files;
use wire::{Wire, WireEnd, WireEvent};

/// A wire to which a client connects as soon as it listens, and the next one as soon as the connection of the one before is
/// closed. One thread is clients and server: the system keeps what a client sends until it is taken.
#[derive(Drop)]
pub struct Visited<'r, W, R: Net> {
    pub wire: W,
    system: &'r R,
    /// The file that gets the next of the texts before each client, if there is one.
    edited: Option<String>,
    /// One for each client.
    texts: &'r [&'r str],
    port: u16,
    /// How many clients have come.
    count: usize,
    /// The clients that have sent their request to 127.0.0.1.
    pub clients: Vec<R::Stream>,
    /// Whether another address of this machine has taken no connection at the port.
    pub is_refused_elsewhere: bool,
}

fn address(host: Ipv4Addr, port: u16) -> SocketAddr {
    SocketAddr::from(SocketAddrV4::new(host, port))
}

impl<'r, W, R: Net + Files> Visited<'r, W, R> {
    /// The wire, which does not listen yet.
    pub fn new(
        alloc: Global,
        wire: W,
        system: &'r R,
        edited: Option<String>,
        texts: &'r [&'r str],
    ) -> Self {
        Visited {
            wire,
            system,
            edited,
            texts,
            port: 0,
            count: 0,
            clients: Vec::new(alloc),
            is_refused_elsewhere: true,
        }
    }

    fn visit(&mut self)
        ensures { self.new.wire ≡ self.old.wire }
    {
        let Some(text) = self.texts.get(self.count) else {
            return;
        };
        self.count = self.count.saturating_add(1);
        if let Some(path) = &self.edited {
            let _ = fs::write(self.system, path.as_str(), text.as_bytes());
        }
        let elsewhere = address(Ipv4Addr::new(127, 0, 0, 2), self.port);
        let is_refused = TcpStream::connect(self.system, elsewhere).is_err();
        self.is_refused_elsewhere = self.is_refused_elsewhere && is_refused;
        let here = address(Ipv4Addr::LOCALHOST, self.port);
        if let Ok(mut client) = TcpStream::connect(self.system, here)
            && client.write_all(REQUEST).is_ok()
        {
            let _ = self.clients.push(client);
        }
    }
}

impl<W: Wire, R: Net + Files> Wire for Visited<'_, W, R> {
    type Log = W::Log;

    ghost told = { λ v. W.told v.wire };

    ghost trace = { λ v. W.trace v.wire };

    fn lend(&mut self, log: &mut W::Log) {
        self.wire.lend(log);
    }

    fn listen(&mut self, port: u16, connections: u64) -> Result<(), Failed> {
        let result = self.wire.listen(port, connections);
        self.port = port;
        self.visit();
        result
    }

    fn watch(&mut self, alloc: Global, path: &Str, every: u64) -> Result<(), WireEnd> {
        self.wire.watch(alloc, path, every)
    }

    fn next(&mut self, alloc: Global) -> Result<WireEvent, WireEnd> {
        self.wire.next(alloc)
    }

    fn send(&mut self, connection: u64, bytes: &[u8]) -> Result<(), Failed> {
        self.wire.send(connection, bytes)
    }

    fn close(&mut self, connection: u64) {
        self.wire.close(connection);
        self.visit();
    }

    fn finish(&mut self) {
        self.wire.finish();
    }
}
