// A list of what happened that only clauses read. It takes no memory at run time.
ghost use Rattle.std.specs.Prelude.{◌≡◌, List, [], ◌∷◌, ◌++◌};
ghost use Rattle.std.specs.Coded.{coded_list};
ghost use Rattle.happenings.specs.Coding.{coded_happening, happening_of};
ghost use Rattle.happenings.specs.Happening.{Happening, Read, ReadFailed, Wrote, WriteFailed, Put, PutFailed};
ghost use Rattle.happenings.specs.Happening.{Watched, WatchFailed, Listened, ListenFailed, Given, NextFailed};
ghost use Rattle.happenings.specs.Happening.{Sent, SendFailed, Closed, Finished};
ghost use Rattle.happenings.specs.Happening.{Kept, Removed, RemoveFailed};

use crate::event::WireEvent;
use crate::stream::Stream;
use std::marker::{Model, PhantomData};

/// What happened outside of a run, in its order.
#[derive(Drop)]
pub struct Log {
    marker: PhantomData<u8>,
    pub ghost events: { List Happening } by { coded_list coded_happening },
}

impl Model for Log {
    ghost use Rattle.std.specs.Borrow.{ftrue};

    ghost also_owns = { λ _. ftrue };
}

impl Log {
    /// Nothing happened yet.
    pub fn new() -> Log
        ensures { result.events ≡ [] }
    {
        Log {
            marker: PhantomData,
        }
    }

    /// One thing more happened: that of these numbers and bytes.
    fn note(&mut self, _numbers: &[u64], _path: &[u8], _bytes: &[u8])
        ensures { self.new.events
            ≡ self.old.events ++ happening_of _numbers.now _path.now _bytes.now ∷ [] }
    {}

    /// A file was read, and gave these bytes.
    pub fn read(&mut self, path: &[u8], bytes: &[u8])
        ensures { self.new.events ≡ self.old.events ++ Read path.now bytes.now ∷ [] }
    {
        self.note(&[0], path, bytes);
    }

    /// A read of a file failed.
    pub fn read_failed(&mut self, path: &[u8])
        ensures { self.new.events ≡ self.old.events ++ ReadFailed path.now ∷ [] }
    {
        self.note(&[1], path, &[]);
    }

    /// A file was written.
    pub fn wrote(&mut self, path: &[u8], bytes: &[u8])
        ensures { self.new.events ≡ self.old.events ++ Wrote path.now bytes.now ∷ [] }
    {
        self.note(&[2], path, bytes);
    }

    /// A write of a file failed.
    pub fn write_failed(&mut self, path: &[u8])
        ensures { self.new.events ≡ self.old.events ++ WriteFailed path.now ∷ [] }
    {
        self.note(&[3], path, &[]);
    }

    /// A file had the bytes that it was to be given, and stayed as it was.
    pub fn kept(&mut self, path: &[u8], bytes: &[u8])
        ensures { self.new.events ≡ self.old.events ++ Kept path.now bytes.now ∷ [] }
    {
        self.note(&[23], path, bytes);
    }

    /// A file was removed.
    pub fn removed(&mut self, path: &[u8])
        ensures { self.new.events ≡ self.old.events ++ Removed path.now ∷ [] }
    {
        self.note(&[24], path, &[]);
    }

    /// The removal of a file failed.
    pub fn remove_failed(&mut self, path: &[u8])
        ensures { self.new.events ≡ self.old.events ++ RemoveFailed path.now ∷ [] }
    {
        self.note(&[25], path, &[]);
    }

    /// A text was put on an output.
    pub fn put(&mut self, stream: Stream, text: &[u8])
        ensures { self.new.events ≡ self.old.events ++ Put stream text.now ∷ [] }
    {
        match stream {
            Stream::Output => self.note(&[4], &[], text),
            Stream::Errors => self.note(&[5], &[], text),
        }
    }

    /// A put of a text failed, when the output had taken so many bytes.
    pub fn put_failed(&mut self, stream: Stream, text: &[u8], taken: u64)
        ensures { self.new.events ≡ self.old.events ++ PutFailed stream text.now taken ∷ [] }
    {
        match stream {
            Stream::Output => self.note(&[6, taken], &[], text),
            Stream::Errors => self.note(&[7, taken], &[], text),
        }
    }

    /// The wire watches a file.
    pub fn watched(&mut self, path: &[u8], every: u64)
        ensures { self.new.events ≡ self.old.events ++ Watched path.now every ∷ [] }
    {
        self.note(&[8, every], path, &[]);
    }

    /// The wire can't watch a file.
    pub fn watch_failed(&mut self, path: &[u8], every: u64)
        ensures { self.new.events ≡ self.old.events ++ WatchFailed path.now every ∷ [] }
    {
        self.note(&[9, every], path, &[]);
    }

    /// The wire listens.
    pub fn listened(&mut self, port: u16, connections: u64)
        ensures { self.new.events ≡ self.old.events ++ Listened port connections ∷ [] }
    {
        self.note(&[10, port as u64, connections], &[], &[]);
    }

    /// The wire can't listen.
    pub fn listen_failed(&mut self, port: u16, connections: u64)
        ensures { self.new.events ≡ self.old.events ++ ListenFailed port connections ∷ [] }
    {
        self.note(&[11, port as u64, connections], &[], &[]);
    }

    /// The wire gave an event.
    pub fn given(&mut self, event: &WireEvent)
        ensures { self.new.events ≡ self.old.events ++ Given event.now ∷ [] }
    {
        match event {
            WireEvent::Opened(number) => self.note(&[12, *number], &[], &[]),
            WireEvent::Bytes(number, piece) => self.note(&[13, *number], &[], piece.bytes()),
            WireEvent::Ended(number) => self.note(&[14, *number], &[], &[]),
            WireEvent::Lost(number) => self.note(&[15, *number], &[], &[]),
            WireEvent::Change(text) => self.note(&[16], &[], text.bytes()),
            WireEvent::Done => self.note(&[17], &[], &[]),
        }
    }

    /// The wire was asked for an event and gave none.
    pub fn next_failed(&mut self)
        ensures { self.new.events ≡ self.old.events ++ NextFailed ∷ [] }
    {
        self.note(&[18], &[], &[]);
    }

    /// Bytes were sent to a connection.
    pub fn sent(&mut self, connection: u64, bytes: &[u8])
        ensures { self.new.events ≡ self.old.events ++ Sent connection bytes.now ∷ [] }
    {
        self.note(&[19, connection], &[], bytes);
    }

    /// A send failed, when the connection had taken so many bytes.
    pub fn send_failed(&mut self, connection: u64, bytes: &[u8], taken: u64)
        ensures { self.new.events ≡ self.old.events ++ SendFailed connection bytes.now taken ∷ [] }
    {
        self.note(&[20, connection, taken], &[], bytes);
    }

    /// A connection was closed.
    pub fn closed(&mut self, connection: u64)
        ensures { self.new.events ≡ self.old.events ++ Closed connection ∷ [] }
    {
        self.note(&[21, connection], &[], &[]);
    }

    /// The wire was let send what connections had still to take.
    pub fn finished(&mut self)
        ensures { self.new.events ≡ self.old.events ++ Finished ∷ [] }
    {
        self.note(&[22], &[], &[]);
    }
}
