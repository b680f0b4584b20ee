// A queue of bytes.
ghost use Rattle.std.specs.Prelude.{◌≡◌, ◌≤◌, ◌++◌, [], length, OnOk, OnErr, IsTrue, ◌↔◌};
ghost use Rattle.std.proofs.Math.ListN.{drop};

use std::alloc::{AllocError, Global};
use std::marker::Model;

/// Bytes that are put in after the others and taken out at the front.
#[derive(Drop)]
pub struct ByteQueue {
    alloc: Global,
    bytes: Vec<u8>,
    /// How many of them were taken out.
    taken: usize,
}

impl Model for ByteQueue {
    ghost use Rattle.std.specs.Prelude.{◌≤◌, ℕ, List, length};
    ghost use Rattle.std.proofs.Math.ListN.{drop};

    ghost Value = { List ℕ };

    ghost view = { λ q. drop q.taken q.bytes.items };

    ghost invariant = { λ q. q.taken ≤ length q.bytes.items };
}

impl ByteQueue {
    /// An empty queue.
    pub fn new(alloc: Global) -> ByteQueue
        ensures { result ≡ [] }
    {
        ByteQueue {
            alloc,
            bytes: Vec::new(alloc),
            taken: 0,
        }
    }

    /// How many bytes are in the queue.
    pub fn len(&self) -> usize
        ensures { result ≡ length self.now }
    {
        self.bytes.len() - self.taken
    }

    /// Whether the queue is empty.
    pub fn is_empty(&self) -> bool
        ensures { IsTrue result ↔ (length self.now ≡ 0) }
    {
        self.len() == 0
    }

    /// The bytes in the queue.
    pub fn rest(&self) -> &[u8]
        ensures { result.now ≡ self.now }
    {
        &self.bytes[self.taken..]
    }

    /// Puts bytes in, all of them or out of memory none.
    pub fn push(&mut self, bytes: &[u8]) -> Result<(), AllocError>
        ensures ok { OnOk result (self.new ≡ self.old ++ bytes.now) }
        ensures err { OnErr result (self.new ≡ self.old) }
    {
        self.bytes.extend_from_slice(bytes)
    }

    /// Takes so many bytes out. An empty queue holds no memory.
    pub fn advance(&mut self, count: usize)
        requires { count ≤ length self.old }
        ensures { self.new ≡ drop count self.old }
    {
        self.taken += count;
        if self.taken == self.bytes.len() {
            self.bytes = Vec::new(self.alloc);
            self.taken = 0;
        }
    }
}
