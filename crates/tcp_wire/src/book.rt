// The book of the connections that are open, by their numbers.
ghost use Rattle.std.specs.Prelude.{◌≡◌, ◌<◌, [], true, false, None, Some, IfSome, IsSome};
ghost use Rattle.tcp_wire.specs.Book.{line_of, let_go, new_book, with_opened, with_line};
ghost use Rattle.tcp_wire.specs.Book.{TakesPiece, TakesEnd, Replies};
ghost use Rattle.wire.specs.Accounts.{up};

use std::alloc::Global;
use std::collections::BTreeMap;
use std::marker::Model;

/// After this many pieces without a reply a connection is lost.
const MOST_PIECES: u32 = 521;

/// How far a connection is.
#[derive(Clone, Copy, Debug, PartialEq, Eq)]
pub struct Progress {
    /// Its input has ended.
    pub ended: bool,
    /// How many pieces have come since it was opened or was last sent to.
    pub pieces: u32,
    /// It was sent something.
    pub replied: bool,
    /// What it was sent last refuses a request, of which more may come.
    pub refused: bool,
}

/// An open connection.
#[derive(Clone, Copy, Debug, PartialEq, Eq)]
pub struct Line {
    /// Its name in the loop.
    pub token: u64,
    pub progress: Progress,
}

/// The connections that were opened and are not let go yet.
#[derive(Drop)]
pub struct Book {
    lines: BTreeMap<u64, Line>,
    /// The number of the last one that was opened.
    opened: u64,
    /// How many more are opened.
    left: u64,
    /// How many that were opened were let go.
    ended: u64,
}

impl Model for Book {
    ghost use Rattle.tcp_wire.specs.Book.{BookState};

    ghost Value = { BookState };

    ghost view = { λ b. record {
      lines = b.lines.entries;
      opened = b.opened;
      left = b.left;
      ended = b.ended;
    } };
}

impl Book {
    /// None is open, and none will be.
    pub fn new(alloc: Global) -> Book
        ensures { result ≡ new_book }
    {
        Book {
            lines: BTreeMap::new(alloc),
            opened: 0,
            left: 0,
            ended: 0,
        }
    }

    /// So many more are opened.
    pub fn expect(&mut self, connections: u64)
        ensures { self.new ≡ record self.old { left = connections } }
    {
        self.left = connections;
    }

    /// Whether more are opened.
    pub fn expects_more(&self) -> bool
        ensures yes { result ≡ true → 0 < self.now.left }
        ensures no { result ≡ false → self.now.left ≡ 0 }
    {
        self.left > 0
    }

    /// How many that were opened were let go.
    pub fn ended(&self) -> u64
        ensures { result ≡ self.now.ended }
    {
        self.ended
    }

    /// The open connection of the least number.
    pub fn first(&self) -> Option<u64>
        ensures some { IfSome result (λ number. IsSome (line_of self.now number)) }
        ensures none { result ≡ None → self.now.lines ≡ [] }
    {
        match self.lines.first_key_value() {
            Some((number, _)) => Some(*number),
            None => None,
        }
    }

    /// The open connection of this number.
    pub fn line(&self, number: u64) -> Option<Line>
        ensures { result ≡ line_of self.now number }
    {
        self.lines.get(&number).copied()
    }

    /// Opens the connection of this token: its number. Nothing where no more are opened, or memory is refused.
    pub fn open(&mut self, token: u64) -> Option<u64>
        ensures some { IfSome result (λ number. (0 < self.old.left) × (number ≡ up self.old.opened)
            × (self.new ≡ with_opened token self.old)) }
        ensures none { result ≡ None → self.new ≡ self.old }
    {
        if self.left == 0 {
            return None;
        }
        let number = self.opened.saturating_add(1);
        let progress = Progress {
            ended: false,
            pieces: 0,
            replied: false,
            refused: false,
        };
        self.lines.insert(number, Line { token, progress }).ok()?;
        self.opened = number;
        self.left -= 1;
        Some(number)
    }

    /// A piece came of a connection. Not where it is not open, its input has ended, or so many came without a reply.
    pub fn take_piece(&mut self, number: u64) -> bool
        ensures yes { result ≡ true → TakesPiece number self.old self.new }
        ensures no { result ≡ false → self.new ≡ self.old }
    {
        let Some(mut line) = self.line(number) else {
            return false;
        };
        if line.progress.ended || line.progress.pieces >= MOST_PIECES {
            return false;
        }
        line.progress.pieces += 1;
        self.write(number, line);
        true
    }

    /// The input of a connection ended. Not where it is not open, or ended before.
    pub fn take_end(&mut self, number: u64) -> bool
        ensures yes { result ≡ true → TakesEnd number self.old self.new }
        ensures no { result ≡ false → self.new ≡ self.old }
    {
        let Some(mut line) = self.line(number) else {
            return false;
        };
        if line.progress.ended {
            return false;
        }
        line.progress.ended = true;
        self.write(number, line);
        true
    }

    /// A reply was sent to a connection that is open. `refused` says that more of its request may come.
    pub fn reply(&mut self, number: u64, refused: bool)
        ensures some { IsSome (line_of self.old number) → Replies number refused self.old self.new }
        ensures none { line_of self.old number ≡ None → self.new ≡ self.old }
    {
        if let Some(mut line) = self.line(number) {
            line.progress.pieces = 0;
            line.progress.replied = true;
            line.progress.refused = refused;
            self.write(number, line);
        }
    }

    // Writes the line of a connection that is open.
    fn write(&mut self, number: u64, line: Line)
        requires { IsSome (line_of self.old number) }
        ensures { self.new ≡ with_line number line self.old }
    {
        // Only a new number takes memory.
        match self.lines.insert(number, line) {
            Ok(_) => {}
            Err(_) => {}
        }
    }

    /// Lets a connection go, if it is open.
    pub fn let_go(&mut self, number: u64) -> Option<Line>
        ensures was { result ≡ line_of self.old number }
        ensures is { self.new ≡ let_go number self.old }
    {
        let line = self.lines.remove(&number)?;
        self.ended = self.ended.saturating_add(1);
        Some(line)
    }

    /// Lets all go.
    pub fn clear(&mut self)
        ensures { self.new ≡ record self.old { lines = [] } }
    {
        self.lines.clear();
    }
}
