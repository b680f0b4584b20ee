// A piece of what a connection sends.
ghost use Rattle.std.specs.Prelude.{◌≡◌, ◌<◌, ◌≤◌, length, IfOk};

use sd_value::{NoMemory, Str};
use std::alloc::Global;

/// A piece of what a connection sends. It is not empty.
#[derive(Drop)]
pub struct Piece {
    text: Str,
    ghost some: { 0 < length text },
}

impl Piece {
    /// A piece of these bytes.
    pub fn new(alloc: Global, bytes: &[u8]) -> Result<Piece, NoMemory>
        requires { 0 < length bytes.now }
        ensures { IfOk result (λ piece. piece.text ≡ bytes.now) }
    {
        let text = Str::new(alloc, bytes)?;
        Ok(Piece { text })
    }

    /// Its bytes.
    pub fn into_text(self) -> Str
        ensures is { result ≡ self.text }
        ensures some { 0 < length result }
    {
        let Piece { text } = self;
        text
    }
}
