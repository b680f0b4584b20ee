// What a body expands to, as far as a page has room for it.
ghost use Rattle.std.specs.Prelude.{[], ◌∷◌, IfOk};
ghost use Rattle.page_spec.specs.Pieces.{bytes, embed, items_of};
ghost use Rattle.render.specs.Room.{Fits, Adds};

use page_spec::{PAGE_LIMIT, Piece};
use sd_value::{NoMemory, Str, Value};
use std::alloc::Global;

/// The pieces of a body, and the number of their bytes and of those that the page has beside them. Once that is above
/// the limit of a page, no more bytes are kept: of the pieces that come then, only the values to embed are.
#[derive(Drop)]
pub struct Expansion {
    pub pieces: Vec<Piece>,
    pub size: usize,
}

impl Expansion {
    /// No piece, beside this many bytes. It takes no memory.
    pub fn beside(alloc: Global, size: usize) -> Expansion
        ensures { Fits size [] result.size (items_of result.pieces.items) }
    {
        Expansion {
            pieces: Vec::new(alloc),
            size,
        }
    }

    /// Puts the bytes after the pieces.
    pub fn add_text(&mut self, text: Str) -> Result<(), NoMemory>
        ensures { IfOk result (λ _. Adds self.old self.new (bytes text)) }
    {
        self.size = self.size.saturating_add(text.bytes().len());
        if self.size <= PAGE_LIMIT {
            self.pieces.push(Piece::Text(text))?;
        }
        Ok(())
    }

    /// Puts a value to embed after the pieces.
    pub fn add_embed(&mut self, value: Value) -> Result<(), NoMemory>
        ensures { IfOk result (λ _. Adds self.old self.new (embed value ∷ [])) }
    {
        self.pieces.push(Piece::Embed(value))?;
        Ok(())
    }
}
