// A text by its parts, and its length.
ghost use Rattle.std.specs.Prelude.{◌≡◌, ◌++◌, ◌<◌, ℕ, List, [], length, IfOk, IfSome};
ghost use Rattle.page_text.specs.Texts.{text_at, fragment_text, fragments_of, IsBefore, Measures, IsDraft, AreTexts, IsNumbered, Keeps};

use page_spec::PAGE_LIMIT;
use sd_value::{NoMemory, Str};
use std::alloc::Global;

/// A part of a text: a stretch of bytes, or all of the text that has this number.
#[derive(Drop)]
pub enum Fragment {
    Stretch(Str),
    Whole(usize),
}

/// A text that was put together: its number, and its length or, where that is above the limit of a page, some number
/// above the limit.
#[derive(Clone, Copy, Drop)]
pub struct Numbered {
    pub number: usize,
    pub size: usize,
}

/// A text by its parts. They aren't kept once the text is longer than a page may be.
#[derive(Drop)]
pub struct Draft {
    size: usize,
    fragments: Vec<Fragment>,
}

impl Draft {
    /// The text without a byte. It takes no memory.
    pub fn new(alloc: Global) -> Draft
        ensures { (ts : List (List ℕ)) → IsDraft ts result [] }
    {
        Draft {
            size: 0,
            fragments: Vec::new(alloc),
        }
    }

    /// Puts the bytes after the text.
    pub fn add_stretch(&mut self, alloc: Global, bytes: Str) -> Result<(), NoMemory>
        ensures { IfOk result
            (λ _. (ts : List (List ℕ)) (t : List ℕ) → IsDraft ts self.old t
            → IsDraft ts self.new (t ++ bytes)) }
    {
        let size = bytes.bytes().len();
        self.add(alloc, Fragment::Stretch(bytes), size)?;
        Ok(())
    }

    /// Puts a text that was put together before after this one.
    pub fn add_whole(&mut self, alloc: Global, whole: Numbered) -> Result<(), NoMemory>
        ensures { IfOk result
            (λ _. (ts : List (List ℕ)) (t u : List ℕ) → IsNumbered ts whole u
            → IsDraft ts self.old t → IsDraft ts self.new (t ++ u)) }
    {
        self.add(alloc, Fragment::Whole(whole.number), whole.size)
    }

    // A fragment without a byte isn't kept: nothing is to be written for it.
    fn add(&mut self, alloc: Global, fragment: Fragment, size: usize) -> Result<(), NoMemory>
        ensures { IfOk result
            (λ _. (ts : List (List ℕ)) (t : List ℕ) → IsBefore (length ts) fragment
            → Measures size (fragment_text ts fragment)
            → IsDraft ts self.old t → IsDraft ts self.new (t ++ fragment_text ts fragment)) }
    {
        self.size = self.size.saturating_add(size);
        if self.size > PAGE_LIMIT {
            self.fragments = Vec::new(alloc);
        } else if size > 0 {
            self.fragments.push(fragment)?;
        }
        Ok(())
    }

    /// The parts, in order.
    pub fn fragments(&self) -> &[Fragment]
        ensures { result.now ≡ fragments_of self.now }
    {
        self.fragments.as_slice()
    }

    // The text of which this one is all, where it has one part.
    fn whole(&self) -> Option<Numbered>
        ensures { IfSome result
            (λ n. (ts : List (List ℕ)) (t : List ℕ) → IsDraft ts self.now t → IsNumbered ts n t) }
    {
        if self.size > PAGE_LIMIT {
            return None;
        }
        match self.fragments.as_slice() {
            [Fragment::Whole(number)] => Some(Numbered {
                number: *number,
                size: self.size,
            }),
            _ => None,
        }
    }
}

/// Numbers the text after those that are there. A text that is all of another one keeps that one's number.
pub fn keep(drafts: &mut Vec<Draft>, draft: Draft) -> Result<Numbered, NoMemory>
    ensures { IfOk result
        (λ n. (ts : List (List ℕ)) (t : List ℕ) → AreTexts drafts.old.items ts → IsDraft ts draft t
        → Keeps ts t drafts.new.items n) }
{
    if let Some(whole) = draft.whole() {
        return Ok(whole);
    }
    let number = drafts.len();
    let size = draft.size;
    drafts.push(draft)?;
    Ok(Numbered { number, size })
}
