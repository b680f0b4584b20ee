// The files that pages go to.
ghost use Rattle.std.specs.Prelude.{◌≡◌, ◌↔◌, ◌++◌, IsTrue, drop, if◌then◌else◌, is_ok};
ghost use Rattle.page_spec.specs.Show as spec;
ghost use Rattle.address.specs.Segments.{HasLongSegment, FileEnds};

use crate::written::address;
use page_spec::NAME_LIMIT;
use sd_value::{NoMemory, Term};
use std::alloc::{AllocError, Global};

/// Why a page has no file: a name on its way would have more than 255 bytes, or it was out of memory.
#[derive(Clone, Copy, Debug, PartialEq, Eq)]
pub enum FileRefusal {
    LongName,
    NoMemory,
}

impl From<NoMemory> for FileRefusal {
    ghost use Rattle.std.specs.Prelude.{◌≡◌};
    ghost use Rattle.address.specs.declared.places.FileRefusal.TheVariants.{NoMemory};

    ghost from_gives = { λ _ r. r ≡ NoMemory };

    fn from(_error: NoMemory) -> FileRefusal {
        FileRefusal::NoMemory
    }
}

/// The path of the term's file is put after what `out` has: the address without its first `/`. It is `LongName`
/// exactly where a segment between slashes has more than 255 bytes. After a refusal `out` is as it was.
pub fn file_of(alloc: Global, term: &Term, out: &mut Vec<u8>) -> Result<(), FileRefusal>
    ensures out { out.new.items
        ≡ (if is_ok result then out.old.items ++ drop 1 (spec.address term.now)
        else out.old.items) }
    ensures ends { FileEnds (drop 1 (spec.address term.now)) result }
{
    let mut text = Vec::new(alloc);
    address(alloc, term, &mut text)?;
    let path = &text[1..];
    if has_long_segment(path) {
        return Err(FileRefusal::LongName);
    }
    match out.extend_from_slice(path) {
        Ok(()) => Ok(()),
        Err(AllocError) => Err(FileRefusal::NoMemory),
    }
}

/// Whether more than 255 bytes in a row have no slash among them.
fn has_long_segment(path: &[u8]) -> bool
    ensures { IsTrue result ↔ HasLongSegment path.now }
{
    let mut run = 0;
    for b in path {
        if *b == b'/' {
            run = 0;
            continue;
        }
        if run == NAME_LIMIT {
            return true;
        }
        run += 1;
    }
    false
}
