// What the list has and the site no longer has is removed.
ghost use Rattle.std.specs.Prelude.{◌≡◌, ◌&&◌, ◌↔◌, ◌∷◌, [], IfOk, IsTrue, Contains};
ghost use Rattle.std.specs.Option.{ForSome, IsSomeAnd};
ghost use Rattle.std.specs.List.Sorted.{IsStrictlySortedBy};
ghost use Rattle.sd_value.specs.Order.{bytes_cmp};
ghost use Rattle.files_spec.specs.Causes.{WritesHaveCause};
ghost use Rattle.file_list.specs.Lists.{under, IsLeft};
ghost use Rattle.file_list.specs.Calls.{FileRemoved, RemovalAdds, CleanEnds, RemovalsAdd};

use crate::lists::file_path;
use edge_io::{Files, Removal};
use files_spec::Stop;
use sd_value::Str;
use std::alloc::Global;

// Whether the name is one of ascending ones.
fn is_among(names: &[Str], name: &Str) -> bool
    requires ascending { IsStrictlySortedBy bytes_cmp names.now }
    ensures { IsTrue result ↔ Contains names.now name.now }
{
    names.binary_search(name).is_ok()
}

// Removes the file of the name, and reports whether it is gone: one to which a link to a folder leads stays.
fn remove_file<F: Files>(
    alloc: Global,
    files: &mut F,
    folder: &Str,
    name: &Str,
) -> Result<bool, Stop>
    ensures traced { RemovalAdds (under folder.now name.now)
        (F.trace files.old) (F.trace files.new) result }
    ensures ends { ForSome (F.contents files.old) (λ old. IsSomeAnd (F.contents files.new) (λ new.
        FileRemoved (under folder.now name.now) old new result)) }
    ensures reads { F.failed_reads files.new ≡ F.failed_reads files.old }
    ensures cause { WritesHaveCause (λ path. path ≡ under folder.now name.now)
        (F.failed_writes files.old) (F.failed_writes files.new) result }
{
    let path = file_path(alloc, folder, name.bytes())?;
    match files.remove(folder, &path) {
        Ok(Removal::Linked) => Ok(false),
        Ok(_) => Ok(true),
        Err(_) => Err(Stop::Unwritten { path }),
    }
}

fn both(all: bool, gone: bool) -> bool
    ensures { result ≡ (all && gone) }
{
    all && gone
}

// Removes the file of the name, unless it is one of those that stay.
fn remove_unless<F: Files>(
    alloc: Global,
    files: &mut F,
    folder: &Str,
    new: &[Str],
    name: &Str,
) -> Result<bool, Stop>
    requires ascending { IsStrictlySortedBy bytes_cmp new.now }
    ensures traced { RemovalsAdd (IsLeft folder.now (name.now ∷ []) new.now)
        (F.trace files.old) (F.trace files.new) result }
    ensures ends { ForSome (F.contents files.old) (λ old. IsSomeAnd (F.contents files.new) (λ now.
        CleanEnds (IsLeft folder.now (name.now ∷ []) new.now) old now result)) }
    ensures reads { F.failed_reads files.new ≡ F.failed_reads files.old }
    ensures cause { WritesHaveCause (IsLeft folder.now (name.now ∷ []) new.now)
        (F.failed_writes files.old) (F.failed_writes files.new) result }
{
    if is_among(new, name) {
        return Ok(true);
    }
    remove_file(alloc, files, folder, name)
}

/// Removes the files under the folder whose names are in the old list and not in the new one, which ascends, and reports
/// whether all of them are gone: one to which a link to a folder leads stays.
///
/// # Errors
///
/// The path of the first of them that can't be removed, or out of memory.
pub fn remove_left<F: Files>(
    alloc: Global,
    files: &mut F,
    folder: &Str,
    old: &[Str],
    new: &[Str],
) -> Result<bool, Stop>
    requires ascending { IsStrictlySortedBy bytes_cmp new.now }
    ensures traced { RemovalsAdd (IsLeft folder.now old.now new.now)
        (F.trace files.old) (F.trace files.new) result }
    ensures ends { ForSome (F.contents files.old) (λ before. IsSomeAnd (F.contents files.new)
        (λ now. CleanEnds (IsLeft folder.now old.now new.now) before now result)) }
    ensures reads { F.failed_reads files.new ≡ F.failed_reads files.old }
    ensures cause { WritesHaveCause (IsLeft folder.now old.now new.now)
        (F.failed_writes files.old) (F.failed_writes files.new) result }
{
    let mut all = true;
    for name in old {
        match remove_unless(alloc, files, folder, new, name) {
            Ok(gone) => all = both(all, gone),
            Err(stop) => return Err(stop),
        }
    }
    Ok(all)
}
