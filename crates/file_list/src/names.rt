// The names that a list has, and its text.
ghost use Rattle.std.specs.Prelude.{◌≡◌, ◌⊎◌, ◌++◌, ◌∷◌, [], Contains, IfOk, OnOk, map, if◌then◌else◌};
ghost use Rattle.std.specs.List.{filter};
ghost use Rattle.sd_value.specs.Order.{bytes_cmp};
ghost use Rattle.sd_value.specs.Ascending.{ListsExactly};
ghost use Rattle.file_list.specs.Lists.{is_bad, has_bad, is_listable, listed, list_text};

use sd_value::{NoMemory, Str, copied_list, sort_and_dedup};
use std::alloc::Global;

fn is_bad(segment: &[u8]) -> bool
    ensures { result ≡ is_bad segment.now }
{
    segment.is_empty() || segment == b".".as_slice() || segment == b"..".as_slice()
}

fn has_bad(name: &[u8]) -> bool
    ensures { result ≡ has_bad name.now }
{
    name.split(|byte| *byte == b'/')
        .any(|segment| is_bad(segment))
}

fn is_listable(name: &[u8]) -> bool
    ensures { result ≡ is_listable name.now }
{
    name != b".strudel-files".as_slice() && !has_bad(name)
}

// Adds the name of a line, if it has one.
fn push_name(alloc: Global, names: &mut Vec<Str>, line: &[u8]) -> Result<(), NoMemory>
    ensures { OnOk result (names.new.items ≡ names.old.items
        ++ (if is_listable line.now then line.now ∷ [] else [])) }
{
    if is_listable(line) {
        names.push(Str::new(alloc, line)?)?;
    }
    Ok(())
}

fn names_in(alloc: Global, lines: &[&[u8]]) -> Result<Vec<Str>, NoMemory>
    ensures { IfOk result
        (λ names. names.items ≡ filter is_listable (map (λ line. line.now) lines.now)) }
{
    let mut names = Vec::new(alloc);
    for line in lines {
        push_name(alloc, &mut names, line)?;
    }
    Ok(names)
}

/// The names that a list with this text has. Lines that can't be names of a site's files are passed over.
///
/// # Errors
///
/// Out of memory.
pub fn names_of(alloc: Global, text: &[u8]) -> Result<Vec<Str>, NoMemory>
    ensures { IfOk result (λ names. names.items ≡ listed text.now) }
{
    let lines: Vec<&[u8]> = text.split(|byte| *byte == b'\n').collect(alloc)?;
    let names = names_in(alloc, &lines)?;
    Ok(names)
}

fn put_line(text: &mut Vec<u8>, name: &Str) -> Result<(), NoMemory>
    ensures { OnOk result (text.new.items ≡ text.old.items ++ (name.now ++ 10 ∷ [])) }
{
    text.extend_from_slice(name.bytes())?;
    text.push(b'\n')?;
    Ok(())
}

/// The text of the list of these names.
///
/// # Errors
///
/// Out of memory.
pub fn text_of(alloc: Global, names: &[Str]) -> Result<Vec<u8>, NoMemory>
    ensures { IfOk result (λ text. text.items ≡ list_text names.now) }
{
    let mut text = Vec::new(alloc);
    for name in names {
        put_line(&mut text, name)?;
    }
    Ok(text)
}

fn push_all(alloc: Global, names: &mut Vec<Str>, more: &[Str]) -> Result<(), NoMemory>
    ensures { OnOk result (names.new.items ≡ names.old.items ++ more.now) }
{
    for name in more {
        names.push(name.copy(alloc)?)?;
    }
    Ok(())
}

/// The names of both lists, ascending, each once.
///
/// # Errors
///
/// Out of memory.
pub fn union_of(alloc: Global, old: &[Str], new: &[Str]) -> Result<Vec<Str>, NoMemory>
    ensures { IfOk result (λ names.
        ListsExactly bytes_cmp (λ n. Contains old.now n ⊎ Contains new.now n) names.items) }
{
    let mut names = copied_list(alloc, old)?;
    push_all(alloc, &mut names, new)?;
    sort_and_dedup(&mut names);
    Ok(names)
}
