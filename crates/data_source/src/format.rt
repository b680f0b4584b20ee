// The format of a data file.
ghost use Rattle.std.specs.Prelude.{◌≡◌, IfOk, if◌then◌else◌, ◌-◌, Some, None, option_map, length, take};
ghost use Rattle.data_source.specs.Formats.{behind_slashes as name_in, ends_in, front_in_database, front_in_text, folder_in, text_of_front};
ghost use Rattle.data_source.specs.Formats.{format_of as format_named};

use crate::rules::SourceRules;
use sd_value::{NoMemory, Str};
use std::alloc::Global;

/// The format of a data file; of all but the data text with the stem of its name.
#[derive(Debug, Drop)]
pub enum Format {
    DataText,
    Csv(Str),
    Json(Str),
    BibTex(Str),
    Database(Str),
    /// A text, with the name of its folder, if that has one.
    Text(Str, Option<Str>),
}

// What is behind the last slash.
fn behind_slashes(path: &[u8]) -> &[u8]
    ensures { result.now ≡ name_in path.now }
{
    let mut name = path;
    let mut rest = path;
    'bytes: while let Some((first, more)) = rest.split_first() {
        if *first == b'/' {
            name = more;
        }
        rest = more;
    }
    name
}

// What is before this end of the path, or by the rules before the same end in capitals.
fn front_of<'a>(
    rules: SourceRules,
    path: &'a [u8],
    small: &[u8],
    capital: &[u8],
) -> Option<&'a [u8]>
    requires { length small.now ≡ length capital.now }
    ensures { option_map (λ front. front.now) result
        ≡ (if ends_in rules path.now small.now capital.now
        then Some (take (length path.now - length small.now) path.now) else None) }
{
    if path.ends_with(small) || (rules.capitals && path.ends_with(capital)) {
        return Some(&path[..path.len() - small.len()]);
    }
    None
}

// What is before the end of a database's path.
fn front_of_database(rules: SourceRules, path: &[u8]) -> Option<&[u8]>
    ensures { option_map (λ front. front.now) result ≡ front_in_database rules path.now }
{
    if let Some(front) = front_of(rules, path, b".db", b".DB") {
        return Some(front);
    }
    if let Some(front) = front_of(rules, path, b".sqlite", b".SQLITE") {
        return Some(front);
    }
    front_of(rules, path, b".sqlite3", b".SQLITE3")
}

// What is before the end of a text's path.
fn front_of_text(rules: SourceRules, path: &[u8]) -> Option<&[u8]>
    ensures { option_map (λ front. front.now) result ≡ front_in_text rules path.now }
{
    if let Some(front) = front_of(rules, path, b".md", b".MD") {
        return Some(front);
    }
    front_of(rules, path, b".html", b".HTML")
}

// The name of a file's folder, unless that is none, `.` or `..`.
fn folder_of(path: &[u8]) -> Option<&[u8]>
    ensures { option_map (λ folder. folder.now) result ≡ folder_in path.now }
{
    let name = behind_slashes(path);
    let folders = &path[..path.len() - name.len()];
    let folder = behind_slashes(&folders[..folders.len().saturating_sub(1)]);
    if folder.is_empty() || folder == b".".as_slice() || folder == b"..".as_slice() {
        return None;
    }
    Some(folder)
}

// A text, whose path has this before its end.
fn text_format(alloc: Global, front: &[u8]) -> Result<Format, NoMemory>
    ensures { IfOk result (λ format. format ≡ text_of_front front.now) }
{
    let folder = match folder_of(front) {
        None => None,
        Some(name) => Some(Str::new(alloc, name)?),
    };
    Ok(Format::Text(Str::new(alloc, behind_slashes(front))?, folder))
}

/// The format that a path's end reports: `.csv`, `.json`, `.bib`, a database's `.db`, `.sqlite` or
/// `.sqlite3`, a text's `.md` or `.html`, by the rules in capitals too, or any other for the data text. The stem is what is
/// between the last slash and that end.
pub fn format_of(alloc: Global, rules: SourceRules, path: &Str) -> Result<Format, NoMemory>
    ensures { IfOk result (λ format. format ≡ format_named rules path.now) }
{
    if let Some(front) = front_of(rules, path.bytes(), b".csv", b".CSV") {
        return Ok(Format::Csv(Str::new(alloc, behind_slashes(front))?));
    }
    if let Some(front) = front_of(rules, path.bytes(), b".json", b".JSON") {
        return Ok(Format::Json(Str::new(alloc, behind_slashes(front))?));
    }
    if let Some(front) = front_of(rules, path.bytes(), b".bib", b".BIB") {
        return Ok(Format::BibTex(Str::new(alloc, behind_slashes(front))?));
    }
    if let Some(front) = front_of_database(rules, path.bytes()) {
        return Ok(Format::Database(Str::new(alloc, behind_slashes(front))?));
    }
    if let Some(front) = front_of_text(rules, path.bytes()) {
        return text_format(alloc, front);
    }
    Ok(Format::DataText)
}
