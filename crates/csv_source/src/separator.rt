// What separates the fields of a text.
ghost use Rattle.std.specs.Prelude.{◌≡◌, IfOk, if◌then◌else◌};
ghost use Rattle.csv.specs.Reading.{strip_bom, records};
ghost use Rattle.csv_source.specs.Separators.{first_separator as first_separator_of, separator_in as separator_of_field};
ghost use Rattle.csv_source.specs.Separators.{separated, separator_of_header as separator_by_header, separator_of};

use crate::reader::{next_fields, reader_of};
use crate::rules::CsvRules;
use sd_value::{NoMemory, Str};
use std::alloc::Global;

// The first semicolon or tab, and a comma where there is none.
fn first_separator(field: &[u8]) -> u8
    ensures { result ≡ first_separator_of field.now }
{
    let mut rest = field;
    'bytes: while let Some((first, more)) = rest.split_first() {
        if *first == b';' || *first == b'\t' {
            return *first;
        }
        rest = more;
    }
    b','
}

fn separator_in(field: &[u8]) -> u8
    ensures { result ≡ separator_of_field field.now }
{
    if field.contains(&b',') {
        return b',';
    }
    first_separator(field)
}

// What separates the fields of a text that has this header where it is read with commas.
fn separator_of_header(labels: &[Str]) -> u8
    ensures { result ≡ separator_by_header labels.now }
{
    match labels {
        [field] => separator_in(field.bytes()),
        _ => b',',
    }
}

// The same of a text, and a comma if it has no header.
fn separator_of_text(alloc: Global, text: &[u8]) -> Result<u8, NoMemory>
    ensures { IfOk result
        (λ d. d ≡ separator_of (records (separated 44) (strip_bom text.now))) }
{
    let mut reader = reader_of(alloc, text, b',');
    match next_fields(alloc, &mut reader)? {
        None => Ok(b','),
        Some(labels) => Ok(separator_of_header(labels.as_slice())),
    }
}

/// What separates the fields of a text: a comma, unless by the rules the header, read with commas,
/// is one field without a comma in it; then its first semicolon or tab, if it has one.
pub(crate) fn separator_by(alloc: Global, rules: CsvRules, text: &[u8]) -> Result<u8, NoMemory>
    ensures { IfOk result (λ d. d ≡ (if rules.other_separators
        then separator_of (records (separated 44) (strip_bom text.now)) else 44)) }
{
    if rules.other_separators {
        separator_of_text(alloc, text)
    } else {
        Ok(b',')
    }
}
