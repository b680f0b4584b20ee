//! Names of collections.

ghost use Rattle.std.specs.Prelude.{◌≡◌, ◌++◌, IfOk};
ghost use Rattle.std.specs.List.{list_all};
ghost use Rattle.sd_lex.specs.Bytes.{is_letter, is_name_byte};
ghost use Rattle.struql_print.specs.Texts.{is_name, is_bare, collection_text};

use sd_value::NoMemory;
use struql_text::{keyword_in, test_of};
use token_writer::{put, put_quoted};

fn is_letter(b: u8) -> bool
    ensures { result ≡ is_letter b }
{
    (b >= b'A' && b <= b'Z') || (b >= b'a' && b <= b'z') || b == b'_'
}

fn is_name_byte(b: u8) -> bool
    ensures { result ≡ is_name_byte b }
{
    is_letter(b) || (b >= b'0' && b <= b'9')
}

fn are_name_bytes(bytes: &[u8]) -> bool
    ensures { result ≡ list_all is_name_byte bytes.now }
{
    bytes.iter().all(|b| is_name_byte(*b))
}

fn is_name(name: &[u8]) -> bool
    ensures { result ≡ is_name name.now }
{
    match name {
        [] => false,
        [first, later @ ..] => is_letter(*first) && are_name_bytes(later),
    }
}

/// Whether the bytes as they are are read as a collection's name.
fn is_bare(version: u8, name: &[u8]) -> bool
    ensures { result ≡ is_bare version name.now }
{
    is_name(name) && keyword_in(version, name).is_none() && test_of(name).is_none()
}

/// Appends a collection's name, in quotes where it would else be read as something else.
pub fn print_collection(version: u8, name: &[u8], out: &mut Vec<u8>) -> Result<(), NoMemory>
    ensures { IfOk result (λ _. out.new.items ≡ out.old.items ++ collection_text version name.now) }
{
    if is_bare(version, name) {
        put(name, out)
    } else {
        put_quoted(name, out)
    }
}
