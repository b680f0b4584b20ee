//! What readers of data sources share: names with numbers, byte order marks, links within texts,
//! and that the steps of a text have one end.
#![tactic(auto)]

ghost use Rattle.std.specs.Prelude.{◌≡◌, IfOk, Bool, ℕ, List};
ghost use Rattle.source_steps.specs.Names.{numbered, without_mark as unmarked};
ghost use Rattle.source_steps.specs.Fields.{IsFieldValue, value_of as field_value};

mod value;

use sd_value::{NoMemory, Str};
use std::alloc::Global;
use token_writer::put_number;
pub use value::{integer_of, text_value, value_of};

/// The name with `_` and a number behind it.
pub fn numbered_name(alloc: Global, name: &Str, number: u64) -> Result<Str, NoMemory>
    ensures { IfOk result (λ s. s ≡ numbered name.now number) }
{
    let mut text = Vec::from_slice(alloc, name.bytes())?;
    text.extend_from_slice(b"_")?;
    put_number(number as u128, &mut text)?;
    Str::of(alloc, text)
}

/// The bytes behind a UTF-8 byte order mark, where one is at the start.
#[tactic(auto, unfolding(crate::specs::Names::without_mark))]
pub fn without_mark(bytes: &[u8]) -> &[u8]
    ensures { result.now ≡ unmarked bytes.now }
{
    match bytes {
        [0xEF, 0xBB, 0xBF, rest @ ..] => rest,
        _ => bytes,
    }
}

/// A field is the integer whose decimal form it is, if there is one of 64 bits, and else a text, or
/// a URL if links are URLs and it is one.
pub fn fields_have_values()
    ensures { (links : Bool) (field : List ℕ) → IsFieldValue links field (field_value links field) }
{}
