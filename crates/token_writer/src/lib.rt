//! Tokens written as text.
#![tactic(auto)]

ghost use Rattle.std.specs.Prelude.{◌≡◌, ◌++◌, IfOk};
ghost use Rattle.std.specs.Fmt.{decimal, signed_decimal};
ghost use Rattle.std.specs.List.{flat_map};
ghost use Rattle.token_writer.specs.Writing.{quoted_text, escaped_byte};

mod laws;

use itoa::{Buffer, Integer};
pub use laws::{number_is_its_token, quoted_text_is_its_token};
use sd_value::NoMemory;

/// Appends bytes as they are. After `NoMemory` what `out` holds is not said, here as in all writers.
pub fn put(bytes: &[u8], out: &mut Vec<u8>) -> Result<(), NoMemory>
    ensures { IfOk result (λ _. out.new.items ≡ out.old.items ++ bytes.now) }
{
    out.extend_from_slice(bytes)?;
    Ok(())
}

fn put_formatted<I: Integer>(n: I, out: &mut Vec<u8>) -> Result<(), NoMemory>
    ensures { IfOk result (λ _. out.new.items ≡ out.old.items ++ I.text n) }
{
    let mut buffer = Buffer::new();
    put(buffer.format(n).as_bytes(), out)
}

/// Appends a number in decimal digits.
pub fn put_number(n: u128, out: &mut Vec<u8>) -> Result<(), NoMemory>
    ensures { IfOk result (λ _. out.new.items ≡ out.old.items ++ decimal n) }
{
    put_formatted(n, out)
}

/// Appends a number in decimal digits, after a minus if it is negative.
pub fn put_int(n: i64, out: &mut Vec<u8>) -> Result<(), NoMemory>
    ensures { IfOk result (λ _. out.new.items ≡ out.old.items ++ signed_decimal n) }
{
    put_formatted(n, out)
}

/// Appends a text in quotes. A quote, a backslash, a line feed, a carriage return and a tab are
/// escaped, and every other byte is as it is.
pub fn put_quoted(text: &[u8], out: &mut Vec<u8>) -> Result<(), NoMemory>
    ensures { IfOk result (λ _. out.new.items ≡ out.old.items ++ quoted_text text.now) }
{
    out.push(b'"')?;
    put_escaped(text, out)?;
    out.push(b'"')?;
    Ok(())
}

/// The bytes of a text as they are between quotes.
fn put_escaped(text: &[u8], out: &mut Vec<u8>) -> Result<(), NoMemory>
    ensures { IfOk result (λ _. out.new.items ≡ out.old.items ++ flat_map escaped_byte text.now) }
{
    for byte in text {
        put_escaped_byte(*byte, out)?;
    }
    Ok(())
}

fn put_escaped_byte(byte: u8, out: &mut Vec<u8>) -> Result<(), NoMemory>
    ensures { IfOk result (λ _. out.new.items ≡ out.old.items ++ escaped_byte byte) }
{
    match byte {
        b'"' => put(b"\\\"", out),
        b'\\' => put(b"\\\\", out),
        b'\n' => put(b"\\n", out),
        b'\r' => put(b"\\r", out),
        b'\t' => put(b"\\t", out),
        _ => {
            out.push(byte)?;
            Ok(())
        }
    }
}
