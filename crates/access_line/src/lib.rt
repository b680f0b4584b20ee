//! The line that a log of replies has of each.
#![tactic(auto)]

ghost use Rattle.std.specs.Prelude.{◌≡◌, ◌<◌, ◌++◌, IfOk, OnOk, flat_map, length, codes, nat_eq};
ghost use Rattle.std.specs.List.{starts_with};
ghost use Rattle.page_spec.specs.Show.{hex_digit};
ghost use Rattle.access_line.specs.Line.{is_plain, shown_byte, shown_request, body_of, status_of, log_line};

use sd_value::NoMemory;
use std::alloc::Global;
use token_writer::{put, put_number};

/// The line of a reply to a request, of which this is the first line, or empty if what was answered is not a request.
///
/// # Errors
///
/// Out of memory.
pub fn line_of(alloc: Global, request: &[u8], reply: &[u8]) -> Result<Vec<u8>, NoMemory>
    ensures { IfOk result (λ line. line.items ≡ log_line request.now reply.now) }
{
    let mut line = Vec::new(alloc);
    put(b"- - - [-] \"", &mut line)?;
    put_request(request, &mut line)?;
    put(b"\" ", &mut line)?;
    put(status_of(reply), &mut line)?;
    put(b" ", &mut line)?;
    put_number(body_length(reply) as u128, &mut line)?;
    put(b"\n", &mut line)?;
    Ok(line)
}

/// Appends the first line of a request, or a dash if there is none.
#[tactic(auto, using(crate::proofs::LineLemmas::shown_some, crate::proofs::LineLemmas::shown_none))]
fn put_request(request: &[u8], line: &mut Vec<u8>) -> Result<(), NoMemory>
    ensures { OnOk result (line.new.items ≡ line.old.items ++ shown_request request.now) }
{
    if request.is_empty() {
        return put(b"-", line);
    }
    put_escaped(request, line)
}

/// Appends bytes, of which those that are not plain are escaped.
fn put_escaped(bytes: &[u8], line: &mut Vec<u8>) -> Result<(), NoMemory>
    ensures { OnOk result (line.new.items ≡ line.old.items ++ flat_map shown_byte bytes.now) }
{
    for byte in bytes {
        put_byte(*byte, line)?;
    }
    Ok(())
}

/// Appends a byte, escaped if it is not plain.
fn put_byte(byte: u8, line: &mut Vec<u8>) -> Result<(), NoMemory>
    ensures { OnOk result (line.new.items ≡ line.old.items ++ shown_byte byte) }
{
    if is_plain(byte) {
        line.push(byte)?;
        return Ok(());
    }
    let escaped = [b'\\', b'x', hex_digit(byte / 16), hex_digit(byte % 16)];
    put(&escaped, line)
}

/// Whether the byte is printable, and not a quote or a backslash.
fn is_plain(byte: u8) -> bool
    ensures { result ≡ is_plain byte }
{
    byte >= 32 && byte <= 126 && byte != b'"' && byte != b'\\'
}

/// A digit of base 16.
fn hex_digit(digit: u8) -> u8
    requires { digit < 16 }
    ensures { result ≡ hex_digit digit }
{
    if digit < 10 { 48 + digit } else { 55 + digit }
}

/// The digits of a reply's status.
#[tactic(auto, using(std::proofs::lemmas::List::take_min, std::proofs::lemmas::List::drop_min))]
fn status_of(reply: &[u8]) -> &[u8]
    ensures { result.now ≡ status_of reply.now }
{
    let rest = &reply[9usize.min(reply.len())..];
    &rest[..3usize.min(rest.len())]
}

/// How many bytes the body of a reply has.
#[tactic(auto, using(crate::proofs::BodyLemmas::goes_on, crate::proofs::BodyLemmas::is_here, crate::proofs::BodyLemmas::is_nowhere))]
fn body_length(reply: &[u8]) -> usize
    ensures { result ≡ length (body_of reply.now) }
{
    for at in 0..reply.len() {
        if starts_body(&reply[at..]) {
            return (reply.len() - at).saturating_sub(4);
        }
    }
    0
}

/// Whether the bytes begin with the empty line before a body.
fn starts_body(bytes: &[u8]) -> bool
    ensures { result ≡ starts_with nat_eq bytes.now (codes "\r\n\r\n") }
{
    bytes.starts_with(b"\r\n\r\n")
}
