// Places of values, and names of objects that are nodes.
ghost use Rattle.std.specs.Prelude.{◌≡◌, ◌++◌, ◌<◌, codes, IfOk, OnOk};
ghost use Rattle.std.specs.List.{flat_map};
ghost use Rattle.json_source.specs.Names.{member_place, item_place, member_name, pointer_byte, name_byte};
ghost use Rattle.json_source.specs.Names.{is_kept as is_kept_byte, hexadecimal as hexadecimal_code};

use sd_value::{NoMemory, Str};
use std::alloc::{AllocError, Global};
use token_writer::put_number;

/// An item's place.
pub(crate) fn place_of_item(alloc: Global, at: &Str, index: u64) -> Result<Str, NoMemory>
    ensures { IfOk result (λ s. s ≡ item_place at.now index) }
{
    let mut place = Vec::from_slice(alloc, at.bytes())?;
    place.extend_from_slice(b"/")?;
    put_number(index as u128, &mut place)?;
    Str::of(alloc, place)
}

// A byte of a key, as a pointer has it.
fn push_pointer_byte(out: &mut Vec<u8>, byte: u8) -> Result<(), AllocError>
    ensures { OnOk result (out.new.items ≡ out.old.items ++ pointer_byte byte) }
{
    if byte == b'~' {
        return out.extend_from_slice(b"~0");
    }
    if byte == b'/' {
        return out.extend_from_slice(b"~1");
    }
    out.extend_from_slice(&[byte])
}

fn push_pointer_key(out: &mut Vec<u8>, key: &[u8]) -> Result<(), AllocError>
    ensures { OnOk result (out.new.items ≡ out.old.items ++ flat_map pointer_byte key.now) }
{
    for byte in key {
        push_pointer_byte(out, *byte)?;
    }
    Ok(())
}

fn is_kept(byte: u8) -> bool
    ensures { result ≡ is_kept_byte byte }
{
    (byte >= b'A' && byte <= b'Z')
        || (byte >= b'a' && byte <= b'z')
        || (byte >= b'0' && byte <= b'9')
        || byte == b'-'
}

fn hexadecimal(digit: u8) -> u8
    requires { digit < 16 }
    ensures { result ≡ hexadecimal_code digit }
{
    if digit < 10 {
        b'0' + digit
    } else {
        b'A' - 10 + digit
    }
}

// A byte of a key, as a name has it.
fn push_name_byte(out: &mut Vec<u8>, byte: u8) -> Result<(), AllocError>
    ensures { OnOk result (out.new.items ≡ out.old.items ++ name_byte byte) }
{
    if is_kept(byte) {
        return out.extend_from_slice(&[byte]);
    }
    out.extend_from_slice(&[b'~', hexadecimal(byte / 16), hexadecimal(byte % 16)])
}

fn push_name_key(out: &mut Vec<u8>, key: &[u8]) -> Result<(), AllocError>
    ensures { OnOk result (out.new.items ≡ out.old.items ++ flat_map name_byte key.now) }
{
    for byte in key {
        push_name_byte(out, *byte)?;
    }
    Ok(())
}

/// The place of what is under this key, as a JSON Pointer: `~` is written `~0` there, and `/` is
/// written `~1`.
pub fn place_of_member(alloc: Global, at: &Str, key: &Str) -> Result<Str, NoMemory>
    ensures { IfOk result (λ s. s ≡ member_place at.now key.now) }
{
    let mut place = Vec::from_slice(alloc, at.bytes())?;
    place.extend_from_slice(b"/")?;
    push_pointer_key(&mut place, key.bytes())?;
    Str::of(alloc, place)
}

/// The name of an object that is a member.
pub(crate) fn name_of_member(alloc: Global, name: &Str, key: &Str) -> Result<Str, NoMemory>
    ensures { IfOk result (λ s. s ≡ member_name name.now key.now) }
{
    // Room for all of it, where no byte of the key is escaped: the names of deep objects are most of what a file takes.
    let length = name.bytes().len().saturating_add(key.bytes().len());
    let mut member = Vec::with_capacity(alloc, length.saturating_add(1))?;
    member.extend_from_slice(name.bytes())?;
    member.extend_from_slice(b"_")?;
    push_name_key(&mut member, key.bytes())?;
    Str::of(alloc, member)
}

/// The label of the order of a list that has this key.
pub(crate) fn name_of_list(alloc: Global, key: &Str) -> Result<Str, NoMemory>
    ensures { IfOk result (λ s. s ≡ key.now ++ codes "_list") }
{
    let mut label = Vec::from_slice(alloc, key.bytes())?;
    label.extend_from_slice(b"_list")?;
    Str::of(alloc, label)
}
