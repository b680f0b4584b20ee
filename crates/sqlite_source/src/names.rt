// Names of nodes, and places of rows and values.
ghost use Rattle.std.specs.Prelude.{◌≡◌, IfOk};
ghost use Rattle.sqlite_source.specs.Names as spec;

use itoa::Buffer;
use json_source::place_of_member;
use sd_value::{NoMemory, Str};
use std::alloc::Global;

/// The name of a row's node.
pub(crate) fn row_name(alloc: Global, stem: &Str, table: &Str, id: i64) -> Result<Str, NoMemory>
    ensures { IfOk result (λ s. s ≡ spec.row_name stem.now table.now id) }
{
    let mut text = Vec::from_slice(alloc, stem.bytes())?;
    text.extend_from_slice(b"_")?;
    text.extend_from_slice(table.bytes())?;
    text.extend_from_slice(b"_")?;
    let mut buffer = Buffer::new();
    text.extend_from_slice(buffer.format(id).as_bytes())?;
    Str::of(alloc, text)
}

/// The place of a table.
pub(crate) fn table_place(alloc: Global, table: &Str) -> Result<Str, NoMemory>
    ensures { IfOk result (λ s. s ≡ spec.table_place table.now) }
{
    let top = Str::new(alloc, b"")?;
    place_of_member(alloc, &top, table)
}

/// The place of a row.
pub(crate) fn row_place(alloc: Global, table: &Str, id: i64) -> Result<Str, NoMemory>
    ensures { IfOk result (λ s. s ≡ spec.row_place table.now id) }
{
    let at = table_place(alloc, table)?;
    let mut text = Vec::from_slice(alloc, at.bytes())?;
    text.extend_from_slice(b"/")?;
    let mut buffer = Buffer::new();
    text.extend_from_slice(buffer.format(id).as_bytes())?;
    Str::of(alloc, text)
}
