// The tables that a file's schema lists.
ghost use Rattle.std.specs.Prelude.{◌≡◌, ◌⊎◌, ◌++◌, option_map, Ok, Err, IfOk, IfErr, OnOk};
ghost use Rattle.sqlite_value.specs.Value.{owned};
ghost use Rattle.sqlite_source.specs.Schema as spec;

use crate::default::stored_default;
use crate::names::table_place;
use crate::refusal::DbRefusal;
use crate::sheet::{Field, Sheet};
use sd_value::{NoMemory, Str};
use sqlite_resolve::{CompileError, define_table};
use sqlite_schema::code::lend_value;
use sqlite_schema::schema::{Column, Kind, Reference, Table};
use sqlite_value::row::Row;
use sqlite_value::value::ValueRef;
use std::alloc::Global;

/// A table as the schema lists it, and its definition.
#[derive(Debug, Drop)]
pub struct Listed {
    pub name: Str,
    pub root: u32,
    pub table: Table,
}

fn text_or_none<'a>(value: ValueRef<'a>) -> &'a [u8]
    ensures { result.now ≡ spec.text_or_none (owned value.entry) }
{
    match value {
        ValueRef::Text(text) => text,
        _ => b"".as_slice(),
    }
}

fn page_number(value: ValueRef<'_>) -> Option<u32>
    ensures { result ≡ spec.page_number (owned value.entry) }
{
    match value {
        ValueRef::Int(number) if number > 0 && number < 4294967296 => Some(number as u32),
        _ => None,
    }
}

// The root page of a row of the schema that lists a table of the user's.
fn root_of(row: &Row) -> Option<u32>
    ensures { result ≡ spec.root_in row.now }
{
    if text_or_none(row.get(1)) == b"table".as_slice()
        && !text_or_none(row.get(2)).starts_with(b"sqlite_")
    {
        return page_number(row.get(4));
    }
    None
}

fn push_some(all: &mut Vec<Listed>, listed: Option<Listed>) -> Result<(), NoMemory>
    ensures { OnOk result (all.new.items ≡ all.old.items ++ spec.as_list listed) }
{
    if let Some(listed) = listed {
        all.push(listed)?;
    }
    Ok(())
}

// The table of a row, where it lists one.
fn listed_row(alloc: Global, row: &Row) -> Result<Option<Listed>, DbRefusal>
    ensures found { IfOk result (λ o. spec.Adds row.now (spec.as_list o)) }
    ensures fault { IfErr result (λ e. (e ≡ DbRefusal.NoMemory) ⊎ spec.Stops row.now e) }
{
    let Some(root) = root_of(row) else {
        return Ok(None);
    };
    let name = Str::new(alloc, text_or_none(row.get(2)))?;
    match define_table(alloc, text_or_none(row.get(5))) {
        Ok(table) => Ok(Some(Listed { name, root, table })),
        Err(CompileError::OutOfMemory) => Err(DbRefusal::NoMemory),
        Err(_) => Err(DbRefusal::NotRead(table_place(alloc, &name)?)),
    }
}

/// The tables that the rows of the schema list.
pub(crate) fn listed_tables(alloc: Global, rows: &[Row]) -> Result<Vec<Listed>, DbRefusal>
    ensures all { IfOk result (λ all. spec.listed_in rows.now ≡ Ok all.items) }
    ensures fault { IfErr result (λ e. (e ≡ DbRefusal.NoMemory) ⊎ (spec.listed_in rows.now ≡ Err e)) }
{
    let mut all = Vec::new(alloc);
    let mut left = rows;
    'rows: while let Some((row, more)) = left.split_first() {
        let listed = listed_row(alloc, row)?;
        push_some(&mut all, listed)?;
        left = more;
    }
    Ok(all)
}

fn is_key_column(parent: &Table, at: Option<usize>) -> bool
    ensures { result ≡ spec.is_key_column parent.now at }
{
    match at {
        Some(at) => parent.key == Some(at),
        None => false,
    }
}

// Whether the reference is to the rowids of this table.
fn is_to_rowid(parent: &Table, reference: &Reference) -> bool
    ensures { result ≡ spec.is_to_rowid parent.now reference.now }
{
    match reference.parent_columns.as_slice() {
        [] => parent.primary.as_slice() == [0usize].as_slice(),
        [name] => is_key_column(parent, parent.column_named(name.as_slice())),
        _ => false,
    }
}

fn parent_of<'a>(tables: &'a [Listed], reference: &Reference) -> Option<&'a Str>
    ensures { option_map (λ s. s.now) result ≡ spec.parent_of tables.now reference.now }
{
    let mut left = tables;
    'tables: while let Some((listed, more)) = left.split_first() {
        if listed.table.is_named(reference.parent.as_slice()) {
            if is_to_rowid(&listed.table, reference) {
                return Some(&listed.name);
            }
            return None;
        }
        left = more;
    }
    None
}

fn target_of(
    alloc: Global,
    tables: &[Listed],
    table: &Table,
    place: usize,
) -> Result<Option<Str>, NoMemory>
    ensures { IfOk result (λ t. t ≡ spec.target_by tables.now place table.now.references) }
{
    let mut left = table.references.as_slice();
    'references: while let Some((reference, more)) = left.split_first() {
        if reference.columns.as_slice() == [place].as_slice() {
            if let Some(parent) = parent_of(tables, reference) {
                return Ok(Some(parent.copy(alloc)?));
            }
        }
        left = more;
    }
    Ok(None)
}

fn field_of(
    alloc: Global,
    tables: &[Listed],
    table: &Table,
    column: &Column,
    place: usize,
) -> Result<Field, NoMemory>
    ensures { IfOk result (λ f. f ≡ spec.field_of tables.now table.now column.now place) }
{
    Ok(Field {
        label: Str::new(alloc, column.name.as_slice())?,
        place,
        target: target_of(alloc, tables, table, place)?,
        default: stored_default(alloc, column.kind, lend_value(&column.default))?,
    })
}

fn fields_of(alloc: Global, tables: &[Listed], table: &Table) -> Result<Vec<Field>, NoMemory>
    ensures { IfOk result (λ fields. fields.items ≡ spec.fields_of tables.now table.now) }
{
    let mut fields = Vec::new(alloc);
    let mut left = table.columns.as_slice();
    let mut at = 0;
    'columns: while let Some((column, more)) = left.split_first() {
        let field = field_of(alloc, tables, table, column, table.place_of(at))?;
        fields.push(field)?;
        at += 1;
        left = more;
    }
    Ok(fields)
}

fn is_real(column: &Column) -> bool
    ensures { result ≡ spec.is_real column.now }
{
    match column.kind {
        Kind::Real => true,
        _ => false,
    }
}

// A bit for each REAL column, from the first on.
fn reals_from(columns: &[Column]) -> u64
    ensures { result ≡ spec.reals_from columns.now }
{
    let Some((column, more)) = columns.split_first() else {
        return 0;
    };
    let bit = if is_real(column) { 1 } else { 0 };
    reals_from(more).wrapping_mul(2).wrapping_add(bit)
}

fn sheet_of(alloc: Global, tables: &[Listed], listed: &Listed) -> Result<Sheet, NoMemory>
    ensures { IfOk result (λ s. spec.IsSheetOf tables.now listed.now s) }
{
    Ok(Sheet {
        name: listed.name.copy(alloc)?,
        root: listed.root,
        reals: reals_from(listed.table.columns.as_slice()),
        fields: fields_of(alloc, tables, &listed.table)?,
    })
}

/// How each table is read.
pub(crate) fn sheets_of(alloc: Global, tables: &[Listed]) -> Result<Vec<Sheet>, NoMemory>
    ensures { IfOk result (λ sheets. spec.AreSheetsOf tables.now sheets.items) }
{
    let mut sheets = Vec::new(alloc);
    let mut left = tables;
    'tables: while let Some((listed, more)) = left.split_first() {
        let sheet = sheet_of(alloc, tables, listed)?;
        sheets.push(sheet)?;
        left = more;
    }
    Ok(sheets)
}
