//! Reading SQLite database files into data graphs.
#![tactic(auto)]

ghost use Rattle.std.specs.Prelude.{◌≡◌, ◌⊎◌, ℕ, List, IfOk, IfErr};
ghost use Rattle.sd_graph.specs.Statement.{Building};
ghost use Rattle.sqlite_source.specs.Once.{HasOneAnswer};
ghost use Rattle.sqlite_source.specs.Shown.{file_pages, file_size, SameFile};
ghost use Rattle.sqlite_source.specs.Sheets.{ListsSheets, RefusesSchema};
ghost use Rattle.sqlite_source.specs.Reads.{ReadsPages, Reads};

mod default;
mod file;
mod names;
mod refusal;
mod rows;
mod scan;
mod schema;
mod sheet;
mod sheets;

use file::FilePages;
pub use refusal::DbRefusal;
use scan::{is_sound_table, read_rows};
use schema::{listed_tables, sheets_of};
use sd_graph::GraphBuilder;
use sd_value::Str;
use sheet::Sheet;
use sheets::{add_sheets, check_sheets};
use std::alloc::Global;

// How the tables that the schema lists are read.
fn listed_sheets(alloc: Global, store: &mut FilePages<'_>) -> Result<Vec<Sheet>, DbRefusal>
    ensures same { SameFile store.old store.new }
    ensures lists { IfOk result
        (λ sheets. ListsSheets (file_pages store.old) (file_size store.old) sheets.items) }
    ensures fault { IfErr result (λ e. (e ≡ DbRefusal.NoMemory)
        ⊎ RefusesSchema (file_pages store.old) (file_size store.old) e) }
{
    if !is_sound_table(alloc, store, 1)? {
        return Err(DbRefusal::NotDatabase);
    }
    let listing = read_rows(alloc, store, 1, 0)?;
    let tables = listed_tables(alloc, listing.as_slice())?;
    let sheets = sheets_of(alloc, tables.as_slice())?;
    Ok(sheets)
}

// What the pages of a file state.
fn read_pages(
    alloc: Global,
    stem: &Str,
    store: &mut FilePages<'_>,
    graph: &mut GraphBuilder,
) -> Result<(), DbRefusal>
    ensures { ReadsPages stem.now (file_pages store.old) (file_size store.old) graph.old graph.new
        result }
{
    let sheets = listed_sheets(alloc, store)?;
    check_sheets(alloc, store, sheets.as_slice())?;
    add_sheets(alloc, graph, stem, store, sheets.as_slice())
}

/// Adds what a database file states: each row of a table T with the rowid N is the node `STEM_T_N`, a member of T, with an
/// edge for each value that isn't NULL. An integer of a column that refers to the rowids of a table is an edge to that
/// row's node.
pub fn read_sqlite(
    alloc: Global,
    stem: &Str,
    bytes: &[u8],
    graph: &mut GraphBuilder,
) -> Result<(), DbRefusal>
    ensures { Reads stem.now bytes.now graph.old graph.new result }
{
    let Some(mut store) = FilePages::open(bytes) else {
        return Err(DbRefusal::NotDatabase);
    };
    read_pages(alloc, stem, &mut store, graph)
}

/// A file read into a graph has one answer, besides out of memory, and leaves one graph with it.
pub fn files_have_one_answer()
    ensures { (stem file : List ℕ) (b : Building) → HasOneAnswer stem file b }
{}
