// Reading a data file into a graph.
ghost use Rattle.data_source.specs.Takes.{Takes};

use crate::format::{Format, format_of};
use crate::refusal::SourceRefusal;
use crate::rules::SourceRules;
use bibtex_source::read_bibtex;
use csv_source::read_csv;
use json_source::read_json;
use sd_ddl::read_ddl;
use sd_graph::GraphBuilder;
use sd_value::Str;
use sqlite_source::read_sqlite;
use std::alloc::Global;
use text_source::read_text;

/// Adds what the file of this path and of these bytes states, read by its format and the rules:
/// CSV, JSON, BibTeX, a database of SQLite and a text by the end of the path, and else the data text, of at most `limit` bytes.
/// What the graph holds after a refusal is as the reader says.
pub fn read_source(
    alloc: Global,
    rules: SourceRules,
    path: &Str,
    bytes: &[u8],
    limit: u64,
    graph: &mut GraphBuilder,
) -> Result<(), SourceRefusal>
    ensures { Takes rules path.now limit bytes.now graph.old graph.new result }
{
    match format_of(alloc, rules, path)? {
        Format::DataText => read_ddl(alloc, bytes, limit, graph)?,
        Format::Csv(stem) => read_csv(alloc, rules.csv, &stem, bytes, graph)?,
        Format::Json(stem) => read_json(alloc, rules.json, &stem, bytes, graph)?,
        Format::BibTex(stem) => read_bibtex(alloc, rules.bibtex, &stem, bytes, graph)?,
        Format::Text(stem, folder) => read_text(alloc, &stem, &folder, bytes, graph)?,
        Format::Database(stem) => {
            read_sqlite(alloc, &stem, bytes, graph)?;
            return Ok(());
        }
    }
    Ok(())
}
