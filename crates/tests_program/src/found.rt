// What `lint` finds in small sites, each kind of mistake both ways.
mod rows;

use crate::runs::{FileRow, PLAIN, Run, check_run};
use rows::{LintRow, ROWS};
use std::process::Abort;
use std::test::Fail;

const WORDS: &[&str] = &["lint", "site.struql", "site.tmpl", "site.ddl"];

fn check_row<R: AllocGlobal + Abort>(rt: &R, row: &LintRow) -> Result<(), Fail> {
    let files = [
        FileRow {
            path: "site.ddl",
            text: row.data,
        },
        FileRow {
            path: "site.struql",
            text: row.query,
        },
        FileRow {
            path: "site.tmpl",
            text: row.templates,
        },
    ];
    let run = Run {
        name: row.query,
        words: WORDS,
        code: if row.lines.is_empty() { 0 } else { 1 },
        out: row.lines,
        ..PLAIN
    };
    check_run(rt, &files, &run)
}

#[test]
fn mistakes_are_found_and_others_are_not(rt: HostRuntime) -> Result<(), Fail> {
    for row in ROWS {
        check_row(&rt, row)?;
    }
    Ok(())
}
