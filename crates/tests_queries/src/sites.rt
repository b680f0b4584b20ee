// A site's pages from their own demand and from the whole site.
mod blocks;
mod conditions;
mod embeds;
mod large;
mod outcomes;
mod shown;
mod sums;
mod texts;
mod weight;

use crate::inputs::{asker_of, builder_of, push_terms, scopes_of, templates_of};
use bindings::StoreAsker;
use click_time::{Click, Given};
use index_store::IndexStore;
use outcomes::check_pages;
use sd_value::Term;
use site_build::Whole;
use std::process::Abort;
use std::test::Fail;

/// A site, with `'` for each quote of its texts; addresses of terms outside it; and the outcomes of requests for the pages
/// of its terms, ascending, and then of those addresses.
#[derive(Drop)]
pub struct SiteRow {
    pub data_text: &'static str,
    pub query: &'static str,
    pub templates: &'static str,
    pub outside: &'static [&'static str],
    pub outcomes: &'static str,
}

/// Compares the outcomes of the terms' pages, from their own demand on the data, with a text. Tells how much the data
/// handed out for them.
pub fn check_clicks<R: AllocGlobal + Abort>(
    rt: &R,
    asker: StoreAsker<IndexStore>,
    query: &str,
    templates: &str,
    terms: &[Term],
    wanted: &str,
) -> Result<u128, Fail> {
    let alloc = rt.alloc();
    let scopes = scopes_of(alloc, query)?;
    let templates = templates_of(alloc, templates)?;
    let mut click = Click::of(alloc, asker, &scopes, &templates);
    check_pages(rt, &mut click, terms, wanted)?;
    Ok(click.given())
}

// Compares the outcomes of the row's pages, from the whole site, with the row's text. Tells of which terms they are.
fn check_whole<R: AllocGlobal + Abort>(rt: &R, row: &SiteRow) -> Result<Vec<Term>, Fail> {
    let alloc = rt.alloc();
    let scopes = scopes_of(alloc, row.query)?;
    let templates = templates_of(alloc, row.templates)?;
    let asker = asker_of(alloc, builder_of(alloc, row.data_text)?)?;
    let mut whole = Whole::of(alloc, asker, &scopes, &templates)?;
    let mut terms = whole.terms(alloc)?;
    push_terms(alloc, row.outside, &mut terms)?;
    check_pages(rt, &mut whole, terms.as_slice(), row.outcomes)?;
    Ok(terms)
}

fn check_sites<R: AllocGlobal + Abort>(rt: &R, rows: &[SiteRow]) -> Result<(), Fail> {
    for row in rows {
        let terms = check_whole(rt, row)?;
        let asker = asker_of(rt.alloc(), builder_of(rt.alloc(), row.data_text)?)?;
        check_clicks(rt, asker, row.query, row.templates, &terms, row.outcomes)?;
    }
    Ok(())
}

#[test]
fn pages_of_each_kind(rt: HostRuntime) -> Result<(), Fail> {
    for rows in [
        blocks::SITES,
        conditions::SITES,
        shown::SITES,
        embeds::SITES,
        sums::SITES,
        texts::SITES,
    ] {
        check_sites(&rt, rows)?;
    }
    Ok(())
}
