//! The command `page`: the page that an address names.
#![tactic(auto)]

ghost use Rattle.std.specs.Prelude.{◌≡◌, IfOk};
ghost use Rattle.std.specs.Option.{ForSome};
ghost use Rattle.tmpl.specs.Reading.{file_of};
ghost use Rattle.page_spec.specs.Page.{IsOutcome};
ghost use Rattle.weight_spec.specs.Site.{site_of};
ghost use Rattle.query_blocks.specs.Blocks.{scope_of, AreCheckedBlocks};
ghost use Rattle.site_inputs.specs.Reads.{Reads};
ghost use Rattle.site_inputs.specs.Runs.{ReadsHaveCause};
ghost use Rattle.command_spec.specs.Inputs.{data_paths, input_paths};
ghost use Rattle.site_inputs.specs.Values.{inputs_of};
ghost use Rattle.command_page.specs.Ends.{answer_of, PageTaken, PageEnds};

mod laws;

use address::term_of;
use bindings::StoreAsker;
use click_time::Click;
use command_spec::PageCommand;
use edge_io::Files;
use index_store::IndexStore;
pub use laws::pages_are_decided;
use page_spec::Outcome;
use query_blocks::{QueryBlocks, root_of};
use query_scoping::scopes;
use run_report::PageKind;
use sd_graph::Graph;
use sd_value::{NoMemory, Str, Term};
use site_inputs::{Fault, SiteInputs, load_inputs};
use site_view::Pages;
use std::alloc::Global;
use tmpl::Templates;

// What asking for the term's page gives, from what the data answer.
fn outcome_of(
    alloc: Global,
    graph: Graph,
    scopes: &QueryBlocks,
    templates: &Templates,
    term: &Term,
) -> Result<Outcome, NoMemory>
    requires { AreCheckedBlocks scopes.now.version scopes.now.blocks.items }
    ensures { IfOk result
        (IsOutcome (site_of graph (scope_of scopes.now)) (file_of templates.now) term.now) }
{
    let store = IndexStore::of(alloc, graph)?;
    let asker = StoreAsker::of(store);
    let mut click = Click::of(alloc, asker, scopes, templates);
    let outcome = click.page(alloc, term)?;
    Ok(outcome)
}

fn answer(term: Term, outcome: Outcome) -> Result<Str, Fault>
    ensures { result ≡ answer_of term outcome }
{
    match outcome {
        Outcome::Page(text) => Ok(text),
        Outcome::Missing => Err(Fault::NotFound),
        Outcome::Cyclic(value) => Err(Fault::Faulty {
            term,
            kind: PageKind::Cyclic(value),
        }),
        Outcome::TooLong => Err(Fault::Faulty {
            term,
            kind: PageKind::TooLong,
        }),
    }
}

// The text of the page at an address.
fn page_at(alloc: Global, inputs: SiteInputs, address: &Str) -> Result<Str, Fault>
    ensures { PageTaken (inputs_of inputs) address.now result }
{
    let scopes = scopes(alloc, &inputs.query)?;
    let named = term_of(alloc, address.bytes(), root_of(&scopes))?;
    let Some(term) = named else {
        return Err(Fault::NotFound);
    };
    let outcome = outcome_of(alloc, inputs.graph, &scopes, &inputs.templates, &term)?;
    answer(term, outcome)
}

/// The text of the page that the address names, in the site of the query over the data.
/// # Errors
/// The first input that is refused or unread; not found, where the address names no page of the site; a page that
/// embeds itself or is too long; or out of memory.
pub fn page<F: Files>(alloc: Global, files: &mut F, command: &PageCommand) -> Result<Str, Fault>
    ensures ends { ForSome (F.contents files.old) (λ map. PageEnds map command.now result) }
    ensures same { F.contents files.new ≡ F.contents files.old }
    ensures cause { ReadsHaveCause
        (input_paths (data_paths command.now.sources command.now.over)
        command.now.query command.now.templates)
        (F.failed_reads files.old) (F.failed_reads files.new) result }
    ensures traced { Reads
        (input_paths (data_paths command.now.sources command.now.over)
        command.now.query command.now.templates)
        (F.trace files.old) (F.trace files.new) (F.contents files.old) result
        (λ map. PageEnds map command.now result) }
{
    let inputs = load_inputs(
        alloc,
        files,
        &command.sources,
        &command.over,
        &command.query,
        &command.templates,
    )?;
    page_at(alloc, inputs, &command.address)
}
