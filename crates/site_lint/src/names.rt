//! What is known of a site before its texts are judged.

ghost use Rattle.std.specs.Prelude.{◌≡◌, ◌++◌, IfOk, option_copied};
ghost use Rattle.query_blocks.specs.Blocks.{scope_of};
ghost use Rattle.tmpl.specs.Reading.{file_of};
ghost use Rattle.lint_spec.specs.Mistakes.{root_of as root_page};
ghost use Rattle.site_lint.specs.Judged.{HasNames};

use crate::gathered::{collected, created, presented, reached};
use link_index::NameSet;
use query_blocks::{QueryBlocks, root_of};
use sd_value::{NoMemory, Str};
use std::alloc::Global;
use tmpl::Templates;

/// The names in a query and in its templates: the functions in a CREATE, the collections of a
/// COLLECT, the functions that links and COLLECTs reach, those whose pages a template presents, and
/// the function of the root page.
#[derive(Drop)]
pub struct SiteNames {
    pub created: NameSet,
    pub collected: NameSet,
    pub reached: NameSet,
    pub presented: NameSet,
    pub root: Option<Str>,
}

// The function of the root page, copied.
fn root(alloc: Global, blocks: &QueryBlocks) -> Result<Option<Str>, NoMemory>
    ensures { IfOk result (λ root. root
        ≡ root_page (scope_of blocks.now).bodies) }
{
    match root_of(blocks) {
        None => Ok(None),
        Some(function) => Ok(Some(function.copy(alloc)?)),
    }
}

/// The names in a query and in its templates.
/// # Errors
/// Out of memory.
pub fn names_of(
    alloc: Global,
    blocks: &QueryBlocks,
    templates: &Templates,
) -> Result<SiteNames, NoMemory>
    ensures { IfOk result
        (λ names. HasNames (scope_of blocks.now).bodies (file_of templates.now) names) }
{
    let created = NameSet::of(created(alloc, blocks)?);
    let collected = NameSet::of(collected(alloc, blocks)?);
    let reached = NameSet::of(reached(alloc, blocks)?);
    let presented = NameSet::of(presented(alloc, templates)?);
    let root = root(alloc, blocks)?;
    Ok(SiteNames {
        created,
        collected,
        reached,
        presented,
        root,
    })
}
