//! What is asked of the links of a query.

ghost use Rattle.std.specs.Prelude.{◌≡◌, ◌↔◌, ℕ, List, Contains, IfOk, IsTrue};
ghost use Rattle.site_spec.specs.Site.{Scope, SomeOf};
ghost use Rattle.query_blocks.specs.Blocks.{scope_of};
ghost use Rattle.lint_spec.specs.Mistakes.{NoLinkOf};
ghost use Rattle.site_lint.specs.Links.{ArcCarries, HasLinks, AreLabelsOf, AreCarrying};

use link_index::{ArcLink, LinkIndex, NameSet};
use query_blocks::QueryBlocks;
use sd_value::{NoMemory, Str};
use std::alloc::Global;

/// What tells which labels the links of a query may carry that are by variables. `Own` is what an implementation asks of
/// itself.
pub trait LinkAnswers {
    ghost query: { Self → Scope };

    ghost Own: { Self → Type 0 };

    /// Whether the link may carry the label, of which no data are known.
    /// # Errors
    /// Out of memory.
    fn may_carry(&self, alloc: Global, link: &ArcLink, label: &Str) -> Result<bool, NoMemory>
        requires { Own self.now }
        ensures { IfOk result (λ may. IsTrue may
            ↔ ArcCarries (query self.now).version label.now link.now) };
}

/// The links of a site's query: an index of them, the quoted labels of links of created functions, and the functions of
/// which a link may carry a label by which words go on, a quoted one and one that a variable stands for.
#[derive(Drop)]
pub struct SiteLinks<'a> {
    pub index: LinkIndex<'a>,
    pub created_labels: NameSet,
    pub quoted_on: NameSet,
    pub arcs_on: NameSet,
}

// Whether one of the links may carry the label.
fn some_carries<L: LinkAnswers>(
    alloc: Global,
    answers: &L,
    links: &[ArcLink],
    label: &Str,
) -> Result<bool, NoMemory>
    requires { L.Own answers.now }
    ensures { IfOk result (λ some. IsTrue some
        ↔ SomeOf (ArcCarries (L.query answers.now).version label.now) links.now) }
{
    for link in links {
        if answers.may_carry(alloc, link, label)? {
            return Ok(true);
        }
    }
    Ok(false)
}

// Whether the link may carry one of the labels.
fn carries_some<L: LinkAnswers>(
    alloc: Global,
    answers: &L,
    link: &ArcLink,
    labels: &[Str],
) -> Result<bool, NoMemory>
    requires { L.Own answers.now }
    ensures { IfOk result (λ some. IsTrue some
        ↔ SomeOf (λ l. ArcCarries (L.query answers.now).version l link.now) labels.now) }
{
    for label in labels {
        if answers.may_carry(alloc, link, label)? {
            return Ok(true);
        }
    }
    Ok(false)
}

// Whether the link is one of these functions, and may carry the label.
fn carries_of<L: LinkAnswers>(
    alloc: Global,
    answers: &L,
    link: &ArcLink,
    functions: &NameSet,
    label: &Str,
) -> Result<bool, NoMemory>
    requires { L.Own answers.now }
    ensures { IfOk result (λ may. IsTrue may ↔ (Contains functions.now link.now.function.now
        × ArcCarries (L.query answers.now).version label.now link.now)) }
{
    if functions.has(link.function) {
        answers.may_carry(alloc, link, label)
    } else {
        Ok(false)
    }
}

// Whether one of the links is one of these functions, and may carry the label.
fn some_carries_of<L: LinkAnswers>(
    alloc: Global,
    answers: &L,
    links: &[ArcLink],
    functions: &NameSet,
    label: &Str,
) -> Result<bool, NoMemory>
    requires { L.Own answers.now }
    ensures { IfOk result (λ some. IsTrue some
        ↔ SomeOf (λ a. Contains functions.now a.function.now
        × ArcCarries (L.query answers.now).version label.now a) links.now) }
{
    for link in links {
        if carries_of(alloc, answers, link, functions, label)? {
            return Ok(true);
        }
    }
    Ok(false)
}

/// Whether no link of the function may carry the label.
pub(crate) fn has_none<L: LinkAnswers>(
    alloc: Global,
    answers: &L,
    links: &SiteLinks,
    function: &Str,
    label: &Str,
) -> Result<bool, NoMemory>
    requires own { L.Own answers.now }
    requires index { links.now.index ≡ L.query answers.now }
    ensures { IfOk result (λ none. IsTrue none
        ↔ NoLinkOf (L.query answers.now) function.now label.now) }
{
    if links.index.has_quoted(function, label) {
        return Ok(false);
    }
    let some = some_carries(alloc, answers, links.index.arcs_of(function), label)?;
    Ok(!some)
}

/// Whether no link of one of the functions may carry the label.
pub(crate) fn none_has<L: LinkAnswers>(
    alloc: Global,
    answers: &L,
    links: &SiteLinks,
    functions: &NameSet,
    label: &Str,
) -> Result<bool, NoMemory>
    requires own { L.Own answers.now }
    requires index { links.now.index ≡ L.query answers.now }
    requires labels { AreLabelsOf (L.query answers.now) functions.now links.now.created_labels }
    ensures { IfOk result (λ none. IsTrue none ↔ ((f : List ℕ) → Contains functions.now f
        → NoLinkOf (L.query answers.now) f label.now)) }
{
    if links.created_labels.has(label) {
        return Ok(false);
    }
    let some = some_carries_of(alloc, answers, links.index.arcs(), functions, label)?;
    Ok(!some)
}

// The functions of which a link by a variable may carry one of the labels.
fn carrying<L: LinkAnswers>(
    alloc: Global,
    answers: &L,
    index: &LinkIndex,
    labels: &[Str],
) -> Result<NameSet, NoMemory>
    requires own { L.Own answers.now }
    requires index { index.now ≡ L.query answers.now }
    ensures { IfOk result
        (λ functions. AreCarrying (L.query answers.now) labels.now functions) }
{
    let mut found = Vec::new(alloc);
    for link in index.arcs() {
        if carries_some(alloc, answers, link, labels)? {
            found.push(link.function.copy(alloc)?)?;
        }
    }
    Ok(NameSet::of(found))
}

// The names, copied.
fn set_of(alloc: Global, names: &[Str]) -> Result<NameSet, NoMemory>
    ensures { IfOk result (λ set. (n : List ℕ) → Contains set n ↔ Contains names.now n) }
{
    let mut found = Vec::with_capacity(alloc, names.len())?;
    for name in names {
        found.push(name.copy(alloc)?)?;
    }
    Ok(NameSet::of(found))
}

/// The links of a query, where these functions are created, and words go on by these labels.
/// # Errors
/// Out of memory.
pub fn links_of<'a, L: LinkAnswers>(
    alloc: Global,
    answers: &L,
    blocks: &'a QueryBlocks,
    created: &NameSet,
    further: &[Str],
) -> Result<SiteLinks<'a>, NoMemory>
    requires own { L.Own answers.now }
    requires query { L.query answers.now ≡ scope_of blocks.now }
    ensures { IfOk result (HasLinks (L.query answers.now) created.now further.now) }
{
    let index = LinkIndex::of(alloc, blocks)?;
    let labels = set_of(alloc, further)?;
    let created_labels = index.labels_of(alloc, created)?;
    let quoted_on = index.functions_by(alloc, &labels)?;
    let arcs_on = carrying(alloc, answers, &index, labels.items())?;
    Ok(SiteLinks {
        index,
        created_labels,
        quoted_on,
        arcs_on,
    })
}
