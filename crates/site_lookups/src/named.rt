//! Whether a page is in the site.
ghost use Rattle.std.specs.Prelude.{◌≡◌, ◌↔◌, ◌++◌, List, map, All, Contains, IfOk, IsTrue};
ghost use Rattle.query_spec.specs.Mentions.{IsDeclared, IsWellMade};
ghost use Rattle.query_spec.specs.Query.{SkolemTerm as PlainTerm};
ghost use Rattle.struql_ast.specs.Reading.{term_of, target_of, link_of, collect_of};
ghost use Rattle.struql_ast.specs.declared.SkolemTerm.{SkolemTerm as Written};
ghost use Rattle.struql_ast.specs.declared.Link.{Link as WrittenLink};
ghost use Rattle.struql_ast.specs.declared.Collect.{Collect as WrittenCollect};
ghost use Rattle.site_spec.specs.Site.{SomeOf, IsNamed, InSite, target_terms, ends_of};
ghost use Rattle.std.specs.Prelude.{ℕ};
ghost use Rattle.site_spec.specs.Site.{terms_of};
ghost use Rattle.query_blocks.specs.Blocks.{AllDeclared, IsCheckedBlock, AreCheckedBlocks, body_of};
ghost use Rattle.query_blocks.specs.Blocks.{scope_of};
ghost use Rattle.tmpl.specs.Body.{TemplateFile};
ghost use Rattle.page_spec.specs.Question.{in_site as asks_term};
ghost use Rattle.weight_spec.specs.Charges.{IsNamedAt, IsCause};
ghost use Rattle.weight_spec.specs.CountsAtMost.{CountsAtMost, IsAt};
ghost use Rattle.site_lookups.specs.Counts.{HasFunction, IsTermOf, IsEndOf};

use asker::Asker;
use query_blocks::{QueryBlock, QueryBlocks};
use sd_value::{NoMemory, Term};
use skolem::matches;
use std::alloc::Global;
use struql_ast::{Chain, Collect, Link, SkolemTerm, Target};

// Whether some row of the chain makes the written term name the page.
fn is_named<A: Asker>(
    alloc: Global,
    asker: &mut A,
    chain: &Chain,
    written: &SkolemTerm,
    term: &Term,
) -> Result<bool, NoMemory>
    requires well_made { IsWellMade chain.now }
    requires declared { AllDeclared chain.now.variables (term_of written.now) }
    ensures graph { A.graph asker.new ≡ A.graph asker.old }
    ensures counted { CountsAtMost (HasFunction term.now written.now) (A.count asker.old)
        (A.count asker.new) }
    ensures answer { IfOk result
        (λ b. IsTrue b ↔ IsNamed (A.graph asker.old) chain.now term.now (term_of written.now)) }
{
    match matches(alloc, written, chain.variables(), term)? {
        None => Ok(false),
        Some(bound) => {
            let found = asker.exists(alloc, chain, &bound)?;
            Ok(found)
        }
    }
}

// Whether one of the written terms names the page.
fn any_named<A: Asker>(
    alloc: Global,
    asker: &mut A,
    chain: &Chain,
    terms: &[SkolemTerm],
    term: &Term,
) -> Result<bool, NoMemory>
    requires well_made { IsWellMade chain.now }
    requires declared { (w : Written) → Contains terms.now w
        → AllDeclared chain.now.variables (term_of w) }
    ensures graph { A.graph asker.new ≡ A.graph asker.old }
    ensures counted { CountsAtMost (IsAt terms.now (HasFunction term.now)) (A.count asker.old)
        (A.count asker.new) }
    ensures answer { IfOk result
        (λ b. IsTrue b
        ↔ SomeOf (λ w. IsNamed (A.graph asker.old) chain.now term.now (term_of w)) terms.now) }
{
    for written in terms {
        if is_named(alloc, asker, chain, written, term)? {
            return Ok(true);
        }
    }
    Ok(false)
}

// Whether the target is a written term that names the page.
fn target_named<A: Asker>(
    alloc: Global,
    asker: &mut A,
    chain: &Chain,
    target: &Target,
    term: &Term,
) -> Result<bool, NoMemory>
    requires well_made { IsWellMade chain.now }
    requires declared { (t : PlainTerm) → Contains (target_terms (target_of target.now)) t
        → AllDeclared chain.now.variables t }
    ensures graph { A.graph asker.new ≡ A.graph asker.old }
    ensures counted { CountsAtMost (IsTermOf term.now (target_of target.now)) (A.count asker.old)
        (A.count asker.new) }
    ensures answer { IfOk result
        (λ b. IsTrue b
        ↔ SomeOf (IsNamed (A.graph asker.old) chain.now term.now)
        (target_terms (target_of target.now))) }
{
    match target {
        Target::Plain(_) | Target::Summed(_, _) => Ok(false),
        Target::Made(written) => {
            let found = is_named(alloc, asker, chain, written, term)?;
            Ok(found)
        }
    }
}

fn link_named<A: Asker>(
    alloc: Global,
    asker: &mut A,
    chain: &Chain,
    link: &Link,
    term: &Term,
) -> Result<bool, NoMemory>
    requires well_made { IsWellMade chain.now }
    requires declared { (t : PlainTerm) → Contains (ends_of (link_of link.now)) t
        → AllDeclared chain.now.variables t }
    ensures graph { A.graph asker.new ≡ A.graph asker.old }
    ensures counted { CountsAtMost (IsEndOf term.now (link_of link.now)) (A.count asker.old)
        (A.count asker.new) }
    ensures answer { IfOk result
        (λ b. IsTrue b
        ↔ SomeOf (IsNamed (A.graph asker.old) chain.now term.now) (ends_of (link_of link.now))) }
{
    if target_named(alloc, asker, chain, &link.source, term)? {
        return Ok(true);
    }
    let found = target_named(alloc, asker, chain, &link.target, term)?;
    Ok(found)
}

fn any_link_named<A: Asker>(
    alloc: Global,
    asker: &mut A,
    chain: &Chain,
    links: &[Link],
    term: &Term,
) -> Result<bool, NoMemory>
    requires well_made { IsWellMade chain.now }
    requires declared { (k : WrittenLink) (t : PlainTerm) → Contains links.now k
        → Contains (ends_of (link_of k)) t → AllDeclared chain.now.variables t }
    ensures graph { A.graph asker.new ≡ A.graph asker.old }
    ensures counted { CountsAtMost (IsAt links.now (λ k. IsEndOf term.now (link_of k)))
        (A.count asker.old) (A.count asker.new) }
    ensures answer { IfOk result
        (λ b. IsTrue b
        ↔ SomeOf (λ k. SomeOf (IsNamed (A.graph asker.old) chain.now term.now)
        (ends_of (link_of k))) links.now) }
{
    for link in links {
        if link_named(alloc, asker, chain, link, term)? {
            return Ok(true);
        }
    }
    Ok(false)
}

fn any_collect_named<A: Asker>(
    alloc: Global,
    asker: &mut A,
    chain: &Chain,
    collects: &[Collect],
    term: &Term,
) -> Result<bool, NoMemory>
    requires well_made { IsWellMade chain.now }
    requires declared { (k : WrittenCollect) (t : PlainTerm) → Contains collects.now k
        → Contains (target_terms (collect_of k).target) t → AllDeclared chain.now.variables t }
    ensures graph { A.graph asker.new ≡ A.graph asker.old }
    ensures counted { CountsAtMost
        (IsAt collects.now (λ k. IsTermOf term.now (collect_of k).target)) (A.count asker.old)
        (A.count asker.new) }
    ensures answer { IfOk result
        (λ b. IsTrue b
        ↔ SomeOf (λ k. SomeOf (IsNamed (A.graph asker.old) chain.now term.now)
        (target_terms (collect_of k).target)) collects.now) }
{
    for collect in collects {
        if target_named(alloc, asker, chain, &collect.target, term)? {
            return Ok(true);
        }
    }
    Ok(false)
}

fn block_named<A: Asker>(
    alloc: Global,
    asker: &mut A,
    block: &QueryBlock,
    term: &Term,
) -> Result<bool, NoMemory>
    requires scoped { (version : ℕ) × IsCheckedBlock version block.now }
    ensures graph { A.graph asker.new ≡ A.graph asker.old }
    ensures counted { CountsAtMost (IsNamedAt (body_of block.now) term.now) (A.count asker.old)
        (A.count asker.new) }
    ensures answer { IfOk result
        (λ b. IsTrue b
        ↔ SomeOf (IsNamed (A.graph asker.old) block.now.chain term.now)
        (terms_of (body_of block.now))) }
{
    if any_named(alloc, asker, &block.chain, block.creates.as_slice(), term)? {
        return Ok(true);
    }
    if any_link_named(alloc, asker, &block.chain, block.links.as_slice(), term)? {
        return Ok(true);
    }
    let found = any_collect_named(alloc, asker, &block.chain, block.collects.as_slice(), term)?;
    Ok(found)
}

/// Whether the page is in the site. Each place that names a term of the page's function is asked at most once, and
/// counts one.
pub fn in_site<A: Asker>(
    alloc: Global,
    asker: &mut A,
    scopes: &QueryBlocks,
    term: &Term,
) -> Result<bool, NoMemory>
    requires scoped { AreCheckedBlocks scopes.now.version scopes.now.blocks.items }
    ensures graph { A.graph asker.new ≡ A.graph asker.old }
    ensures counted { (f : TemplateFile)
        → CountsAtMost (IsCause (A.graph asker.old) (scope_of scopes.now) f (asks_term term.now))
        (A.count asker.old) (A.count asker.new) }
    ensures answer { IfOk result
        (λ b. IsTrue b ↔ InSite (A.graph asker.old) (scope_of scopes.now) term.now) }
{
    let blocks = scopes.blocks.as_slice();
    for block in blocks {
        if block_named(alloc, asker, block, term)? {
            return Ok(true);
        }
    }
    Ok(false)
}
