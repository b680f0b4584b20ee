//! The index of a query's links.

ghost use Rattle.std.specs.Prelude.{◌≡◌, ◌↔◌, ℕ, List, IfOk, IsTrue, Contains, map};
ghost use Rattle.std.specs.Ordering.{on, then_cmp};
ghost use Rattle.sd_value.specs.Order.{bytes_cmp};
ghost use Rattle.query_blocks.specs.Blocks.{scope_of};
ghost use Rattle.constraint_spec.specs.Placed.{PlacedLink};
ghost use Rattle.link_index.specs.Links.{quoted_links, arc_links};
ghost use Rattle.link_index.specs.Found.{arc_name, quoted_name, pair_cmp};

use crate::gathered::{ArcLink, QuotedLink};
use crate::names::NameSet;
use crate::sorted::{sorted_arcs, sorted_quoted};
use list_lookup::{Query, has, part};
use query_blocks::QueryBlocks;
use sd_value::{NoMemory, Str};
use std::alloc::Global;
use std::cmp::Ordering;
use std::marker::Model;

/// The links of a query by the functions at which they start. What is asked of them is searched by halves.
#[derive(Drop)]
pub struct LinkIndex<'a> {
    query: &'a QueryBlocks,
    quoted: Vec<QuotedLink<'a>>,
    arcs: Vec<ArcLink<'a>>,
}

impl<'a> Model for LinkIndex<'a> {
    ghost use Rattle.site_spec.specs.Site.{Scope};
    ghost use Rattle.query_blocks.specs.Blocks.{scope_of};
    ghost use Rattle.link_index.specs.Codes.{scope_code};
    ghost use Rattle.link_index.specs.Found.{AreQuoted, AreArcs};

    ghost Value = { Scope };

    ghost coded = { scope_code };

    ghost view = { λ i. scope_of i.query.now };

    ghost invariant = { λ i. AreQuoted (scope_of i.query.now) i.quoted.items
        × AreArcs (scope_of i.query.now) i.arcs.items };
}

// A function and a label.
#[derive(Drop)]
struct ByLabel<'a> {
    function: &'a Str,
    label: &'a Str,
}

impl<'a, 'b> Query<QuotedLink<'b>> for ByLabel<'a> {
    type Given = ();

    ghost at = { λ q k. pair_cmp (quoted_name k) (q.function.now, q.label.now) };

    ghost gives = { λ k. tt };

    fn place(&self, item: &QuotedLink<'b>) -> Ordering {
        let by_label = item.label.cmp(self.label);
        item.function.cmp(self.function).then(by_label)
    }

    fn give(&self, _alloc: Global, _item: &QuotedLink<'b>) -> Result<(), NoMemory> {
        Ok(())
    }
}

// A function.
#[derive(Drop)]
struct ByFunction<'a> {
    function: &'a Str,
}

impl<'a, 'b> Query<ArcLink<'b>> for ByFunction<'a> {
    type Given = ();

    ghost at = { λ q k. bytes_cmp k.function.now q.function.now };

    ghost gives = { λ k. tt };

    fn place(&self, item: &ArcLink<'b>) -> Ordering {
        item.function.cmp(self.function)
    }

    fn give(&self, _alloc: Global, _item: &ArcLink<'b>) -> Result<(), NoMemory> {
        Ok(())
    }
}

impl<'a> LinkIndex<'a> {
    /// The index of the links of these blocks.
    /// # Errors
    /// Out of memory.
    pub fn of(alloc: Global, query: &'a QueryBlocks) -> Result<LinkIndex<'a>, NoMemory>
        ensures { IfOk result (λ index. index ≡ scope_of query.now) }
    {
        let quoted = sorted_quoted(alloc, query)?;
        let arcs = sorted_arcs(alloc, query)?;
        Ok(LinkIndex {
            query,
            quoted,
            arcs,
        })
    }

    /// Whether a link of the function is by this label, quoted.
    pub fn has_quoted(&self, function: &Str, label: &Str) -> bool
        ensures { IsTrue result ↔ Contains (quoted_links self.now) (function.now, label.now) }
    {
        has(self.quoted.as_slice(), &ByLabel { function, label })
    }

    /// The links by variables, by the functions at which they start.
    pub fn arcs(&self) -> &[ArcLink<'a>]
        ensures { (p : List ℕ × PlacedLink)
            → Contains (map arc_name result.now) p ↔ Contains (arc_links self.now) p }
    {
        self.arcs.as_slice()
    }

    /// The function's links by variables.
    pub fn arcs_of(&self, function: &Str) -> &[ArcLink<'a>]
        ensures { (p : List ℕ × PlacedLink) → Contains (map arc_name result.now) p
            ↔ Contains (arc_links self.now) p × (p.0 ≡ function.now) }
    {
        part(self.arcs.as_slice(), &ByFunction { function })
    }

    /// The labels that links of these functions have, quoted.
    /// # Errors
    /// Out of memory.
    pub fn labels_of(&self, alloc: Global, functions: &NameSet) -> Result<NameSet, NoMemory>
        ensures { IfOk result (λ labels. (l : List ℕ) → Contains labels l
            ↔ (f : List ℕ) × Contains functions.now f × Contains (quoted_links self.now) (f, l)) }
    {
        let mut found = Vec::new(alloc);
        for link in &self.quoted {
            if functions.has(link.function) {
                found.push(link.label.copy(alloc)?)?;
            }
        }
        Ok(NameSet::of(found))
    }

    /// The functions of which a link has one of these labels, quoted.
    /// # Errors
    /// Out of memory.
    pub fn functions_by(&self, alloc: Global, labels: &NameSet) -> Result<NameSet, NoMemory>
        ensures { IfOk result (λ functions. (f : List ℕ) → Contains functions f
            ↔ (l : List ℕ) × Contains labels.now l × Contains (quoted_links self.now) (f, l)) }
    {
        let mut found = Vec::new(alloc);
        for link in &self.quoted {
            if labels.has(link.label) {
                found.push(link.function.copy(alloc)?)?;
            }
        }
        Ok(NameSet::of(found))
    }
}
