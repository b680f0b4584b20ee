//! Which links of a query may carry a label, for what judges the texts of its site.

ghost use Rattle.std.specs.Prelude.{◌≡◌, IfOk};
ghost use Rattle.query_blocks.specs.Blocks.{scope_of};
ghost use Rattle.command_lint.specs.Links.{query_of, IsTabled};

use inclusion::Inclusions;
use link_index::ArcLink;
use query_blocks::QueryBlocks;
use query_links::{AskedLabel, may_carry};
use sd_value::{NoMemory, Str};
use site_lint::LinkAnswers;
use std::alloc::Global;

/// The links of a query, and what its path expressions and constants are to one another.
pub struct QueryLinks<'a> {
    judge: Inclusions,
    blocks: &'a QueryBlocks,
}

impl<'a> QueryLinks<'a> {
    /// What answers for the links of these blocks.
    /// # Errors
    /// Out of memory.
    pub fn of(alloc: Global, blocks: &'a QueryBlocks) -> Result<QueryLinks<'a>, NoMemory>
        ensures query { IfOk result (λ links. query_of links ≡ scope_of blocks.now) }
        ensures tabled { IfOk result IsTabled }
    {
        let judge = Inclusions::of(alloc, blocks)?;
        Ok(QueryLinks { judge, blocks })
    }
}

impl Drop for QueryLinks<'_> {
    fn drop(self) {
        let QueryLinks {
            judge: _judge,
            blocks: _blocks,
        } = self;
    }
}

impl LinkAnswers for QueryLinks<'_> {
    ghost use Rattle.command_lint.specs.Links.{query_of, IsTabled};

    ghost query = { query_of };

    ghost Own = { IsTabled };

    fn may_carry(&self, alloc: Global, link: &ArcLink, label: &Str) -> Result<bool, NoMemory> {
        let label = AskedLabel::new(alloc, label)?;
        let version = self.blocks.version;
        let may = may_carry(
            &self.judge,
            version,
            link.function,
            &label,
            link.chain,
            link.link,
        );
        Ok(may)
    }
}
