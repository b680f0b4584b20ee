// A checked query and its blocks, which are made once.
ghost use Rattle.std.specs.Prelude.{◌≡◌, IfOk};
ghost use Rattle.struql_ast.specs.Reading.{query_of};
ghost use Rattle.struql_ast.specs.Written.{query_written};
ghost use Rattle.struql_check.specs.Faults.{IsFaultless};
ghost use Rattle.struql_check.specs.Parsed.{IsParsed};
ghost use Rattle.site_spec.specs.Site.{scope_of as scope_of_query};
ghost use Rattle.query_blocks.specs.Blocks.{scope_of, AreCheckedBlocks};

use crate::scopes;
use query_blocks::QueryBlocks;
use sd_value::NoMemory;
use std::alloc::Global;
use std::marker::Model;
use struql_ast::Query;
use struql_check::Checked;

/// A checked query, for those who ask both for its text and for its blocks.
pub struct ScopedQuery {
    checked: Checked,
    blocks: QueryBlocks,
}

// Written out, so that it is proved here once, and not again in each crate that drops one.
impl Drop for ScopedQuery {
    fn drop(self) {
        let ScopedQuery {
            checked: _checked,
            blocks: _blocks,
        } = self;
    }
}

impl Model for ScopedQuery {
    ghost use Rattle.query_spec.specs.Query.{Query as PlainQuery};
    ghost use Rattle.query_spec.specs.Codes.{query_code};

    ghost Value = { PlainQuery };

    ghost coded = { query_code };

    ghost use Rattle.std.specs.Prelude.{◌≡◌};
    ghost use Rattle.site_spec.specs.Site.{scope_of as scope_of_query};
    ghost use Rattle.query_blocks.specs.Blocks.{scope_of, AreCheckedBlocks};

    ghost view = { λ s. s.checked };

    ghost invariant = { λ s. (scope_of s.blocks ≡ scope_of_query s.checked)
        × AreCheckedBlocks s.blocks.version s.blocks.blocks.items };
}

impl ScopedQuery {
    /// The query with its blocks.
    /// # Errors
    /// Out of memory.
    pub fn of(alloc: Global, checked: Checked) -> Result<ScopedQuery, NoMemory>
        ensures { IfOk result (λ query. query ≡ checked) }
    {
        let blocks = scopes(alloc, &checked)?;
        Ok(ScopedQuery { checked, blocks })
    }

    /// The query, which has no fault.
    pub fn query(&self) -> &Query
        ensures same { query_of result.now ≡ self.now }
        ensures faultless { IsFaultless (query_written result.now) }
        ensures parsed { IsParsed (query_of result.now) }
    {
        self.checked.query()
    }

    /// The blocks of the query in the text's order.
    pub fn blocks(&self) -> &QueryBlocks
        ensures scope { scope_of result.now ≡ scope_of_query self.now }
        ensures scoped { AreCheckedBlocks result.now.version result.now.blocks.items }
    {
        &self.blocks
    }
}
