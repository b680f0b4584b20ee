//! The items of the four clauses.

ghost use Rattle.struql_ast.specs.Written as tree;
ghost use Rattle.struql_text.specs.Reading.{read_condition, read_term, read_link, read_collect};
ghost use Rattle.struql_parse.specs.Keeping.{condition_keeps, term_keeps, link_keeps, collect_keeps};

use crate::listed::Listed;
use sd_lex::Token;
use std::alloc::Global;
use struql_ast::{Collect, Condition, Link, SkolemTerm};
use struql_text::{collect_at, condition_at, link_at, term_at};
use token_reader::Halt;

impl Listed for Condition {
    ghost Written = { tree.Condition };

    ghost written = { tree.condition_written };

    ghost read = { read_condition };

    fn item_at(
        alloc: Global,
        version: u8,
        tokens: &[Token],
    ) -> Result<(Condition, &[Token]), Halt<Token>> {
        condition_at(alloc, version, tokens)
    }

    ghost keeps = { condition_keeps };
}

impl Listed for SkolemTerm {
    ghost Written = { tree.Term };

    ghost written = { tree.term_written };

    ghost read = { read_term };

    fn item_at(
        alloc: Global,
        version: u8,
        tokens: &[Token],
    ) -> Result<(SkolemTerm, &[Token]), Halt<Token>> {
        term_at(alloc, version, tokens)
    }

    ghost keeps = { term_keeps };
}

impl Listed for Link {
    ghost Written = { tree.Link };

    ghost written = { tree.link_written };

    ghost read = { read_link };

    fn item_at(
        alloc: Global,
        version: u8,
        tokens: &[Token],
    ) -> Result<(Link, &[Token]), Halt<Token>> {
        link_at(alloc, version, tokens)
    }

    ghost keeps = { link_keeps };
}

impl Listed for Collect {
    ghost Written = { tree.Collect };

    ghost written = { tree.collect_written };

    ghost read = { read_collect };

    fn item_at(
        alloc: Global,
        version: u8,
        tokens: &[Token],
    ) -> Result<(Collect, &[Token]), Halt<Token>> {
        collect_at(alloc, version, tokens)
    }

    ghost keeps = { collect_keeps };
}
