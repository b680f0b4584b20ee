// The links under a row.
ghost use Rattle.std.specs.Prelude.{◌≡◌, Some, IfOk, OnOk, MatchOption};
ghost use Rattle.sd_value.specs.declared.Term.{Term as AnyTerm};
ghost use Rattle.sd_value.specs.declared.Value.TheVariants.{Page};
ghost use Rattle.graph_spec.specs.DataGraph.{Name, text};
ghost use Rattle.query_spec.specs.Rows.{value_in};
ghost use Rattle.struql_ast.specs.Reading.{target_of, label_of, link_of};
ghost use Rattle.site_spec.specs.Site.{IsTargetUnder, IsLabelUnder, ended};
ghost use Rattle.site_build.specs.declared.ordered.Joined.{Joined as AnyJoined};
ghost use Rattle.site_build.specs.Gains.{Gains};
ghost use Rattle.site_build.specs.Materialised.{IsJoin};

use crate::made::{Clause, insert_one};
use crate::ordered::Joined;
use crate::repeats::link_width;
use indexmap::IndexSet;
use query_spec::Variable;
use sd_value::{Datum, NoMemory, Str, Term, Value};
use site_lookups::target_under;
use skolem::value_of;
use std::alloc::Global;
use struql_ast::{Link, LinkLabel, Target};

// The text that a row gives a variable, if it gives one.
fn text_of<'a>(variables: &[Variable], row: &'a [Value], name: &Str) -> Option<&'a Str>
    ensures { MatchOption result
        ((l : Name) → value_in variables.now row.now name.now ≡ Some (text l) → ⊥)
        (λ l. value_in variables.now row.now name.now ≡ Some (text l.now)) }
{
    let Some(value) = value_of(variables, row, name) else {
        return None;
    };
    let Value::Data(datum) = value else {
        return None;
    };
    match datum {
        Datum::Text(text) => Some(text),
        _ => None,
    }
}

// The link's label under the row, if it has one there.
fn label_under(
    alloc: Global,
    variables: &[Variable],
    row: &[Value],
    written: &LinkLabel,
) -> Result<Option<Str>, NoMemory>
    ensures { IfOk result
        (λ o. MatchOption o
        ((l : Name) → IsLabelUnder (value_in variables.now row.now) (label_of written.now) l → ⊥)
        (λ l. IsLabelUnder (value_in variables.now row.now) (label_of written.now) l)) }
{
    match written {
        LinkLabel::Quoted(name) => Ok(Some(name.copy(alloc)?)),
        LinkLabel::Variable(name, _) => {
            let Some(label) = text_of(variables, row, name) else {
                return Ok(None);
            };
            Ok(Some(label.copy(alloc)?))
        }
    }
}

// The page that the target is under the row, if it is one.
fn page_under(
    alloc: Global,
    variables: &[Variable],
    row: &[Value],
    target: &Target,
) -> Result<Option<Term>, NoMemory>
    ensures { IfOk result
        (λ o. MatchOption o
        ((p : AnyTerm)
        → IsTargetUnder (value_in variables.now row.now) (target_of target.now) (Page p) → ⊥)
        (λ p. IsTargetUnder (value_in variables.now row.now) (target_of target.now) (Page p))) }
{
    let Some(value) = target_under(alloc, variables, row, target)? else {
        return Ok(None);
    };
    Ok(value.into_page())
}

// What the link, ending at the target, joins under the row, if it joins something.
fn join_under(
    alloc: Global,
    variables: &[Variable],
    row: &[Value],
    link: &Link,
    target: &Target,
) -> Result<Option<Joined>, NoMemory>
    ensures { IfOk result
        (λ o. MatchOption o
        ((j : AnyJoined) → IsJoin (ended (link_of link.now) (target_of target.now))
        (value_in variables.now row.now) j → ⊥)
        (λ j. IsJoin (ended (link_of link.now) (target_of target.now))
        (value_in variables.now row.now) j)) }
{
    let Some(from) = page_under(alloc, variables, row, &link.source)? else {
        return Ok(None);
    };
    let Some(label) = label_under(alloc, variables, row, &link.label)? else {
        return Ok(None);
    };
    let Some(to) = target_under(alloc, variables, row, target)? else {
        return Ok(None);
    };
    Ok(Some(Joined { from, label, to }))
}

fn add_join(
    alloc: Global,
    variables: &[Variable],
    row: &[Value],
    link: &Link,
    target: &Target,
    made: &mut IndexSet<Joined>,
) -> Result<(), NoMemory>
    ensures { OnOk result
        (Gains (IsJoin (ended (link_of link.now) (target_of target.now))
        (value_in variables.now row.now)) made.old.keys made.new.keys) }
{
    let one = join_under(alloc, variables, row, link, target)?;
    insert_one(made, one)?;
    Ok(())
}

impl Clause<Joined> for Link {
    ghost makes = { λ k s j. IsJoin (link_of k) s j };

    fn width(&self, variables: &[Variable]) -> usize {
        link_width(variables, self, &self.target)
    }

    fn add(
        &self,
        alloc: Global,
        variables: &[Variable],
        row: &[Value],
        made: &mut IndexSet<Joined>,
    ) -> Result<(), NoMemory> {
        add_join(alloc, variables, row, self, &self.target, made)
    }
}

/// A link with another end than its own.
#[derive(Debug, Drop)]
pub(crate) struct Ended<'a, 'b> {
    pub link: &'a Link,
    pub target: &'b Target,
}

impl<'a, 'b> Clause<Joined> for Ended<'a, 'b> {
    ghost makes = { λ e s j. IsJoin (ended (link_of e.link.now) (target_of e.target.now)) s j };

    fn width(&self, variables: &[Variable]) -> usize {
        link_width(variables, self.link, self.target)
    }

    fn add(
        &self,
        alloc: Global,
        variables: &[Variable],
        row: &[Value],
        made: &mut IndexSet<Joined>,
    ) -> Result<(), NoMemory> {
        add_join(alloc, variables, row, self.link, self.target, made)
    }
}
