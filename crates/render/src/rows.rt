// Values with the places by which they are put in order, and the first of them.
ghost use Rattle.std.specs.Prelude.{◌≡◌, List, [], ◌∷◌, ◌++◌, Contains, IfOk, refl};
ghost use Rattle.std.specs.Ordering.{eq_by_cmp, as_partial_cmp};
ghost use Rattle.std.specs.Cmp.{partial_equiv_from_equiv, eq_by_cmp_equiv};
ghost use Rattle.std.specs.Cmp.{partial_order_from_agreeing_total};
ghost use Rattle.std.specs.Cmp.Lexicographic.{slice_cmp};
ghost use Rattle.sd_value.specs.Ascending.{ListsExactly};
ghost use Rattle.page_spec.specs.declared.Keyed.{Keyed};
ghost use Rattle.page_spec.specs.Site.{place_cmp, row_cmp};
ghost use Rattle.page_spec.specs.KeyLaws.{row_cmp_total, row_same};
ghost use Rattle.render.specs.Rows.{first_rows, HasFirstOf};

use page_spec::Place;
use sd_value::{ExactOrd, NoMemory, Value, sort_and_dedup};
use std::cmp::Ordering;
use std::marker::Model;

/// A value and the places by which it is put in order. The first place is held here, since most orders have one, and
/// most rows differ in it.
#[derive(Drop)]
pub(crate) struct Row {
    pub place: Place,
    pub more: Vec<Place>,
    pub value: Value,
}

impl Model for Row {
    ghost use Rattle.std.specs.Prelude.{◌∷◌};
    ghost use Rattle.page_spec.specs.declared.Keyed.{Keyed};

    ghost Value = { Keyed };

    ghost view = { λ r. record { places = r.place ∷ r.more.items; value = r.value } };
}

impl PartialEq for Row {
    ghost eq = { eq_by_cmp row_cmp };

    ghost laws = { partial_equiv_from_equiv (eq_by_cmp_equiv row_cmp_total) };

    fn eq(&self, other: &Row) -> bool {
        self.cmp(other).is_eq()
    }
}

impl Eq for Row {
    ghost laws = { eq_by_cmp_equiv row_cmp_total };
}

impl PartialOrd for Row {
    ghost partial_cmp = { as_partial_cmp row_cmp };

    ghost laws = { partial_order_from_agreeing_total row_cmp row_cmp_total (λ a b. refl)
        (λ a b. refl) };

    fn partial_cmp(&self, other: &Row) -> Option<Ordering> {
        Some(self.cmp(other))
    }
}

impl Ord for Row {
    ghost cmp = { row_cmp };

    ghost total = { row_cmp_total };

    ghost matches_partial_cmp = { λ a b. refl };

    ghost matches_eq = { λ a b. refl };

    fn cmp(&self, other: &Row) -> Ordering {
        match self.compare_places(other) {
            Ordering::Less => Ordering::Less,
            Ordering::Equal => self.value.cmp(&other.value),
            Ordering::Greater => Ordering::Greater,
        }
    }
}

impl ExactOrd for Row {
    ghost exact = { row_same };
}

impl Row {
    fn compare_places(&self, other: &Row) -> Ordering
        ensures { result ≡ slice_cmp place_cmp self.now.places other.now.places }
    {
        match self.place.cmp(&other.place) {
            Ordering::Less => Ordering::Less,
            Ordering::Equal => self.more.as_slice().cmp(other.more.as_slice()),
            Ordering::Greater => Ordering::Greater,
        }
    }
}

/// Puts a row after the others, of which those that can't be among the first go from time to time.
pub(crate) fn add_row(rows: &mut Vec<Row>, row: Row, limit: Option<usize>) -> Result<(), NoMemory>
    ensures { IfOk result (λ _. (seen : List Keyed) → HasFirstOf limit seen rows.old.items
        → HasFirstOf limit (seen ++ row ∷ []) rows.new.items) }
{
    rows.push(row)?;
    if is_crowded(rows.len(), limit) {
        keep_first(rows, limit);
    }
    Ok(())
}

// Whether so many rows are several times as many as are kept.
fn is_crowded(count: usize, limit: Option<usize>) -> bool {
    match limit {
        None => false,
        Some(limit) => count / 8 > limit,
    }
}

/// Keeps the first rows, in order, up to the limit.
pub(crate) fn keep_first(rows: &mut Vec<Row>, limit: Option<usize>)
    ensures { (sorted : List Keyed) → ListsExactly row_cmp (Contains rows.old.items) sorted
        → rows.new.items ≡ first_rows limit sorted }
{
    sort_and_dedup(rows);
    if let Some(limit) = limit {
        rows.truncate(limit);
    }
}
