// How much a search may try.

ghost use Rattle.std.specs.Prelude.{◌≡◌, IfOk};
ghost use Rattle.constraint_recheck.specs.Search.{search_budget};
ghost use Rattle.certificate_search.specs.Budget.{Spends, IsUnlessTooLong};

use sd_value::NoMemory;
use std::alloc::AllocFailed;

const SEARCH_BUDGET: usize = 100_000;

/// Why a search stops before its end.
#[derive(Clone, Copy)]
pub enum SearchStop {
    /// More is to be tried than the budget.
    TooLong,
    /// Out of memory.
    NoMemory,
}

impl From<NoMemory> for SearchStop {
    ghost use Rattle.std.specs.Prelude.{◌≡◌};
    ghost use Rattle.certificate_search.specs.declared.budget.SearchStop.TheVariants as stop;

    ghost from_gives = { λ _ e. e ≡ stop.NoMemory };

    fn from(_: NoMemory) -> Self {
        SearchStop::NoMemory
    }
}

impl<T: Drop> From<AllocFailed<T>> for SearchStop {
    ghost use Rattle.std.specs.Prelude.{◌≡◌};
    ghost use Rattle.certificate_search.specs.declared.budget.SearchStop.TheVariants as stop;

    ghost from_gives = { λ _ e. e ≡ stop.NoMemory };

    fn from(_: AllocFailed<T>) -> Self {
        SearchStop::NoMemory
    }
}

/// What a search may try.
pub fn whole_budget() -> usize
    ensures { result ≡ search_budget }
{
    SEARCH_BUDGET
}

/// Takes one from what is left of the budget.
pub fn spend(left: &mut usize) -> Result<(), SearchStop>
    ensures { Spends 1 left.old left.new result }
{
    if *left == 0 {
        return Err(SearchStop::TooLong);
    }
    *left -= 1;
    Ok(())
}

/// What was found, and nothing if the search was too long.
pub fn unless_too_long<T>(found: Result<Option<T>, SearchStop>) -> Result<Option<T>, NoMemory>
    ensures { IfOk result (IsUnlessTooLong found) }
{
    match found {
        Ok(found) => Ok(found),
        Err(SearchStop::TooLong) => Ok(None),
        Err(SearchStop::NoMemory) => Err(NoMemory),
    }
}
