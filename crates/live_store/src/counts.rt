// Counts after one thing was put in or taken out.
ghost use Rattle.std.specs.Prelude.{◌≡◌, ◌≤◌, ◌<◌, ◌+◌, ◌-◌, ◌^◌, IsTrue};
ghost use Rattle.live_store.specs.Counts.{one_if};

/// A count after one thing was put in or taken out: whether it was there, and whether it is.
pub(crate) fn recount(count: u64, was: bool, is: bool) -> u64
    requires there { IsTrue was → 1 ≤ count }
    requires small { count < 2 ^ 40 }
    ensures { result ≡ count - one_if was + one_if is }
{
    let rest = if was { count - 1 } else { count };
    if is { rest + 1 } else { rest }
}
