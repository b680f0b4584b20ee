//! Serves pages of data that texts may change over any wire, within limits.
#![tactic(auto)]

ghost use Rattle.std.specs.Prelude.{◌≡◌, ◌<◌, ◌⊎◌, ℕ, List, [], length, Some, None, false, IfOk};
ghost use Rattle.std.specs.NonZero.{non_zero_usize_get};
ghost use Rattle.edge_io.specs.Counts.{Rose};
ghost use Rattle.page_spec.specs.Page.{IsOutcome};
ghost use Rattle.page_cache.specs.Entries.{AreSound};
ghost use Rattle.happenings.specs.declared.event.WireEvent.{WireEvent};
ghost use Rattle.hub.specs.HubState.{line_of};
ghost use Rattle.serving_spec.specs.Serving.{Serves};
ghost use Rattle.serve_run.specs.Steps.{HappensInSteps};

mod opened;
mod puts;
mod texts;

use hub::{Hub, serve};
pub use opened::opened_in;
use page_cache::Cached;
pub use puts::{put_anyway, put_end};
use sd_value::NoMemory;
pub use serving_spec::{CacheRoom, Origin, Served};
use serving_spec::{HubEnd, Tally};
use std::alloc::Global;
use std::num::NonZeroUsize;
pub use texts::{replay_text, tally_text};
use versions::Versions;
use wire::Wire;

/// The counts of a run before its first event.
pub const NO_TALLY: Tally = Tally {
    connections: 0,
    replies: 0,
    hits: 0,
    changes: 0,
    refused: 0,
};

/// Serves pages to the connections of a wire, at most `turns` events, and at most `requests` replies to each connection. The
/// run answers for the origin. There is this room for pages that are kept. It never calls `listen` and `watch`. Where the wire
/// reports the events that it will give, and there is a turn for each and one for `Done`, nothing but a fault of the wire or
/// out of memory ends the run before.
pub fn serve_pages<P: Versions + Drop, W: Wire>(
    alloc: Global,
    pages: P,
    origin: Origin,
    requests: u64,
    turns: u64,
    room: CacheRoom,
    wire: &mut W,
) -> Served
    requires own { P.Own pages }
    requires requests { 0 < requests }
    requires room { 0 < room.pages }
    ensures serves { Serves origin P.site P.templates
        (record { changed = P.changed; accepts = P.accepts; stays = P.stays }) (P.state pages)
        requests turns room (W.told wire.old) (W.told wire.new) result }
    // The hub's own steps give more for a run whose events are known. Nothing happens but the events, and what is sent and
    // closed for each before the next is asked for.
    ensures steps { HappensInSteps origin P.site P.templates
        (record { changed = P.changed; accepts = P.accepts; stays = P.stays }) (P.state pages)
        requests turns room (W.told wire.old) (W.told wire.new) result (W.trace wire.old)
        (W.trace wire.new) }
    ensures listens { (W.told wire.new).listens ≡ (W.told wire.old).listens }
    ensures watches { (W.told wire.new).watches ≡ (W.told wire.old).watches }
    ensures failed { result.end ≡ HubEnd.WireFailed
        → Rose (W.told wire.old).next_faults (W.told wire.new).next_faults }
    ensures whole { (events : List WireEvent) → (W.told wire.old).left ≡ Some events
        → length events < turns
        → (Rose (W.told wire.old).next_faults (W.told wire.new).next_faults → ⊥)
        → (result.end ≡ HubEnd.Done) ⊎ (result.end ≡ HubEnd.NoMemory) }
    ensures fine { (result.end ≡ HubEnd.Done) ⊎ (result.end ≡ HubEnd.TurnsSpent)
        → (W.told wire.new).next_faults ≡ (W.told wire.old).next_faults }
{
    let capacity = capacity_of(room.pages);
    match hub_over(alloc, pages, origin, requests, capacity, room.bytes) {
        Ok(mut hub) => {
            let end = serve(alloc, &mut hub, wire, turns);
            Served {
                end,
                tally: hub.tally(),
            }
        }
        Err(_) => Served {
            end: HubEnd::NoMemory,
            tally: NO_TALLY,
        },
    }
}

/// How many pages are kept: not none.
fn capacity_of(cache: u64) -> NonZeroUsize
    requires { 0 < cache }
    ensures { non_zero_usize_get result ≡ cache }
{
    match NonZeroUsize::new(cache as usize) {
        Some(capacity) => capacity,
        None => unreachable!(),
    }
}

/// A hub over the pages, of which some are kept.
fn hub_over<P: Versions + Drop>(
    alloc: Global,
    pages: P,
    origin: Origin,
    requests: u64,
    capacity: NonZeroUsize,
    bytes: u64,
) -> Result<Hub<Cached<P>>, NoMemory>
    requires own { P.Own pages }
    requires requests { 0 < requests }
    ensures own { IfOk result (λ hub. P.Own hub.pages.pages) }
    ensures sound { IfOk result (λ hub. AreSound
        (IsOutcome (P.site (P.state hub.pages.pages)) (P.templates (P.state hub.pages.pages)))
        hub.pages.kept.entries hub.pages.bytes hub.pages.most) }
    ensures pages { IfOk result (λ hub. hub.pages.pages ≡ pages) }
    ensures kept { IfOk result (λ hub. (hub.pages.kept.cap ≡ non_zero_usize_get capacity)
        × (hub.pages.most ≡ bytes) × (hub.pages.kept.entries ≡ [])
        × (hub.pages.hits ≡ 0)) }
    ensures none { IfOk result (λ hub. (number : ℕ) → line_of hub number ≡ None) }
    ensures new { IfOk result (λ hub. (hub.origin ≡ origin) × (hub.limit ≡ requests)
        × (hub.greatest ≡ None) × (hub.opened ≡ 0) × (hub.replies ≡ 0)
        × (hub.changes ≡ 0) × (hub.refused ≡ 0)) }
    ensures alive { IfOk result (λ hub. hub.spent ≡ false) }
{
    let kept = Cached::of(alloc, pages, capacity, bytes)?;
    Ok(Hub::of(alloc, kept, requests, origin))
}
