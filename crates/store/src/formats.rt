// Format.
ghost use Rattle.std.specs.Prelude.{◌≡◌, true};
ghost use Rattle.model.specs.World.{world_of};
ghost use Rattle.model.specs.State.{sound};
ghost use Rattle.model.specs.Call.{format};
ghost use Rattle.model.specs.View.{core_of, Serves};
ghost use Rattle.store.specs.Handed.{handed_of};

use crate::whole::{kept, loaded};
use crate::{Called, State};
use head::own::body_start;
use layout::anchor::RawSizes;

// The sizes come by value: P, D and W, the slots in each page, the words in each slot of that page.
pub fn format(
    state: State,
    pages_count: u64,
    disks: u64,
    ring: u64,
    slots: [u64; 64],
    widths: [u64; 64],
    anchor: &mut [u64],
    pages: &mut [u64],
    backups: &mut [u64],
    logs: &mut [u64],
    work: &mut [u64],
    budget: &mut u64,
) -> Called
    ensures serves { Serves (format (record { pages = pages_count; disks = disks; ring = ring; slots = slots; widths = widths }) budget.old)
        state.carried (world_of anchor.old pages.old backups.old logs.old work.old) (handed_of result) budget.new (world_of anchor.new pages.new backups.new logs.new work.new) }
    ensures work_value { sound (core_of state.carried work.old) ≡ true → sound (core_of result.state.carried work.new) ≡ true }
{
    let core = loaded(state, work);
    let from = body_start(work.len());
    let raw = RawSizes {
        pages: pages_count,
        disks,
        ring,
        slots,
        widths,
    };
    let reply = format::format::format(
        core,
        raw,
        anchor,
        pages,
        backups,
        logs,
        &mut work[from..],
        budget,
    );
    kept(reply, work)
}
