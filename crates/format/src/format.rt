// The call format.
ghost use Rattle.model.specs.World.{world_of};
ghost use Rattle.model.specs.Call.{format, Gives};
ghost use Rattle.layout.specs.Raw.{sizes_of};

use crate::devices::store_devices;
use crate::memory::make_fresh;
use frame::refusal::Refusal;
use frame::settle::{refuse, settle};
use frame::stages::is_shut;
use frame::states::open_core;
use layout::anchor::{ANCHOR_WORDS, RawSizes};
use layout::bases::bases_of;
use layout::bounds::{in_bounds, lengths_right, narrow};
use model::{Core, Reply};

// The checks, then the stores, and the memory once all of them are made.
pub fn format(
    core: Core,
    raw: RawSizes,
    anchor: &mut [u64],
    pages: &mut [u64],
    backups: &mut [u64],
    logs: &mut [u64],
    work: &mut [u64],
    budget: &mut u64,
) -> Reply
    ensures { Gives (format (sizes_of raw) budget.old) core (world_of anchor.old pages.old backups.old logs.old work.old)
        result budget.new (world_of anchor.new pages.new backups.new logs.new work.new) }
{
    if !is_shut(core.stage) {
        return refuse(core, Refusal::Stage);
    }
    if anchor.len() != ANCHOR_WORDS {
        return refuse(core, Refusal::AnchorLength);
    }
    if !in_bounds(raw) {
        return refuse(core, Refusal::Sizes);
    }
    let sizes = narrow(raw);
    let bases = bases_of(sizes);
    let words = bases.total;
    if !lengths_right(
        sizes.disks,
        sizes.ring,
        words,
        pages.len(),
        backups.len(),
        logs.len(),
        work.len(),
    ) {
        return refuse(core, Refusal::Length);
    }
    let before = *budget;
    let next = open_core(sizes, bases, 1, [0u64; 8]);
    if !store_devices(sizes, words, raw, anchor, backups, logs, budget) {
        return settle(false, before, *budget, 0, next);
    }
    make_fresh(sizes, words, pages, work);
    settle(true, before, *budget, 0, next)
}
