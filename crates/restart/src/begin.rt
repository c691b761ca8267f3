// Restart begin: all checks of the devices, then zeroed pages and a replaying state.
ghost use Rattle.std.specs.Prelude.{◌≡◌, List, true, ℕ, length};
ghost use Rattle.model.specs.Sizes.{total, log_words, sizes_in_bounds};
ghost use Rattle.model.specs.Anchor.{anchor_words, sizes_on};
ghost use Rattle.model.specs.State.{bases_of};
ghost use Rattle.model.specs.World.{world_of};
ghost use Rattle.model.specs.Call.{Gives, restart_begin};
ghost use Rattle.restart.specs.Begin.{BeginsOn};

use frame::refusal::Refusal;
use frame::settle::{finish, refuse, refuse_at};
use frame::stages::is_shut;
use frame::states::replaying_core;
use layout::anchor::EPOCH_WORD;
use layout::bases::bases_of;
use layout::bounds::lengths_right;
use model::{Bases, Core, Reply, Sizes};
use replay::image::{anchor_sizes, check_anchor, check_logs, current_starts, tails_on};
use table::room::LIMIT;
use words::fill_words;

// Rows 6, 7 and 13, and what begin does when none applies.
fn begin_on(
    core: Core,
    sizes: Sizes,
    bases: Bases,
    anchor: &[u64],
    pages: &mut [u64],
    logs: &[u64],
) -> Reply
    requires { (sizes ≡ sizes_on anchor.now) × (sizes_in_bounds sizes ≡ true) × (length anchor.now ≡ anchor_words) × (length pages.old ≡ total sizes) × (length logs.now ≡ log_words sizes) × (bases ≡ bases_of sizes) }
    ensures { (backups work : List ℕ) → BeginsOn core (world_of anchor.now pages.old backups logs.now work) result (world_of anchor.now pages.new backups logs.now work) }
{
    let starts = current_starts(sizes.disks, anchor);
    let tails = tails_on(sizes, logs);
    if let Err(away) = check_logs(sizes, starts, tails, logs) {
        return refuse_at(core, away.refusal, away.first, away.second);
    }
    let epoch = anchor[EPOCH_WORD];
    if epoch >= LIMIT {
        return refuse(core, Refusal::Spent);
    }
    let words = bases.total as usize;
    fill_words(pages, 0, words, 0);
    finish(replaying_core(sizes, bases, epoch, starts, tails), 0)
}

// Rows 1 to 5 come first. A shut state needs no test of its own.
pub fn begin(
    core: Core,
    anchor: &[u64],
    pages: &mut [u64],
    backups: &[u64],
    logs: &[u64],
    work: &[u64],
) -> Reply
    ensures { Gives restart_begin core (world_of anchor.now pages.old backups.now logs.now work.now)
        result 0 (world_of anchor.now pages.new backups.now logs.now work.now) }
{
    if !is_shut(core.stage) {
        return refuse(core, Refusal::Stage);
    }
    if let Err(refusal) = check_anchor(anchor) {
        return refuse(core, refusal);
    }
    let sizes = anchor_sizes(anchor);
    let bases = bases_of(sizes);
    if !lengths_right(
        sizes.disks,
        sizes.ring,
        bases.total,
        pages.len(),
        backups.len(),
        logs.len(),
        work.len(),
    ) {
        return refuse(core, Refusal::Length);
    }
    begin_on(core, sizes, bases, anchor, pages, logs)
}
