// The checks that every call but format and restart begin makes first: its stage with its test of the state, the anchor's length, the
// other lengths.
ghost use Rattle.std.specs.Prelude.{◌≡◌};
ghost use Rattle.model.specs.World.{world_of};
ghost use Rattle.model.specs.State.{serving_sound, replay_sound, sound};
ghost use Rattle.frame.specs.Checks.{anchor_refusal, allowed_in, CommonRefusal};
ghost use Rattle.frame.specs.Refusal.{row_in};

use crate::fits::counts_fit;
use crate::refusal::Refusal;
use crate::stages::{When, is_allowed, is_open, is_replaying, is_shut};
use layout::anchor::ANCHOR_WORDS;
use layout::bases::bases_right;
use layout::bounds::{lengths_right, sizes_in_bounds};
use model::Core;
use table::sound::{checkpoint_bounds, replay_bounds, serving_bounds};

fn serving_sound(core: Core) -> bool
    ensures { result ≡ serving_sound core }
{
    if !sizes_in_bounds(core.sizes) {
        return false;
    }
    if !bases_right(core.sizes, core.bases) {
        return false;
    }
    if core.next == 0 {
        return false;
    }
    serving_bounds(core)
}

fn replay_sound(core: Core) -> bool
    ensures { result ≡ replay_sound core }
{
    if !sizes_in_bounds(core.sizes) {
        return false;
    }
    if !bases_right(core.sizes, core.bases) {
        return false;
    }
    replay_bounds(core)
}

// A state that a call made. The test that all serving stages share stands once, so that it is not copied for each.
fn is_sound(core: Core) -> bool
    ensures { result ≡ sound core }
{
    let stage = core.stage;
    if is_shut(stage) {
        return true;
    }
    if is_replaying(stage) {
        return replay_sound(core);
    }
    if !serving_sound(core) {
        return false;
    }
    if is_open(stage) {
        return true;
    }
    checkpoint_bounds(core)
}

// The anchor's length is asked before what is found otherwise.
fn check_anchor(anchor: usize, otherwise: Result<(), Refusal>) -> Result<(), Refusal>
    ensures { row_in result ≡ anchor_refusal anchor (row_in otherwise) }
{
    if anchor == ANCHOR_WORDS {
        otherwise
    } else {
        Err(Refusal::AnchorLength)
    }
}

// The first lines of a call that tests the whole state: the first of rows 1, 2 and 5 that applies. The
// state is tested only where the lengths are right: else one of them refuses.
pub fn check_common(
    when: When,
    core: Core,
    anchor: &[u64],
    pages: &[u64],
    backups: &[u64],
    logs: &[u64],
    work: &[u64],
) -> Result<(), Refusal>
    ensures { CommonRefusal (allowed_in when) core (world_of anchor.now pages.now backups.now logs.now work.now) (row_in result) }
{
    let stage = core.stage;
    if !is_allowed(when, stage) {
        return Err(Refusal::Stage);
    }
    let disks = core.sizes.disks;
    let ring = core.sizes.ring;
    let total = core.bases.total;
    if !counts_fit(core.sizes.pages, disks, ring, total) {
        return Err(Refusal::Stage);
    }
    if !lengths_right(
        disks,
        ring,
        total,
        pages.len(),
        backups.len(),
        logs.len(),
        work.len(),
    ) {
        return check_anchor(anchor.len(), Err(Refusal::Length));
    }
    if !is_sound(core) {
        return Err(Refusal::Stage);
    }
    check_anchor(anchor.len(), Ok(()))
}
