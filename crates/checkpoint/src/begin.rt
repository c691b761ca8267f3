// Checkpoint begin: each disk's end is remembered, and no page is copied yet.
ghost use Rattle.std.specs.Prelude.{◌≡◌, true};
ghost use Rattle.model.specs.World.{world_of, World};
ghost use Rattle.model.specs.State.{serving_sound};
ghost use Rattle.model.specs.Checkpoint.{checkpoint_begin_task};
ghost use Rattle.model.specs.Call.{checkpoint_begin, Gives};

use crate::ends::ends_of;
use frame::checks::check_common;
use frame::refusal::Refusal;
use frame::settle::{finish, refuse};
use frame::stages::When;
use model::{Checkpoint, Core, Reply, Stage};
use table::room::LIMIT;

// The state with a checkpoint under way.
fn marked(core: Core) -> Core
    requires { serving_sound core ≡ true }
    ensures { (w : World) → result ≡ (checkpoint_begin_task core w).core }
{
    let ends = ends_of(core);
    Core {
        stage: Stage::Copying,
        checkpoint: Checkpoint { ends, copied: 0 },
        ..core
    }
}

pub fn begin(
    core: Core,
    anchor: &[u64],
    pages: &[u64],
    backups: &[u64],
    logs: &[u64],
    work: &[u64],
) -> Reply
    ensures { Gives checkpoint_begin core (world_of anchor.now pages.now backups.now logs.now work.now)
        result 0 (world_of anchor.now pages.now backups.now logs.now work.now) }
{
    if let Err(refusal) = check_common(When::Open, core, anchor, pages, backups, logs, work) {
        return refuse(core, refusal);
    }
    if core.epoch >= LIMIT {
        return refuse(core, Refusal::Spent);
    }
    finish(marked(core), 0)
}
