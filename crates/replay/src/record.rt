// A record of a log at restart: whether it is XORed in, and the state after it.
ghost use Rattle.std.specs.Prelude.{◌≡◌, ◌<◌};
ghost use Rattle.model.specs.Restart.{replays, moved_to};
ghost use Rattle.replay.specs.Step.{finished};

use frame::settle::finish;
use model::{Core, Fate, Replay, Reply};

// A closed transaction's record not in the backup, or a loose one's record in it, is XORed in.
pub fn is_replayed(current: u64, fate: Fate, copy: u64) -> bool
    ensures { result ≡ replays current fate copy }
{
    let in_backup = copy < current;
    match fate {
        Fate::Closed => !in_backup,
        Fate::Unclosed => in_backup,
        Fate::Unreadable { .. } => false,
    }
}

// A step done: the log's next record stands at `next`.
pub fn move_on(core: Core, disk: u64, next: u64) -> Reply
    requires { disk < 8 }
    ensures { result ≡ finished (moved_to core disk next) }
{
    let replay = core.replay;
    let mut positions = replay.positions;
    positions[disk as usize] = next;
    let moved = Replay {
        positions,
        page: replay.page,
    };
    finish(
        Core {
            replay: moved,
            ..core
        },
        0,
    )
}
