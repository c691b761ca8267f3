// New, opened and replaying states, written out field by field.
ghost use Rattle.std.specs.Prelude.{◌≡◌};
ghost use Rattle.model.specs.Classes.{no_classes};
ghost use Rattle.model.specs.State.{bases_of, no_table, no_checkpoint, no_replay, empty_logs, new_core, open_core, replaying_core};

use model::{Bases, Checkpoint, Classes, Core, Logs, Replay, Sizes, Stage, Table};

fn no_table() -> Table
    ensures { result ≡ no_table }
{
    Table {
        numbers: [0u64; 16],
        disks: [0u64; 16],
        firsts: [0u64; 16],
        reserved: [0u64; 16],
        sums: [0u64; 8],
    }
}

pub fn no_checkpoint() -> Checkpoint
    ensures { result ≡ no_checkpoint }
{
    Checkpoint {
        ends: [0u64; 8],
        copied: 0,
    }
}

fn no_replay() -> Replay
    ensures { result ≡ no_replay }
{
    Replay {
        positions: [0u64; 8],
        page: 0,
    }
}

pub fn no_classes() -> Classes
    ensures { result ≡ no_classes }
{
    Classes {
        lows: [0u8; 16],
        highs: [0u8; 16],
        sets: [0u8; 16],
    }
}

// Logs that start at their tails, with nothing buffered.
fn empty_logs(tails: [u64; 8]) -> Logs
    ensures { result ≡ empty_logs tails }
{
    Logs {
        starts: tails,
        tails,
        fills: [0u64; 8],
    }
}

// A new state; also what a cut call hands back.
pub fn new_core() -> Core
    ensures { result ≡ new_core }
{
    let sizes = Sizes {
        pages: 0,
        disks: 0,
        ring: 0,
        slots: [0u8; 64],
        widths: [0u8; 64],
    };
    let bases = Bases {
        pages: [0u16; 64],
        total: 0,
    };
    Core {
        stage: Stage::Shut,
        sizes,
        bases,
        epoch: 0,
        logs: empty_logs([0u64; 8]),
        table: no_table(),
        next: 0,
        checkpoint: no_checkpoint(),
        replay: no_replay(),
        classes: no_classes(),
    }
}

// An open state with no transaction, as format and restart end leave it.
pub fn open_core(sizes: Sizes, bases: Bases, epoch: u64, tails: [u64; 8]) -> Core
    requires { bases ≡ bases_of sizes }
    ensures { result ≡ open_core sizes epoch tails }
{
    Core {
        stage: Stage::Open,
        sizes,
        bases,
        epoch,
        logs: empty_logs(tails),
        table: no_table(),
        next: 1,
        checkpoint: no_checkpoint(),
        replay: no_replay(),
        classes: no_classes(),
    }
}

// The state that a restart begin leaves: every log at its start, the backup at its first page.
pub fn replaying_core(
    sizes: Sizes,
    bases: Bases,
    epoch: u64,
    starts: [u64; 8],
    tails: [u64; 8],
) -> Core
    requires { bases ≡ bases_of sizes }
    ensures { result ≡ replaying_core sizes epoch starts tails }
{
    Core {
        stage: Stage::Replaying,
        sizes,
        bases,
        epoch,
        logs: Logs {
            starts,
            tails,
            fills: [0u64; 8],
        },
        table: no_table(),
        next: 0,
        checkpoint: no_checkpoint(),
        replay: Replay {
            positions: starts,
            page: 0,
        },
        classes: no_classes(),
    }
}
