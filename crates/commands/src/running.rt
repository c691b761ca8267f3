// A command, run.
ghost use Rattle.std.specs.Prelude.{◌≡◌};
ghost use Rattle.model.specs.World.{world_of};
ghost use Rattle.model.specs.View.{core_of, body_of};
ghost use Rattle.commands.specs.Meaning.{Runs, line_seen, line_of};

use crate::checkpoints::{run_close, run_copy, run_mark};
use crate::outcome::Done;
use crate::restarts::run_restart;
use crate::transactions::{Seen, run_abort, run_begin, run_commit, run_get, run_set};
use lines::command::Command;
use store::State;

fn run_command(
    command: Command,
    state: State,
    anchor: &mut [u64],
    pages: &mut [u64],
    backups: &mut [u64],
    logs: &mut [u64],
    work: &mut [u64],
) -> Done
    ensures { Runs command state.carried (world_of anchor.old pages.old backups.old logs.old work.old)
        result (world_of anchor.new pages.new backups.new logs.new work.new) }
{
    match command {
        Command::Begin => run_begin(state, anchor, pages, backups, logs, work),
        Command::Set {
            number,
            page,
            slot,
            value,
        } => {
            let seen = Seen { number, page, slot };
            run_set(state, seen, value, anchor, pages, backups, logs, work)
        }
        Command::Commit { number, allowance } => {
            run_commit(state, number, allowance, anchor, pages, backups, logs, work)
        }
        Command::Abort { number } => run_abort(state, number, anchor, pages, backups, logs, work),
        Command::Get { page, slot } => {
            run_get(state, page, slot, anchor, pages, backups, logs, work)
        }
        Command::Mark => run_mark(state, anchor, pages, backups, logs, work),
        Command::Copy => run_copy(state, anchor, pages, backups, logs, work),
        Command::Close => run_close(state, anchor, pages, backups, logs, work),
        Command::Restart => run_restart(state, anchor, pages, backups, logs, work),
    }
}

// The line of a command; a line of any other form has none, and makes no call.
pub fn run(
    command: Option<Command>,
    state: State,
    anchor: &mut [u64],
    pages: &mut [u64],
    backups: &mut [u64],
    logs: &mut [u64],
    work: &mut [u64],
) -> Done
    ensures { line_seen result.outcome result.state.carried (world_of anchor.new pages.new backups.new logs.new work.new)
        ≡ line_of command (core_of state.carried work.old) (body_of (world_of anchor.old pages.old backups.old logs.old work.old)) }
{
    match command {
        Some(command) => run_command(command, state, anchor, pages, backups, logs, work),
        None => Done {
            outcome: None,
            state,
        },
    }
}
