// hall: a store of two pages of four one-word slots on two disks, driven by lines of standard input.
#![tactic(auto)]

mod console;
mod output;
mod serving;

ghost use Rattle.std.specs.Prelude.{◌≡◌, ◌≤◌, [], length};
ghost use Rattle.model.specs.World.{world_of};
ghost use Rattle.model.specs.View.{core_of, body_of};
ghost use Rattle.hall.specs.Running.{formatting, started};
ghost use Rattle.hall.specs.Held.{Stands};

use console::Console;
use lines::partial::start;
use lines::tally::Tally;
use output::add;
use serving::{answer_input, flush};
use store::State;

// A formatted store.
fn formatted(
    anchor: &mut [u64],
    pages: &mut [u64],
    backups: &mut [u64],
    logs: &mut [u64],
    work: &mut [u64],
) -> State
    ensures work_value { core_of result.carried work.new ≡ (formatting (body_of (world_of anchor.old pages.old backups.old logs.old work.old))).core }
    ensures work_value_2 { body_of (world_of anchor.new pages.new backups.new logs.new work.new)
        ≡ (formatting (body_of (world_of anchor.old pages.old backups.old logs.old work.old))).world }
{
    let mut slots = [0u64; 64];
    let mut widths = [0u64; 64];
    slots[0] = 4;
    slots[1] = 4;
    widths[0] = 1;
    widths[1] = 1;
    let mut budget = u64::MAX;
    let called = store::formats::format(
        store::new_state(),
        2,
        2,
        128,
        slots,
        widths,
        anchor,
        pages,
        backups,
        logs,
        work,
        &mut budget,
    );
    called.state
}

// The console before the first line, with the heading in the buffer.
fn opened(
    anchor: &mut [u64],
    pages: &mut [u64],
    backups: &mut [u64],
    logs: &mut [u64],
    work: &mut [u64],
    out: &mut [u8],
) -> Console
    requires { 84 ≤ length out.old }
    ensures fill_in_bounds { result.fill ≤ length out.old }
    ensures stands { Stands result (world_of anchor.new pages.new backups.new logs.new work.new) out.new
        [] (started (body_of (world_of anchor.old pages.old backups.old logs.old work.old))) }
{
    let state = formatted(anchor, pages, backups, logs, work);
    let fill = add(out, 0, b"line answer stores value\n");
    let tally = Tally {
        taken: 0,
        refused: 0,
        cut: 0,
    };
    Console {
        state,
        tally,
        line: 0,
        partial: start(),
        begun: false,
        fill,
    }
}

fn main(rt: HostRuntime) {
    let mut anchor = [0u64; 148];
    let mut pages = [0u64; 8];
    let mut backups = [0u64; 16];
    let mut logs = [0u64; 258];
    let mut work = [0u64; 481];
    let mut out = io::large_buffer();
    let console = opened(
        &mut anchor,
        &mut pages,
        &mut backups,
        &mut logs,
        &mut work,
        &mut out,
    );
    let flushed = flush(console, &out);
    let written = flushed.written;
    if !written {
        return;
    }
    let served = answer_input(
        &rt,
        flushed.console,
        &mut anchor,
        &mut pages,
        &mut backups,
        &mut logs,
        &mut work,
        &mut out,
    );
    let failed = served.failed;
    if failed {
        return;
    }
    flush(served.console, &out);
}
