// What the program keeps from line to line.
ghost use Rattle.std.specs.Prelude.{◌≡◌, ℕ, ◌+◌, ◌*◌, ◌-◌, ◌≤◌, ◌<◌, List, length, drop};
ghost use Rattle.model.specs.World.{world_of};
ghost use Rattle.hall.specs.Running.{Program, answer_of, line_taken, fed, ended};
ghost use Rattle.hall.specs.Held.{Holds, Stands};

use crate::output::add_line;
use commands::outcome::Outcome;
use commands::running::run;
use lines::partial::{Partial, command_of, line_length, read_piece, start};
use lines::tally::{Tally, count, one_more};
use store::State;

// The store's state, the tally, how many lines there were, what is read of the next one and whether anything is (the reader goes on
// from `partial` either way, so an Option of it would be no plainer), and the fill of the output's buffer.
#[derive(Clone, Copy)]
pub struct Console {
    pub state: State,
    pub tally: Tally,
    pub line: u64,
    pub partial: Partial,
    pub begun: bool,
    pub fill: usize,
}

// The answer that a line is counted by.
fn answer_of(outcome: Option<Outcome>) -> Option<u64>
    ensures { result ≡ answer_of outcome }
{
    outcome.map(|o| o.answer)
}

// Runs the line that is read.
fn take_line(
    console: Console,
    anchor: &mut [u64],
    pages: &mut [u64],
    backups: &mut [u64],
    logs: &mut [u64],
    work: &mut [u64],
    out: &mut [u8],
) -> Console
    requires { console.fill + 84 ≤ length out.old }
    ensures fill_bound { result.fill ≤ console.fill + 84 }
    ensures by_index { (handed : List ℕ) (p : Program) → Holds console (world_of anchor.old pages.old backups.old logs.old work.old) out.old handed p
        → Stands result (world_of anchor.new pages.new backups.new logs.new work.new) out.new handed (line_taken p) }
{
    let command = command_of(console.partial);
    let done = run(command, console.state, anchor, pages, backups, logs, work);
    let line = one_more(console.line);
    let mut tally = console.tally;
    count(&mut tally, answer_of(done.outcome));
    let fill = add_line(out, console.fill, line, done.outcome);
    Console {
        state: done.state,
        tally,
        line,
        partial: start(),
        begun: false,
        fill,
    }
}

// A console, and where in the piece it goes on.
#[derive(Clone, Copy)]
struct Step {
    console: Console,
    next: usize,
}

// Reads up to the end of a line, and runs the line if its end is in the piece. The buffer has room for a line for each byte to come.
fn feed_line(
    console: Console,
    bytes: &[u8],
    at: usize,
    anchor: &mut [u64],
    pages: &mut [u64],
    backups: &mut [u64],
    logs: &mut [u64],
    work: &mut [u64],
    out: &mut [u8],
) -> Step
    requires at_in_bounds { at < length bytes.now }
    requires at_in_bounds_2 { console.fill + 84 * (length bytes.now - at) ≤ length out.old }
    ensures at_lt_next { (at < result.next) × (result.next ≤ length bytes.now) × (result.console.fill + 84 * (length bytes.now - result.next) ≤ length out.old) }
    ensures by_index { (handed : List ℕ) (p : Program) → Stands console (world_of anchor.old pages.old backups.old logs.old work.old) out.old handed p
        → (q : Program) × Stands result.console (world_of anchor.new pages.new backups.new logs.new work.new) out.new handed q
        × (fed q (drop result.next bytes.now) ≡ fed p (drop at bytes.now)) }
{
    let n = line_length(&bytes[at..]);
    let end = at + n;
    let partial = read_piece(console.partial, &bytes[at..end]);
    let read = Console {
        partial,
        begun: true,
        ..console
    };
    if end < bytes.len() {
        let next = end + 1;
        let console = take_line(read, anchor, pages, backups, logs, work, out);
        return Step { console, next };
    }
    Step {
        console: read,
        next: bytes.len(),
    }
}

// Takes in a piece of the input. The text of its lines waits in the buffer.
pub fn feed(
    console: Console,
    bytes: &[u8],
    anchor: &mut [u64],
    pages: &mut [u64],
    backups: &mut [u64],
    logs: &mut [u64],
    work: &mut [u64],
    out: &mut [u8],
) -> Console
    requires { console.fill + 84 * length bytes.now ≤ length out.old }
    ensures fill_in_bounds { result.fill ≤ length out.old }
    ensures by_index { (handed : List ℕ) (p : Program) → Stands console (world_of anchor.old pages.old backups.old logs.old work.old) out.old handed p
        → Stands result (world_of anchor.new pages.new backups.new logs.new work.new) out.new handed (fed p bytes.now) }
{
    let mut c = console;
    let mut at = 0;
    while at < bytes.len() {
        let step = feed_line(c, bytes, at, anchor, pages, backups, logs, work, out);
        c = step.console;
        at = step.next;
    }
    c
}

// At the end of the input: a last line without an end counts.
pub fn last_line(
    console: Console,
    anchor: &mut [u64],
    pages: &mut [u64],
    backups: &mut [u64],
    logs: &mut [u64],
    work: &mut [u64],
    out: &mut [u8],
) -> Console
    requires { console.fill + 84 ≤ length out.old }
    ensures fill_bound { result.fill ≤ console.fill + 84 }
    ensures by_index { (handed : List ℕ) (p : Program) → Stands console (world_of anchor.old pages.old backups.old logs.old work.old) out.old handed p
        → Stands result (world_of anchor.new pages.new backups.new logs.new work.new) out.new handed (ended p) }
{
    if console.begun {
        return take_line(console, anchor, pages, backups, logs, work, out);
    }
    console
}
