// Reading the input, answering it, and writing the answers.
ghost use Rattle.std.specs.Prelude.{◌≡◌, ◌⊎◌, true, false, ℕ, ◌+◌, ◌≤◌, List, length};
ghost use Rattle.model.specs.World.{World, world_of};
ghost use Rattle.hall.specs.Running.{Program, fed, ended, with_tally};
ghost use Rattle.hall.specs.Held.{Stands};

use crate::console::{Console, feed, last_line};
use crate::output::add;
use lines::output::put_tally;
use std::io::Read;

// The descriptor of standard output.
const STDOUT_FILENO: i32 = 1;

// A console, and whether what was handed to write was written.
#[derive(Clone, Copy)]
pub struct Flushed {
    pub console: Console,
    pub written: bool,
}

// Hands the text that waits to write. A flag and no Result: the clauses of `flush`, `serve_some` and `serve` tell of the console after a
// failure too. Of what becomes of it no contract of the C library speaks.
pub fn flush(console: Console, out: &[u8]) -> Flushed
    requires { console.fill ≤ length out.now }
    ensures fill_value { result.console.fill ≡ 0 }
    ensures stands { (w : World) (handed : List ℕ) (p : Program) → Stands console w out.now handed p → Stands result.console w out.now p.text p }
{
    let fill = console.fill;
    let written = io::write_all(STDOUT_FILENO, &out[..fill]);
    let console = Console { fill: 0, ..console };
    Flushed { console, written }
}

// A console, how many bytes the last read gave, and whether a read or a write has failed.
#[derive(Clone, Copy)]
pub struct Served {
    pub console: Console,
    got: usize,
    pub failed: bool,
}

// Reads once, takes in what came, and writes what it comes to. A read gives at most 780 bytes, so the text of its lines, 84 bytes each
// at most, fits the buffer.
fn serve_some(
    rt: &HostRuntime,
    console: Console,
    anchor: &mut [u64],
    pages: &mut [u64],
    backups: &mut [u64],
    logs: &mut [u64],
    work: &mut [u64],
    out: &mut [u8],
) -> Served
    requires { (console.fill ≡ 0) × (65520 ≤ length out.old) }
    ensures fill_value { result.console.fill ≡ 0 }
    ensures by_index { (p : Program) → Stands console (world_of anchor.old pages.old backups.old logs.old work.old) out.old p.text p
        → (input : List ℕ) × (length input ≡ result.got)
        × Stands result.console (world_of anchor.new pages.new backups.new logs.new work.new) out.new (fed p input).text (fed p input) }
{
    let mut input = [0u8; 780];
    let Ok(got) = rt.stdin().read(&mut input) else {
        return Served {
            console,
            got: 0,
            failed: true,
        };
    };
    if got == 0 {
        return Served {
            console,
            got,
            failed: false,
        };
    }
    let bytes = &input[..got];
    let after = feed(console, bytes, anchor, pages, backups, logs, work, out);
    let flushed = flush(after, out);
    let console = flushed.console;
    Served {
        console,
        got,
        failed: !flushed.written,
    }
}

// Runs every line of the input: it ends when a read gives nothing, or a read or a write has failed. A proved loop has to end, so it
// counts its turns up to a number that no run reaches.
fn serve(
    rt: &HostRuntime,
    console: Console,
    anchor: &mut [u64],
    pages: &mut [u64],
    backups: &mut [u64],
    logs: &mut [u64],
    work: &mut [u64],
    out: &mut [u8],
) -> Served
    requires { (console.fill ≡ 0) × (65520 ≤ length out.old) }
    ensures fact { (result.got ≡ 0) ⊎ (result.failed ≡ true) }
    ensures fill_value { result.console.fill ≡ 0 }
    ensures by_index { (p : Program) → Stands console (world_of anchor.old pages.old backups.old logs.old work.old) out.old p.text p
        → (input : List ℕ) × Stands result.console (world_of anchor.new pages.new backups.new logs.new work.new) out.new (fed p input).text (fed p input) }
{
    let mut c = console;
    for _turn in 0..u64::MAX {
        let served = serve_some(rt, c, anchor, pages, backups, logs, work, out);
        let failed = served.failed;
        if failed {
            return served;
        }
        let got = served.got;
        if got == 0 {
            return served;
        }
        c = served.console;
    }
    Served {
        console: c,
        got: 0,
        failed: true,
    }
}

// Adds the tally.
fn close(console: Console, out: &mut [u8]) -> Console
    requires { console.fill + 84 ≤ length out.old }
    ensures fill_in_bounds { result.fill ≤ length out.old }
    ensures stands { (w : World) (handed : List ℕ) (p : Program) → Stands console w out.old handed p → Stands result w out.new handed (with_tally p) }
{
    let tally = console.tally;
    let mut text = [0u8; 84];
    let at = put_tally(&mut text, tally.taken, tally.refused, tally.cut);
    let fill = add(out, console.fill, &text[at..]);
    Console { fill, ..console }
}

// Answers the whole input: every line, a last one without an end, and the tally. Where a read or a write has failed it stops.
pub fn answer_input(
    rt: &HostRuntime,
    console: Console,
    anchor: &mut [u64],
    pages: &mut [u64],
    backups: &mut [u64],
    logs: &mut [u64],
    work: &mut [u64],
    out: &mut [u8],
) -> Served
    requires { (console.fill ≡ 0) × (65520 ≤ length out.old) }
    ensures fill_in_bounds { result.console.fill ≤ length out.old }
    ensures by_index { result.failed ≡ false → (p : Program) → Stands console (world_of anchor.old pages.old backups.old logs.old work.old) out.old p.text p
        → (input : List ℕ) × Stands result.console (world_of anchor.new pages.new backups.new logs.new work.new) out.new
        (fed p input).text (with_tally (ended (fed p input))) }
{
    let served = serve(rt, console, anchor, pages, backups, logs, work, out);
    let failed = served.failed;
    if failed {
        return served;
    }
    let last = last_line(served.console, anchor, pages, backups, logs, work, out);
    let closed = close(last, out);
    Served {
        console: closed,
        ..served
    }
}
