// The log on paper. Both calls read the anchor, the log disks and the state's stage, and change nothing but the bytes that they are lent.
ghost use Rattle.std.specs.Prelude.{◌≡◌, List, ℕ, length};
ghost use Rattle.model.specs.World.{world_of};
ghost use Rattle.model.specs.Listing.{line_after, lines_after};
ghost use Rattle.model.specs.Call.{look, list_line, list_lines};
ghost use Rattle.model.specs.View.{Serves};

use crate::{State, carried_of};
use model::Answer;

// Writes the line of a number, counted from 0 with the headings, into 73 bytes.
pub fn list_line(state: State, number: u64, anchor: &[u64], logs: &[u64], out: &mut [u8]) -> Answer
    ensures by_index { (pages backups work : List ℕ) → Serves (look (list_line number (length out.old))) state.carried (world_of anchor.now pages backups logs.now work)
        (record { answer = result; carried = state.carried }) 0 (world_of anchor.now pages backups logs.now work) }
    ensures out_value { out.new ≡ line_after state.carried.stage anchor.now logs.now number out.old }
{
    let carried = carried_of(state);
    let stage = carried.stage;
    listing::call::list_line(stage, number, anchor, logs, out)
}

// Writes the lines from a number on, as many as there are and as the bytes, a whole number of lines, have room for; answers how many. So a
// whole listing is written by one call, which reads the log twice, to check it and to write it.
pub fn list_lines(state: State, first: u64, anchor: &[u64], logs: &[u64], out: &mut [u8]) -> Answer
    ensures by_index { (pages backups work : List ℕ) → Serves (look (list_lines first (length out.old))) state.carried (world_of anchor.now pages backups logs.now work)
        (record { answer = result; carried = state.carried }) 0 (world_of anchor.now pages backups logs.now work) }
    ensures out_value { out.new ≡ lines_after state.carried.stage anchor.now logs.now first out.old }
{
    let carried = carried_of(state);
    let stage = carried.stage;
    listing::call::list_lines(stage, first, anchor, logs, out)
}
