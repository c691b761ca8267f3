// The calls that write the log on paper into lent bytes. They read the anchor and the log disks, and of the state its stage alone.
ghost use Rattle.std.specs.Prelude.{◌≡◌, true, length};
ghost use Rattle.model.specs.Sizes.{log_words, sizes_in_bounds};
ghost use Rattle.model.specs.Anchor.{anchor_words, sizes_on};
ghost use Rattle.model.specs.Refusal.{verdict, answer_by};
ghost use Rattle.model.specs.Listing.{listing, list_rows, not_a_line, not_lines, lines_from, line_after, lines_after};
ghost use Rattle.listing.specs.Call.{last_rows, Lists};

use crate::pages::lay_disks;
use frame::refusal::{Refusal, TurnedAway};
use frame::stages::is_shut;
use layout::disks::disk_at;
use model::{Answer, Sizes, Stage};
use replay::image::{anchor_sizes, check_anchor, check_logs, current_starts, tails_on};

// Rows 6, 7 and 8, and how many lines the listing has where none applies. Past the last line there is nothing to write.
fn list_on(
    sizes: Sizes,
    first: u64,
    anchor: &[u64],
    logs: &[u64],
    out: &mut [u8],
) -> Result<u64, TurnedAway>
    requires { (sizes ≡ sizes_on anchor.now) × (sizes_in_bounds sizes ≡ true) × (length anchor.now ≡ anchor_words) × (length logs.now ≡ log_words sizes) }
    ensures { Lists (last_rows anchor.now logs.now first) (listing anchor.now logs.now) first out.old result out.new }
{
    let starts = current_starts(sizes.disks, anchor);
    let tails = tails_on(sizes, logs);
    check_logs(sizes, starts, tails, logs)?;
    let lines = lay_disks(sizes, starts, logs, out, first);
    if lines <= first {
        return Err(TurnedAway::from(Refusal::OutOfRange));
    }
    Ok(lines)
}

// Rows 1 to 5 come first.
fn list(
    stage: Stage,
    wrong: bool,
    first: u64,
    anchor: &[u64],
    logs: &[u64],
    out: &mut [u8],
) -> Result<u64, TurnedAway>
    ensures { Lists (list_rows stage wrong anchor.now logs.now first) (listing anchor.now logs.now) first out.old result out.new }
{
    if !is_shut(stage) {
        return Err(TurnedAway::from(Refusal::Stage));
    }
    check_anchor(anchor)?;
    let sizes = anchor_sizes(anchor);
    if logs.len() as u64 != disk_at(sizes.ring, sizes.disks) {
        return Err(TurnedAway::from(Refusal::Length));
    }
    if wrong {
        return Err(TurnedAway::from(Refusal::Length));
    }
    list_on(sizes, first, anchor, logs, out)
}

// The line of a number, into 73 bytes.
pub fn list_line(stage: Stage, number: u64, anchor: &[u64], logs: &[u64], out: &mut [u8]) -> Answer
    ensures value { result ≡ answer_by (verdict (list_rows stage (not_a_line (length out.old)) anchor.now logs.now number)) 0 }
    ensures out_after { out.new ≡ line_after stage anchor.now logs.now number out.old }
{
    let wrong = out.len() != 73;
    match list(stage, wrong, number, anchor, logs, out) {
        Ok(_) => Answer::Finished {
            stores: 0,
            value: 0,
        },
        Err(away) => away.answer(),
    }
}

// The lines from a number on, into a whole number of lines; answers how many.
pub fn list_lines(stage: Stage, first: u64, anchor: &[u64], logs: &[u64], out: &mut [u8]) -> Answer
    ensures value { result ≡ answer_by (verdict (list_rows stage (not_lines (length out.old)) anchor.now logs.now first))
        (length (lines_from anchor.now logs.now first (length out.old))) }
    ensures out_after { out.new ≡ lines_after stage anchor.now logs.now first out.old }
{
    let room = out.len() as u64 / 73;
    let wrong = out.len() % 73 != 0;
    match list(stage, wrong, first, anchor, logs, out) {
        Ok(lines) => Answer::Finished {
            stores: 0,
            value: room.min(lines - first),
        },
        Err(away) => away.answer(),
    }
}
