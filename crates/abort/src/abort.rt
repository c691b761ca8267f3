// Abort: its checks, then its work. Of a transaction that is not open nothing is read, so No. 9 can be asked before No. 7.
ghost use Rattle.std.specs.Prelude.{◌≡◌, List, ℕ, ◌-◌, ◌≤◌, ◌<◌, length};
ghost use Rattle.model.specs.Scan.{scan, updates_in};
ghost use Rattle.model.specs.World.{world_of};
ghost use Rattle.model.specs.State.{places, end_of};
ghost use Rattle.model.specs.Call.{abort};
ghost use Rattle.model.specs.View.{head_words, Serves};
ghost use Rattle.model.specs.Fields.{put_words};
ghost use Rattle.abort.specs.Undo.{only_log, Did, tip_in, Counts, reader, log_from, Undoable};
ghost use Rattle.abort.specs.Groups.{Noted};
ghost use Rattle.abort.specs.Scope.{Targeted, rolling_back, closed};

use crate::fault::examine;
use crate::notes::Notes;
use crate::record::log_close;
use crate::scope::{Target, find_scope};
use crate::undo::{Undone, undo_all};
use disk_log::write::Tip;
use frame::entry::{Entry, after_anchor};
use frame::handed::{cut, finished, refused, unreadable};
use frame::lent::check_lent;
use frame::refusal::Refusal;
use head::places::HEAD_WORDS;
use head::table::{leave, set_fill};
use model::{Carried, Handed, Sizes};

// The transaction's entry, its log and the sizes, where none of rows 1, 2, 5 and 9 refuses.
fn find_target(
    carried: &Carried,
    number: u64,
    anchor: &[u64],
    pages: &[u64],
    backups: &[u64],
    logs: &[u64],
    work: &[u64],
) -> Result<Target, Refusal>
    ensures { Targeted carried.now (world_of anchor.now pages.now backups.now logs.now work.now) number result }
{
    check_lent(carried, anchor, pages, backups, logs, work)?;
    let found = find_scope(carried, work, number);
    after_anchor(found, anchor.len())
}

// The work: every update taken back, then the closing record, as far as the budget goes.
fn roll_back(
    sizes: Sizes,
    tip: Tip,
    disk: u64,
    number: u64,
    notes: Notes,
    pages: &mut [u64],
    logs: &mut [u64],
    work: &mut [u64],
    budget: &mut u64,
) -> Option<Undone>
    requires undoable { Undoable sizes (only_log disk tip) disk number notes.from pages.old logs.old work.old }
    requires noted { Noted number (scan sizes (reader sizes (only_log disk tip) disk logs.old work.old) (end_of (only_log disk tip) disk)) notes.from notes }
    ensures by_index { (anchor backups : List ℕ) → Did disk budget.old budget.new
        (rolling_back sizes (only_log disk tip) (world_of anchor pages.old backups logs.old work.old) number disk
        (updates_in number (log_from sizes (only_log disk tip) disk logs.old work.old notes.from)))
        (world_of anchor pages.old backups logs.old work.old)
        (world_of anchor pages.new backups logs.new work.new) (tip_in result) }
    ensures counts { Counts (updates_in number (log_from sizes (only_log disk tip) disk logs.old work.old notes.from)) result }
{
    let undone = undo_all(sizes, tip, disk, number, notes, pages, logs, work, budget)?;
    let tip = log_close(sizes, undone.tip, disk, number, logs, work, budget)?;
    Some(Undone {
        tip,
        ones: undone.ones,
    })
}

// The transaction's place is free, and what was reserved for it; `fill` words are buffered on its disk.
fn close_place(work: &mut [u64], entry: Entry, disk: usize, fill: u64)
    requires place { (entry.place < places) × (disk < 8) × (head_words ≤ length work.old) }
    requires own_part { entry.reserved ≤ entry.sum }
    ensures { work.new ≡ put_words (closed entry.place disk fill (entry.sum - entry.reserved)) work.old }
{
    set_fill(work, disk, fill);
    leave(work, entry.place, disk, entry.sum - entry.reserved);
}

pub fn abort(
    mut carried: Carried,
    number: u64,
    anchor: &[u64],
    pages: &mut [u64],
    backups: &[u64],
    logs: &mut [u64],
    work: &mut [u64],
    budget: &mut u64,
) -> Handed
    ensures { Serves (abort number budget.old) carried (world_of anchor.now pages.old backups.now logs.old work.old)
        result budget.new (world_of anchor.now pages.new backups.now logs.new work.new) }
{
    let target = match find_target(&carried, number, anchor, pages, backups, logs, work) {
        Ok(target) => target,
        Err(refusal) => return refused(carried, refusal),
    };
    let entry = target.entry;
    let scope = target.scope;
    let sizes = target.sizes;
    let tip = Tip {
        tail: entry.tail,
        fill: entry.fill,
    };
    let notes = match examine(sizes, tip, scope, number, logs, &work[HEAD_WORDS..]) {
        Ok(notes) => notes,
        Err(bad) => return unreadable(carried, bad),
    };
    let before = *budget;
    let body = &mut work[HEAD_WORDS..];
    let Some(done) = roll_back(
        sizes, tip, scope.disk, number, notes, pages, logs, body, budget,
    ) else {
        return cut(before.saturating_sub(*budget));
    };
    let disk = scope.disk as usize;
    close_place(work, entry, disk, done.tip.fill);
    carried.tails[disk] = done.tip.tail;
    finished(carried, before.saturating_sub(*budget), done.ones)
}
