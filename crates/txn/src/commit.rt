// Commit: the closing record, and a flush of its disk. The slots are released with the transaction's place in the table.
ghost use Rattle.std.specs.Prelude.{◌≡◌, ◌+◌, ◌≤◌, ◌<◌, length};
ghost use Rattle.model.specs.declared.Sizes.{Sizes};
ghost use Rattle.model.specs.declared.Logs.{Logs};
ghost use Rattle.model.specs.World.{World, world_of};
ghost use Rattle.model.specs.State.{places, limit};
ghost use Rattle.model.specs.Call.{commit};
ghost use Rattle.model.specs.View.{head_words, Serves};
ghost use Rattle.model.specs.Fields.{put_words};
ghost use Rattle.device.specs.Ran.{Ran, with_slices};
ghost use Rattle.disk_log.specs.Write.{Within, Lent};
ghost use Rattle.txn.specs.Tasks.{closing, closed};
ghost use Rattle.txn.specs.Opened.{Opens};

use disk_log::kinds::{COMMIT, words_of};
use disk_log::write::{Home, append_close, flush_disk};
use frame::entry::{Entry, after_anchor, find_entry};
use frame::handed::{cut, finished, refused};
use frame::home::home_at;
use frame::lent::check_lent;
use frame::refusal::Refusal;
use head::places::HEAD_WORDS;
use head::table::{leave, set_fill};
use model::{Carried, Handed};

// The transaction's entry, where none of rows 1, 2, 5 and 9 refuses.
fn find_open(
    carried: &Carried,
    number: u64,
    anchor: &[u64],
    pages: &[u64],
    backups: &[u64],
    logs: &[u64],
    work: &[u64],
) -> Result<Entry, Refusal>
    ensures { Opens carried.now (world_of anchor.now pages.now backups.now logs.now work.now) number result }
{
    check_lent(carried, anchor, pages, backups, logs, work)?;
    let found = find_entry(work, carried.disks, &carried.tails, number);
    after_anchor(found, anchor.len())
}

// Appends the closing record to its disk's log and flushes it; true if all is stored. `work` is what lies behind the head.
fn store_close(
    home: Home,
    number: u64,
    logs: &mut [u64],
    work: &mut [u64],
    budget: &mut u64,
) -> bool
    requires within { Within home logs.old work.old }
    requires fill_bound { home.tail + home.fill + 2 ≤ limit }
    ensures { (s : Sizes) (l : Logs) (w : World) → Lent s l w home logs.old work.old
        → home.disk < length l.tails → home.disk < length l.fills
        → Ran budget.old budget.new (closing s l w home.disk number) w (with_slices w logs.new work.new) result }
{
    let Some(tip) = append_close(logs, work, home, COMMIT, number, budget) else {
        return false;
    };
    let after = Home {
        tail: tip.tail,
        fill: tip.fill,
        ..home
    };
    flush_disk(logs, work, after, budget)
}

// Nothing is buffered on the disk, and the place is free; `sum` words stay reserved.
fn close_place(work: &mut [u64], place: usize, disk: usize, sum: u64)
    requires { (place < places) × (disk < 8) × (head_words ≤ length work.old) }
    ensures { work.new ≡ put_words (closed place disk sum) work.old }
{
    set_fill(work, disk, 0);
    leave(work, place, disk, sum);
}

pub fn commit(
    carried: Carried,
    number: u64,
    anchor: &[u64],
    pages: &[u64],
    backups: &[u64],
    logs: &mut [u64],
    work: &mut [u64],
    budget: &mut u64,
) -> Handed
    ensures { Serves (commit number budget.old) carried (world_of anchor.now pages.now backups.now logs.old work.old)
        result budget.new (world_of anchor.now pages.now backups.now logs.new work.new) }
{
    let entry = match find_open(&carried, number, anchor, pages, backups, logs, work) {
        Ok(entry) => entry,
        Err(refusal) => return refused(carried, refusal),
    };
    let before = *budget;
    let home = home_at(carried.ring, entry.disk, entry.tail, entry.fill);
    if !store_close(home, number, logs, &mut work[HEAD_WORDS..], budget) {
        return cut(before.saturating_sub(*budget));
    }
    let disk = entry.disk as usize;
    close_place(work, entry.place, disk, entry.sum - entry.reserved);
    let mut tails = carried.tails;
    tails[disk] = entry.tail + entry.fill + words_of(COMMIT, 0);
    let stores = before.saturating_sub(*budget);
    finished(Carried { tails, ..carried }, stores, 0)
}
