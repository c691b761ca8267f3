// The updates of a transaction taken back, newest first.
ghost use Rattle.std.specs.Prelude.{◌≡◌, List, [], ◌∷◌, ℕ, ◌+◌, ◌≤◌, take};
ghost use Rattle.model.specs.Scan.{scan, updates_in};
ghost use Rattle.model.specs.World.{world_of};
ghost use Rattle.model.specs.State.{end_of};
ghost use Rattle.model.specs.Abort.{compensate, undo_all};
ghost use Rattle.abort.specs.Undo.{only_log, Did, tip_in, Counts, Few, reader, log_from, update_at, update_read, Compensable, Undoable};
ghost use Rattle.abort.specs.Groups.{Noted, last_first, Takeable};

use crate::difference::{Difference, Site, difference_at, site_at};
use crate::notes::Notes;
use crate::reading::group_from;
use crate::record::log_compensation;
use disk_log::updates::Group;
use disk_log::write::Tip;
use layout::places::slot_base;
use model::Sizes;
use words::xor_in;

// Updates taken back: where their disk's log ends, and how many bits are 1 over their differences.
#[derive(Clone, Copy)]
pub struct Undone {
    pub tip: Tip,
    pub ones: u64,
}

// Takes back the update at a site: its compensation is appended, and the slot changed back. A difference has at most 32 words of 64 bits.
fn undo_one(
    sizes: Sizes,
    tip: Tip,
    disk: u64,
    number: u64,
    site: Site,
    pages: &mut [u64],
    logs: &mut [u64],
    work: &mut [u64],
    budget: &mut u64,
) -> Option<Undone>
    requires { Compensable sizes (only_log disk tip) disk site pages.old logs.old work.old }
    ensures by_index { (anchor backups : List ℕ) → Did disk budget.old budget.new
        (compensate sizes (only_log disk tip) (world_of anchor pages.old backups logs.old work.old) number disk
        (update_at sizes (only_log disk tip) disk logs.old work.old site))
        (world_of anchor pages.old backups logs.old work.old)
        (world_of anchor pages.new backups logs.new work.new) (tip_in result) }
    ensures counts { Counts (update_at sizes (only_log disk tip) disk logs.old work.old site ∷ []) result × Few 2048 result }
{
    let Difference { words, ones } = difference_at(
        sizes,
        tip,
        disk,
        site.position,
        site.width,
        logs,
        work,
    );
    let n = site.width as usize;
    let tip = log_compensation(
        sizes,
        tip,
        disk,
        number,
        site.page,
        site.slot,
        &words[..n],
        logs,
        work,
        budget,
    )?;
    let at = slot_base(sizes, site.page, site.slot) as usize;
    xor_in(pages, at, &words, 0, n);
    Some(Undone { tip, ones })
}

// Takes back the updates of a group, 128 at most, the last first, as far as the budget goes.
fn undo_group(
    sizes: Sizes,
    tip: Tip,
    disk: u64,
    number: u64,
    group: Group,
    pages: &mut [u64],
    logs: &mut [u64],
    work: &mut [u64],
    budget: &mut u64,
) -> Option<Undone>
    requires { (group.count ≤ 128) × Takeable sizes (only_log disk tip) disk (take group.count group.at) pages.old logs.old work.old }
    ensures by_index { (anchor backups : List ℕ) → Did disk budget.old budget.new
        (undo_all sizes (only_log disk tip) (world_of anchor pages.old backups logs.old work.old) number disk
        (last_first (update_read (reader sizes (only_log disk tip) disk logs.old work.old)) (take group.count group.at)))
        (world_of anchor pages.old backups logs.old work.old)
        (world_of anchor pages.new backups logs.new work.new) (tip_in result) }
    ensures counts { Counts (last_first (update_read (reader sizes (only_log disk tip) disk logs.old work.old)) (take group.count group.at)) result × Few 262144 result }
{
    let at = group.at;
    let mut after = tip;
    let mut ones = 0;
    for n in (0..group.count).rev() {
        let site = site_at(sizes, after, disk, at[n as usize], logs, work);
        let one = undo_one(sizes, after, disk, number, site, pages, logs, work, budget)?;
        after = one.tip;
        ones += one.ones;
    }
    Some(Undone { tip: after, ones })
}

// Takes back all updates of a transaction that were noted in the log of its disk, as far as the budget goes: the groups of 128, last to
// first, each read once from where it begins.
pub fn undo_all(
    sizes: Sizes,
    tip: Tip,
    disk: u64,
    number: u64,
    notes: Notes,
    pages: &mut [u64],
    logs: &mut [u64],
    work: &mut [u64],
    budget: &mut u64,
) -> Option<Undone>
    requires undoable { Undoable sizes (only_log disk tip) disk number notes.from pages.old logs.old work.old }
    requires noted { Noted number (scan sizes (reader sizes (only_log disk tip) disk logs.old work.old) (end_of (only_log disk tip) disk)) notes.from notes }
    ensures by_index { (anchor backups : List ℕ) → Did disk budget.old budget.new
        (undo_all sizes (only_log disk tip) (world_of anchor pages.old backups logs.old work.old) number disk
        (updates_in number (log_from sizes (only_log disk tip) disk logs.old work.old notes.from)))
        (world_of anchor pages.old backups logs.old work.old)
        (world_of anchor pages.new backups logs.new work.new) (tip_in result) }
    ensures counts { Counts (updates_in number (log_from sizes (only_log disk tip) disk logs.old work.old notes.from)) result }
{
    let end = tip.tail + tip.fill;
    let mut after = tip;
    let mut ones = 0;
    let groups = notes.count.div_ceil(128);
    for k in (0..groups).rev() {
        let n = (notes.count - 128 * k).min(128);
        let p = notes.at[k as usize];
        let group = group_from(sizes, after, disk, number, p, end, n, logs, work);
        let part = undo_group(sizes, after, disk, number, group, pages, logs, work, budget)?;
        after = part.tip;
        ones += part.ones;
    }
    Some(Undone { tip: after, ones })
}
