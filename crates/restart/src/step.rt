// Restart step: the next record of a log, or the next page of the backup. It works on what is carried and on words of the head.
ghost use Rattle.std.specs.Prelude.{◌≡◌, List, ℕ, ◌≤◌, ◌<◌};
ghost use Rattle.model.specs.declared.Sizes.{Sizes};
ghost use Rattle.model.specs.Sizes.{total};
ghost use Rattle.model.specs.Anchor.{backup_at};
ghost use Rattle.model.specs.World.{world_of};
ghost use Rattle.model.specs.State.{tail_of};
ghost use Rattle.model.specs.Restart.{position_of};
ghost use Rattle.model.specs.Call.{restart_step};
ghost use Rattle.model.specs.View.{core_of, Serves};
ghost use Rattle.replay.specs.Step.{StepsOn};
ghost use Rattle.restart.specs.Step.{OnDisk, OnBackup, taken_by, StepsTo};

use disk_log::read::{Extent, decode_at};
use disk_log::scan::fate_from;
use frame::handed::{finished, refused, unreadable};
use frame::lent::check_when;
use frame::refusal::Refusal;
use frame::replaying::replay_right;
use frame::stages::is_replaying;
use head::places::{BASES_AT, PAGE_AT, POSITIONS_AT, SLOTS_AT, WIDTHS_AT};
use layout::anchor::ANCHOR_WORDS;
use layout::disks::disk_at;
use model::{BadRecord, Carried, Decoded, Fate, Handed};
use replay::record::is_replayed;
use replay::take::replay_span;
use words::xor_in;

// The record at `position`, below the tail, XORed in if it is to be: where the next one stands, or a malformed one as an error.
fn take_record(
    carried: Carried,
    disk: u64,
    position: u64,
    pages: &mut [u64],
    logs: &[u64],
    work: &[u64],
) -> Result<u64, u64>
    requires { OnDisk carried disk pages.old logs.now work.now × (position_of (core_of carried work.now) disk ≡ position)
        × (position < tail_of (core_of carried work.now).logs disk) }
    ensures { (anchor backups body : List ℕ) → StepsOn (core_of carried work.now) (world_of anchor pages.old backups logs.now body) disk
        (taken_by (core_of carried work.now) disk result) (world_of anchor pages.new backups logs.now body) }
{
    let tail = carried.tails[disk as usize];
    let slots = &work[SLOTS_AT..WIDTHS_AT];
    let widths = &work[WIDTHS_AT..BASES_AT];
    let none = &logs[0..0];
    let extent = Extent {
        place: disk_at(carried.ring, disk),
        ring: carried.ring,
        tail,
        end: tail,
    };
    let here = decode_at(carried.pages, slots, widths, logs, extent, none, position);
    match here {
        Decoded::Malformed => Err(position),
        Decoded::Close { next, .. } => Ok(next),
        Decoded::Change {
            page,
            slot,
            number,
            copy,
            width,
            next,
            ..
        } => {
            let fate = fate_from(
                carried.pages,
                slots,
                widths,
                logs,
                extent,
                none,
                next,
                number,
            );
            if let Fate::Unreadable { position: p } = fate {
                return Err(p);
            }
            let replays = is_replayed(carried.epoch, fate, copy);
            let at = work[BASES_AT + page as usize] + slot * width;
            let from = position + 3;
            replay_span(replays, pages, at, logs, extent, from, width);
            Ok(next)
        }
    }
}

// Takes the next record of a log.
fn log_step(
    carried: Carried,
    disk: u64,
    pages: &mut [u64],
    logs: &[u64],
    work: &mut [u64],
) -> Handed
    requires { OnDisk carried disk pages.old logs.now work.old }
    ensures { (anchor backups : List ℕ) → StepsTo carried (world_of anchor pages.old backups logs.now work.old) disk
        result (world_of anchor pages.new backups logs.now work.new) }
{
    let d = disk as usize;
    let tail = carried.tails[d];
    let position = work[POSITIONS_AT + d];
    if tail <= position {
        return refused(carried, Refusal::OutOfTurn);
    }
    match take_record(carried, disk, position, pages, logs, work) {
        Err(position) => unreadable(carried, BadRecord { disk, position }),
        Ok(next) => {
            work[POSITIONS_AT + d] = next;
            finished(carried, 0, 0)
        }
    }
}

// Where the backup of checkpoint `epoch` begins, by T.
fn backup_start(epoch: u64, words: u64) -> u64
    ensures { ((s : Sizes) → total s ≡ words → result ≡ backup_at s epoch) × (result ≤ words) }
{
    if epoch % 2 == 0 { 0 } else { words }
}

// XORs the next page of the backup in.
// Like `log_step` it stops at an end and moves a position; one function for both would take all between as a closure, and be no plainer.
fn backup_step(carried: Carried, pages: &mut [u64], backups: &[u64], work: &mut [u64]) -> Handed
    requires { OnBackup carried pages.old backups.now work.old }
    ensures { (anchor logs : List ℕ) → StepsTo carried (world_of anchor pages.old backups.now logs work.old) carried.disks
        result (world_of anchor pages.new backups.now logs work.new) }
{
    let page = work[PAGE_AT];
    if carried.pages <= page {
        return refused(carried, Refusal::OutOfTurn);
    }
    let at = page as usize;
    let base = work[BASES_AT + at];
    let n = work[SLOTS_AT + at] * work[WIDTHS_AT + at];
    let from = backup_start(carried.epoch, carried.total) + base;
    xor_in(pages, base as usize, backups, from as usize, n as usize);
    work[PAGE_AT] = page + 1;
    finished(carried, 0, 0)
}

pub fn step(
    carried: Carried,
    source: u64,
    anchor: &[u64],
    pages: &mut [u64],
    backups: &[u64],
    logs: &[u64],
    work: &mut [u64],
) -> Handed
    ensures { Serves (restart_step source) carried (world_of anchor.now pages.old backups.now logs.now work.old)
        result 0 (world_of anchor.now pages.new backups.now logs.now work.new) }
{
    if let Err(refusal) = check_when(
        is_replaying(carried.stage),
        &carried,
        anchor,
        pages,
        backups,
        logs,
        work,
    ) {
        return refused(carried, refusal);
    }
    if !replay_right(
        work,
        carried.pages,
        carried.disks,
        carried.total,
        carried.epoch,
        carried.tails,
    ) {
        return refused(carried, Refusal::Stage);
    }
    if anchor.len() != ANCHOR_WORDS {
        return refused(carried, Refusal::AnchorLength);
    }
    if source < carried.disks {
        return log_step(carried, source, pages, logs, work);
    }
    if source == carried.disks {
        return backup_step(carried, pages, backups, work);
    }
    refused(carried, Refusal::OutOfRange)
}
