// Restart run: steps of one source, as many as are asked for, or until the next would be refused.
ghost use Rattle.std.specs.Prelude.{◌≡◌, List, ℕ, ◌*◌, ◌<◌, length, get_or};
ghost use Rattle.model.specs.Sizes.{total};
ghost use Rattle.model.specs.World.{world_of};
ghost use Rattle.model.specs.State.{tail_of};
ghost use Rattle.model.specs.Scan.{scan, fate_in};
ghost use Rattle.model.specs.Restart.{position_of, moved_to};
ghost use Rattle.model.specs.Call.{Gives, restart_run};
ghost use Rattle.disk_log.specs.Ring.{read_ring, Ring};
ghost use Rattle.replay.specs.Step.{Replays, OnLog};
ghost use Rattle.run.specs.Run.{Remembers, RunsOn, Passes, RanOn, DiskRing};

use crate::fates::Fates;
use crate::fault::record_fault;
use crate::record::take_record;
use disk_log::ring::{advance, ring_words};
use frame::checks::check_common;
use frame::refusal::Refusal;
use frame::settle::{finish, refuse, refuse_at};
use frame::stages::When;
use layout::disks::disk_at;
use model::{Core, Replay, Reply};
use replay::record::move_on;
use replay::ring::page_bases;
use replay::take::xor_page;

// A log's next position.
fn next_position(replay: Replay, disk: u64) -> u64
    requires { disk < 8 }
    ensures { (result ≡ get_or replay.positions disk 0) × (length replay.positions ≡ 8) }
{
    let positions = replay.positions;
    positions[disk as usize]
}

// Where a run of a log stopped, and how many steps it made.
#[derive(Clone, Copy)]
pub struct Ran {
    pub position: u64,
    pub made: u64,
}

// Takes the next records of a log, whose ring is handed in, with the fates that are remembered of it.
fn run_ring(
    core: Core,
    disk: u64,
    ring: &[u64],
    most: u64,
    fates: &mut Fates,
    pages: &mut [u64],
) -> Ran
    requires { Replays core × (disk < core.sizes.disks) × (length pages.old ≡ total core.sizes) × Ring ring.now (tail_of core.logs disk)
        × Remembers (λ n. fate_in n (scan core.sizes (read_ring ring.now) (tail_of core.logs disk) (position_of core disk)))
        fates.old.numbers fates.old.closed fates.old.used }
    ensures { (anchor backups logs work : List ℕ) → DiskRing core.sizes logs disk ring.now
        → Passes core (world_of anchor pages.old backups logs work)
        → RanOn disk most core (world_of anchor pages.old backups logs work) result.made (moved_to core disk result.position) (world_of anchor pages.new backups logs work) }
{
    let sizes = core.sizes;
    let slots = sizes.slots;
    let widths = sizes.widths;
    let bases = page_bases(sizes);
    let tails = core.logs.tails;
    let tail = tails[disk as usize];
    let mut p = next_position(core.replay, disk);
    let mut at = p % ring.len() as u64;
    let mut made: u64 = 0;
    while made < most && p < tail {
        let Some(next) = take_record(
            fates, &slots, &widths, &bases, ring, tail, p, at, core.epoch, pages,
        ) else {
            return Ran { position: p, made };
        };
        at = advance(at, next - p, ring.len() as u64);
        p = next;
        made += 1;
    }
    Ran { position: p, made }
}

// Steps of a log. Its first record is checked before any is taken: the rows are those of a step, however few are asked for.
fn run_log(core: Core, disk: u64, most: u64, pages: &mut [u64], logs: &[u64]) -> Reply
    requires { OnLog core disk pages.old logs.now }
    ensures { (anchor backups work : List ℕ) → Passes core (world_of anchor pages.old backups logs.now work)
        → RunsOn core (world_of anchor pages.old backups logs.now work) disk most result (world_of anchor pages.new backups logs.now work) }
{
    let sizes = core.sizes;
    let slots = sizes.slots;
    let widths = sizes.widths;
    let tails = core.logs.tails;
    let tail = tails[disk as usize];
    let position = next_position(core.replay, disk);
    if tail <= position {
        return refuse(core, Refusal::OutOfTurn);
    }
    let place = disk_at(sizes.ring, disk);
    let ring = ring_words(logs, place, sizes.ring);
    let mut fates = Fates::new();
    let fault = record_fault(
        &mut fates, &slots, &widths, ring, disk, tail, position, most,
    );
    match fault {
        Some(bad) => refuse_at(core, Refusal::Malformed, bad.disk, bad.position),
        None => {
            let ran = run_ring(core, disk, ring, most, &mut fates, pages);
            let moved = move_on(core, disk, ran.position);
            finish(moved.core, ran.made)
        }
    }
}

// Steps of the backup: its next pages.
fn run_backup(core: Core, most: u64, pages: &mut [u64], backups: &[u64]) -> Reply
    requires { Replays core × (length pages.old ≡ total core.sizes) × (length backups.now ≡ 2 * total core.sizes) }
    ensures { (anchor logs work : List ℕ) → Passes core (world_of anchor pages.old backups.now logs work)
        → RunsOn core (world_of anchor pages.old backups.now logs work) core.sizes.disks most result (world_of anchor pages.new backups.now logs work) }
{
    let sizes = core.sizes;
    let replay = core.replay;
    let positions = replay.positions;
    let first = replay.page;
    if sizes.pages <= first {
        return refuse(core, Refusal::OutOfTurn);
    }
    let count = most.min(sizes.pages - first);
    for made in 0..count {
        xor_page(pages, backups, sizes, core.epoch, first + made);
    }
    let moved = Replay {
        positions,
        page: first + count,
    };
    finish(
        Core {
            replay: moved,
            ..core
        },
        count,
    )
}

// Makes steps of a source until `most` are made or the next would be refused; answers how many. Refused as its first step would be.
pub fn run(
    core: Core,
    source: u64,
    most: u64,
    anchor: &[u64],
    pages: &mut [u64],
    backups: &[u64],
    logs: &[u64],
    work: &[u64],
) -> Reply
    ensures { Gives (restart_run source most) core (world_of anchor.now pages.old backups.now logs.now work.now)
        result 0 (world_of anchor.now pages.new backups.now logs.now work.now) }
{
    if let Err(refusal) = check_common(When::Replaying, core, anchor, pages, backups, logs, work) {
        return refuse(core, refusal);
    }
    let disks = core.sizes.disks;
    if source < disks {
        return run_log(core, source, most, pages, logs);
    }
    if source == disks {
        return run_backup(core, most, pages, backups);
    }
    refuse(core, Refusal::OutOfRange)
}
