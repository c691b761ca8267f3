// Begin: the next number, and the idlest disk with log room that serves the class.
ghost use Rattle.std.specs.Prelude.{◌≡◌, MatchOption, IfSome, true, ℕ, ◌≤◌, ◌<◌, length};
ghost use Rattle.model.specs.declared.Carried.{Carried};
ghost use Rattle.model.specs.World.{world_of};
ghost use Rattle.model.specs.Classes.{set_for};
ghost use Rattle.model.specs.Room.{no_disk, idlest};
ghost use Rattle.model.specs.Call.{begin};
ghost use Rattle.model.specs.View.{head_words, own_work, core_of, Serves};

use classes::kept::set_for;
use frame::handed::{finished, refused};
use frame::lent::check_lent;
use frame::refusal::Refusal;
use head::places::{FILLS_AT, POSITIONS_AT, SUMS_AT};
use head::table::{enter, place_of};
use layout::anchor::ANCHOR_WORDS;
use model::{Carried, Handed};
use table::place::CLOSE_WORDS;
use table::room::{LIMIT, idlest};

// The disk of a new transaction, by what is carried and by the head's words of the disks.
fn idlest_disk(
    disks: u64,
    ring: u64,
    starts: [u64; 8],
    tails: [u64; 8],
    set: u64,
    work: &[u64],
) -> Option<usize>
    requires { (disks ≤ 8) × (head_words ≤ length work.now) }
    ensures low { IfSome result (λ disk. disk < no_disk) }
    ensures chosen { (h : Carried) (class : ℕ) → own_work h work.now ≡ true → h.disks ≡ disks → h.ring ≡ ring → h.starts ≡ starts → h.tails ≡ tails
        → set ≡ set_for h.classes class
        → MatchOption result (idlest (core_of h work.now) class 2 ≡ no_disk) (λ disk. disk ≡ idlest (core_of h work.now) class 2) }
{
    let fills = &work[FILLS_AT..SUMS_AT];
    let sums = &work[SUMS_AT..POSITIONS_AT];
    idlest(disks, ring, &starts, &tails, fills, sums, set)
}

pub fn begin(
    carried: Carried,
    class: u8,
    anchor: &[u64],
    pages: &[u64],
    backups: &[u64],
    logs: &[u64],
    work: &mut [u64],
) -> Handed
    ensures { Serves (begin class) carried (world_of anchor.now pages.now backups.now logs.now work.old)
        result 0 (world_of anchor.now pages.now backups.now logs.now work.new) }
{
    if let Err(refusal) = check_lent(&carried, anchor, pages, backups, logs, work) {
        return refused(carried, refusal);
    }
    if anchor.len() != ANCHOR_WORDS {
        return refused(carried, Refusal::AnchorLength);
    }
    let Some(place) = place_of(work, 0) else {
        return refused(carried, Refusal::TableFull);
    };
    let number = carried.next;
    if number >= LIMIT {
        return refused(carried, Refusal::Spent);
    }
    let starts = carried.starts;
    let tails = carried.tails;
    let set = set_for(carried.classes, class);
    let Some(disk) = idlest_disk(carried.disks, carried.ring, starts, tails, set, work) else {
        return refused(carried, Refusal::NoRoom);
    };
    let sum = work[SUMS_AT + disk] + CLOSE_WORDS;
    enter(work, place, number, disk, 0, CLOSE_WORDS, sum);
    let next = number + 1;
    finished(Carried { next, ..carried }, 0, number)
}
