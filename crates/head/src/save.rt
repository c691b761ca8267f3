// The state handed back by a call: its lists into the head of the work memory, the rest by value.
ghost use Rattle.std.specs.Prelude.{◌≡◌, [], ◌∷◌, ◌++◌, ◌≤◌, length, drop};
ghost use Rattle.std.proofs.lemmas.List.Edits.{sets};
ghost use Rattle.model.specs.View.{head_slots, head_fills, head_numbers, head_words, carried_of, head_of};

use crate::lists::put_numbers;
use crate::places::{
    BASES_AT, DISKS_AT, FILLS_AT, FIRSTS_AT, NUMBERS_AT, PAGE_AT, POSITIONS_AT, RESERVED_AT,
    SLOTS_AT, SUMS_AT, WIDTHS_AT,
};
use model::{Bases, Carried, Core, Replay, Sizes, Table};

fn save_pages(work: &mut [u64], sizes: Sizes, bases: Bases)
    requires { head_words ≤ length work.old }
    ensures { work.new ≡ sets work.old head_slots (sizes.slots ++ (sizes.widths ++ bases.pages)) }
{
    let slots = sizes.slots;
    let widths = sizes.widths;
    let pages = bases.pages;
    put_numbers(work, SLOTS_AT, &slots);
    put_numbers(work, WIDTHS_AT, &widths);
    put_numbers(work, BASES_AT, &pages);
}

fn save_disks(work: &mut [u64], fills: [u64; 8], sums: [u64; 8], replay: Replay)
    requires { head_words ≤ length work.old }
    ensures { work.new ≡ sets work.old head_fills (fills ++ (sums ++ (replay.positions ++ (replay.page ∷ [])))) }
{
    let positions = replay.positions;
    put_numbers(work, FILLS_AT, &fills);
    put_numbers(work, SUMS_AT, &sums);
    put_numbers(work, POSITIONS_AT, &positions);
    work[PAGE_AT] = replay.page;
}

fn save_table(work: &mut [u64], table: Table)
    requires { head_words ≤ length work.old }
    ensures { work.new ≡ sets work.old head_numbers (table.numbers ++ (table.disks ++ (table.firsts ++ table.reserved))) }
{
    let numbers = table.numbers;
    let disks = table.disks;
    let firsts = table.firsts;
    let reserved = table.reserved;
    put_numbers(work, NUMBERS_AT, &numbers);
    put_numbers(work, DISKS_AT, &disks);
    put_numbers(work, FIRSTS_AT, &firsts);
    put_numbers(work, RESERVED_AT, &reserved);
}

pub fn save(core: Core, work: &mut [u64])
    requires { head_words ≤ length work.old }
    ensures { work.new ≡ head_of core ++ drop head_words work.old }
{
    let sizes = core.sizes;
    let bases = core.bases;
    let logs = core.logs;
    let table = core.table;
    let replay = core.replay;
    let fills = logs.fills;
    let sums = table.sums;
    save_pages(work, sizes, bases);
    save_disks(work, fills, sums, replay);
    save_table(work, table);
}

pub fn carried_of(core: Core) -> Carried
    ensures { result ≡ carried_of core }
{
    let stage = core.stage;
    let logs = core.logs;
    let checkpoint = core.checkpoint;
    let starts = logs.starts;
    let tails = logs.tails;
    let ends = checkpoint.ends;
    let classes = core.classes;
    Carried {
        stage,
        pages: core.sizes.pages,
        disks: core.sizes.disks,
        ring: core.sizes.ring,
        total: core.bases.total,
        epoch: core.epoch,
        next: core.next,
        copied: core.checkpoint.copied,
        starts,
        tails,
        ends,
        classes,
    }
}
