// The state by value, of what is carried and of the head of the work memory.
ghost use Rattle.std.specs.Prelude.{◌≡◌, ◌≤◌, length};
ghost use Rattle.model.specs.declared.Carried.{Carried};
ghost use Rattle.model.specs.View.{head_words, core_in, core_of};
ghost use Rattle.head.specs.Narrow.{narrowed};

use crate::lists::{bases_at, bytes_at, words_at};
use crate::own::is_own;
use crate::places::{
    BASES_AT, DISKS_AT, FILLS_AT, FIRSTS_AT, HEAD_WORDS, NUMBERS_AT, PAGE_AT, POSITIONS_AT,
    RESERVED_AT, SLOTS_AT, SUMS_AT, WIDTHS_AT,
};
use model::{Bases, Carried, Checkpoint, Core, Logs, Replay, Sizes, Table};

fn table_in(work: &[u64]) -> Table
    requires { head_words ≤ length work.now }
    ensures { (h : Carried) → result ≡ (core_in h work.now).table }
{
    Table {
        numbers: words_at(work, NUMBERS_AT),
        disks: words_at(work, DISKS_AT),
        firsts: words_at(work, FIRSTS_AT),
        reserved: words_at(work, RESERVED_AT),
        sums: words_at(work, SUMS_AT),
    }
}

fn core_in(carried: Carried, work: &[u64]) -> Core
    requires { head_words ≤ length work.now }
    ensures { result ≡ narrowed (core_in carried work.now) }
{
    let slots = bytes_at(work, SLOTS_AT);
    let widths = bytes_at(work, WIDTHS_AT);
    let bases = bases_at(work, BASES_AT);
    let fills = words_at(work, FILLS_AT);
    let positions = words_at(work, POSITIONS_AT);
    let table = table_in(work);
    let stage = carried.stage;
    let starts = carried.starts;
    let tails = carried.tails;
    let ends = carried.ends;
    let classes = carried.classes;
    Core {
        stage,
        sizes: Sizes {
            pages: carried.pages,
            disks: carried.disks,
            ring: carried.ring,
            slots,
            widths,
        },
        bases: Bases {
            pages: bases,
            total: carried.total,
        },
        epoch: carried.epoch,
        logs: Logs {
            starts,
            tails,
            fills,
        },
        table,
        next: carried.next,
        checkpoint: Checkpoint {
            ends,
            copied: carried.copied,
        },
        replay: Replay {
            positions,
            page: work[PAGE_AT],
        },
        classes,
    }
}

// As a new state has it, where the work memory is not the state's own: a head of zeros.
pub fn load(carried: Carried, work: &[u64]) -> Core
    ensures { result ≡ narrowed (core_of carried work.now) }
{
    let stage = carried.stage;
    if is_own(stage, carried.disks, carried.total, work.len()) {
        return core_in(carried, work);
    }
    let zeros = [0u64; HEAD_WORDS];
    core_in(carried, &zeros)
}
