// The log of a disk, ring then buffer: what is found in it, and the positions of a transaction's updates.
ghost use Rattle.std.specs.Prelude.{◌+◌, ◌≤◌, length};
ghost use Rattle.model.specs.Scan.{scan};
ghost use Rattle.model.specs.State.{end_of};
ghost use Rattle.disk_log.specs.Reading.{positions_in};
ghost use Rattle.disk_log.specs.Front.{Gathered};
ghost use Rattle.abort.specs.Undo.{only_log, Serving, reader};
ghost use Rattle.abort.specs.Groups.{FoundFrom};

use crate::notes::Notes;
use crate::window::{buffered, extent_at};
use disk_log::read::Extent;
use disk_log::updates::{Group, next_updates, survey_log};
use disk_log::write::Tip;
use model::{BadRecord, Sizes};

// The words of a transaction's updates, and where these are read from.
#[derive(Clone, Copy)]
pub struct Found {
    pub words: u64,
    pub notes: Notes,
}

// Reads the log once from a position on: what is found of the updates, or the first malformed record.
pub fn survey_from(
    sizes: Sizes,
    tip: Tip,
    disk: u64,
    number: u64,
    from: u64,
    logs: &[u64],
    work: &[u64],
) -> Result<Found, BadRecord>
    requires { Serving sizes (only_log disk tip) disk logs.now work.now × (end_of (only_log disk tip) disk ≤ from + 65536) }
    ensures { FoundFrom sizes (only_log disk tip) disk number from logs.now work.now result }
{
    let extent = extent_at(sizes, tip, disk);
    let buffer = buffered(tip, disk, work);
    let mut at = [0u64; 128];
    let found = survey_log(sizes, logs, disk, extent, buffer, from, number, &mut at);
    if let Some(bad) = found.fault {
        return Err(bad);
    }
    let notes = Notes {
        from,
        count: found.count,
        at,
    };
    Ok(Found {
        words: found.words,
        notes,
    })
}

// The positions of a transaction's next n updates, from a position on, in the log up to an end.
pub fn group_from(
    sizes: Sizes,
    tip: Tip,
    disk: u64,
    number: u64,
    from: u64,
    end: u64,
    n: u64,
    logs: &[u64],
    work: &[u64],
) -> Group
    requires serving { Serving sizes (only_log disk tip) disk logs.now work.now × (end ≤ end_of (only_log disk tip) disk) × (n ≤ 128) }
    requires n_in_bounds { n ≤ length (positions_in number (scan sizes (reader sizes (only_log disk tip) disk logs.now work.now) end from)) }
    ensures { Gathered number n (scan sizes (reader sizes (only_log disk tip) disk logs.now work.now) end from) result }
{
    let whole = extent_at(sizes, tip, disk);
    let buffer = buffered(tip, disk, work);
    next_updates(logs, Extent { end, ..whole }, buffer, from, number, n)
}
