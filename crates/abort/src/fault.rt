// No. 7: what an abort finds wrong in the log that it reads.
ghost use Rattle.std.specs.Prelude.{◌+◌, ◌≤◌};
ghost use Rattle.model.specs.State.{end_of};
ghost use Rattle.abort.specs.Undo.{only_log, Serving};
ghost use Rattle.abort.specs.Scope.{Examines};

use crate::notes::Notes;
use crate::reading::survey_from;
use crate::scope::Scope;
use disk_log::write::Tip;
use model::{BadRecord, Sizes};

// Where the updates are read from; or the first malformed record, or more words of updates than are reserved for them.
pub fn examine(
    sizes: Sizes,
    tip: Tip,
    scope: Scope,
    number: u64,
    logs: &[u64],
    work: &[u64],
) -> Result<Notes, BadRecord>
    requires serving { Serving sizes (only_log scope.disk tip) scope.disk logs.now work.now }
    requires disk_bound { end_of (only_log scope.disk tip) scope.disk ≤ scope.from + 65536 }
    ensures { Examines sizes (only_log scope.disk tip) scope number logs.now work.now result }
{
    let found = survey_from(sizes, tip, scope.disk, number, scope.from, logs, work)?;
    if scope.words < found.words {
        return Err(BadRecord {
            disk: scope.disk,
            position: scope.first,
        });
    }
    Ok(found.notes)
}
