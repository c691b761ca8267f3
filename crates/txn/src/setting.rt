// Setting a table of classes: which disks serve which transactions.
ghost use Rattle.std.specs.Prelude.{◌≡◌, List, ℕ, length};
ghost use Rattle.model.specs.declared.Carried.{Carried};
ghost use Rattle.model.specs.World.{world_of};
ghost use Rattle.model.specs.Call.{set_classes};
ghost use Rattle.model.specs.View.{Serves};
ghost use Rattle.frame.specs.Refusal.{row_in};
ghost use Rattle.txn.specs.ClassChecks.{lent_fault};

use classes::kept::classes_of;
use classes::lines::{not_a_table, twice_covered, uncovered_class, wrong_line};
use frame::fits::counts_fit;
use frame::handed::{finished, refused, refused_at};
use frame::refusal::Refusal;
use frame::stages::is_serving;
use head::own::is_own;
use model::{Carried, Handed};

// The stage or the counts refuse, then a length; else the lines are to be looked at.
fn check_lines_lent(carried: &Carried, lines: &[u64], work: &[u64]) -> Result<(), Refusal>
    ensures { row_in result ≡ lent_fault carried.now work.now lines.now }
{
    if !is_serving(carried.stage) {
        return Err(Refusal::Stage);
    }
    if !counts_fit(carried.pages, carried.disks, carried.ring, carried.total) {
        return Err(Refusal::Stage);
    }
    if !is_own(carried.stage, carried.disks, carried.total, work.len()) {
        return Err(Refusal::Length);
    }
    if not_a_table(lines) {
        Err(Refusal::Length)
    } else {
        Ok(())
    }
}

// Three words a line: lowest class, highest class, set of disks. What is in the work memory does not matter, but it goes with the state.
pub fn set_classes(carried: Carried, lines: &[u64], work: &[u64]) -> Handed
    ensures { (anchor pages backups logs : List ℕ) → Serves (set_classes lines.now) carried (world_of anchor pages backups logs work.now)
        result 0 (world_of anchor pages backups logs work.now) }
{
    if let Err(refusal) = check_lines_lent(&carried, lines, work) {
        return refused(carried, refusal);
    }
    if let Some(line) = wrong_line(carried.disks, lines) {
        return refused_at(carried, Refusal::ClassLine, line as u64, 0);
    }
    let classes = classes_of(lines);
    let next = Carried { classes, ..carried };
    let uncovered = uncovered_class(lines);
    let twice = twice_covered(lines);
    if let Some(class) = uncovered {
        return refused_at(carried, Refusal::NotCovered, class, 0);
    }
    if let Some(class) = twice {
        return refused_at(carried, Refusal::CoveredTwice, class, 0);
    }
    finished(next, 0, 0)
}
