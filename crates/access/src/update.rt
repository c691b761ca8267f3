// Update: its checks, then the change.
ghost use Rattle.std.specs.Prelude.{◌≡◌, ◌≤◌, ◌<◌, length};
ghost use Rattle.model.specs.World.{world_of};
ghost use Rattle.model.specs.Call.{update};
ghost use Rattle.model.specs.View.{head_words, Serves};
ghost use Rattle.model.specs.Fields.{put_words, entering, filling};

use crate::change::log_and_set;
use crate::plan::{Plan, plan_update};
use disk_log::kinds::UPDATE;
use disk_log::write::Head;
use frame::handed::{cut, finished, refused};
use frame::home::home_at;
use head::places::HEAD_WORDS;
use head::table::{enter, set_fill};
use model::{Carried, Handed};

// The head after an update whose log then ends with so many buffered words.
fn count_update(work: &mut [u64], plan: Plan, number: u64, fill: u64)
    requires { (plan.place < 16) × (plan.disk < 8) × (head_words ≤ length work.old) }
    ensures { work.new ≡ put_words (filling plan.disk fill)
        (put_words (entering plan.place number plan.disk plan.first plan.reserved plan.sum) work.old) }
{
    let disk = plan.disk as usize;
    enter(
        work,
        plan.place,
        number,
        disk,
        plan.first,
        plan.reserved,
        plan.sum,
    );
    set_fill(work, disk, fill);
}

pub fn update(
    carried: Carried,
    number: u64,
    page: u64,
    slot: u64,
    value: &[u64],
    anchor: &[u64],
    pages: &mut [u64],
    backups: &[u64],
    logs: &mut [u64],
    work: &mut [u64],
    budget: &mut u64,
) -> Handed
    ensures { Serves (update number page slot value.now budget.old) carried (world_of anchor.now pages.old backups.now logs.old work.old)
        result budget.new (world_of anchor.now pages.new backups.now logs.new work.new) }
{
    let plan = match plan_update(
        &carried,
        number,
        page,
        slot,
        value.len(),
        anchor,
        pages,
        backups,
        logs,
        work,
    ) {
        Ok(plan) => plan,
        Err(refusal) => return refused(carried, refusal),
    };
    let before = *budget;
    let home = home_at(carried.ring, plan.disk, plan.tail, plan.fill);
    let head = Head {
        kind: UPDATE,
        page,
        slot,
        number,
        copy: plan.copy,
    };
    let body = &mut work[HEAD_WORDS..];
    let Some(changed) = log_and_set(
        home, head, plan.at, plan.owner, value, pages, logs, body, budget,
    ) else {
        return cut(before.saturating_sub(*budget));
    };
    let stores = before.saturating_sub(*budget);
    count_update(work, plan, number, changed.tip.fill);
    // most updates flush nothing
    if changed.tip.tail == plan.tail {
        return finished(carried, stores, changed.ones);
    }
    let d = plan.disk as usize;
    let mut moved = carried.tails;
    moved[d] = changed.tip.tail;
    finished(
        Carried {
            tails: moved,
            ..carried
        },
        stores,
        changed.ones,
    )
}
