// The first checks of a call that takes its state in two parts: what it is handed by value, and the lengths of what it is lent.
ghost use Rattle.std.specs.Prelude.{◌≡◌, ◌-◌, length};
ghost use Rattle.model.specs.Causes.{when_serving};
ghost use Rattle.model.specs.View.{head_words};
ghost use Rattle.frame.specs.Lent.{lent_refusal};
ghost use Rattle.frame.specs.Refusal.{row_in};

use crate::fits::counts_fit;
use crate::refusal::Refusal;
use crate::stages::is_serving;
use head::places::HEAD_WORDS;
use layout::anchor::ANCHOR_WORDS;
use layout::bounds::lengths_right;
use model::Carried;

// The length of what lies behind the head.
fn body_words(work: usize) -> usize
    ensures { result ≡ work - head_words }
{
    if work < HEAD_WORDS {
        0
    } else {
        work - HEAD_WORDS
    }
}

// The stage or the counts refuse; else, where a length but the anchor's is wrong, the anchor's or that one. Where those lengths are right
// the call goes on to what it tests of the state, and to the anchor.
pub fn check_when(
    allowed: bool,
    carried: &Carried,
    anchor: &[u64],
    pages: &[u64],
    backups: &[u64],
    logs: &[u64],
    work: &[u64],
) -> Result<(), Refusal>
    ensures { row_in result ≡ lent_refusal allowed carried.now.pages carried.now.disks carried.now.ring carried.now.total
        (length anchor.now) (length pages.now) (length backups.now) (length logs.now) (length work.now) }
{
    if !allowed {
        return Err(Refusal::Stage);
    }
    let disks = carried.disks;
    let ring = carried.ring;
    let total = carried.total;
    if !counts_fit(carried.pages, disks, ring, total) {
        return Err(Refusal::Stage);
    }
    let body = body_words(work.len());
    if lengths_right(
        disks,
        ring,
        total,
        pages.len(),
        backups.len(),
        logs.len(),
        body,
    ) {
        return Ok(());
    }
    if anchor.len() == ANCHOR_WORDS {
        Err(Refusal::Length)
    } else {
        Err(Refusal::AnchorLength)
    }
}

// Of a serving call.
pub fn check_lent(
    carried: &Carried,
    anchor: &[u64],
    pages: &[u64],
    backups: &[u64],
    logs: &[u64],
    work: &[u64],
) -> Result<(), Refusal>
    ensures { row_in result ≡ lent_refusal (when_serving carried.now.stage) carried.now.pages carried.now.disks carried.now.ring carried.now.total
        (length anchor.now) (length pages.now) (length backups.now) (length logs.now) (length work.now) }
{
    let serving = is_serving(carried.stage);
    check_when(serving, carried, anchor, pages, backups, logs, work)
}
