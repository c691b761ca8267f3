// How a call ends that takes its state in two parts: refused, finished or cut.
ghost use Rattle.std.specs.Prelude.{◌≡◌};
ghost use Rattle.model.specs.State.{new_core};
ghost use Rattle.model.specs.View.{carried_of};
ghost use Rattle.frame.specs.Handed.{refused_to, finished_to, cut_to};
ghost use Rattle.frame.specs.Refusal.{number_of};

use crate::refusal::Refusal;
use crate::states::no_classes;
use model::{Answer, BadRecord, Carried, Handed, Stage};

// A refusal hands back what came in.
pub fn refused(carried: Carried, refusal: Refusal) -> Handed
    ensures { result ≡ refused_to carried (number_of refusal) 0 0 }
{
    refused_at(carried, refusal, 0, 0)
}

// One that says where.
pub fn refused_at(carried: Carried, refusal: Refusal, first: u64, second: u64) -> Handed
    ensures { result ≡ refused_to carried (number_of refusal) first second }
{
    Handed {
        answer: Answer::Refused {
            number: refusal.number(),
            first,
            second,
        },
        carried,
    }
}

// No. 7: a malformed record.
pub fn unreadable(carried: Carried, bad: BadRecord) -> Handed
    ensures { result ≡ refused_to carried 7 bad.disk bad.position }
{
    refused_at(carried, Refusal::Malformed, bad.disk, bad.position)
}

pub fn finished(carried: Carried, stores: u64, value: u64) -> Handed
    ensures { result ≡ finished_to carried stores value }
{
    Handed {
        answer: Answer::Finished { stores, value },
        carried,
    }
}

// What a new state carries.
pub fn new_carried() -> Carried
    ensures { result ≡ carried_of new_core }
{
    Carried {
        stage: Stage::Shut,
        pages: 0,
        disks: 0,
        ring: 0,
        total: 0,
        epoch: 0,
        next: 0,
        copied: 0,
        starts: [0u64; 8],
        tails: [0u64; 8],
        ends: [0u64; 8],
        classes: no_classes(),
    }
}

// A cut call hands back a new state.
pub fn cut(stores: u64) -> Handed
    ensures { result ≡ cut_to stores }
{
    Handed {
        answer: Answer::Interrupted { stores },
        carried: new_carried(),
    }
}
