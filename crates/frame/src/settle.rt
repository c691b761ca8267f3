// How a call ends: refused, finished or cut.
ghost use Rattle.std.specs.Prelude.{◌≡◌, ◌-◌};
ghost use Rattle.frame.specs.Settle.{refused_with, finished_with, settled};
ghost use Rattle.frame.specs.Refusal.{number_of};

use crate::refusal::Refusal;
use crate::states::new_core;
use model::{Answer, Core, Reply};

// A refusal leaves the state as it was.
pub fn refuse_at(core: Core, refusal: Refusal, first: u64, second: u64) -> Reply
    ensures { result ≡ refused_with core (number_of refusal) first second }
{
    Reply {
        answer: Answer::Refused {
            number: refusal.number(),
            first,
            second,
        },
        core,
    }
}

pub fn refuse(core: Core, refusal: Refusal) -> Reply
    ensures { result ≡ refused_with core (number_of refusal) 0 0 }
{
    refuse_at(core, refusal, 0, 0)
}

// A call that is finished and stored nothing.
pub fn finish(core: Core, value: u64) -> Reply
    ensures { result ≡ finished_with core value }
{
    Reply {
        answer: Answer::Finished { stores: 0, value },
        core,
    }
}

// A call whose stores took a budget down to `rest`: it is finished if all were made, and else cut.
pub fn settle(whole: bool, budget: u64, rest: u64, value: u64, core: Core) -> Reply
    ensures { result ≡ settled whole budget rest value core }
{
    let stores = budget.saturating_sub(rest);
    if whole {
        return Reply {
            answer: Answer::Finished { stores, value },
            core,
        };
    }
    Reply {
        answer: Answer::Interrupted { stores },
        core: new_core(),
    }
}
