// Whether the lent work memory is the state's own, and where its body begins.
ghost use Rattle.std.specs.Prelude.{◌≡◌, List, ℕ, min, length};
ghost use Rattle.model.specs.declared.Carried.{Carried};
ghost use Rattle.model.specs.Causes.{when_shut};
ghost use Rattle.model.specs.View.{head_words, own_work};

use crate::places::HEAD_WORDS;
use model::Stage;

// Behind the head: the words of each disk's buffer, then the pages' copy numbers.
const BUFFER_WORDS: u64 = 64;

const COPY_WORDS: usize = 64;

pub fn is_shut(stage: Stage) -> bool
    ensures { result ≡ when_shut stage }
{
    matches!(stage, Stage::Shut)
}

// Of any numbers, so that no sum is made of them: what the head, the copy numbers and the T owners leave is the buffers.
pub fn is_own(stage: Stage, disks: u64, total: u64, words: usize) -> bool
    ensures { (h : Carried) (work : List ℕ) → h.stage ≡ stage → h.disks ≡ disks → h.total ≡ total
        → length work ≡ words → result ≡ own_work h work }
{
    if is_shut(stage) {
        return false;
    }
    if words < HEAD_WORDS + COPY_WORDS {
        return false;
    }
    let rest = (words - HEAD_WORDS - COPY_WORDS) as u64;
    if rest < total {
        return false;
    }
    let buffers = rest - total;
    if buffers % BUFFER_WORDS != 0 {
        return false;
    }
    buffers / BUFFER_WORDS == disks
}

// Where the body begins; at the end, where the work memory is shorter than a head.
pub fn body_start(words: usize) -> usize
    ensures { result ≡ min head_words words }
{
    HEAD_WORDS.min(words)
}
