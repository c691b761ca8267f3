// Where the logs end.
ghost use Rattle.std.specs.Prelude.{◌≡◌, true};
ghost use Rattle.model.specs.State.{end_of, serving_sound};
ghost use Rattle.model.specs.Checkpoint.{per_disk};

use model::Core;

// Each disk's end, tail plus buffered; 0 from D on.
pub fn ends_of(core: Core) -> [u64; 8]
    requires { serving_sound core ≡ true }
    ensures { result ≡ per_disk core.sizes (end_of core.logs) }
{
    let logs = core.logs;
    let mut ends = [0u64; 8];
    for d in 0..core.sizes.disks as usize {
        ends[d] = logs.tails[d] + logs.fills[d];
    }
    ends
}
