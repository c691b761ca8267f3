// The stages that a call is for.
ghost use Rattle.std.specs.Prelude.{◌≡◌};
ghost use Rattle.model.specs.Causes.{when_shut, when_replaying, when_open, when_copying, when_serving};
ghost use Rattle.frame.specs.Checks.{allowed_in};

use model::Stage;

// The stages that a call is for, if it is not for a shut state.
#[derive(Clone, Copy)]
pub enum When {
    Replaying,
    Open,
    Copying,
    Serving,
}

pub fn is_shut(stage: Stage) -> bool
    ensures { result ≡ when_shut stage }
{
    matches!(stage, Stage::Shut)
}

pub fn is_replaying(stage: Stage) -> bool
    ensures { result ≡ when_replaying stage }
{
    matches!(stage, Stage::Replaying)
}

pub fn is_open(stage: Stage) -> bool
    ensures { result ≡ when_open stage }
{
    matches!(stage, Stage::Open)
}

pub fn is_copying(stage: Stage) -> bool
    ensures { result ≡ when_copying stage }
{
    matches!(stage, Stage::Copying)
}

// Open or copying.
pub fn is_serving(stage: Stage) -> bool
    ensures { result ≡ when_serving stage }
{
    matches!(stage, Stage::Open | Stage::Copying)
}

pub fn is_allowed(when: When, stage: Stage) -> bool
    ensures { result ≡ allowed_in when stage }
{
    match when {
        When::Replaying => is_replaying(stage),
        When::Open => is_open(stage),
        When::Copying => is_copying(stage),
        When::Serving => is_serving(stage),
    }
}
