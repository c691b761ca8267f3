// The commands, by name and numbers.
ghost use Rattle.std.specs.Prelude.{◌≡◌};
ghost use Rattle.lines.specs.Line.{without_numbers, set_of, commit_of, abort_of, get_of, form_without_numbers, form_of};

// What a line asks for.
#[derive(Clone, Copy)]
pub enum Command {
    Begin,
    Set {
        number: u64,
        page: u64,
        slot: u64,
        value: u64,
    },
    Commit {
        number: u64,
        allowance: u64,
    },
    Abort {
        number: u64,
    },
    Get {
        page: u64,
        slot: u64,
    },
    Mark,
    Copy,
    Close,
    Restart,
}

// A command that takes no numbers.
#[tactic(auto, unfolding(crate::specs::Line::without_numbers))]
fn without_numbers(command: Command, values: &[u64]) -> Option<Command>
    ensures { result ≡ without_numbers command values.now }
{
    match values {
        [] => Some(command),
        _ => None,
    }
}

#[tactic(auto, unfolding(crate::specs::Line::set_of))]
fn set_of(values: &[u64]) -> Option<Command>
    ensures { result ≡ set_of values.now }
{
    match values {
        &[number, page, slot, value] => Some(Command::Set {
            number,
            page,
            slot,
            value,
        }),
        _ => None,
    }
}

// Without an allowance it is the largest.
#[tactic(auto, unfolding(crate::specs::Line::commit_of))]
fn commit_of(values: &[u64]) -> Option<Command>
    ensures { result ≡ commit_of values.now }
{
    match values {
        &[number] => Some(Command::Commit {
            number,
            allowance: u64::MAX,
        }),
        &[number, allowance] => Some(Command::Commit { number, allowance }),
        _ => None,
    }
}

#[tactic(auto, unfolding(crate::specs::Line::abort_of))]
fn abort_of(values: &[u64]) -> Option<Command>
    ensures { result ≡ abort_of values.now }
{
    match values {
        &[number] => Some(Command::Abort { number }),
        _ => None,
    }
}

#[tactic(auto, unfolding(crate::specs::Line::get_of))]
fn get_of(values: &[u64]) -> Option<Command>
    ensures { result ≡ get_of values.now }
{
    match values {
        &[page, slot] => Some(Command::Get { page, slot }),
        _ => None,
    }
}

// The commands of a checkpoint, and restart.
#[tactic(auto, using(crate::proofs::Names::same_is), unfolding(crate::specs::Line::form_without_numbers))]
fn form_without_numbers(name: &[u8], values: &[u64]) -> Option<Command>
    ensures { result ≡ form_without_numbers name.now values.now }
{
    if name == b"mark".as_slice() {
        without_numbers(Command::Mark, values)
    } else if name == b"copy".as_slice() {
        without_numbers(Command::Copy, values)
    } else if name == b"close".as_slice() {
        without_numbers(Command::Close, values)
    } else if name == b"restart".as_slice() {
        without_numbers(Command::Restart, values)
    } else {
        None
    }
}

// The command with a name and numbers; none where the line has any other form.
#[tactic(auto, using(crate::proofs::Names::same_is), unfolding(crate::specs::Line::form_of))]
pub fn form_of(name: &[u8], values: &[u64]) -> Option<Command>
    ensures { result ≡ form_of name.now values.now }
{
    if name == b"begin".as_slice() {
        without_numbers(Command::Begin, values)
    } else if name == b"set".as_slice() {
        set_of(values)
    } else if name == b"commit".as_slice() {
        commit_of(values)
    } else if name == b"abort".as_slice() {
        abort_of(values)
    } else if name == b"get".as_slice() {
        get_of(values)
    } else {
        form_without_numbers(name, values)
    }
}
