// Reading a line in pieces.
ghost use Rattle.std.specs.Prelude.{◌≡◌, ℕ, ◌+◌, ◌*◌, ◌<◌, ◌^◌, ◌≤◌, List, [], ◌∷◌, ◌++◌, length, SomeIff};
ghost use Rattle.lines.specs.declared.partial.Partial.TheVariants.{InName, InNumbers};
ghost use Rattle.lines.specs.Line.{command_of, line_length};
ghost use Rattle.lines.specs.After.{command_after};

use crate::command::{Command, form_of};
use crate::few::Few;

// The bytes of a name; no name of a command has more.
type Name = Few<u8, 7>;

// A name, and the numbers behind it: the values of those that have ended, and of the last the value so far, or none where nothing
// of it is read yet.
#[derive(Clone, Copy)]
pub struct Numbers {
    name: Name,
    ended: Few<u64, 4>,
    last: Option<u64>,
}

// What has been read of a line: the front of its name, or its name and the front of its numbers. Hopeless: it is no command however
// it goes on.
#[derive(Clone, Copy)]
pub enum Partial {
    InName(Name),
    InNumbers(Numbers),
    Hopeless,
}

// Nothing is read.
pub fn start() -> Partial
    ensures { (line : List ℕ) → command_after result line ≡ command_of line }
{
    Partial::InName(Few::none(0))
}

// A byte of the name.
fn name_byte(name: Name, b: u8) -> Partial
    requires { b ≡ 32 → ⊥ }
    ensures { (more : List ℕ) → command_after result more ≡ command_after (InName name) (b ∷ more) }
{
    match name.with(b) {
        Some(name) => Partial::InName(name),
        None => Partial::Hopeless,
    }
}

// A space after the name.
fn first_number(name: Name) -> Partial
    ensures { (more : List ℕ) → command_after result more ≡ command_after (InName name) (32 ∷ more) }
{
    Partial::InNumbers(Numbers {
        name,
        ended: Few::none(0),
        last: None,
    })
}

// A space after a number.
fn next_number(numbers: Numbers) -> Partial
    ensures { (more : List ℕ) → command_after result more ≡ command_after (InNumbers numbers) (32 ∷ more) }
{
    let Some(value) = numbers.last else {
        return Partial::Hopeless;
    };
    match numbers.ended.with(value) {
        Some(ended) => Partial::InNumbers(Numbers {
            ended,
            last: None,
            ..numbers
        }),
        None => Partial::Hopeless,
    }
}

// A value with a digit more behind it.
fn with_digit(value: u64, digit: u8) -> Option<u64>
    ensures { SomeIff result (value * 10 + digit < 2 ^ 64) (value * 10 + digit) }
{
    value.checked_mul(10)?.checked_add(digit as u64)
}

// A byte of a number.
fn number_byte(numbers: Numbers, b: u8) -> Partial
    requires { b ≡ 32 → ⊥ }
    ensures { (more : List ℕ) → command_after result more ≡ command_after (InNumbers numbers) (b ∷ more) }
{
    if !(b'0'..=b'9').contains(&b) {
        return Partial::Hopeless;
    }
    match with_digit(numbers.last.unwrap_or(0), b - b'0') {
        Some(value) => Partial::InNumbers(Numbers {
            last: Some(value),
            ..numbers
        }),
        None => Partial::Hopeless,
    }
}

fn step(p: Partial, b: u8) -> Partial
    ensures { (more : List ℕ) → command_after result more ≡ command_after p (b ∷ more) }
{
    match p {
        Partial::InName(name) if b == b' ' => first_number(name),
        Partial::InName(name) => name_byte(name, b),
        Partial::InNumbers(numbers) if b == b' ' => next_number(numbers),
        Partial::InNumbers(numbers) => number_byte(numbers, b),
        Partial::Hopeless => Partial::Hopeless,
    }
}

// Reads a piece of a line, as far as there is hope.
pub fn read_piece(partial: Partial, bytes: &[u8]) -> Partial
    ensures { (more : List ℕ) → command_after result more ≡ command_after partial (bytes.now ++ more) }
{
    let mut p = partial;
    for &b in bytes {
        if let Partial::Hopeless = p {
            return p;
        }
        p = step(p, b);
    }
    p
}

// The command of a name and numbers, the last one too.
fn whole(numbers: Numbers) -> Option<Command>
    ensures { result ≡ command_after (InNumbers numbers) [] }
{
    let value = numbers.last?;
    let all = numbers.ended.with(value)?;
    form_of(numbers.name.as_slice(), all.as_slice())
}

// The command of a line that is read to its end; none for a line of any other form.
pub fn command_of(partial: Partial) -> Option<Command>
    ensures { result ≡ command_after partial [] }
{
    match partial {
        Partial::InName(name) => form_of(name.as_slice(), &[]),
        Partial::InNumbers(numbers) => whole(numbers),
        Partial::Hopeless => None,
    }
}

// The bytes of a piece before the first end of a line, or all of them.
pub fn line_length(bytes: &[u8]) -> usize
    ensures value { result ≡ line_length bytes.now }
    ensures upper_bound { result ≤ length bytes.now }
{
    bytes
        .iter()
        .position(|&b| b == b'\n')
        .unwrap_or(bytes.len())
}
