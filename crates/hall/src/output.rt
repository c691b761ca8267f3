// The output: the lines of a piece of the input gather in a buffer.
ghost use Rattle.std.specs.Prelude.{◌≡◌, ◌+◌, ◌≤◌, ◌++◌, length, take, drop};
ghost use Rattle.hall.specs.Running.{text_of};

use commands::outcome::Outcome;
use lines::output::{put_line, put_other};

// Adds a text; answers the new fill.
pub fn add(out: &mut [u8], fill: usize, text: &[u8]) -> usize
    requires { fill + length text.now ≤ length out.old }
    ensures value { result ≡ fill + length text.now }
    ensures out_after { take result out.new ≡ take fill out.old ++ text.now }
{
    let end = fill + text.len();
    out[fill..end].copy_from_slice(text);
    end
}

// The line as text, at the end of the array.
fn text_of(text: &mut [u8], line: u64, outcome: Option<Outcome>) -> usize
    requires { 84 ≤ length text.old }
    ensures upper_bound { result ≤ length text.old }
    ensures text_after { drop result text.new ≡ text_of line outcome }
{
    match outcome {
        Some(o) => put_line(text, line, o.answer, o.stores, o.value),
        None => put_other(text, line),
    }
}

// Adds an outcome's line, of at most 84 bytes; answers the new fill.
pub fn add_line(out: &mut [u8], fill: usize, line: u64, outcome: Option<Outcome>) -> usize
    requires { fill + 84 ≤ length out.old }
    ensures upper_bound { result ≤ fill + 84 }
    ensures out_after { take result out.new ≡ take fill out.old ++ text_of line outcome }
{
    let mut text = [0u8; 84];
    let at = text_of(&mut text, line, outcome);
    add(out, fill, &text[at..])
}
