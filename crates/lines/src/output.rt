// Writing a line as text, from its end: what is put stands in front of what is there, and the answer is where it starts.
ghost use Rattle.std.specs.Prelude.{◌≡◌, ◌+◌, ◌≤◌, length, drop};
ghost use Rattle.lines.specs.Output.{field, line_text, other_text, tally_text};

use text::{put_number, put_text};

// A number in decimal, and a byte after it.
fn put_field(out: &mut [u8], end: usize, n: u64, after: u8) -> usize
    requires { (21 ≤ end) × (end ≤ length out.old) }
    ensures end_bound { (end ≤ result + 21) × (result ≤ end) }
    ensures out_after { drop result out.new ≡ field n after (drop end out.old) }
{
    let at = end - 1;
    out[at] = after;
    put_number(out, at, 20, n)
}

// Two numbers, with a byte after each.
fn put_two(out: &mut [u8], end: usize, n: u64, between: u8, m: u64, after: u8) -> usize
    requires { (42 ≤ end) × (end ≤ length out.old) }
    ensures end_bound { (end ≤ result + 42) × (result ≤ end) }
    ensures out_after { drop result out.new ≡ field n between (field m after (drop end out.old)) }
{
    let at = put_field(out, end, m, after);
    put_field(out, at, n, between)
}

// A line of the output at the end of out; answers where it starts.
pub fn put_line(out: &mut [u8], line: u64, answer: u64, stores: u64, value: u64) -> usize
    requires { 84 ≤ length out.old }
    ensures upper_bound { result ≤ length out.old }
    ensures out_after { drop result out.new ≡ line_text line answer stores value }
{
    let end = out.len();
    let at = put_two(out, end, stores, 32, value, 10);
    put_two(out, at, line, 32, answer, 32)
}

// A line for a line of any other form.
pub fn put_other(out: &mut [u8], line: u64) -> usize
    requires { 84 ≤ length out.old }
    ensures upper_bound { result ≤ length out.old }
    ensures out_after { drop result out.new ≡ other_text line }
{
    let end = out.len();
    let at = put_text(out, end, b"? 0 0\n");
    put_field(out, at, line, 32)
}

// The last line.
pub fn put_tally(out: &mut [u8], taken: u64, refused: u64, cut: u64) -> usize
    requires { 84 ≤ length out.old }
    ensures upper_bound { result ≤ length out.old }
    ensures out_after { drop result out.new ≡ tally_text taken refused cut }
{
    let end = out.len();
    let third = put_field(out, end, cut, 10);
    let at = put_two(out, third, taken, 32, refused, 32);
    put_text(out, at, b"tally ")
}
