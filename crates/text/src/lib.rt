// Writing text into bytes from its end: what is put stands in front of what is there, and the answer is where it starts.
#![tactic(auto)]

ghost use Rattle.std.specs.Prelude.{◌≡◌, ◌+◌, ◌-◌, ◌≤◌, ◌++◌, length, drop, replicate};
ghost use Rattle.model.specs.Text.{last_digits};

// A number in decimal, its last `most` digits.
pub fn put_number(out: &mut [u8], end: usize, most: usize, n: u64) -> usize
    requires { (most ≤ end) × (end ≤ length out.old) }
    ensures n_value { result + length (last_digits most n) ≡ end }
    ensures out_after { drop result out.new ≡ last_digits most n ++ drop end out.old }
{
    let least = end - most;
    let mut rest = n;
    for i in (least..end).rev() {
        out[i] = b'0' + (rest % 10) as u8;
        if rest < 10 {
            return i;
        }
        rest /= 10;
    }
    least
}

// Bytes.
pub fn put_text(out: &mut [u8], end: usize, text: &[u8]) -> usize
    requires { (length text.now ≤ end) × (end ≤ length out.old) }
    ensures text_value { result + length text.now ≡ end }
    ensures out_after { drop result out.new ≡ text.now ++ drop end out.old }
{
    let start = end - text.len();
    out[start..end].copy_from_slice(text);
    start
}

// The same byte over and over, back to `from`.
pub fn put_run(out: &mut [u8], from: usize, end: usize, byte: u8)
    requires { (from ≤ end) × (end ≤ length out.old) }
    ensures { drop from out.new ≡ replicate (end - from) byte ++ drop end out.old }
{
    out[from..end].fill(byte);
}
