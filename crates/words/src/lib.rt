// Leaf functions on slices of words: exclusive or, copy, fill, and the difference of a slot.
#![tactic(auto)]

ghost use Rattle.std.specs.Prelude.{◌≡◌, ◌+◌, ◌≤◌, length, replicate};
ghost use Rattle.std.proofs.lemmas.List.Edits.{sets};
ghost use Rattle.model.specs.Word.{xors, ones_over, part};
ghost use Rattle.model.specs.Image.{xor_at};

// XORs the n words of source that start at `from` into target at `at`.
// XOR is its own inverse, so this both redoes a difference and takes it back (a compensation).
pub fn xor_in(target: &mut [u64], at: usize, source: &[u64], from: usize, n: usize)
    requires n_in_bounds { at + n ≤ length target.old }
    requires n_in_bounds_2 { from + n ≤ length source.now }
    ensures { target.new ≡ xor_at at (part from n source.now) target.old }
{
    for i in 0..n {
        target[at + i] ^= source[from + i];
    }
}

// Copies the n words of source that start at `from` into target at `at`.
pub fn copy_words(target: &mut [u64], at: usize, source: &[u64], from: usize, n: usize)
    requires n_in_bounds { at + n ≤ length target.old }
    requires n_in_bounds_2 { from + n ≤ length source.now }
    ensures { target.new ≡ sets target.old at (part from n source.now) }
{
    target[at..at + n].copy_from_slice(&source[from..from + n]);
}

// Sets the n words of target that start at `at` to value.
pub fn fill_words(target: &mut [u64], at: usize, n: usize, value: u64)
    requires { at + n ≤ length target.old }
    ensures { target.new ≡ sets target.old at (replicate n value) }
{
    target[at..at + n].fill(value);
}

// Writes a slot's difference, before XOR after, into out at `at`, and hands back how many of its bits are 1 over all its words.
// Before is the slot as it is, at `from` in pages; after is value. A slot has at most 32 words, so the count is a word.
pub fn difference(out: &mut [u64], at: usize, pages: &[u64], from: usize, value: &[u64]) -> u64
    requires value_in_bounds { at + length value.now ≤ length out.old }
    requires value_in_bounds_2 { from + length value.now ≤ length pages.now }
    requires value_len_bound { length value.now ≤ 32 }
    ensures { (out.new ≡ sets out.old at (xors (part from (length value.now) pages.now) value.now))
        × (result ≡ ones_over (xors (part from (length value.now) pages.now) value.now)) }
{
    let n = value.len();
    let mut ones = 0;
    for i in 0..n {
        out[at + i] = pages[from + i] ^ value[i];
        ones += u64::count_ones(out[at + i]) as u64;
    }
    ones
}
