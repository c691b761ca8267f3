// Lists of the head, from the work memory and into it.
ghost use Rattle.std.specs.Prelude.{◌≡◌, ℕ, ◌+◌, ◌^◌, ◌≤◌, ◌<◌, length, map};
ghost use Rattle.std.proofs.lemmas.List.Edits.{sets};
ghost use Rattle.model.specs.Word.{part};
ghost use Rattle.head.specs.Narrow.{capped, byte_most, base_most};

// Words made narrower, one by one.
fn narrow<T: Copy, F: Fn(u64) -> T>(out: &mut [T], words: &[u64], narrowed: F)
    requires long { length out.old ≡ length words.now }
    requires callable { F.IsAlwaysCallable narrowed }
    ensures { (number : ℕ → T) → ((x : ℕ) (y : T) → x < 2 ^ 64 → F.post narrowed x y → y ≡ number x) → out.new ≡ map number words.now }
{
    for i in 0..words.len() {
        out[i] = narrowed(words[i]);
    }
}

pub fn bytes_at(work: &[u64], at: usize) -> [u8; 64]
    requires { at + 64 ≤ length work.now }
    ensures { result ≡ capped byte_most (part at 64 work.now) }
{
    let mut out = [0u8; 64];
    narrow(&mut out, &work[at..at + 64], |word| word.min(255) as u8);
    out
}

pub fn bases_at(work: &[u64], at: usize) -> [u16; 64]
    requires { at + 64 ≤ length work.now }
    ensures { result ≡ capped base_most (part at 64 work.now) }
{
    let mut out = [0u16; 64];
    narrow(&mut out, &work[at..at + 64], |word| word.min(65535) as u16);
    out
}

// As many words as the caller's list has.
pub fn words_at<const N: usize>(work: &[u64], at: usize) -> [u64; N]
    requires { at + N ≤ length work.now }
    ensures { result ≡ part at N work.now }
{
    let mut out = [0u64; N];
    out.copy_from_slice(&work[at..at + N]);
    out
}

// Numbers of any width go into whole words.
pub fn put_numbers<T: Copy + Into<u64>>(work: &mut [u64], at: usize, numbers: &[T])
    requires { at + length numbers.now ≤ length work.old }
    ensures { (word : T → ℕ) → ((x : T) (y : ℕ) → T.converts x y → y ≡ word x) → work.new ≡ sets work.old at (map word numbers.now) }
{
    for i in 0..numbers.len() {
        work[at + i] = numbers[i].into();
    }
}
