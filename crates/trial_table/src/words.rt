// Words of a slice.
ghost use Rattle.std.specs.Prelude.{◌≡◌, length};

// The word at i, 0 past the end.
pub fn get(s: &[u64], i: u64) -> u64 {
    s.get(i as usize).copied().unwrap_or(0)
}

// Puts a word at i, or nothing past the end.
pub fn put(s: &mut [u64], i: u64, x: u64) {
    if let Some(word) = s.get_mut(i as usize) {
        *word = x;
    }
}

// The first n words, or all where there are fewer.
pub fn front(s: &[u64], n: u64) -> &[u64] {
    let end = s.len().min(n as usize);
    &s[..end]
}

// The same, lent to be written: a `&mut` is another type.
pub fn front_mut(s: &mut [u64], n: u64) -> &mut [u64] {
    let end = s.len().min(n as usize);
    &mut s[..end]
}

// What stands from n on; nothing where there are fewer.
pub fn tail(s: &[u64], n: u64) -> &[u64] {
    let start = s.len().min(n as usize);
    &s[start..]
}

// The same, lent to be written: a `&mut` is another type.
pub fn tail_mut(s: &mut [u64], n: u64) -> &mut [u64] {
    let start = s.len().min(n as usize);
    &mut s[start..]
}

// Adds to the word at i.
pub fn add_to(s: &mut [u64], i: u64, x: u64) {
    let word = get(s, i);
    put(s, i, word.saturating_add(x));
}

// Puts words at a place; those that would stand past the end are left out.
pub fn put_words(target: &mut [u64], at: u64, source: &[u64]) {
    for (word, x) in tail_mut(target, at).iter_mut().zip(source) {
        *word = *x;
    }
}

// Puts n words of a slice at another place of it, the last one first.
pub fn move_words(s: &mut [u64], from: u64, at: u64, n: u64) {
    for i in (0..n).rev() {
        let word = get(s, from.saturating_add(i));
        put(s, at.saturating_add(i), word);
    }
}

// One more where the test holds.
pub fn tally(n: u64, holds: bool) -> u64 {
    n.saturating_add(holds as u64)
}

// Whether the first n words of two slices are the same.
pub fn same(a: &[u64], b: &[u64], n: u64) -> bool {
    (0..n).all(|i| get(a, i) == get(b, i))
}

// Sets the first n words to 0.
pub fn wipe(target: &mut [u64], n: u64) {
    front_mut(target, n).fill(0);
}

// The place of a word among the first n of a list.
pub fn find(list: &[u64], n: u64, x: u64) -> Option<u64> {
    (0..n).find(|&i| get(list, i) == x)
}

// A product, 0 where a factor is above 65,537.
pub fn times(a: u64, b: u64) -> u64 {
    if a > 65537 || b > 65537 {
        return 0;
    }
    a * b
}

// An array of zeros. Who lends a long one reads its length here: the prover does not count so far.
pub fn zeros<const N: usize>() -> [u64; N]
    ensures { length result ≡ N }
{
    [0; N]
}
