// The words that the places of a table reserve, counted anew for each disk.
ghost use Rattle.std.specs.Prelude.{◌≡◌, cond, not, ◌&&◌, ℕ, ◌+◌, ◌≤◌, ◌<◌, min, length, get_or, eqb};
ghost use Rattle.table.specs.Parts.{cap};

// Sums of reserved words stop here, far above the limit: a table that no call made may hold any numbers.
const CAP: u64 = 9223372036854775808;

// The sum, at most CAP.
fn capped(a: u64, b: u64) -> u64
    ensures { result ≡ min cap (a + b) }
{
    a.saturating_add(b).min(CAP)
}

// Adds what one place reserves to the sum of its disk.
pub fn add_place(sums: &mut [u64], number: u64, disk: u64, words: u64)
    requires { (length sums.old ≡ 8) × ((d : ℕ) → d < 8 → get_or sums.old d 0 ≤ cap) }
    ensures { (d : ℕ) → d < 8 → get_or sums.new d 0 ≡ min cap (get_or sums.old d 0 + cond (not (eqb number 0) && eqb disk d) words 0) }
{
    if number == 0 {
        return;
    }
    if disk >= 8 {
        return;
    }
    let d = disk as usize;
    sums[d] = capped(sums[d], words);
}
