// The checks of a table as it is lent: lowest class, highest class and set of disks, three words a line.
ghost use Rattle.std.specs.Prelude.{◌≡◌, MatchOption, ℕ, Bool, ◌^◌, ◌≤◌, ◌<◌};
ghost use Rattle.model.specs.Below.{within, first_below};
ghost use Rattle.model.specs.Classes.{class_count, line_count, not_a_table, line_wrong, wrong_line, times_covered, uncovered_class, twice_covered};

pub fn not_a_table(lines: &[u64]) -> bool
    ensures { result ≡ not_a_table lines.now }
{
    let len = lines.len();
    len % 3 != 0 || len == 0 || 48 < len
}

fn line_wrong(disks: u64, low: u64, high: u64, set: u64) -> bool
    requires { disks ≤ 8 }
    ensures { result ≡ line_wrong disks low high set }
{
    high < low || 255 < high || set == 0 || 1u64 << disks <= set
}

// The first line that is wrong.
pub fn wrong_line(disks: u64, lines: &[u64]) -> Option<usize>
    requires { disks ≤ 8 }
    ensures { MatchOption result (wrong_line disks lines.now ≡ line_count lines.now) (λ i. (i ≡ wrong_line disks lines.now) × (i < line_count lines.now)) }
{
    let count = lines.len() / 3;
    for i in 0..count {
        let at = 3 * i;
        if line_wrong(disks, lines[at], lines[at + 1], lines[at + 2]) {
            return Some(i);
        }
    }
    None
}

pub fn covers(low: u64, high: u64, class: u64) -> bool
    ensures { result ≡ within low high class }
{
    (low..=high).contains(&class)
}

fn times_covered(lines: &[u64], class: u64) -> u64
    ensures { result ≡ times_covered lines.now class }
{
    let count = lines.len() / 3;
    let mut times: u64 = 0;
    for i in 0..count {
        let at = 3 * i;
        if covers(lines[at], lines[at + 1], class) {
            times += 1;
        }
    }
    times
}

// The lowest class that so many lines cover as the test asks for.
fn first_class<F: Fn(u64) -> bool>(lines: &[u64], asked: F) -> Option<u64>
    requires { F.IsAlwaysCallable asked }
    ensures { (test : ℕ → Bool) → ((times : ℕ) (b : Bool) → times < 2 ^ 64 → F.post asked times b → b ≡ test times)
        → MatchOption result (first_below (λ class. test (times_covered lines.now class)) class_count ≡ class_count)
        (λ class. (class ≡ first_below (λ class. test (times_covered lines.now class)) class_count) × (class < class_count)) }
{
    for class in 0..256 {
        if asked(times_covered(lines, class)) {
            return Some(class);
        }
    }
    None
}

// The lowest class that no line covers.
pub fn uncovered_class(lines: &[u64]) -> Option<u64>
    ensures { MatchOption result (uncovered_class lines.now ≡ class_count) (λ class. (class ≡ uncovered_class lines.now) × (class < class_count)) }
{
    first_class(lines, |times| times == 0)
}

// The lowest class that two lines cover.
pub fn twice_covered(lines: &[u64]) -> Option<u64>
    ensures { MatchOption result (twice_covered lines.now ≡ class_count) (λ class. (class ≡ twice_covered lines.now) × (class < class_count)) }
{
    first_class(lines, |times| 1 < times)
}
