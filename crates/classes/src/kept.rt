// A table as it is kept by value, and what it says of a class.
ghost use Rattle.std.specs.Prelude.{◌≡◌, MatchOption, ℕ, ◌+◌, ◌*◌, ◌<◌, ◌≤◌, get_or};
ghost use Rattle.model.specs.Below.{within, list_below, first_below};
ghost use Rattle.model.specs.Classes.{max_lines, in_set, classes_of, set_for};

use crate::lines::covers;
use model::Classes;

// The word at a place, or 0 past the end.
fn byte_at(lines: &[u64], at: usize) -> u8
    requires { get_or lines.now at 0 < 256 }
    ensures { result ≡ get_or lines.now at 0 }
{
    lines.get(at).copied().unwrap_or(0) as u8
}

// The same word of each line.
fn column(lines: &[u64], word: usize) -> [u8; 16]
    requires { (word < 3) × ((i : ℕ) → get_or lines.now i 0 < 256) }
    ensures { result ≡ list_below (λ i. get_or lines.now (3 * i + word) 0) max_lines }
{
    let mut out = [0u8; 16];
    for i in 0..16 {
        out[i] = byte_at(lines, 3 * i + word);
    }
    out
}

pub fn classes_of(lines: &[u64]) -> Classes
    requires { (i : ℕ) → get_or lines.now i 0 < 256 }
    ensures { result ≡ classes_of lines.now }
{
    let lows = column(lines, 0);
    let highs = column(lines, 1);
    let sets = column(lines, 2);
    Classes { lows, highs, sets }
}

// The first line that covers a class.
fn line_for(lows: [u8; 16], highs: [u8; 16], class: u8) -> Option<usize>
    ensures { MatchOption result (first_below (λ i. within (get_or lows i 0) (get_or highs i 0) class) max_lines ≡ max_lines)
        (λ line. (line ≡ first_below (λ i. within (get_or lows i 0) (get_or highs i 0) class) max_lines) × (line < max_lines)) }
{
    for i in 0..16 {
        if covers(lows[i] as u64, highs[i] as u64, class as u64) {
            return Some(i);
        }
    }
    None
}

// The disks that serve a class: all of them where no table is set.
pub fn set_for(classes: Classes, class: u8) -> u64
    ensures { (result ≤ 255) × (result ≡ set_for classes class) }
{
    let sets = classes.sets;
    if sets[0] == 0 {
        return 255;
    }
    let lows = classes.lows;
    let highs = classes.highs;
    match line_for(lows, highs, class) {
        Some(line) => sets[line] as u64,
        None => 0,
    }
}

pub fn in_set(set: u64, disk: usize) -> bool
    requires { disk < 64 }
    ensures { result ≡ in_set set disk }
{
    (set >> disk) % 2 == 1
}
