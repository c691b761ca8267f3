// A disk of a serving state: the numbers that the functions of `log` are lent.
ghost use Rattle.std.specs.Prelude.{◌≡◌, ◌≤◌, ◌<◌, length};
ghost use Rattle.model.specs.declared.Sizes.{Sizes};
ghost use Rattle.model.specs.declared.Logs.{Logs};
ghost use Rattle.model.specs.State.{tail_of, fill_of};
ghost use Rattle.frame.specs.Home.{home_of};

use disk_log::write::Home;
use layout::disks::disk_at;
use layout::memory::buffer_place;
use model::{Logs, Sizes};

// A disk, by its numbers.
pub fn home_at(ring: u64, disk: u64, tail: u64, fill: u64) -> Home
    requires { (disk < 8) × (ring ≤ 65536) }
    ensures { (s : Sizes) (l : Logs) → s.ring ≡ ring → tail_of l disk ≡ tail → fill_of l disk ≡ fill → result ≡ home_of s l disk }
{
    Home {
        disk,
        place: disk_at(ring, disk),
        ring,
        buffer: buffer_place(disk),
        tail,
        fill,
    }
}

// A disk, by the sizes and the logs' part of a state.
// That the arrays are as long as their types say is told here, where it is near: callers' proofs use it.
pub fn home_of(sizes: Sizes, logs: Logs, disk: u64) -> Home
    requires { (disk < sizes.disks) × (sizes.disks ≤ 8) × (sizes.ring ≤ 65536) }
    ensures value { result ≡ home_of sizes logs disk }
    ensures starts_len { (length logs.starts ≡ 8) × (length logs.tails ≡ 8) × (length logs.fills ≡ 8) }
{
    let d = disk as usize;
    home_at(sizes.ring, disk, logs.tails[d], logs.fills[d])
}
