// Where a disk's log lies in the logs of all disks: a disk's ring size and place are worked out here and nowhere else.
ghost use Rattle.std.specs.Prelude.{◌≡◌, ◌≤◌, ◌<◌, ◌^◌};
ghost use Rattle.model.specs.declared.Sizes.{Sizes};
ghost use Rattle.model.specs.Sizes.{ring_of, disk_at};

use model::Sizes;

// The ring size of a disk: today that of every disk.
pub fn ring_of(sizes: Sizes, disk: u64) -> u64
    ensures { result ≡ ring_of sizes disk }
{
    sizes.ring
}

// The index of a disk's tail word, which its ring follows.
pub fn disk_at(ring: u64, disk: u64) -> u64
    requires { (disk ≤ 8) × (ring ≤ 65536) }
    ensures { ((s : Sizes) → s.ring ≡ ring → result ≡ disk_at s disk) × (result < 2 ^ 20) }
{
    disk * (ring + 1)
}
