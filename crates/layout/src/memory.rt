// The work memory: where buffers, copy numbers and slot owners lie in it, and the memory made fresh.
ghost use Rattle.std.specs.Prelude.{◌≡◌, ◌+◌, ◌≤◌, ◌<◌, length};
ghost use Rattle.model.specs.declared.Sizes.{Sizes};
ghost use Rattle.model.specs.Sizes.{total};
ghost use Rattle.model.specs.Memory.{buffer_at, copy_at, owner_at, copy_of};
ghost use Rattle.model.specs.Format.{fresh_work};

use words::fill_words;

// The first buffer word of a disk.
pub fn buffer_place(disk: u64) -> u64
    requires { disk ≤ 8 }
    ensures { (result ≡ buffer_at disk) × (result ≤ 512) }
{
    64 * disk
}

// The place of a page's copy number, behind the buffers of so many disks.
pub fn copy_place(disks: u64, page: u64) -> usize
    requires { (disks ≤ 8) × (page ≤ 64) }
    ensures { ((s : Sizes) → s.disks ≡ disks → result ≡ copy_at s page) × (result ≤ 576) }
{
    buffer_place(disks) as usize + page as usize
}

// The place of the owner of a slot whose first page word has this index.
pub fn owner_place(disks: u64, at: usize) -> usize
    requires { (disks ≤ 8) × (at ≤ 8192) }
    ensures { (s : Sizes) → s.disks ≡ disks → result ≡ owner_at s at }
{
    copy_place(disks, 64) + at
}

// The copy number of a page.
pub fn page_copy(disks: u64, work: &[u64], page: u64) -> u64
    requires { (disks ≤ 8) × (page < 64) × (buffer_at disks + 64 ≤ length work.now) }
    ensures { (s : Sizes) → s.disks ≡ disks → result ≡ copy_of s work.now page }
{
    let at = copy_place(disks, page);
    work[at]
}

// Work memory made fresh: T owners, none of them a transaction, and every page with this copy number.
pub fn fresh_work(work: &mut [u64], disks: u64, words: usize, copy: u64)
    requires { (disks ≤ 8) × (words ≤ 8192) × (buffer_at disks + 64 + words ≡ length work.old) }
    ensures { (s : Sizes) → s.disks ≡ disks → total s ≡ words → work.new ≡ fresh_work s copy work.old }
{
    fill_words(work, owner_place(disks, 0), words, 0);
    fill_words(work, copy_place(disks, 0), 64, copy);
}
