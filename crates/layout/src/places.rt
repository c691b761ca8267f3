// Where pages and slots lie in the page memory.
ghost use Rattle.std.specs.Prelude.{◌≡◌, ◌*◌, ◌≤◌, ◌<◌, ◌^◌};
ghost use Rattle.model.specs.Sizes.{page_words, page_base, slot_base, total};

use model::Sizes;

pub fn word_of(byte: u8) -> u64
    ensures { (result ≡ byte) × (result < 256) }
{
    byte as u64
}

// Slots times width: the words of a page. Narrow, so that a loop over pages takes many of them at once.
pub fn words_in_slots(slots: u8, width: u8) -> u16
    ensures { result ≡ slots * width }
{
    (slots as u16) * (width as u16)
}

// The words of a page.
pub fn page_words(sizes: Sizes, page: u64) -> u64
    requires { page < 64 }
    ensures { (result ≡ page_words sizes page) × (result < 65536) }
{
    let slots = sizes.slots;
    let widths = sizes.widths;
    let i = page as usize;
    let words = words_in_slots(slots[i], widths[i]);
    words as u64
}

// The first word of a page; of page P, the words of all pages.
pub fn page_base(sizes: Sizes, page: u64) -> u64
    requires { page ≤ 64 }
    ensures { (result ≡ page_base sizes page) × (result < 2 ^ 32) }
{
    let slots = sizes.slots;
    let widths = sizes.widths;
    let end = page as usize;
    let mut sum: u32 = 0;
    for i in 0..end {
        let words = words_in_slots(slots[i], widths[i]);
        sum += words as u32;
    }
    sum as u64
}

// 01's T.
pub fn total(sizes: Sizes) -> u64
    requires { sizes.pages ≤ 64 }
    ensures { (result ≡ total sizes) × (result < 2 ^ 32) }
{
    page_base(sizes, sizes.pages)
}

// The first word of a slot.
pub fn slot_base(sizes: Sizes, page: u64, slot: u64) -> u64
    requires { (page < 64) × (slot < 65536) }
    ensures { (result ≡ slot_base sizes page slot) × (result < 2 ^ 33) }
{
    let widths = sizes.widths;
    let i = page as usize;
    let width = word_of(widths[i]);
    page_base(sizes, page) + slot * width
}
