// A line of the log on paper by its columns, written from its end into 73 bytes.
ghost use Rattle.std.specs.Prelude.{◌≡◌, ◌+◌, ◌-◌, ◌≤◌, ◌<◌, [], ◌∷◌, ◌++◌, length, drop};
ghost use Rattle.model.specs.Text.{decimal, padded, last_digits};
ghost use Rattle.model.specs.Listing.{gap, heading, kind_name, shown_change, shown_close, shown_line, line_bytes};

use disk_log::kinds::{COMMIT, COMPENSATION, UPDATE};
use text::{put_number, put_run, put_text};

const SPACE: u8 = 32;

// A number's last digits, right-aligned in so many columns before `end`.
fn put_column(out: &mut [u8], end: usize, columns: usize, n: u64)
    requires { (columns ≤ end) × (end ≤ length out.old) }
    ensures { drop (end - columns) out.new ≡ padded columns (last_digits columns n) ++ drop end out.old }
{
    let start = put_number(out, end, columns, n);
    put_run(out, end - columns, start, SPACE);
}

// The name of one of the four kinds.
fn put_name(out: &mut [u8], end: usize, kind: u64) -> usize
    requires { (12 ≤ end) × (end ≤ length out.old) }
    ensures end_bound { (end ≤ result + 12) × (result + length (kind_name kind) ≡ end) }
    ensures out_after { drop result out.new ≡ kind_name kind ++ drop end out.old }
{
    match kind {
        UPDATE => put_text(out, end, b"update"),
        COMPENSATION => put_text(out, end, b"compensation"),
        COMMIT => put_text(out, end, b"commit"),
        _ => put_text(out, end, b"abort"),
    }
}

// The same, right-aligned in its twelve columns.
fn put_kind(out: &mut [u8], end: usize, kind: u64)
    requires { (12 ≤ end) × (end ≤ length out.old) }
    ensures { drop (end - 12) out.new ≡ padded 12 (kind_name kind) ++ drop end out.old }
{
    let start = put_name(out, end, kind);
    put_run(out, end - 12, start, SPACE);
}

// Kind and transaction, from column 27 to 62.
fn put_middle(out: &mut [u8], kind: u64, number: u64)
    requires { length out.old ≡ line_bytes }
    ensures { drop 27 out.new ≡ padded 12 (kind_name kind) ++ (gap ++ (padded 20 (decimal number) ++ drop 62 out.old)) }
{
    put_column(out, 62, 20, number);
    put_run(out, 39, 42, SPACE);
    put_kind(out, 39, kind);
}

// Disk, position, kind and transaction, up to column 62.
fn put_front(out: &mut [u8], disk: u64, position: u64, kind: u64, number: u64)
    requires { length out.old ≡ line_bytes }
    ensures { out.new ≡ padded 1 (last_digits 1 disk) ++ (gap ++ (padded 20 (decimal position) ++ (gap ++ (padded 12 (kind_name kind) ++ (gap
        ++ (padded 20 (decimal number) ++ drop 62 out.old)))))) }
{
    put_middle(out, kind, number);
    put_run(out, 24, 27, SPACE);
    put_column(out, 24, 20, position);
    put_run(out, 1, 4, SPACE);
    put_column(out, 1, 1, disk);
}

// The last byte of a line.
fn put_end(out: &mut [u8])
    requires { length out.old ≡ line_bytes }
    ensures { drop 72 out.new ≡ 10 ∷ [] }
{
    out[72] = 10;
}

// The line of a change.
pub fn put_change(
    out: &mut [u8],
    disk: u64,
    position: u64,
    kind: u64,
    number: u64,
    page: u64,
    slot: u64,
    width: u64,
)
    requires { (length out.old ≡ line_bytes) × (disk < 10) × (page < 1000) × (slot < 10000) × (width < 1000) }
    ensures { out.new ≡ shown_line disk position (shown_change kind number page slot width) }
{
    put_end(out);
    put_column(out, 72, 3, width);
    put_column(out, 69, 4, slot);
    put_column(out, 65, 3, page);
    put_front(out, disk, position, kind, number);
}

// The line of a closing record.
pub fn put_close(out: &mut [u8], disk: u64, position: u64, kind: u64, number: u64)
    requires { (length out.old ≡ line_bytes) × (disk < 10) }
    ensures { out.new ≡ shown_line disk position (shown_close kind number) }
{
    put_end(out);
    put_run(out, 62, 72, SPACE);
    put_front(out, disk, position, kind, number);
}

// The heading, written as one.
pub fn put_heading(out: &mut [u8])
    requires { length out.old ≡ line_bytes }
    ensures { out.new ≡ heading }
{
    put_text(
        out,
        73,
        b"d               position           kind            transaction pg  sl ln\n",
    );
}
