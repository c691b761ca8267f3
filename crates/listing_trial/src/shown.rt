// What stands in a column of a line: a byte at a time, from the column's number. Nothing is written, and nothing is carried from one
// column to the next.
use crate::machine::{Anchor, Logs};
use crate::reading::{Note, Notes, note_at, ring_word};
use trial_table::words::times;

// A line: a heading, or a record with its first word and its transaction.
#[derive(Clone, Copy)]
pub enum Shown {
    Heading,
    Record(Record),
}

#[derive(Clone, Copy)]
pub struct Record {
    disk: u64,
    position: u64,
    head: u64,
    number: u64,
}

// The lines of so many records: a heading for each sixty.
pub fn lines_of(records: u64) -> u64 {
    records.saturating_add(records.saturating_add(59) / 60)
}

// The line of a number.
pub fn shown_at(anchor: &Anchor, logs: &Logs, notes: &Notes, line: u64) -> Shown {
    if line % 61 == 0 {
        return Shown::Heading;
    }
    let record = times(line / 61, 60).saturating_add((line % 61).saturating_sub(1));
    let Note { disk, position } = note_at(notes, record);
    Shown::Record(Record {
        disk,
        position,
        head: ring_word(anchor, logs, disk, position),
        number: ring_word(anchor, logs, disk, position.saturating_add(1)),
    })
}

// A byte of a text, a space past its end.
fn letter(text: &[u8], i: u32) -> u8 {
    text.get(i as usize).copied().unwrap_or(b' ')
}

// The digit of a number at a decimal place; a space where a higher digit would be a zero.
fn digit(n: u64, place: u32) -> u8 {
    let Some(unit) = 10u64.checked_pow(place) else {
        return b'?';
    };
    match n.checked_div(unit) {
        None => b'?',
        Some(0) if place > 0 => b' ',
        Some(rest) => b'0' + (rest % 10) as u8,
    }
}

// A column of the heading.
fn heading_byte(column: u32) -> u8 {
    match column {
        0 => b'd',
        16..=23 => letter(b"position", column - 16),
        35..=38 => letter(b"kind", column - 35),
        51..=61 => letter(b"transaction", column - 51),
        63 | 64 => letter(b"pg", column - 63),
        67 | 68 => letter(b"sl", column - 67),
        70 | 71 => letter(b"ln", column - 70),
        _ => b' ',
    }
}

// A column of a record's page, slot and length.
fn place_byte(head: u64, column: u32) -> u8 {
    if head % 8 > 1 {
        return b' ';
    }
    if column < 65 {
        return digit(head / 8 % 64, 64u32.saturating_sub(column));
    }
    if column < 69 {
        return digit(head / 512 % 128, 68u32.saturating_sub(column));
    }
    digit(head / 65536, 71u32.saturating_sub(column))
}

// A column of a record's kind: the four names, each of twelve columns.
fn kind_byte(kind: u64, column: u32) -> u8 {
    let name: &[u8] = match kind {
        0 => b"      update",
        1 => b"compensation",
        2 => b"      commit",
        3 => b"       abort",
        _ => b"",
    };
    letter(name, column.saturating_sub(27))
}

// A column of a record's line.
fn record_byte(record: Record, column: u32) -> u8 {
    match column {
        0 => digit(record.disk, 0),
        4..=23 => digit(record.position, 23 - column),
        27..=38 => kind_byte(record.head % 8, column),
        42..=61 => digit(record.number, 61 - column),
        62..=71 => place_byte(record.head, column),
        _ => b' ',
    }
}

// What stands in a column of a line; its end is column 72.
pub fn byte_of(shown: Shown, column: u32) -> u8 {
    if column == 72 {
        return b'\n';
    }
    match shown {
        Shown::Heading => heading_byte(column),
        Shown::Record(record) => record_byte(record, column),
    }
}
