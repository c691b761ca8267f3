// What a call answered, and what a slot holds, as text.
use crate::machine::{Done, Machine, Stop};
use std::fmt::{self, Write};

// Standard output, by the C library's write alone: no contract but that one's is assumed for it. A piece that cannot be written is passed
// over: nobody is left to tell.
#[derive(Clone, Copy)]
struct Output;

impl Write for Output {
    fn write_str(&mut self, s: &str) -> fmt::Result {
        io::write_all(1, s.as_bytes());
        Ok(())
    }
}

// What a call answered.
pub fn tell(what: &str, outcome: Result<Done, Stop>) {
    let mut out = Output;
    let _ = match outcome {
        Ok(Done { stores, value }) => {
            writeln!(out, "{what}: finished, stores {stores}, value {value}")
        }
        Err(
            Stop::Refused {
                number,
                first,
                second,
            },
        ) => writeln!(
            out,
            "{what}: refused, number {number}, values {first} {second}"
        ),
        Err(Stop::Interrupted { stores }) => writeln!(out, "{what}: interrupted, stores {stores}"),
    };
}

// What a slot of page 0 holds: one word, unless the read is refused.
pub fn show_slot(machine: &Machine, slot: u64) {
    match machine.read(slot) {
        [word] => {
            let _ = writeln!(Output, "slot {slot} holds {word}");
        }
        _ => tell("read", machine.read_answer(slot)),
    }
}
