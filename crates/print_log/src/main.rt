// The log on paper: results are entered, one transaction is withdrawn and one is still open when the power goes; then the retained log is
// printed line by line. After the restart it is empty, and nothing is printed.
#![tactic(auto)]

mod machine;

use machine::Machine;
use model::Answer;
use std::fmt::{self, Write};

// Standard output, by the C library's write alone: no contract but that one's is assumed for it. A piece that cannot be written is passed
// over: nobody is left to tell.
#[derive(Clone, Copy)]
struct Output;

impl Write for Output {
    fn write_str(&mut self, s: &str) -> fmt::Result {
        io::write_all(1, s.as_bytes());
        Ok(())
    }
}

// Four transactions begin. A begin takes the disk whose buffer has the fewest started blocks: so 1 and 3 log to disk 0, 2 and 4 to disk 1.
// 1 and 4 are committed, 2 is withdrawn, 3 stays open. A commit flushes its disk: so what 3 entered and how 2 was undone are retained too.
fn enter(machine: &mut Machine) -> Result<(), Answer> {
    machine.format()?;
    let first = machine.begin()?;
    machine.update(first, 0, 0, &[3])?;
    machine.update(first, 1, 0, &[9, 9, 9])?;
    let second = machine.begin()?;
    machine.update(second, 1, 1, &[7, 7, 7])?;
    machine.update(second, 0, 3, &[5])?;
    let third = machine.begin()?;
    machine.update(third, 0, 1, &[4])?;
    machine.update(third, 0, 2, &[6])?;
    let fourth = machine.begin()?;
    machine.commit(first)?;
    machine.abort(second)?;
    machine.update(fourth, 0, 0, &[8])?;
    machine.commit(fourth)?;
    Ok(())
}

// Prints the lines from 0 on until a call is refused, and tells the refusal: 8 past the last line. Two rings of 128 words hold at most 128
// records, which with their headings are 131 lines.
fn print_listing(machine: &Machine) {
    for number in 0..132 {
        match machine.line(number) {
            Ok(line) => {
                io::write_all(1, &line);
            }
            Err(answer) => {
                tell(number, answer);
                return;
            }
        }
    }
}

fn tell(line: u64, answer: Answer) {
    if let Answer::Refused { number, .. } = answer {
        let _ = writeln!(Output, "line {line}: refused, number {number}");
    }
}

fn say(line: &str) {
    io::write_all(1, line.as_bytes());
}

fn main() {
    let mut machine = Machine::new();
    if enter(&mut machine).is_err() {
        say("a call did not finish\n");
        return;
    }
    machine.lose_power();
    say("after the power was lost:\n");
    print_listing(&machine);
    if machine.restart().is_err() {
        say("the restart did not finish\n");
        return;
    }
    say("restarted, and open:\n");
    print_listing(&machine);
    // A restart leaves no retained log.
    machine.lose_power();
    say("after the power was lost again:\n");
    print_listing(&machine);
}
