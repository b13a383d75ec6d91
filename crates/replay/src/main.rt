// Makes calls that were recorded with their answers, and compares what they give now.
//
// Each line of standard input is one call: its kind, what goes in and what has to come out, as the crate `replayed` says of each. What depends on
// the page size has it in its line. A line that starts with `#` is skipped. A line of any length is read in the same memory.
#![tactic(auto)]

ghost use Rattle.std.specs.Prelude.{ℕ, List, [], IsTrue};
ghost use Rattle.record_line.specs.Text.{IsLine, numbers_of};
ghost use Rattle.record_line.specs.Reading.{Reads};
ghost use Rattle.replayed.specs.Kind.{NamesKind};

use record_line::reading::Reading;
use replayed::replay;
use std::io::Read;

// So many wrong lines are named.
const MOST_NAMED: u64 = 10;

// What the line at hand is, by its first byte.
#[derive(Clone, Copy, PartialEq, Eq)]
enum Line {
    Empty,
    Call,
    Skipped,
}

// How far the replay is: the line at hand, and how many lines, calls and wrong ones there were.
#[derive(Drop)]
struct Replay {
    line: Line,
    reading: Reading,
    lines: u64,
    calls: u64,
    wrong: u64,
}

fn main(rt: HostRuntime) {
    let mut replay = Replay::new();
    replay.read_all(&rt, &mut rt.stdin());
    replay.print_counts(&rt);
}

impl Replay {
    fn new() -> Replay {
        Replay {
            line: Line::Empty,
            reading: Reading::new(),
            lines: 0,
            calls: 0,
            wrong: 0,
        }
    }

    // Replays each line. Input that cannot be read ends there, with what was read of its last line.
    fn read_all(&mut self, rt: &impl Print, reader: &mut impl Read) {
        let mut input = [0u8; 65536];
        // A proved loop has to end, and nothing says that the input does: no run uses up the turns.
        for _ in 0..u64::MAX {
            let count = reader.read(&mut input).unwrap_or(0);
            if count == 0 {
                break;
            }
            self.read_bytes(rt, &input[..count]);
        }
        if self.line != Line::Empty {
            self.end_line(rt);
        }
    }

    // Reads bytes, and replays the lines that end in them.
    fn read_bytes(&mut self, rt: &impl Print, bytes: &[u8]) {
        for &byte in bytes {
            self.read_byte(rt, byte);
        }
    }

    fn read_byte(&mut self, rt: &impl Print, byte: u8) {
        match (self.line, byte) {
            (_, b'\n') => self.end_line(rt),
            (Line::Skipped, _) => {}
            (Line::Empty, b'#') => self.line = Line::Skipped,
            _ => {
                self.line = Line::Call;
                self.reading.push(byte);
            }
        }
    }

    // Replays the line that ends, if it is not skipped, and begins another.
    fn end_line(&mut self, rt: &impl Print) {
        self.lines = self.lines.saturating_add(1);
        if self.line != Line::Skipped {
            self.replay_line(rt);
        }
        self.line = Line::Empty;
    }

    // Replays the line at hand, and names it if it is one of the first wrong ones. What cannot be written is left out.
    fn replay_line(&mut self, rt: &impl Print) {
        self.calls = self.calls.saturating_add(1);
        if self.is_right() {
            return;
        }
        self.wrong = self.wrong.saturating_add(1);
        if self.wrong <= MOST_NAMED {
            let line = self.lines;
            let _ = println!(rt; "line {line} wrong");
        }
    }

    // Whether the call of the line that ends gives what stands there. Another line begins.
    fn is_right(&mut self) -> bool
        ensures right { (bytes : List ℕ) → Reads self.old.reading bytes → IsTrue result → IsLine bytes × NamesKind (numbers_of bytes) }
        ensures begins { Reads self.new.reading [] }
    {
        let right = match self.reading.numbers() {
            Ok(line) => replay(line),
            Err(_) => false,
        };
        self.reading.clear();
        right
    }

    fn print_counts(&self, rt: &impl Print) {
        let calls = self.calls;
        let wrong = self.wrong;
        let _ = println!(rt; "replayed {calls} calls, {wrong} wrong");
    }
}
