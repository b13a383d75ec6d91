// Reads sizes from standard input, one a line, and prints how many pages of 4,096 bytes a value of each takes.
//
// What is printed is document 01's listing. The crate `listing` does the work on bytes; here they are read and written.
#![tactic(auto)]

ghost use Rattle.std.specs.Prelude.{◌≡◌, ◌+◌, ◌≤◌, List, [], ◌++◌, length, take, OnOk, IfOk};
ghost use Rattle.std.specs.Io.KnownBytes.{Appends, Consumes};
ghost use Rattle.page.specs.PageSize.{standard_page_size};
ghost use Rattle.listing.specs.Accumulated.{accumulated_size};
ghost use Rattle.listing.specs.Read.{lines_text, line_after, last_text};
ghost use Rattle.listing.specs.Text.{max_text, header, size_text};
ghost use Rattle.sizing.specs.Print.{Prints, ReadsLines, PrintsListing};

mod printer;

use crate::printer::Printer;
use listing::line::{Line, first_newline};
use listing::text::{MAX_TEXT, Output};
use std::io;
use std::io::{Read, Write};

fn main(rt: HostRuntime) {
    let mut buffer = [0u8; 4096];
    let mut printer = Printer {
        writer: rt.stdout(),
        output: Output::new(&mut buffer),
    };
    // An output that cannot be written ends the listing, and leaves nobody to tell.
    let _ = list(&mut rt.stdin(), &mut printer);
}

// Lists all of the input.
fn list<R: Read, W: Write>(reader: &mut R, printer: &mut Printer<'_, W>) -> io::Result<()>
    ensures { OnOk result (PrintsListing W.contents (R.remaining reader.old) printer.old (R.remaining reader.new) printer.new) }
{
    printer.print_header()?;
    let line = list_input(reader, printer)?;
    printer.print_last(line)?;
    printer.flush()
}

// Lists the lines that end, and answers what is accumulated of the last one, which lacks its newline.
fn list_input<R: Read, W: Write>(reader: &mut R, printer: &mut Printer<'_, W>) -> io::Result<Line>
    ensures { IfOk result (λ line. ReadsLines W.contents (R.remaining reader.old) printer.old line (R.remaining reader.new) printer.new) }
{
    let mut input = [0u8; 65536];
    let mut line = Line::new();
    // A proved loop has to end, and nothing says that the input does: no run uses up the turns.
    for _ in 0..u64::MAX {
        let count = read(reader, &mut input);
        if count == 0 {
            break;
        }
        line = list_lines(printer, line, &input[..count])?;
    }
    Ok(line)
}

// Reads once. An input that cannot be read ends there.
fn read<R: Read>(reader: &mut R, input: &mut [u8]) -> usize
    ensures within { result ≤ length input.new }
    ensures consumes { Consumes (R.remaining reader.old) (R.remaining reader.new) (take result input.new) }
{
    reader.read(input).unwrap_or(0)
}

// Lists the lines that end in `bytes`, the first of which goes on from `line`, and answers what is accumulated of the one behind them.
fn list_lines<W: Write>(printer: &mut Printer<'_, W>, line: Line, bytes: &[u8]) -> io::Result<Line>
    ensures line { IfOk result (λ behind. behind ≡ line_after line bytes.now) }
    ensures prints { OnOk result (Prints W.contents printer.old (lines_text standard_page_size line bytes.now) printer.new) }
{
    let mut line = line;
    let mut rest = bytes;
    // Each turn takes a line off the front. The parts of `split` and `split_inclusive` do not tell whether the last one ended in a newline.
    while let Some(end) = first_newline(rest) {
        printer.print_line(line.with_bytes(&rest[..end]))?;
        line = Line::new();
        rest = &rest[end + 1..];
    }
    Ok(line.with_bytes(rest))
}

impl<W: Write> Printer<'_, W> {
    fn print_header(&mut self) -> io::Result<()>
        ensures { OnOk result (Prints W.contents self.old header self.new) }
    {
        self.make_room()?;
        self.output.put_header();
        Ok(())
    }

    // What is printed for a line. What then leaves no room for another text is written at once, before more is read.
    fn print_line(&mut self, line: Line) -> io::Result<()>
        ensures room { OnOk result (self.new.output.next + max_text ≤ length self.new.output.buffer.now) }
        ensures prints { OnOk result (Prints W.contents self.old (size_text standard_page_size (accumulated_size line)) self.new) }
    {
        self.make_room()?;
        self.output.put_line(line);
        self.make_room()
    }

    // The last line, which lacks its newline, if it has a byte.
    fn print_last(&mut self, line: Line) -> io::Result<()>
        ensures { OnOk result (Prints W.contents self.old (last_text standard_page_size line) self.new) }
    {
        if line.is_empty() {
            return Ok(());
        }
        self.print_line(line)
    }

    // Writes what waits where it may leave no room for another text.
    fn make_room(&mut self) -> io::Result<()>
        ensures room { OnOk result (self.new.output.next + max_text ≤ length self.new.output.buffer.now) }
        ensures prints { OnOk result (Prints W.contents self.old [] self.new) }
    {
        if self.output.room() < MAX_TEXT {
            return self.flush();
        }
        Ok(())
    }

    // Writes what waits.
    fn flush(&mut self) -> io::Result<()>
        ensures written { OnOk result (Appends (W.contents self.old.writer) (W.contents self.new.writer) (take self.old.output.next self.old.output.buffer.now)) }
        ensures empty { OnOk result (self.new.output.next ≡ 0) }
    {
        self.writer.write_all(self.output.written())?;
        self.output.clear();
        Ok(())
    }
}
