//! The lines of a file, one at a time.

ghost use Rattle.std.specs.Prelude.{◌≡◌, ◌+◌, ◌^◌, ◌≤◌, ◌++◌, ◌↔◌, [], true, false, length, IfOk, IsErrOf, Ok};
ghost use Rattle.std.specs.Io.KnownBytes.{IsAtEnd};
ghost use Rattle.pv_edge.specs.Reading.{NextGives, Takes};
ghost use Rattle.pv_edge.specs.Rising.{Rose};
ghost use Rattle.pv_edge.specs.declared.lines.Next.TheVariants as next;

use crate::finding::{Finder, Found};
use crate::line_fault::LineFault;
use crate::shelf::Shelf;
use std::alloc::{AllocError, Global};
use std::marker::Model;

/// What a reader answers.
#[derive(Clone, Copy, Debug, PartialEq, Eq, Drop)]
pub enum Next {
    /// A line is in hand.
    Line,
    /// The file has ended.
    End,
}

/// A reader that hands out the lines of a file in turn. A line is what stands before a line feed; what
/// follows the last one is a line where it is not empty. The line in hand is the front of what waits,
/// and is let go, with its line feed, when the next one is asked for.
#[derive(Drop)]
pub struct Lines {
    finder: Finder,
    line: usize,
    passed: usize,
    over: bool,
}

impl Model for Lines {
    ghost use Rattle.std.specs.Prelude.{◌+◌, ◌^◌, ◌≤◌, take, drop, length};
    ghost use Rattle.pv_edge.specs.LinesState.{LinesState};

    ghost Value = { LinesState };

    ghost view = { λ r. record { waiting = drop r.passed r.finder.waiting; place = r.finder.place + r.passed; line = take r.line r.finder.waiting; closed = r.finder.closed; over = r.over; line_limit = r.finder.line_limit; file_limit = r.finder.file_limit } };

    ghost invariant = { λ r. (r.line ≤ r.passed) × (r.passed ≤ length r.finder.waiting) × (r.finder.place + r.passed ≤ r.finder.file_limit) × (r.finder.line_limit ≤ 2 ^ 30) × (length r.finder.waiting ≤ r.finder.line_limit + 4096) };
}

impl Lines {
    /// A reader that has all the memory that it takes: room for a line of `line_limit` bytes and for
    /// one read. The lines are those of the file that is picked when the first is asked for.
    pub fn new(alloc: Global, line_limit: u32, file_limit: u64) -> Result<Lines, AllocError>
        requires line { line_limit ≤ 2 ^ 30 }
        requires file { file_limit ≤ 2 ^ 40 }
        ensures { IfOk result (λ lines. lines ≡ record { waiting = []; place = 0; line = []; closed = false; over = false; line_limit = line_limit; file_limit = file_limit }) }
    {
        Ok(Lines {
            finder: Finder::new(alloc, line_limit as usize, file_limit)?,
            line: 0,
            passed: 0,
            over: false,
        })
    }

    /// The line in hand, without its line feed; no byte where the last answer was no line.
    pub fn line(&self) -> &[u8]
        ensures { result.now ≡ self.now.line }
    {
        &self.finder.waiting()[..self.line]
    }

    /// Finds the next line. It reads where no whole line waits, 4,096 bytes at a time, and takes no
    /// memory. After the end and after a refusal it tells the end, and reads nothing.
    ///
    /// A reader reads one file: between two calls nothing else reads from the shelf.
    pub fn next<F: Shelf>(&mut self, shelf: &mut F) -> Result<Next, LineFault>
        requires given { F.given shelf.old ≤ 2 ^ 63 }
        requires end { self.old.closed ≡ true → IsAtEnd (F.rest shelf.old) }
        ensures takes { self.old.over ≡ false →
            Takes (F.rest shelf.old) (F.rest shelf.new) (F.given shelf.old) (F.given shelf.new)
            (λ more. NextGives result (self.old.waiting ++ more) self.old self.new) }
        ensures over { self.old.over ≡ true → result ≡ Ok next.End }
        ensures nothing { self.old.over ≡ true → (shelf.new ≡ shelf.old) × (self.new ≡ record self.old { line = [] }) }
        ensures ends { (self.new.over ≡ false) ↔ (result ≡ Ok next.Line) }
        ensures closed { self.old.closed ≡ true → (self.new.closed ≡ true) × (F.given shelf.new ≡ F.given shelf.old) }
        ensures open { IsErrOf result LineFault.Failed → self.new.closed ≡ false }
        ensures cause { IsErrOf result LineFault.Failed → Rose (F.faults shelf.old) (F.faults shelf.new) }
        ensures at_most { F.given shelf.new + length self.old.waiting ≤ F.given shelf.old + self.old.line_limit + 4096 }
        ensures held { F.held shelf.new ≡ F.held shelf.old }
        ensures later { F.faults shelf.old ≤ F.faults shelf.new }
        ensures end { self.new.closed ≡ true → IsAtEnd (F.rest shelf.new) }
        ensures limits { (self.new.line_limit ≡ self.old.line_limit) × (self.new.file_limit ≡ self.old.file_limit) }
        ensures bounded { length self.new.waiting ≤ self.new.line_limit + 4096 }
    {
        self.finder.pass(self.passed);
        self.line = 0;
        self.passed = 0;
        if self.over {
            return Ok(Next::End);
        }
        match self.finder.seek(shelf) {
            Ok(Found::Ended(at)) => {
                self.line = at;
                self.passed = at + 1;
                Ok(Next::Line)
            }
            Ok(Found::Last) => {
                self.passed = self.finder.waiting().len();
                self.line = self.passed;
                Ok(Next::Line)
            }
            Ok(Found::Nothing) => {
                self.over = true;
                Ok(Next::End)
            }
            Err(fault) => {
                self.over = true;
                Err(fault)
            }
        }
    }
}
