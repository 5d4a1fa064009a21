//! Where the next line of a file ends.

ghost use Rattle.std.specs.Prelude.{◌≡◌, ◌+◌, ◌^◌, ◌<◌, ◌≤◌, ◌++◌, ◌↔◌, [], true, false, length, take, drop, slice_index, IfNone, IfSome, IfOk, OnOk, OnErr, IsErrOf, IsTrue, Ok, Err};
ghost use Rattle.std.specs.Io.KnownBytes.{IsAtEnd, Keeps};
ghost use Rattle.pv_edge.specs.Cutting.{HasNoFeed, line_feed};
ghost use Rattle.pv_edge.specs.Finding.{Finds, Reads};
ghost use Rattle.pv_edge.specs.Reading.{IsUnended, Takes};
ghost use Rattle.pv_edge.specs.Rising.{Rose};
ghost use Rattle.pv_edge.specs.declared.line_fault.LineFault.TheVariants as fault;

use crate::line_fault::LineFault;
use crate::shelf::Shelf;
use crate::window::Window;
use std::alloc::{AllocError, Global};
use std::marker::Model;

/// What is found among the bytes that wait.
#[derive(Clone, Copy, Drop)]
pub(crate) enum Found {
    /// The first so many bytes are a line, which a line feed ends.
    Ended(usize),
    /// All of them are the last line of the file.
    Last,
    /// There are none, and the file has ended.
    Nothing,
}

/// The bytes of a file that wait, and what is known of the file.
#[derive(Drop)]
pub(crate) struct Finder {
    window: Window,
    place: u64,
    closed: bool,
    line_limit: usize,
    file_limit: u64,
}

impl Model for Finder {
    ghost use Rattle.std.specs.Prelude.{◌≡◌, ◌≤◌};
    ghost use Rattle.pv_edge.specs.LinesState.{FinderState};

    ghost Value = { FinderState };

    ghost view = { λ f. record { waiting = f.window.waiting; place = f.place; closed = f.closed; line_limit = f.line_limit; file_limit = f.file_limit } };

    ghost invariant = { λ f. (f.window.limit ≡ f.line_limit) × (f.place ≤ f.file_limit) };
}

impl Finder {
    /// Nothing has been read yet.
    pub(crate) fn new(
        alloc: Global,
        line_limit: usize,
        file_limit: u64,
    ) -> Result<Finder, AllocError>
        requires line { line_limit ≤ 2 ^ 30 }
        requires file { file_limit ≤ 2 ^ 40 }
        ensures { IfOk result (λ f. f ≡ record { waiting = []; place = 0; closed = false; line_limit = line_limit; file_limit = file_limit }) }
    {
        Ok(Finder {
            window: Window::new(alloc, line_limit)?,
            place: 0,
            closed: false,
            line_limit,
            file_limit,
        })
    }

    /// The bytes that wait.
    pub(crate) fn waiting(&self) -> &[u8]
        ensures { result.now ≡ self.now.waiting }
    {
        self.window.waiting()
    }

    /// Lets the first bytes go.
    pub(crate) fn pass(&mut self, count: usize)
        requires within { count ≤ length self.old.waiting }
        requires place { self.old.place + count ≤ self.old.file_limit }
        ensures { self.new ≡ record self.old { waiting = drop count self.old.waiting; place = self.old.place + count } }
    {
        self.window.pass(count);
        self.place += count as u64;
    }

    /// The line of so many bytes that a line feed ends, where it passes no limit.
    fn ended(&self, at: usize) -> Result<Found, LineFault>
        requires within { at < length self.now.waiting }
        requires feed { slice_index self.now.waiting at ≡ line_feed }
        requires first { HasNoFeed (take at self.now.waiting) }
        ensures found { Finds result self.now.line_limit self.now.file_limit self.now.place self.now.waiting self.now.closed }
        ensures cause { ¬ IsErrOf result LineFault.Failed }
    {
        if at > self.line_limit || at as u64 >= self.file_limit - self.place {
            return Err(LineFault::TooLarge);
        }
        Ok(Found::Ended(at))
    }

    /// Whether the bytes that wait pass no limit.
    fn fits(&self) -> bool
        ensures { IsTrue result ↔ ((length self.now.waiting ≤ self.now.line_limit) × (self.now.place + length self.now.waiting ≤ self.now.file_limit)) }
    {
        let waiting = self.window.waiting().len();
        waiting <= self.line_limit && waiting as u64 <= self.file_limit - self.place
    }

    /// What there is at the end of the file, where no line feed is left.
    fn last(&self) -> Found
        requires whole { IsUnended self.now.line_limit self.now.file_limit self.now.place self.now.waiting }
        requires closed { self.now.closed ≡ true }
        ensures { Finds (Ok result) self.now.line_limit self.now.file_limit self.now.place self.now.waiting self.now.closed }
    {
        if self.window.waiting().is_empty() {
            Found::Nothing
        } else {
            Found::Last
        }
    }

    /// Where the first line feed stands among the bytes that wait.
    fn find_feed(&mut self) -> Option<usize>
        ensures kept { self.new ≡ self.old }
        ensures none { IfNone result (HasNoFeed self.old.waiting) }
        ensures within { IfSome result (λ at. at < length self.old.waiting) }
        ensures feed { IfSome result (λ at. slice_index self.old.waiting at ≡ line_feed) }
        ensures first { IfSome result (λ at. HasNoFeed (take at self.old.waiting)) }
    {
        self.window.find_feed()
    }

    /// Reads once. Where no byte comes the file has ended.
    fn read<F: Shelf>(&mut self, shelf: &mut F) -> Result<(), LineFault>
        requires room { length self.old.waiting ≤ self.old.line_limit }
        requires given { F.given shelf.old + 4096 < 2 ^ 64 }
        ensures reads { OnOk result (Reads (F.rest shelf.old) (F.rest shelf.new) (F.given shelf.old) (F.given shelf.new) self.old self.new) }
        ensures end { OnOk result (self.new.closed ≡ true → IsAtEnd (F.rest shelf.new)) }
        ensures failed { OnErr result (result ≡ Err fault.Failed) }
        ensures kept { OnErr result (Keeps (F.rest shelf.old) (F.rest shelf.new) × (F.given shelf.new ≡ F.given shelf.old) × (self.new ≡ self.old)) }
        ensures cause { OnErr result (Rose (F.faults shelf.old) (F.faults shelf.new)) }
        ensures held { F.held shelf.new ≡ F.held shelf.old }
        ensures later { F.faults shelf.old ≤ F.faults shelf.new }
    {
        let count = self.window.read(shelf)?;
        self.closed = count == 0;
        Ok(())
    }

    /// Reads until a line, the end or a fault is found.
    pub(crate) fn seek<F: Shelf>(&mut self, shelf: &mut F) -> Result<Found, LineFault>
        requires limit { self.old.line_limit ≤ 2 ^ 30 }
        requires room { length self.old.waiting ≤ self.old.line_limit + 4096 }
        requires given { F.given shelf.old ≤ 2 ^ 63 }
        requires end { self.old.closed ≡ true → IsAtEnd (F.rest shelf.old) }
        ensures takes { Takes (F.rest shelf.old) (F.rest shelf.new) (F.given shelf.old) (F.given shelf.new)
            (λ more. (self.new ≡ record self.old { waiting = self.old.waiting ++ more; closed = self.new.closed })
            × Finds result self.new.line_limit self.new.file_limit self.new.place self.new.waiting self.new.closed) }
        ensures at_most { F.given shelf.new + length self.old.waiting ≤ F.given shelf.old + self.old.line_limit + 4096 }
        ensures room { length self.new.waiting ≤ self.new.line_limit + 4096 }
        ensures closed { self.old.closed ≡ true → (self.new.closed ≡ true) × (F.given shelf.new ≡ F.given shelf.old) }
        ensures open { IsErrOf result LineFault.Failed → self.new.closed ≡ false }
        ensures cause { IsErrOf result LineFault.Failed → Rose (F.faults shelf.old) (F.faults shelf.new) }
        ensures held { F.held shelf.new ≡ F.held shelf.old }
        ensures later { F.faults shelf.old ≤ F.faults shelf.new }
        ensures end { self.new.closed ≡ true → IsAtEnd (F.rest shelf.new) }
    {
        loop {
            if let Some(at) = self.find_feed() {
                return self.ended(at);
            }
            if !self.fits() {
                return Err(LineFault::TooLarge);
            }
            if self.closed {
                return Ok(self.last());
            }
            self.read(shelf)?;
        }
    }
}
