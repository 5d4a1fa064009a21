//! Bytes of a file that wait to be handed out, in one block.

ghost use Rattle.std.specs.Prelude.{◌≡◌, ◌+◌, ◌^◌, ◌<◌, ◌≤◌, ◌++◌, [], length, take, drop, slice_index, IfNone, IfSome, IfOk, OnErr};
ghost use Rattle.std.specs.Io.KnownBytes.{IsAtEnd, Keeps};
ghost use Rattle.pv_edge.specs.Cutting.{HasNoFeed, line_feed};
ghost use Rattle.pv_edge.specs.LinesState.{ReadBehind};
ghost use Rattle.pv_edge.specs.Rising.{Rose};

use crate::shelf::{Failed, Shelf};
use memchr::memchr;
use std::alloc::{AllocError, Global};
use std::marker::Model;

/// How many bytes one read asks for.
pub(crate) const PIECE: usize = 4096;

/// The byte that ends a line.
const LINE_FEED: u8 = 10;

/// The bytes that wait are those of the block from `start` on. The first `clear` of them are no line feeds.
#[derive(Drop)]
pub(crate) struct Window {
    bytes: Vec<u8>,
    start: usize,
    clear: usize,
    limit: usize,
}

impl Model for Window {
    ghost use Rattle.std.specs.Prelude.{◌+◌, ◌≤◌, ◌^◌, vec_len, vec_capacity, take, drop};
    ghost use Rattle.pv_edge.specs.Cutting.{HasNoFeed};
    ghost use Rattle.pv_edge.specs.LinesState.{WindowState};

    ghost Value = { WindowState };

    ghost view = { λ w. record { waiting = drop w.start w.bytes.items; gone = w.start; clear = w.clear; limit = w.limit } };

    ghost invariant = { λ w. (w.limit ≤ 2 ^ 30) × (w.limit + 4096 ≤ vec_capacity w.bytes) × (w.start + w.clear ≤ vec_len w.bytes) × HasNoFeed (take w.clear (drop w.start w.bytes.items)) };
}

impl Window {
    /// Room for `limit` bytes and one read.
    pub(crate) fn new(alloc: Global, limit: usize) -> Result<Window, AllocError>
        requires { limit ≤ 2 ^ 30 }
        ensures { IfOk result (λ w. w ≡ record { waiting = []; gone = 0; clear = 0; limit = limit }) }
    {
        Ok(Window {
            bytes: Vec::with_capacity(alloc, limit + PIECE)?,
            start: 0,
            clear: 0,
            limit,
        })
    }

    /// The bytes that wait.
    pub(crate) fn waiting(&self) -> &[u8]
        ensures { result.now ≡ self.now.waiting }
    {
        &self.bytes[self.start..]
    }

    /// Where the first line feed stands among the bytes that wait. No byte is looked at twice.
    pub(crate) fn find_feed(&mut self) -> Option<usize>
        ensures kept { self.new ≡ record self.old { clear = self.new.clear } }
        ensures none { IfNone result (HasNoFeed self.old.waiting) }
        ensures within { IfSome result (λ at. at < length self.old.waiting) }
        ensures feed { IfSome result (λ at. slice_index self.old.waiting at ≡ line_feed) }
        ensures first { IfSome result (λ at. HasNoFeed (take at self.old.waiting)) }
    {
        match memchr(LINE_FEED, &self.waiting()[self.clear..]) {
            Some(place) => {
                self.clear += place;
                Some(self.clear)
            }
            None => {
                self.clear = self.waiting().len();
                None
            }
        }
    }

    /// Lets the first bytes go.
    pub(crate) fn pass(&mut self, count: usize)
        requires { count ≤ length self.old.waiting }
        ensures { self.new ≡ record self.old { waiting = drop count self.old.waiting; gone = self.old.gone + count; clear = 0 } }
    {
        self.start += count;
        self.clear = 0;
    }

    /// Moves the bytes that wait to the front of the block.
    fn move_to_front(&mut self)
        ensures { self.new ≡ record self.old { gone = 0 } }
    {
        if self.start > 0 {
            self.bytes.copy_within(self.start.., 0);
            self.bytes.truncate(self.bytes.len() - self.start);
            self.start = 0;
        }
    }

    /// Puts bytes behind those that wait.
    fn put(&mut self, piece: &[u8])
        requires front { self.old.gone ≡ 0 }
        requires room { length self.old.waiting ≤ self.old.limit }
        requires piece { length piece.now ≤ 4096 }
        ensures { self.new ≡ record self.old { waiting = self.old.waiting ++ piece.now } }
    {
        self.bytes.extend_from_slice(piece).unwrap();
    }

    /// Reads once, behind the bytes that wait, and answers how many bytes came.
    pub(crate) fn read<F: Shelf>(&mut self, shelf: &mut F) -> Result<usize, Failed>
        requires room { length self.old.waiting ≤ self.old.limit }
        requires fits { F.given shelf.old + 4096 < 2 ^ 64 }
        ensures held { F.held shelf.new ≡ F.held shelf.old }
        ensures later { F.faults shelf.old ≤ F.faults shelf.new }
        ensures limit { self.new.limit ≡ self.old.limit }
        ensures bytes { IfOk result (λ n. ReadBehind (F.rest shelf.old) (F.rest shelf.new) n self.old.waiting self.new.waiting) }
        ensures given { IfOk result (λ n. F.given shelf.new ≡ F.given shelf.old + n) }
        ensures end { IfOk result (λ n. n ≡ 0 → IsAtEnd (F.rest shelf.new)) }
        ensures none { OnErr result (F.given shelf.new ≡ F.given shelf.old) }
        ensures kept { OnErr result (Keeps (F.rest shelf.old) (F.rest shelf.new)) }
        ensures waiting { OnErr result (self.new.waiting ≡ self.old.waiting) }
        ensures cause { OnErr result (Rose (F.faults shelf.old) (F.faults shelf.new)) }
    {
        self.move_to_front();
        let mut piece = [0u8; PIECE];
        let count = shelf.read(&mut piece)?;
        self.put(&piece[..count]);
        Ok(count)
    }
}
