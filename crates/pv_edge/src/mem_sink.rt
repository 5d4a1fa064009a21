use crate::shelf::Failed;
use crate::sink::Sink;
use pv_text::Memory;
use std::alloc::Global;
use std::marker::Model;

/// A sink in memory. Each write takes as many bytes as are offered, but at most `piece`, and `room` in all. Writes are
/// numbered from 0, and those whose number is in `failing` fail, as do those where no room is left.
#[derive(Drop)]
pub struct MemSink {
    bytes: Vec<u8>,
    piece: usize,
    room: usize,
    faults: u64,
    calls: u64,
    failing: Vec<u64>,
}

impl Model for MemSink {
    ghost use Rattle.std.specs.Prelude.{◌<◌, ◌≤◌, vec_len, vec_capacity};
    ghost use Rattle.pv_edge.specs.MemSinkState.{MemSinkState};

    ghost Value = { MemSinkState };

    ghost view = { λ m. record { taken = m.bytes.items; piece = m.piece; room = m.room; faults = m.faults; calls = m.calls; failing = m.failing.items } };

    ghost invariant = { λ m. (0 < m.piece) × (vec_len m.bytes ≤ m.room) × (m.room ≤ vec_capacity m.bytes) };
}

impl MemSink {
    ghost use Rattle.std.specs.Prelude.{◌≡◌, ◌<◌, [], ◌∷◌, ◌++◌, IfOk, OnOk, OnErr};

    /// The memory for `room` bytes is taken here, and writes take none.
    pub fn new(alloc: Global, piece: usize, room: usize) -> Result<MemSink, Memory>
        requires { 0 < piece }
        ensures { IfOk result (λ sink.
            sink ≡ record {
              taken = [];
              piece = piece;
              room = room;
              faults = 0;
              calls = 0;
              failing = [];
            }) }
    {
        Ok(MemSink {
            bytes: Vec::with_capacity(alloc, room)?,
            piece,
            room,
            faults: 0,
            calls: 0,
            failing: Vec::new(alloc),
        })
    }

    /// Makes the write of this number fail.
    pub fn fail(&mut self, call: u64) -> Result<(), Memory>
        ensures ok { OnOk result (self.new ≡ record self.old { failing = self.old.failing ++ call ∷ [] }) }
        ensures err { OnErr result (self.new ≡ self.old) }
    {
        self.failing.push(call)?;
        Ok(())
    }

    /// The bytes taken so far.
    pub fn taken(&self) -> &[u8]
        ensures { result.now ≡ self.now.taken }
    {
        self.bytes.as_slice()
    }
}

impl Sink for MemSink {
    ghost use Rattle.std.specs.Prelude.{◌≡◌, ◌+◌, ◌-◌, ◌^◌, ◌<◌, ◌≤◌, ◌++◌, length, min, take, IsErr, IsOk, IfOk, OnErr, Some, true, false};
    ghost use Rattle.pv_edge.specs.Failing.{is_due, one_more};

    ghost took = { λ m. Some m.taken };

    ghost faults = { λ m. m.faults };

    fn write(&mut self, piece: &[u8]) -> Result<usize, Failed>
        requires { 0 < length piece.now }
        ensures counted { self.old.calls < 2 ^ 64 - 1 → self.new.calls ≡ self.old.calls + 1 }

        ensures count { IfOk result (λ n.
            n ≡ min (min (length piece.now) self.old.piece)
            (self.old.room - length self.old.taken)) }
        ensures bytes { IfOk result (λ n.
            self.new ≡ record self.old {
              taken = self.old.taken ++ take n piece.now;
              calls =
                  self.new.calls;
            }) }
        ensures some { IfOk result (λ n. 0 < n) }

        ensures due { is_due self.old.failing self.old.calls ≡ true → IsErr result }
        ensures full { self.old.room ≤ length self.old.taken → IsErr result }
        ensures succeeds { is_due self.old.failing self.old.calls ≡ false → length self.old.taken < self.old.room →
            IsOk result }
        ensures err { OnErr result
            (self.new ≡ record self.old {
              faults = one_more self.old.faults;
              calls =
                  self.new.calls;
            }) }
        ensures later { self.old.faults ≤ self.new.faults }
    {
        let fails = self.failing.contains(&self.calls);
        self.calls = self.calls.wrapping_add(1);
        let count = piece
            .len()
            .min(self.piece)
            .min(self.room - self.bytes.len());
        if fails || count == 0 {
            self.faults = self.faults.saturating_add(1);
            return Err(Failed);
        }
        self.bytes.extend_from_slice(&piece[..count]).unwrap();
        Ok(count)
    }
}
