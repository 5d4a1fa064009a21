ghost use Rattle.std.specs.Prelude.{◌≡◌, ◌+◌, ◌^◌, ◌<◌, ◌≤◌, ◌++◌, drop, length, min, take, string_bytes, IfNone, IfSome, OnOk, OnErr, [], ◌∷◌};
ghost use Rattle.pv_edge.specs.Files.{file};
ghost use Rattle.pv_edge.specs.MemShelfState.{content_at, held_in};

use crate::shelf::{Failed, Shelf};
use indexmap::IndexMap;
use pv_text::{Bytes, Memory, Text};
use std::alloc::Global;
use std::marker::Model;
use thiserror::Error;

/// Why a file was not put on a shelf in memory.
#[derive(Clone, Copy, Debug, PartialEq, Eq, Drop, Error)]
pub enum PutFault {
    #[error("a file of this name is held")]
    NameTaken,
    #[error("out of memory")]
    Memory,
}

/// Files in memory. Each read gives as many bytes as there are, but at most `piece`. Picks and reads are numbered
/// together from 0, and those whose number is in `failing` fail.
#[derive(Drop)]
pub struct MemShelf {
    alloc: Global,
    files: IndexMap<String, Bytes>,
    picked: Option<usize>,
    position: usize,
    given: u64,
    faults: u64,
    piece: usize,
    calls: u64,
    failing: Vec<u64>,
}

impl Model for MemShelf {
    ghost use Rattle.std.specs.Prelude.{◌<◌, length};
    ghost use Rattle.std.specs.Option.{ForSome};
    ghost use Rattle.pv_edge.specs.MemShelfState.{MemShelfState, held_in, rest_in};

    ghost Value = { MemShelfState };

    ghost view = { λ m. record { held = held_in m.files.entries; rest = rest_in m.files.entries m.picked m.position; given = m.given; faults = m.faults; piece = m.piece; calls = m.calls; failing = m.failing.items } };

    ghost invariant = { λ m. (0 < m.piece) × ForSome m.picked (λ i. i < length m.files.entries) };
}

impl MemShelf {
    ghost use Rattle.std.specs.Prelude.{◌≡◌, ◌<◌, ◌↔◌, [], ◌∷◌, ◌++◌, IsSome, IsErrOf, OnOk, OnErr};

    /// A shelf without files, which gives at most `piece` bytes in one read.
    pub fn new(alloc: Global, piece: usize) -> MemShelf
        requires { 0 < piece }
        ensures { result ≡ record {
          held = [];
          rest = [];
          given = 0;
          faults = 0;
          piece = piece;
          calls =
              0;
          failing = [];
        } }
    {
        MemShelf {
            alloc,
            files: IndexMap::new(alloc),
            picked: None,
            position: 0,
            given: 0,
            faults: 0,
            piece,
            calls: 0,
            failing: Vec::new(alloc),
        }
    }

    /// Holds one more file.
    #[tactic(auto, using(crate::proofs::HeldLemmas::pushes))]
    pub fn put(&mut self, name: Text, content: Bytes) -> Result<(), PutFault>
        ensures ok { OnOk result (self.new ≡ record self.old {
          held = self.old.held ++
              (name, content) ∷ [];
        }) }
        ensures taken { IsErrOf result PutFault.NameTaken ↔ IsSome (file self.old.held name) }
        ensures err { OnErr result (self.new ≡ self.old) }
    {
        if place_of(&self.files, name.as_str()).is_some() {
            return Err(PutFault::NameTaken);
        }
        let Ok(key) = String::from_str(self.alloc, name.as_str()) else {
            return Err(PutFault::Memory);
        };
        match hold(&mut self.files, key, content) {
            Ok(()) => Ok(()),
            Err(Memory) => Err(PutFault::Memory),
        }
    }

    /// Makes the pick or read of this number fail.
    pub fn fail(&mut self, call: u64) -> Result<(), Memory>
        ensures ok { OnOk result (self.new ≡ record self.old { failing = self.old.failing ++ call ∷ [] }) }
        ensures err { OnErr result (self.new ≡ self.old) }
    {
        self.failing.push(call)?;
        Ok(())
    }
}

// Where the file of this name stands.
#[tactic(auto, using(crate::proofs::HeldLemmas::file_held_in))]
fn place_of(files: &IndexMap<String, Bytes>, name: &str) -> Option<usize>
    ensures none { IfNone result (file (held_in files.now.entries) name.now ≡ None) }
    ensures within { IfSome result (λ i. i < length files.now.entries) }
    ensures content { IfSome result (λ i.
        file (held_in files.now.entries) name.now ≡ Some (content_at files.now.entries i)) }
{
    files.get_index_of(name)
}

// Puts the file of a new name last.
fn hold(files: &mut IndexMap<String, Bytes>, name: String, content: Bytes) -> Result<(), Memory>
    requires { file (held_in files.old.entries) (string_bytes name) ≡ None }
    ensures ok { OnOk result (files.new.entries ≡ files.old.entries ++ (name, content) ∷ []) }
    ensures err { OnErr result (files.new.entries ≡ files.old.entries) }
{
    files.insert(name, content)?;
    Ok(())
}

// Fills the front of `buf` from the position on.
fn give(content: &[u8], position: usize, piece: usize, buf: &mut [u8]) -> usize
    requires room { 0 < length buf.old }
    requires some { 0 < piece }
    ensures within { result ≤ length buf.old }
    ensures bytes { drop position content.now ≡ take result buf.new ++ drop (position + result) content.now }
    ensures count { result ≡ min (min (length (drop position content.now)) (length buf.old)) piece }
    ensures next { position + result < 2 ^ 64 }
{
    if position >= content.len() {
        return 0;
    }
    let left = &content[position..];
    let count = left.len().min(buf.len()).min(piece);
    buf[..count].copy_from_slice(&left[..count]);
    count
}

impl Shelf for MemShelf {
    ghost use Rattle.std.specs.Prelude.{◌-◌, ◌↔◌, IsErr, IsOk, IsNone, IsSome, IfOk, Some, true, false};
    ghost use Rattle.std.specs.Io.{ReadsAtMost};
    ghost use Rattle.pv_edge.specs.Failing.{is_due, one_more};

    ghost held = { λ m. Some m.held };

    ghost rest = { λ m. Some m.rest };

    ghost given = { λ m. m.given };

    ghost faults = { λ m. m.faults };

    fn pick(&mut self, name: &str) -> Result<(), Failed>
        ensures kept { self.new ≡ record self.old {
          rest = self.new.rest;
          faults = self.new.faults;
          calls =
              self.new.calls;
        } }
        ensures counted { self.old.calls < 2 ^ 64 - 1 → self.new.calls ≡ self.old.calls + 1 }

        ensures picked { OnOk result (file self.old.held name.now ≡ Some self.new.rest) }
        ensures no_fault { OnOk result (self.new.faults ≡ self.old.faults) }

        ensures missing { IsNone (file self.old.held name.now) → IsErr result }
        ensures missing_faults { IsNone (file self.old.held name.now) → self.new.faults ≡ self.old.faults }
        ensures due { is_due self.old.failing self.old.calls ≡ true → IsErr result }
        ensures due_faults { OnErr result (IsSome
            (file self.old.held name.now) → self.new.faults ≡ one_more self.old.faults) }
        ensures succeeds { is_due self.old.failing self.old.calls ≡ false → IsSome (file self.old.held name.now) →
            IsOk result }
        ensures nothing { OnErr result (self.new.rest ≡ []) }
        ensures later { self.old.faults ≤ self.new.faults }
    {
        let fails = self.failing.contains(&self.calls);
        self.calls = self.calls.wrapping_add(1);
        self.picked = None;
        let Some(place) = place_of(&self.files, name) else {
            return Err(Failed);
        };
        if fails {
            self.faults = self.faults.saturating_add(1);
            return Err(Failed);
        }
        self.picked = Some(place);
        self.position = 0;
        Ok(())
    }

    fn read(&mut self, buf: &mut [u8]) -> Result<usize, Failed>
        requires room { 0 < length buf.old }
        requires fits { self.old.given + length buf.old < 2 ^ 64 }
        ensures kept { self.new ≡ record self.old {
          rest = self.new.rest;
          given = self.new.given;
          faults =
              self.new.faults;
          calls = self.new.calls;
        } }
        ensures counted { self.old.calls < 2 ^ 64 - 1 → self.new.calls ≡ self.old.calls + 1 }

        ensures count { IfOk result (λ n. n ≡ min (min (length self.old.rest) (length buf.old)) self.old.piece) }
        ensures bound { ReadsAtMost result buf.new }
        ensures bytes { IfOk result (λ n. self.old.rest ≡ take n buf.new ++ self.new.rest) }
        ensures end { IfOk result (λ n. (n ≡ 0) ↔ (self.old.rest ≡ [])) }
        ensures nothing_left { IfOk result (λ n. n ≡ 0 → self.new.rest ≡ []) }
        ensures given { IfOk result (λ n. self.new.given ≡ self.old.given + n) }
        ensures no_fault { OnOk result (self.new.faults ≡ self.old.faults) }

        ensures due { IsErr result ↔ (is_due self.old.failing self.old.calls ≡ true) }
        ensures err { OnErr result
            (self.new ≡ record self.old {
              faults = one_more self.old.faults;
              calls =
                  self.new.calls;
            }) }
        ensures later { self.old.faults ≤ self.new.faults }
    {
        let fails = self.failing.contains(&self.calls);
        self.calls = self.calls.wrapping_add(1);
        if fails {
            self.faults = self.faults.saturating_add(1);
            return Err(Failed);
        }
        let Some(place) = self.picked else {
            return Ok(0);
        };
        let Some((_, content)) = self.files.get_index(place) else {
            return Ok(0);
        };
        let count = give(content.as_slice(), self.position, self.piece, buf);
        self.position += count;
        self.given += count as u64;
        Ok(count)
    }
}
