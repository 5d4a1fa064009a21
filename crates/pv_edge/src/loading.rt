ghost use Rattle.std.specs.Prelude.{◌≡◌, ◌+◌, ◌^◌, ◌<◌, ◌≤◌, ◌++◌, ◌⊎◌, length, take, IfOk, IfErr, IfSome, IsErrOf, IsOkUnless};
ghost use Rattle.std.specs.Io.KnownBytes.{Consumes, IsAtEnd};
ghost use Rattle.pv_edge.specs.Files.{HoldsMoreThan, HoldsUpTo, IsMissing};
ghost use Rattle.pv_edge.specs.Loading.{GivesUpToEnd, GivesWithin, IsContent, IsOverLimit, LoadFails, PieceFails, ReadFails};
ghost use Rattle.pv_edge.specs.Rising.{Rose};

use crate::shelf::{Failed, Shelf};
use crate::window::PIECE;
use pv_text::Bytes;
use std::alloc::{AllocError, Global};
use thiserror::Error;

/// Why a file was not loaded.
#[derive(Clone, Copy, Debug, PartialEq, Eq, Drop, Error)]
pub enum LoadFault {
    /// The shelf failed, or no file has the name.
    #[error("the file cannot be read")]
    Failed,
    /// The file has more bytes than the limit.
    #[error("the file is too large")]
    TooLarge,
    #[error("out of memory")]
    Memory,
}

impl From<Failed> for LoadFault {
    ghost use Rattle.std.specs.Prelude.{◌≡◌};
    ghost use Rattle.pv_edge.specs.declared.loading.LoadFault.TheVariants as fault;

    ghost from_gives = { λ _ e. e ≡ fault.Failed };

    fn from(_e: Failed) -> LoadFault {
        LoadFault::Failed
    }
}

impl From<AllocError> for LoadFault {
    ghost use Rattle.std.specs.Prelude.{◌≡◌};
    ghost use Rattle.pv_edge.specs.declared.loading.LoadFault.TheVariants as fault;

    ghost from_gives = { λ _ e. e ≡ fault.Memory };

    fn from(_e: AllocError) -> LoadFault {
        LoadFault::Memory
    }
}

// One read, whose bytes are put at the end of `bytes`.
fn read_piece<F: Shelf>(
    shelf: &mut F,
    bytes: &mut Vec<u8>,
    buf: &mut [u8],
) -> Result<usize, LoadFault>
    requires room { 0 < length buf.old }
    requires fits { F.given shelf.old + length buf.old < 2 ^ 64 }
    ensures held { F.held shelf.new ≡ F.held shelf.old }
    ensures later { F.faults shelf.old ≤ F.faults shelf.new }
    ensures rises { F.given shelf.old ≤ F.given shelf.new }
    ensures at_most { F.given shelf.new ≤ F.given shelf.old + length buf.old }
    ensures in_file { GivesWithin (F.rest shelf.old) (F.given shelf.old) (F.given shelf.new) }

    ensures within { IfOk result (λ n. n ≤ length buf.old) }
    ensures bytes { IfOk result (λ n. bytes.new.items ≡ bytes.old.items ++ take n buf.new) }
    ensures rest { IfOk result (λ n. Consumes (F.rest shelf.old) (F.rest shelf.new) (take n buf.new)) }
    ensures end { IfOk result (λ n. n ≡ 0 → IsAtEnd (F.rest shelf.new)) }
    ensures given { IfOk result (λ n. F.given shelf.new ≡ F.given shelf.old + n) }

    ensures cause { IfErr result (λ e.
        PieceFails e (F.faults shelf.old) (F.faults shelf.new) (F.given shelf.old)
        (F.given shelf.new)) }
{
    let count = shelf.read(buf)?;
    bytes.extend_from_slice(&buf[..count])?;
    Ok(count)
}

// Reads what is left, and no byte more than one past the limit.
fn read_rest<F: Shelf>(alloc: Global, shelf: &mut F, limit: u64) -> Result<Vec<u8>, LoadFault>
    requires limit { limit < 2 ^ 40 }
    requires fits { F.given shelf.old ≤ 2 ^ 63 }
    ensures held { F.held shelf.new ≡ F.held shelf.old }
    ensures later { F.faults shelf.old ≤ F.faults shelf.new }
    ensures rises { F.given shelf.old ≤ F.given shelf.new }
    ensures at_most { F.given shelf.new ≤ F.given shelf.old + limit + 1 }
    ensures in_file { GivesWithin (F.rest shelf.old) (F.given shelf.old) (F.given shelf.new) }

    ensures bytes { IfOk result (λ b. IfSome (F.rest shelf.old) (λ left. b.items ≡ left)) }
    ensures size { IfOk result (λ b. length b.items ≤ limit) }
    ensures given { IfOk result (λ b. F.given shelf.new ≡ F.given shelf.old + length b.items) }

    ensures cause { IfErr result (λ e.
        ReadFails e (F.rest shelf.old) limit (F.faults shelf.old) (F.faults shelf.new)
        (F.given shelf.old) (F.given shelf.new)) }
{
    let mut bytes = Vec::new(alloc);
    let mut buf = [0u8; PIECE];
    let mut room = limit + 1;
    while room > 0 {
        let want = room.min(PIECE as u64) as usize;
        let count = read_piece(shelf, &mut bytes, &mut buf[..want])?;
        if count == 0 {
            return Ok(bytes);
        }
        room -= count as u64;
    }
    Err(LoadFault::TooLarge)
}

/// The whole file of this name, which is read in pieces of at most 4,096 bytes.
pub fn load<F: Shelf>(
    alloc: Global,
    shelf: &mut F,
    name: &str,
    limit: u64,
) -> Result<Bytes, LoadFault>
    requires limit { limit < 2 ^ 40 }
    requires fits { F.given shelf.old ≤ 2 ^ 63 }
    ensures bytes { IfOk result (λ b. IsContent (F.held shelf.old) name.now b) }
    ensures size { IfOk result (λ b. length b ≤ limit) }
    ensures given { IfOk result (λ b. F.given shelf.new ≡ F.given shelf.old + length b) }

    ensures failed { IsErrOf result LoadFault.Failed →
        LoadFails (F.held shelf.old) name.now (F.faults shelf.old) (F.faults shelf.new) }
    ensures large { IsErrOf result LoadFault.TooLarge → F.given shelf.new ≡ F.given shelf.old + limit + 1 }
    ensures over { IsErrOf result LoadFault.TooLarge → IsOverLimit (F.held shelf.old) name.now limit }
    ensures large_alone { F.given shelf.new ≡ F.given shelf.old + limit + 1 →
        IsErrOf result LoadFault.TooLarge ⊎ IsErrOf result LoadFault.Memory }

    // What comes of a file whose content is told.
    ensures missing { IsMissing (F.held shelf.old) name.now → IsErrOf result LoadFault.Failed }
    ensures missing_faults { IsMissing (F.held shelf.old) name.now → F.faults shelf.new ≡ F.faults shelf.old }
    ensures missing_given { IsMissing (F.held shelf.old) name.now → F.given shelf.new ≡ F.given shelf.old }
    ensures whole { HoldsUpTo (F.held shelf.old) name.now limit →
        ¬ Rose (F.faults shelf.old) (F.faults shelf.new) → IsOkUnless result LoadFault.Memory }
    ensures refused { HoldsMoreThan (F.held shelf.old) name.now limit →
        ¬ Rose (F.faults shelf.old) (F.faults shelf.new) →
        IsErrOf result LoadFault.TooLarge ⊎ IsErrOf result LoadFault.Memory }

    // The shelf after any answer.
    ensures held { F.held shelf.new ≡ F.held shelf.old }
    ensures later { F.faults shelf.old ≤ F.faults shelf.new }
    ensures rises { F.given shelf.old ≤ F.given shelf.new }
    ensures at_most { F.given shelf.new ≤ F.given shelf.old + limit + 1 }
    ensures in_file { GivesUpToEnd (F.held shelf.old) name.now (F.given shelf.old) (F.given shelf.new) }
{
    shelf.pick(name)?;
    let bytes = read_rest(alloc, shelf, limit)?;
    Ok(Bytes::from_vec(bytes))
}
