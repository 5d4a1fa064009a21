use crate::memory::Memory;
use std::alloc::Global;
use std::marker::Model;
use std::rc::RcSlice;

/// Bytes that several owners share, fewer than 2^32 of them. Texts and lexemes are pieces of it.
#[derive(Drop)]
pub struct Block {
    bytes: RcSlice<u8>,
}

impl Model for Block {
    ghost use Rattle.std.specs.Prelude.{List, ℕ, ◌<◌, length};
    ghost use Rattle.std.specs.Rc.{rc_slice_items};

    ghost Value = { List ℕ };

    ghost view = { λ b. rc_slice_items b.bytes };

    ghost invariant = { λ b. length (rc_slice_items b.bytes) < 4294967296 };
}

impl Block {
    ghost use Rattle.std.specs.Prelude.{◌≡◌, ◌<◌, length, IfOk, IfSome};

    /// Takes the list over as it is. More bytes than a block can hold are want of memory.
    pub fn from_vec(bytes: Vec<u8>) -> Result<Block, Memory>
        ensures { IfOk result (λ b. b ≡ bytes.items) }
    {
        if bytes.len() > 0xffff_ffff {
            return Err(Memory);
        }
        Ok(Block {
            bytes: RcSlice::from_vec(bytes)?,
        })
    }

    /// A copy of the bytes. More than a block can hold are want of memory.
    pub fn from_slice(alloc: Global, bytes: &[u8]) -> Result<Block, Memory>
        ensures { IfOk result (λ b. b ≡ bytes.now) }
    {
        Block::from_vec(Vec::from_slice(alloc, bytes)?)
    }

    /// All bytes of the block.
    pub fn as_slice(&self) -> &[u8]
        ensures value { result.now ≡ self.now }
        ensures small { length self.now < 4294967296 }
    {
        self.bytes.as_slice()
    }

    /// How many bytes there are.
    pub fn len(&self) -> usize
        ensures value { result ≡ length self.now }
        ensures small { length self.now < 4294967296 }
    {
        self.bytes.as_slice().len()
    }

    /// One more owner of the same bytes; `None` where no further owner can be counted.
    pub fn share(&self) -> Option<Block>
        ensures { IfSome result (λ b. b ≡ self.now) }
    {
        match self.bytes.clone() {
            Ok(bytes) => Some(Block { bytes }),
            Err(_) => None,
        }
    }
}
