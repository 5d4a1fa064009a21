use crate::memory::Memory;
use std::alloc::Global;
use std::marker::Model;

/// Bytes that grow at their end. It keeps its allocator.
#[derive(Drop)]
pub struct ByteBuf {
    bytes: Vec<u8>,
}

impl Model for ByteBuf {
    ghost use Rattle.std.specs.Prelude.{List, ℕ};

    ghost Value = { List ℕ };

    ghost view = { λ b. b.bytes.items };
}

impl ByteBuf {
    ghost use Rattle.std.specs.Prelude.{◌≡◌, ◌==◌, ◌≤◌, [], ◌∷◌, ◌++◌, length, take, OnOk, OnErr};

    /// A buffer without bytes. It takes no memory yet.
    pub fn new(alloc: Global) -> ByteBuf
        ensures { result ≡ [] }
    {
        ByteBuf {
            bytes: Vec::new(alloc),
        }
    }

    /// How many bytes it holds.
    pub fn len(&self) -> usize
        ensures { result ≡ length self.now }
    {
        self.bytes.len()
    }

    /// Whether it holds no bytes.
    pub fn is_empty(&self) -> bool
        ensures { result ≡ (length self.now == 0) }
    {
        self.bytes.is_empty()
    }

    /// Adds a byte at the end.
    pub fn push(&mut self, byte: u8) -> Result<(), Memory>
        ensures ok { OnOk result (self.new ≡ self.old ++ byte ∷ []) }
        ensures err { OnErr result (self.new ≡ self.old) }
    {
        self.bytes.push(byte)?;
        Ok(())
    }

    /// Adds bytes at the end, all of them or none.
    pub fn push_slice(&mut self, b: &[u8]) -> Result<(), Memory>
        ensures ok { OnOk result (self.new ≡ self.old ++ b.now) }
        ensures err { OnErr result (self.new ≡ self.old) }
    {
        self.bytes.extend_from_slice(b)?;
        Ok(())
    }

    /// The bytes in the order in which they came.
    pub fn as_slice(&self) -> &[u8]
        ensures { result.now ≡ self.now }
    {
        self.bytes.as_slice()
    }

    /// The bytes as a list, with no copy.
    pub fn into_vec(self) -> Vec<u8>
        ensures { result.items ≡ self }
    {
        let ByteBuf { bytes } = self;
        bytes
    }

    /// Keeps the first `len` bytes.
    pub fn cut(&mut self, len: usize)
        requires { len ≤ length self.old }
        ensures { self.new ≡ take len self.old }
    {
        self.bytes.truncate(len);
    }
}
