//! Growing texts and data.

ghost use Rattle.std.specs.Prelude.{◌≡◌, ◌==◌, ◌+◌, ◌-◌, ◌≤◌, [], ◌∷◌, ◌++◌, length, take, drop, replicate, OnOk, OnErr, IfOk, slice_get};
ghost use Rattle.std.specs.Option.{option_copied};

use crate::Memory;
use smallvec::SmallVec;
use std::alloc::Global;
use std::marker::Model;

/// A growing text or datum, which contracts see as the list of its bytes. Up to 16 bytes lie in the value itself.
#[derive(Debug, Drop)]
pub struct Piece {
    bytes: SmallVec<u8, 16>,
}

impl Model for Piece {
    ghost use Rattle.std.specs.Prelude.{List, ℕ};

    ghost Value = { List ℕ };

    ghost view = { λ piece. piece.bytes.items };
}

impl Piece {
    /// The empty piece, which takes no memory yet.
    pub fn new(alloc: Global) -> Piece
        ensures { result ≡ [] }
    {
        Piece {
            bytes: SmallVec::new(alloc),
        }
    }

    /// A kept copy of these bytes.
    #[inline(always)]
    pub fn of(alloc: Global, bytes: &[u8]) -> Result<Piece, Memory>
        ensures { IfOk result (λ piece. piece ≡ bytes.now) }
    {
        let mut piece = Piece::new(alloc);
        piece.extend(bytes)?;
        Ok(piece)
    }

    /// The piece of these bytes, which are not copied.
    pub(crate) fn of_vec(bytes: Vec<u8>) -> Piece
        ensures { result ≡ bytes.items }
    {
        Piece {
            bytes: SmallVec::from_vec(bytes),
        }
    }

    /// Another copy of the piece.
    pub fn copy(&self, alloc: Global) -> Result<Piece, Memory>
        ensures { IfOk result (λ piece. piece ≡ self.now) }
    {
        Piece::of(alloc, self.bytes.as_slice())
    }

    /// Adds a byte at the end. After `Memory` the piece is as before.
    pub fn push(&mut self, byte: u8) -> Result<(), Memory>
        ensures ok { OnOk result (self.new ≡ self.old ++ byte ∷ []) }
        ensures err { OnErr result (self.new ≡ self.old) }
    {
        self.bytes.push(byte)?;
        Ok(())
    }

    /// Adds bytes at the end. After `Memory` the piece is as before.
    pub fn extend(&mut self, bytes: &[u8]) -> Result<(), Memory>
        ensures ok { OnOk result (self.new ≡ self.old ++ bytes.now) }
        ensures err { OnErr result (self.new ≡ self.old) }
    {
        self.bytes.extend_from_slice(bytes)?;
        Ok(())
    }

    /// Writes bytes from a place on, over those that stand there and past the end; a gap before them is filled with a
    /// byte. After `Memory` the piece is as before.
    pub fn write(&mut self, at: usize, bytes: &[u8], filler: u8) -> Result<(), Memory>
        ensures ok { OnOk result (self.new
            ≡ (take at self.old ++ replicate (at - length self.old) filler) ++ bytes.now ++ drop (at + length bytes.now) self.old) }
        ensures err { OnErr result (self.new ≡ self.old) }
    {
        let len = self.bytes.len();
        if len <= at {
            return self.write_past(at, bytes, filler);
        }
        if bytes.len() <= len - at {
            self.bytes.as_mut_slice()[at..at + bytes.len()].copy_from_slice(bytes);
            return Ok(());
        }
        let (within, past) = bytes.split_at(len - at);
        self.bytes.extend_from_slice(past)?;
        self.bytes.as_mut_slice()[at..len].copy_from_slice(within);
        Ok(())
    }

    // Writes bytes from a place on that is not below the length.
    fn write_past(&mut self, at: usize, bytes: &[u8], filler: u8) -> Result<(), Memory>
        requires { length self.old ≤ at }
        ensures ok { OnOk result (self.new ≡ (self.old ++ replicate (at - length self.old) filler) ++ bytes.now) }
        ensures err { OnErr result (self.new ≡ self.old) }
    {
        let len = self.bytes.len();
        let written = self.fill_and_extend(at, bytes, filler);
        if written.is_err() {
            self.bytes.truncate(len);
        }
        written
    }

    // Fills up to a length, and adds bytes. After `Memory` some of that may have been done.
    fn fill_and_extend(&mut self, len: usize, bytes: &[u8], filler: u8) -> Result<(), Memory>
        requires { length self.old ≤ len }
        ensures ok { OnOk result (self.new ≡ (self.old ++ replicate (len - length self.old) filler) ++ bytes.now) }
        ensures err { take (length self.old) self.new ≡ self.old }
    {
        for _ in self.bytes.len()..len {
            self.bytes.push(filler)?;
        }
        self.extend(bytes)
    }

    /// Takes all bytes off, and keeps the memory.
    pub fn clear(&mut self)
        ensures { self.new ≡ [] }
    {
        self.bytes.clear();
    }

    /// The bytes.
    pub fn as_bytes(&self) -> &[u8]
        ensures { result.now ≡ self.now }
    {
        self.bytes.as_slice()
    }

    /// How many bytes the piece has.
    pub fn len(&self) -> usize
        ensures { result ≡ length self.now }
    {
        self.bytes.len()
    }

    /// Whether the piece has no byte.
    pub fn is_empty(&self) -> bool
        ensures { result ≡ (length self.now == 0) }
    {
        self.bytes.is_empty()
    }

    /// The byte at a place, or `None` exactly where the place is not below the length.
    pub fn get(&self, at: usize) -> Option<&u8>
        ensures { option_copied result ≡ slice_get self.now at }
    {
        self.bytes.as_slice().get(at)
    }
}
