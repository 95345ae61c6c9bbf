// Bytes that are read from front to end.
ghost use Rattle.std.specs.Prelude.{◌≡◌, ℕ, ◌≤◌, ◌<◌, ◌++◌, [], length, take, slice_index, true, false};

use std::marker::Model;

/// Bytes, and a place among them.
#[derive(Drop)]
pub struct Tape {
    bytes: Vec<u8>,
    at: usize,
}

impl Model for Tape {
    ghost use Rattle.std.specs.Prelude.{◌≤◌, length};
    ghost use Rattle.vm_host.specs.Bytes.{Bytes};

    ghost Value = { Bytes };

    ghost use Rattle.vm_host.specs.Tape.{bytes_of};

    ghost view = { bytes_of };

    ghost invariant = { λ t. t.at ≤ length t.bytes.items };
}

impl Tape {
    pub fn new(bytes: Vec<u8>) -> Self
        ensures all { result.all ≡ bytes.items }
        ensures rest { result.rest ≡ bytes.items }
    {
        Tape { bytes, at: 0 }
    }

    /// Goes back to the front.
    pub fn rewind(&mut self)
        ensures all { self.new.all ≡ self.old.all }
        ensures rest { self.new.rest ≡ self.old.all }
    {
        self.at = 0;
    }

    /// Reads as many of the bytes that are left as fit.
    pub fn read(&mut self, into: &mut [u8]) -> usize
        ensures all { self.new.all ≡ self.old.all }
        ensures bound { result ≤ length into.new }
        ensures taken { self.old.rest ≡ take result into.new ++ self.new.rest }
        ensures end { result ≡ 0 → 0 < length into.new → self.new.rest ≡ [] }
    {
        let left = &self.bytes[self.at..];
        let count = into.len().min(left.len());
        into[..count].copy_from_slice(&left[..count]);
        self.at += count;
        count
    }
}

/// An input that may stand open.
#[derive(Drop)]
pub struct Reader {
    pub is_open: bool,
    pub tape: Tape,
    ghost all_bytes: { (k : ℕ) → slice_index tape.all k < 256 },
    ghost rest_bytes: { (k : ℕ) → slice_index tape.rest k < 256 },
}

impl Reader {
    /// A closed input of these bytes.
    pub fn new(bytes: Vec<u8>) -> Self
        ensures closed { result.is_open ≡ false }
        ensures tape { result.tape ≡ record { all = bytes.items; rest = bytes.items } }
    {
        Reader {
            is_open: false,
            tape: Tape::new(bytes),
        }
    }

    /// An input of these bytes that stands open at their front.
    pub fn opened(bytes: Vec<u8>) -> Self
        ensures open { result.is_open ≡ true }
        ensures tape { result.tape ≡ record { all = bytes.items; rest = bytes.items } }
    {
        Reader {
            is_open: true,
            tape: Tape::new(bytes),
        }
    }

    /// Opens the input at its front.
    pub fn open(&mut self)
        ensures open { self.new.is_open ≡ true }
        ensures tape { self.new.tape ≡ record { all = self.old.tape.all; rest = self.old.tape.all } }
    {
        self.is_open = true;
        self.tape.rewind();
    }

    /// Reads as many of the bytes that are left as fit.
    pub fn read(&mut self, into: &mut [u8]) -> usize
        ensures open { self.new.is_open ≡ self.old.is_open }
        ensures all { self.new.tape.all ≡ self.old.tape.all }
        ensures bound { result ≤ length into.new }
        ensures taken { self.old.tape.rest ≡ take result into.new ++ self.new.tape.rest }
        ensures end { result ≡ 0 → 0 < length into.new → self.new.tape.rest ≡ [] }
    {
        self.tape.read(into)
    }
}
