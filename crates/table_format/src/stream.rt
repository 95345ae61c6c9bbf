//! The bytes of the host's second input, taken in large pieces and given as they are asked for.

ghost use Rattle.std.specs.Prelude.{◌≡◌, ◌≢◌, ◌≤◌, ◌<◌, ◌↔◌, ◌*◌, ◌^◌, [], List, ℕ, IsTrue, IsFalse, MatchOption, length, take, drop, true, IfOk};
ghost use Rattle.std.specs.Int.{w32, from_le_bytes};
ghost use Rattle.vm_field.specs.Field.{modulus};
ghost use Rattle.vm_host.specs.declared.Slot.TheVariants.{Second};
ghost use Rattle.readings.specs.Readings.{raw, number};
ghost use Rattle.readings.specs.Told.{Is};
ghost use Rattle.table_format.specs.declared.reason.Reason.TheVariants.{Cut};
ghost use Rattle.table_format.specs.Stream.{Gives, Readies, ReadsBy, AreElements};

use crate::Reason;
use readings::Stop;
use std::alloc::{AllocError, Global};
use std::marker::Model;
use vm_field::Fe;
use vm_host::{Host, HostError, Slot};

/// How many bytes are asked of the host at once.
const PIECE: usize = 65_536;

/// The bytes of a file that the host has as its second input, taken in large pieces and given item by item.
///
/// What follows is what was taken and not yet given, and then what the host still has. Each call reads one item, and
/// its contract names the reading (`specs/Order`) that the item is one of.
#[derive(Drop)]
pub struct Stream {
    piece: Vec<u8>,
    // how many bytes of the piece were given, and how many it has
    at: usize,
    filled: usize,
    // the place of the piece's first byte in the file
    start: u64,
}

impl Model for Stream {
    ghost use Rattle.std.specs.Prelude.{◌+◌, ◌^◌, ◌≤◌, ◌<◌, length, take, drop};
    ghost use Rattle.table_format.specs.Stream.{Held};

    ghost Value = { Held };

    ghost view = { λ s. record { at = s.start + s.at; ahead = drop s.at (take s.filled s.piece.items) } };

    ghost invariant = { λ s. (s.at ≤ s.filled) × (s.filled ≤ length s.piece.items) × (0 < length s.piece.items) × (s.start + s.filled < 2 ^ 64) };
}

impl Stream {
    /// A stream that has taken nothing, where so many bytes of the file were read before.
    pub fn new(alloc: Global, offset: u64) -> Result<Stream, AllocError>
        ensures { IfOk result (λ s. s ≡ record { at = offset; ahead = [] }) }
    {
        let piece = vec![in alloc; 0u8; PIECE]?;
        Ok(Stream {
            piece,
            at: 0,
            filled: 0,
            start: offset,
        })
    }

    /// How many bytes of the file were given.
    pub fn offset(&self) -> u64
        ensures { result ≡ self.now.at }
    {
        self.start + self.at as u64
    }

    fn is_empty(&self) -> bool
        ensures { IsTrue result ↔ (self.now.ahead ≡ []) }
    {
        self.at == self.filled
    }

    // Takes the next piece where no byte is held, and tells whether one is. Places are numbers of 64 bits.
    pub(crate) fn ready<H: Host>(&mut self, host: &mut H) -> Result<bool, Stop<Reason>>
        requires open { ((H.state host.old).input Second).is_open ≡ true }
        ensures { Readies self.old self.new (H.state host.old) (H.state host.new) result }
    {
        if !self.is_empty() {
            return Ok(true);
        }
        self.start += self.at as u64;
        self.at = 0;
        self.filled = 0;
        if self.start.checked_add(self.piece.len() as u64).is_none() {
            return Err(Stop::OutOfMemory);
        }
        match host.read(Slot::Second, &mut self.piece) {
            Ok(count) => {
                self.filled = count;
                Ok(count > 0)
            }
            Err(HostError::Failed) => Err(Stop::Fault),
            Err(HostError::OutOfMemory) => Err(Stop::OutOfMemory),
        }
    }

    // Gives the first bytes that are held, as many as fit.
    fn give(&mut self, into: &mut [u8]) -> usize
        ensures given { Gives self.old self.new result (take result into.new) }
        ensures rest { drop result into.new ≡ drop result into.old }
        ensures some { (result ≤ length into.old) × (self.old.ahead ≢ [] → 0 < length into.old → 0 < result) }
    {
        let count = (self.filled - self.at).min(into.len());
        let end = self.at + count;
        into[..count].copy_from_slice(&self.piece[self.at..end]);
        self.at = end;
        count
    }

    // Gives the next number, where all of its bytes are held.
    fn held_number(&mut self) -> Option<u32>
        ensures { MatchOption result (self.new ≡ self.old) (λ n. (bytes : List ℕ) × (n ≡ from_le_bytes w32 bytes) × Gives self.old self.new 4 bytes) }
    {
        if self.filled - self.at < 4 {
            return None;
        }
        let end = self.at + 4;
        let mut text = [0u8; 4];
        text.copy_from_slice(&self.piece[self.at..end]);
        self.at = end;
        Some(u32::from_le_bytes(text))
    }

    // Gives the next numbers, where all of their bytes are held and each is that of an element. So most rows are read
    // in one turn, with no test of room for each value.
    pub(crate) fn held_elements(&mut self, values: &mut [Fe]) -> bool
        requires { length values.old < 2 ^ 32 }
        ensures size { length values.new ≡ length values.old }
        ensures held { IsTrue result → (bytes : List ℕ) × AreElements (length values.old) bytes values.new × Gives self.old self.new (4 * length values.old) bytes }
        ensures none { IsFalse result → self.new ≡ self.old }
    {
        let size = 4 * values.len();
        if self.filled - self.at < size {
            return false;
        }
        let end = self.at + size;
        let are_elements = read_elements(&self.piece[self.at..end], values);
        if are_elements {
            self.at = end;
        }
        are_elements
    }

    // Gives the next number, where all of its bytes are held and it is that of an element. So most values of a row
    // at a piece's end are read without an answer that has room for each reason.
    pub(crate) fn held_element(&mut self) -> Option<Fe>
        ensures { MatchOption result (self.new ≡ self.old) (λ n. (n < modulus) × ((bytes : List ℕ) × (n ≡ from_le_bytes w32 bytes) × Gives self.old self.new 4 bytes)) }
    {
        if self.filled - self.at < 4 {
            return None;
        }
        let end = self.at + 4;
        let mut text = [0u8; 4];
        text.copy_from_slice(&self.piece[self.at..end]);
        let element = Fe::new(u32::from_le_bytes(text))?;
        self.at = end;
        Some(element)
    }

    /// Fills the buffer with the next bytes.
    pub(crate) fn fill<H: Host>(
        &mut self,
        host: &mut H,
        into: &mut [u8],
    ) -> Result<(), Stop<Reason>>
        requires open { ((H.state host.old).input Second).is_open ≡ true }
        ensures { ReadsBy (raw Cut (length into.old)) (λ bytes unit. into.new ≡ bytes) self.old self.new (H.state host.old) (H.state host.new) result }
    {
        let mut filled = 0;
        'pieces: while filled < into.len() {
            if !self.ready(host)? {
                return Err(Stop::Refused(Reason::Cut {
                    offset: self.offset(),
                }));
            }
            filled += self.give(&mut into[filled..]);
        }
        Ok(())
    }

    /// A number of four bytes, the lowest first.
    pub fn number<H: Host>(&mut self, host: &mut H) -> Result<u32, Stop<Reason>>
        requires open { ((H.state host.old).input Second).is_open ≡ true }
        ensures { ReadsBy (number Cut) Is self.old self.new (H.state host.old) (H.state host.new) result }
    {
        match self.held_number() {
            Some(number) => Ok(number),
            None => self.next_number(host),
        }
    }

    // A number that is not held whole.
    #[inline(never)]
    fn next_number<H: Host>(&mut self, host: &mut H) -> Result<u32, Stop<Reason>>
        requires open { ((H.state host.old).input Second).is_open ≡ true }
        ensures { ReadsBy (number Cut) Is self.old self.new (H.state host.old) (H.state host.new) result }
    {
        let mut text = [0u8; 4];
        self.fill(host, &mut text)?;
        Ok(u32::from_le_bytes(text))
    }
}

// Reads a number of four bytes into each place, and tells whether all are those of elements.
fn read_elements(text: &[u8], values: &mut [Fe]) -> bool
    requires { length text.now ≡ 4 * length values.old }
    ensures size { length values.new ≡ length values.old }
    ensures read { IsTrue result → AreElements (length values.old) text.now values.new }
{
    let mut are_elements = true;
    'values: for place in 0..values.len() {
        let mut bytes = [0u8; 4];
        bytes.copy_from_slice(&text[4 * place..4 * place + 4]);
        let element = Fe::new(u32::from_le_bytes(bytes));
        are_elements &= element.is_some();
        values[place] = element.unwrap_or(Fe::ZERO);
    }
    are_elements
}
