//! The outside of a program: two inputs, an output and a line of text, behind one trait.
#![tactic(auto)]

ghost use Rattle.std.specs.Prelude.{◌≡◌, ℕ, ◌≤◌, ◌<◌, ◌^◌, length, true};
ghost use Rattle.vm_host.specs.State.{HostState, TellsBytes};
ghost use Rattle.vm_host.specs.Calls.{Opens, Reads, Creates, Writes, Finishes, Says};
ghost use Rattle.vm_host.specs.Names.{place_of};
ghost use Rattle.vm_host.specs.ReadUpTo.{ReadsUpTo};

mod faults;
mod memory;
mod named_file;
mod no_fault;
mod real;
mod tape;
#[cfg(test)]
mod tests;

pub use memory::MemoryHost;
pub use named_file::{FileBytes, FileName, NamedFile};
pub use no_fault::NoFaultHost;
pub use real::RealHost;
use std::alloc::{AllocError, AllocFailed, Global};
use thiserror::Error;

/// An input of the program.
#[derive(Clone, Copy, Debug, PartialEq, Eq)]
pub enum Slot {
    /// The program that the machine runs.
    Elf,
    /// What a command reads beside it.
    Second,
}

/// What a name was handed over for: one of the inputs, or the output.
#[derive(Clone, Copy, Debug, PartialEq, Eq)]
pub enum Place {
    Elf,
    Second,
    Out,
}

/// Why a call of a host was refused.
#[derive(Clone, Copy, Debug, PartialEq, Eq, Error)]
pub enum HostError {
    /// The outside failed, and the host counted a fault.
    #[error("a file or the standard output failed")]
    Failed,
    /// Memory ran out, in the host or in the program. That is no fault of the outside, and isn't
    /// counted as one.
    #[error("out of memory")]
    OutOfMemory,
}

/// Why an input could not be read whole.
#[derive(Clone, Copy, Debug, PartialEq, Eq, Error)]
pub enum ReadError {
    /// More bytes are left than the limit allows.
    #[error("the input is longer than the limit")]
    TooLong,
    /// A read was refused, or memory ran out.
    #[error("{0}")]
    Host(HostError),
}

impl From<Slot> for Place {
    ghost from_gives = { λ slot place. place ≡ place_of slot };

    fn from(slot: Slot) -> Place {
        match slot {
            Slot::Elf => Place::Elf,
            Slot::Second => Place::Second,
        }
    }
}

impl From<AllocError> for HostError {
    ghost use Rattle.vm_host.specs.declared.HostError.TheVariants.{OutOfMemory};

    ghost from_gives = { λ _ error. error ≡ OutOfMemory };

    fn from(_error: AllocError) -> HostError {
        HostError::OutOfMemory
    }
}

impl<T: Drop> From<AllocFailed<T>> for HostError {
    ghost use Rattle.vm_host.specs.declared.HostError.TheVariants.{OutOfMemory};

    ghost from_gives = { λ _ error. error ≡ OutOfMemory };

    fn from(_error: AllocFailed<T>) -> HostError {
        HostError::OutOfMemory
    }
}

impl From<AllocError> for ReadError {
    ghost use Rattle.vm_host.specs.declared.HostError.TheVariants.{OutOfMemory};
    ghost use Rattle.vm_host.specs.declared.ReadError.TheVariants.{Host};

    ghost from_gives = { λ _ error. error ≡ Host OutOfMemory };

    fn from(_error: AllocError) -> ReadError {
        ReadError::Host(HostError::OutOfMemory)
    }
}

impl From<HostError> for ReadError {
    ghost use Rattle.vm_host.specs.declared.ReadError.TheVariants.{Host};

    ghost from_gives = { λ cause error. error ≡ Host cause };

    fn from(cause: HostError) -> ReadError {
        ReadError::Host(cause)
    }
}

/// The outside of a program. Nothing is known of it but what its calls say, and each call may be
/// refused.
///
/// Its state counts the faults so far, and has what the host tells of the files, the inputs, the
/// output and the text. A call answers `Failed` only where it raised that count, or where the count
/// stands at its last value. So a caller can lay an answer to the outside. `OutOfMemory` has no
/// such cause.
pub trait Host {
    ghost state: { Self → HostState };

    /// Opens the named file at its front. It replaces the input that stood open in this slot.
    /// After a refusal nothing is said of the slot.
    fn open_input(&mut self, slot: Slot, name: &str) -> Result<(), HostError>
        ensures { Opens slot name.now (state self.old) (state self.new) result };

    /// Reads some of the bytes that are left, and gives their number. That may be fewer than fit,
    /// and is 0 for a buffer that isn't empty only at the end. A refused read takes nothing.
    fn read(&mut self, slot: Slot, into: &mut [u8]) -> Result<usize, HostError>
        requires { ((state self.old).input slot).is_open ≡ true }
        ensures { Reads slot (state self.old) (state self.new) result into.new };

    /// Starts an empty output under this name, in place of what stood there. After a refusal no
    /// output stands open.
    fn create(&mut self, name: &str) -> Result<(), HostError>
        ensures { Creates name.now (state self.old) (state self.new) result };

    /// Appends the whole piece to the output, and after a refusal some first part of it.
    fn write(&mut self, piece: &[u8]) -> Result<(), HostError>
        requires { (state self.old).output.creating ≡ true }
        ensures { Writes piece.now (state self.old) (state self.new) result };

    /// Closes the output, also where that is refused. Then the outside may have lost some of it.
    fn finish(&mut self) -> Result<(), HostError>
        requires { (state self.old).output.creating ≡ true }
        ensures { Finishes (state self.old) (state self.new) result };

    /// Appends the whole text to what the program says, and after a refusal some first part of it.
    fn say(&mut self, text: &[u8]) -> Result<(), HostError>
        ensures { Says text.now (state self.old) (state self.new) result };

    /// What the host tells of files is made of bytes.
    ghost bytes: { (host : Self) → TellsBytes (state host) };
}

/// The most bytes that `read_up_to` asks for in one call.
const PIECE_LENGTH: usize = 65536;

/// Reads the whole rest of an input, of at most `limit` bytes.
///
/// It takes memory as the bytes come, so an input that is short costs little under a high limit.
/// To tell a rest that is too long it reads one byte more than the limit, and no further.
pub fn read_up_to<H: Host>(
    alloc: Global,
    host: &mut H,
    slot: Slot,
    limit: usize,
) -> Result<Vec<u8>, ReadError>
    requires open { ((H.state host.old).input slot).is_open ≡ true }
    requires small { limit ≤ 2 ^ 30 }
    ensures { ReadsUpTo (λ v. v.items) slot limit (H.state host.old) (H.state host.new) result }
{
    let mut buffer = vec![in alloc; 0u8; PIECE_LENGTH.min(limit + 1)]?;
    read_by_pieces(alloc, host, slot, limit, buffer.as_mut_slice())
}

// Reads by pieces that fit the buffer, and whose room ends one byte past the limit.
fn read_by_pieces<H: Host>(
    alloc: Global,
    host: &mut H,
    slot: Slot,
    limit: usize,
    buffer: &mut [u8],
) -> Result<Vec<u8>, ReadError>
    requires open { ((H.state host.old).input slot).is_open ≡ true }
    requires small { limit ≤ 2 ^ 30 }
    requires room { 0 < length buffer.old }
    ensures { ReadsUpTo (λ v. v.items) slot limit (H.state host.old) (H.state host.new) result }
{
    let mut bytes = Vec::new(alloc);
    'pieces: while bytes.len() <= limit {
        let room = buffer.len().min(limit + 1 - bytes.len());
        let count = host.read(slot, &mut buffer[..room])?;
        if count == 0 {
            return Ok(bytes);
        }
        bytes.extend_from_slice(&buffer[..count])?;
    }
    Err(ReadError::TooLong)
}
