//! The head of a file, taken from the host without the bytes behind it.
ghost use Rattle.std.specs.Prelude.{◌≡◌, ◌+◌, ◌<◌, ◌^◌, length, true};
ghost use Rattle.vm_host.specs.declared.Slot.TheVariants.{Second};
ghost use Rattle.table_format.specs.Stream.{Takes, TakesPiece, ReadsHead};

use crate::Reason;
use crate::take::{is_magic, is_version};
use readings::Stop;
use vm_host::{Host, HostError, Slot};

fn read_piece<H: Host>(host: &mut H, into: &mut [u8]) -> Result<usize, Stop<Reason>>
    requires open { ((H.state host.old).input Second).is_open ≡ true }
    ensures { TakesPiece into.new (H.state host.old) (H.state host.new) result }
{
    match host.read(Slot::Second, into) {
        Ok(count) => Ok(count),
        Err(HostError::Failed) => Err(Stop::Fault),
        Err(HostError::OutOfMemory) => Err(Stop::OutOfMemory),
    }
}

// Fills the buffer with the next bytes, which stand behind so many, and takes no more.
fn fill<H: Host>(host: &mut H, offset: u32, into: &mut [u8]) -> Result<(), Stop<Reason>>
    requires open { ((H.state host.old).input Second).is_open ≡ true }
    requires small { length into.old < 2 ^ 32 }
    ensures { Takes offset (length into.old) into.new (H.state host.old) (H.state host.new) result }
{
    let mut filled = 0;
    'pieces: while filled < into.len() {
        let count = read_piece(host, &mut into[filled..])?;
        if count == 0 {
            return Err(Stop::Refused(Reason::Cut {
                offset: u64::from(offset) + filled as u64,
            }));
        }
        filled += count;
    }
    Ok(())
}

/// The form's name and the version, which is from 1 to the greatest. From the host's second input it takes the twelve
/// bytes of the head and no more.
pub fn read_head<H: Host>(host: &mut H, greatest: u32) -> Result<u32, Stop<Reason>>
    requires open { ((H.state host.old).input Second).is_open ≡ true }
    ensures { ReadsHead greatest (H.state host.old) (H.state host.new) result }
{
    let mut name = [0u8; 8];
    fill(host, 0, &mut name)?;
    if !is_magic(name) {
        return Err(Stop::Refused(Reason::Magic));
    }
    let mut text = [0u8; 4];
    fill(host, 8, &mut text)?;
    let version = u32::from_le_bytes(text);
    if is_version(greatest, version) {
        Ok(version)
    } else {
        Err(Stop::Refused(Reason::Version { version }))
    }
}
