// The files that a command reads.
ghost use Rattle.std.specs.Prelude.{◌≡◌, ◌≤◌, ◌<◌, ℕ, List, length, OnOk, IfErr};
ghost use Rattle.vm_host.specs.declared.Slot.TheVariants.{Elf, Second};
ghost use Rattle.vm_tool.specs.Files.{MAX_FILE, GivesImage, RefusesElf, RefusesHints, halt_of_image};
ghost use Rattle.vm_tool.specs.ReadFile.{Gives, HaltsAt, IsOpened};

use crate::answer::{Answer, Halt};
use elf_image::{Image, ImageError, read_image};
use std::alloc::Global;
use vm_host::{Host, HostError, ReadError, Slot, read_up_to};

const MAX_LENGTH: usize = 1 << 26;

/// Opens an input.
pub fn open<H: Host>(slot: Slot, name: &str, host: &mut H) -> Result<(), Halt>
    ensures opened { OnOk result (IsOpened slot name.now (H.state host.old) (H.state host.new)) }
    ensures refused { IfErr result (λ halt. HaltsAt (λ _ _. ⊥) slot name.now (H.state host.old) (H.state host.new) halt) }
{
    match host.open_input(slot, name) {
        Ok(()) => Ok(()),
        Err(error) => Err(Halt::Host(error)),
    }
}

// Opens a file and reads it whole. A file that is too long has this answer.
fn read_file<H: Host>(
    alloc: Global,
    slot: Slot,
    name: &str,
    long: Answer,
    host: &mut H,
) -> Result<Vec<u8>, Halt>
    ensures { Gives (λ bytes v. (bytes ≡ v.items) × (length bytes ≤ MAX_FILE)) (λ bytes found. (MAX_FILE < length bytes) × (found ≡ long)) slot name.now (H.state host.old) (H.state host.new) result }
{
    open(slot, name, host)?;
    match read_up_to(alloc, host, slot, MAX_LENGTH) {
        Ok(bytes) => Ok(bytes),
        Err(ReadError::TooLong) => Err(Halt::Found(long)),
        Err(ReadError::Host(error)) => Err(Halt::Host(error)),
    }
}

/// Reads the ELF file, and its image.
pub fn read_elf<H: Host>(alloc: Global, name: &str, host: &mut H) -> Result<Image, Halt>
    ensures { Gives GivesImage RefusesElf Elf name.now (H.state host.old) (H.state host.new) result }
{
    let bytes = read_file(alloc, Slot::Elf, name, Answer::ElfTooLong, host)?;
    match read_image(alloc, &bytes) {
        Ok(image) => Ok(image),
        Err(error) => Err(image_halt(error)),
    }
}

// Want of memory is no refusal of the file.
fn image_halt(error: ImageError) -> Halt
    ensures { result ≡ halt_of_image error }
{
    match error {
        ImageError::OutOfMemory => Halt::Host(HostError::OutOfMemory),
        refusal => Halt::Found(Answer::ElfRefused(refusal)),
    }
}

/// Reads the hint file.
pub fn read_hints<H: Host>(alloc: Global, name: &str, host: &mut H) -> Result<Vec<u8>, Halt>
    ensures { Gives (λ bytes v. (bytes ≡ v.items) × (length bytes ≤ MAX_FILE)) RefusesHints Second name.now (H.state host.old) (H.state host.new) result }
{
    read_file(alloc, Slot::Second, name, Answer::HintLimit, host)
}
