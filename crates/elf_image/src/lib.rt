//! Program files: what an ELF32 file puts into memory, and which of its words are text.
#![tactic(auto)]

ghost use Rattle.std.specs.Prelude.{◌≡◌, ◌≢◌, ◌≤◌, IfErr, IfOk, IsPermutation, filter, length, nat_lt};
ghost use Rattle.std.specs.List.Sorted.{IsNonDecreasingBy};
ghost use Rattle.elf_image.specs.Elf.{load_headers};
ghost use Rattle.elf_image.specs.Image.{HasImage, IsRefused, NoneBefore, place};

mod copies;
mod headers;
mod image;
mod laws;
mod refusals;
mod segments;
#[cfg(test)]
mod tests;

use headers::{ProgramHeader, read_loads, read_word};
pub use image::Image;
use image::place_in;
pub use laws::{image_is_one, refusal_is_one, refused_has_no_image};
use refusals::{header_refusal, load_refusal, overlap};
use segments::{in_order, read_text};
use std::alloc::{AllocError, AllocFailed, Global};
use thiserror::Error;

/// Why a file has no image.
#[derive(Clone, Copy, Debug, PartialEq, Eq, Error)]
pub enum ImageError {
    #[error("the file ends before its header does")]
    Short,
    #[error("this is not an ELF file")]
    Magic,
    #[error("the file is not of the 32-bit class")]
    Class,
    #[error("the file's numbers are not little-endian")]
    Order,
    #[error("the file is not an executable")]
    FileType,
    #[error("the file is not for RISC-V")]
    Machine,
    #[error("the file has compressed instructions")]
    Compressed,
    #[error("a program header is not of 32 bytes")]
    HeaderSize,
    #[error("there are over 256 program headers, or the file ends before they do")]
    HeaderTable,
    #[error("a load has more bytes in the file than in memory")]
    SegmentSize,
    #[error("the file ends before a load does")]
    Truncated,
    #[error("a load ends past the memory's end")]
    Range,
    #[error("two loads share an address")]
    Overlap,
    #[error("there are over 2^20 text words")]
    TextSize,
    #[error("the entry is not the address of a text word")]
    Entry,
    #[error("out of memory")]
    OutOfMemory,
}

impl From<AllocError> for ImageError {
    ghost use Rattle.elf_image.specs.declared.ImageError.TheVariants.{OutOfMemory};

    ghost from_gives = { λ _ error. error ≡ OutOfMemory };

    fn from(_error: AllocError) -> ImageError {
        ImageError::OutOfMemory
    }
}

impl<T: Drop> From<AllocFailed<T>> for ImageError {
    ghost use Rattle.elf_image.specs.declared.ImageError.TheVariants.{OutOfMemory};

    ghost from_gives = { λ _ error. error ≡ OutOfMemory };

    fn from(_error: AllocFailed<T>) -> ImageError {
        ImageError::OutOfMemory
    }
}

/// A text word with its address.
#[derive(Clone, Copy, Debug, PartialEq, Eq)]
pub struct TextWord {
    pub pc: u32,
    pub word: u32,
}

/// A load: its address, the bytes that the file gives from there on, and how many bytes it takes in memory. Those that
/// the file doesn't give are 0.
#[derive(Clone, Copy, Debug)]
pub struct LoadPart<'a> {
    pub address: u32,
    pub bytes: &'a [u8],
    pub size: u32,
}

/// Reads a program file.
pub fn read_image(alloc: Global, bytes: &[u8]) -> Result<Image, ImageError>
    ensures image { IfOk result (HasImage bytes.now) }
    ensures refused { IfErr result (λ e. e ≢ ImageError.OutOfMemory → IsRefused bytes.now e) }
{
    if let Some(refusal) = header_refusal(bytes) {
        return Err(refusal);
    }
    let loads = read_loads(alloc, bytes)?;
    if let Some(refusal) = load_refusal(bytes, &loads) {
        return Err(refusal);
    }
    lay_out(alloc, bytes, in_order(loads))
}

// The image of a file with these loads, which are in order of address.
fn lay_out(alloc: Global, bytes: &[u8], loads: Vec<ProgramHeader>) -> Result<Image, ImageError>
    requires loads { IsPermutation (filter (λ load. nat_lt 0 load.p_memsz) (load_headers bytes.now)) loads.items }
    requires rising { IsNonDecreasingBy (λ load. load.p_vaddr) loads.items }
    requires long { 52 ≤ length bytes.now }
    requires first { NoneBefore (place ImageError.Overlap) bytes.now }
    ensures image { IfOk result (HasImage bytes.now) }
    ensures refused { IfErr result (λ e. e ≢ ImageError.OutOfMemory → IsRefused bytes.now e) }
{
    if overlap(&loads) {
        return Err(ImageError::Overlap);
    }
    let text = read_text(alloc, bytes, &loads)?;
    let entry = read_word(bytes, 24);
    if place_in(&text, entry).is_none() {
        return Err(ImageError::Entry);
    }
    Ok(Image::new(entry, bytes.to_vec(alloc)?, loads, text))
}
