// The file's numbers, and the headers of its loads.
ghost use Rattle.std.specs.Prelude.{◌≡◌, ◌+◌, ◌*◌, ◌≤◌, IfOk, length};
ghost use Rattle.elf_image.specs.Elf.{e_phnum, e_phoff, half, load_headers, program_header, word};

use byteorder::{ByteOrder, LittleEndian};
use std::alloc::{AllocError, Global};

/// The size of the file's header.
pub(crate) const HEADER_SIZE: usize = 52;

/// The size of a program header.
pub(crate) const PROGRAM_HEADER_SIZE: usize = 32;

const PT_LOAD: u32 = 1;

/// A program header's fields, under the names of the System V ABI.
#[derive(Clone, Copy)]
pub(crate) struct ProgramHeader {
    pub(crate) p_type: u32,
    pub(crate) p_offset: u32,
    pub(crate) p_vaddr: u32,
    pub(crate) p_filesz: u32,
    pub(crate) p_memsz: u32,
    pub(crate) p_flags: u32,
}

/// The two bytes at an offset.
#[tactic(auto, unfolding(crate::specs::Elf::half))]
pub(crate) fn read_half(bytes: &[u8], offset: usize) -> u16
    requires { offset + 2 ≤ length bytes.now }
    ensures { result ≡ half offset bytes.now }
{
    LittleEndian::read_u16(&bytes[offset..])
}

/// The four bytes at an offset.
#[tactic(auto, unfolding(crate::specs::Elf::word))]
pub(crate) fn read_word(bytes: &[u8], offset: usize) -> u32
    requires { offset + 4 ≤ length bytes.now }
    ensures { result ≡ word offset bytes.now }
{
    LittleEndian::read_u32(&bytes[offset..])
}

fn read_header(bytes: &[u8], offset: usize) -> ProgramHeader
    requires { offset + 32 ≤ length bytes.now }
    ensures { result ≡ program_header offset bytes.now }
{
    ProgramHeader {
        p_type: read_word(bytes, offset),
        p_offset: read_word(bytes, offset + 4),
        p_vaddr: read_word(bytes, offset + 8),
        p_filesz: read_word(bytes, offset + 16),
        p_memsz: read_word(bytes, offset + 20),
        p_flags: read_word(bytes, offset + 24),
    }
}

/// The headers of the loads, in the order of the file.
pub(crate) fn read_loads(alloc: Global, bytes: &[u8]) -> Result<Vec<ProgramHeader>, AllocError>
    requires header { 52 ≤ length bytes.now }
    requires table { e_phoff bytes.now + 32 * e_phnum bytes.now ≤ length bytes.now }
    ensures { IfOk result (λ loads. loads.items ≡ load_headers bytes.now) }
{
    let first = read_word(bytes, 28) as usize;
    let count = read_half(bytes, 44) as usize;
    let mut loads = Vec::new(alloc);
    for place in 0..count {
        let header = read_header(bytes, first + PROGRAM_HEADER_SIZE * place);
        if header.p_type == PT_LOAD {
            loads.push(header)?;
        }
    }
    Ok(loads)
}
