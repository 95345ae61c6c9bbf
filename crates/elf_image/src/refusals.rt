// The tests of a file's header and of its loads, one for each refusal.
ghost use Rattle.std.specs.Prelude.{◌≡◌, ◌+◌, ◌<◌, ◌≤◌, ◌^◌, ◌↔◌, All, Any, IfNone, IfSome, IsTrue, count_by, length, ℕ};
ghost use Rattle.std.specs.List.Sorted.{IsNonDecreasingBy};
ghost use Rattle.elf_image.specs.Elf.{load_headers};
ghost use Rattle.elf_image.specs.Image.{Cause, IsRefused, NoneBefore, covers, place};

use crate::ImageError;
use crate::headers::{HEADER_SIZE, PROGRAM_HEADER_SIZE, ProgramHeader, read_half, read_word};

const MAGIC: [u8; 4] = [0x7f, b'E', b'L', b'F'];

const ELFCLASS32: u8 = 1;

const ELFDATA2LSB: u8 = 1;

const ET_EXEC: u16 = 2;

const EM_RISCV: u16 = 243;

const EF_RISCV_RVC: u32 = 1;

const MAX_HEADERS: u16 = 256;

const MEMORY_SIZE: u64 = 1 << 29;

fn is_short(bytes: &[u8]) -> bool
    ensures { IsTrue result ↔ Cause ImageError.Short bytes.now }
{
    bytes.len() < HEADER_SIZE
}

fn has_other_magic(bytes: &[u8]) -> bool
    requires { 52 ≤ length bytes.now }
    ensures { IsTrue result ↔ Cause ImageError.Magic bytes.now }
{
    bytes[..4] != MAGIC[..]
}

fn has_other_class(bytes: &[u8]) -> bool
    requires { 52 ≤ length bytes.now }
    ensures { IsTrue result ↔ Cause ImageError.Class bytes.now }
{
    bytes[4] != ELFCLASS32
}

fn has_other_order(bytes: &[u8]) -> bool
    requires { 52 ≤ length bytes.now }
    ensures { IsTrue result ↔ Cause ImageError.Order bytes.now }
{
    bytes[5] != ELFDATA2LSB
}

fn has_other_type(bytes: &[u8]) -> bool
    requires { 52 ≤ length bytes.now }
    ensures { IsTrue result ↔ Cause ImageError.FileType bytes.now }
{
    read_half(bytes, 16) != ET_EXEC
}

fn has_other_machine(bytes: &[u8]) -> bool
    requires { 52 ≤ length bytes.now }
    ensures { IsTrue result ↔ Cause ImageError.Machine bytes.now }
{
    read_half(bytes, 18) != EM_RISCV
}

fn is_compressed(bytes: &[u8]) -> bool
    requires { 52 ≤ length bytes.now }
    ensures { IsTrue result ↔ Cause ImageError.Compressed bytes.now }
{
    read_word(bytes, 36) & EF_RISCV_RVC != 0
}

fn has_other_header_size(bytes: &[u8]) -> bool
    requires { 52 ≤ length bytes.now }
    ensures { IsTrue result ↔ Cause ImageError.HeaderSize bytes.now }
{
    usize::from(read_half(bytes, 42)) != PROGRAM_HEADER_SIZE
}

fn has_bad_table(bytes: &[u8]) -> bool
    requires { 52 ≤ length bytes.now }
    ensures { IsTrue result ↔ Cause ImageError.HeaderTable bytes.now }
{
    let first = read_word(bytes, 28) as usize;
    let count = read_half(bytes, 44);
    count > MAX_HEADERS || first + PROGRAM_HEADER_SIZE * usize::from(count) > bytes.len()
}

/// The first refusal that the file's header is the cause of.
pub(crate) fn header_refusal(bytes: &[u8]) -> Option<ImageError>
    ensures none { IfNone result (NoneBefore (place ImageError.SegmentSize) bytes.now) }
    ensures some { IfSome result (IsRefused bytes.now) }
{
    if is_short(bytes) {
        Some(ImageError::Short)
    } else if has_other_magic(bytes) {
        Some(ImageError::Magic)
    } else if has_other_class(bytes) {
        Some(ImageError::Class)
    } else if has_other_order(bytes) {
        Some(ImageError::Order)
    } else if has_other_type(bytes) {
        Some(ImageError::FileType)
    } else if has_other_machine(bytes) {
        Some(ImageError::Machine)
    } else if is_compressed(bytes) {
        Some(ImageError::Compressed)
    } else if has_other_header_size(bytes) {
        Some(ImageError::HeaderSize)
    } else if has_bad_table(bytes) {
        Some(ImageError::HeaderTable)
    } else {
        None
    }
}

fn exceeds_its_memory(load: &ProgramHeader) -> bool
    ensures { IsTrue result ↔ (load.now.p_memsz < load.now.p_filesz) }
{
    load.p_filesz > load.p_memsz
}

fn ends_after(load: &ProgramHeader, file_size: usize) -> bool
    ensures { IsTrue result ↔ (file_size < load.now.p_offset + load.now.p_filesz) }
{
    load.p_offset as usize + load.p_filesz as usize > file_size
}

fn exceeds_memory(load: &ProgramHeader) -> bool
    ensures { IsTrue result ↔ (2 ^ 29 < load.now.p_vaddr + load.now.p_memsz) }
{
    u64::from(load.p_vaddr) + u64::from(load.p_memsz) > MEMORY_SIZE
}

fn has_oversized(loads: &[ProgramHeader]) -> bool
    ensures { IsTrue result ↔ Any (λ load. load.p_memsz < load.p_filesz) loads.now }
{
    loads.iter().any(|load| exceeds_its_memory(load))
}

fn has_truncated(loads: &[ProgramHeader], file_size: usize) -> bool
    ensures { IsTrue result ↔ Any (λ load. file_size < load.p_offset + load.p_filesz) loads.now }
{
    loads.iter().any(|load| ends_after(load, file_size))
}

fn has_too_high(loads: &[ProgramHeader]) -> bool
    ensures { IsTrue result ↔ Any (λ load. 2 ^ 29 < load.p_vaddr + load.p_memsz) loads.now }
{
    loads.iter().any(|load| exceeds_memory(load))
}

/// The first refusal that one load alone is the cause of.
pub(crate) fn load_refusal(bytes: &[u8], loads: &[ProgramHeader]) -> Option<ImageError>
    requires loads { loads.now ≡ load_headers bytes.now }
    requires first { NoneBefore (place ImageError.SegmentSize) bytes.now }
    ensures none { IfNone result (NoneBefore (place ImageError.Overlap) bytes.now) }
    ensures some { IfSome result (IsRefused bytes.now) }
{
    if has_oversized(loads) {
        Some(ImageError::SegmentSize)
    } else if has_truncated(loads, bytes.len()) {
        Some(ImageError::Truncated)
    } else if has_too_high(loads) {
        Some(ImageError::Range)
    } else {
        None
    }
}

/// Whether two loads share an address, of loads in order of address that are not empty.
pub(crate) fn overlap(loads: &[ProgramHeader]) -> bool
    requires rising { IsNonDecreasingBy (λ load. load.p_vaddr) loads.now }
    requires some { All (λ load. 0 < load.p_memsz) loads.now }
    requires low { All (λ load. load.p_vaddr + load.p_memsz ≤ 2 ^ 29) loads.now }
    ensures { IsTrue result ↔ ((address : ℕ) × (1 < count_by (covers address) loads.now)) }
{
    let mut end = 0;
    for load in loads {
        if load.p_vaddr < end {
            return true;
        }
        end = load.p_vaddr + load.p_memsz;
    }
    false
}
