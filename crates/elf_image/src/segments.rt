// The loads in order of address, and their text.
ghost use Rattle.std.specs.Prelude.{◌≡◌, ◌+◌, ◌≤◌, ◌^◌, ◌++◌, IfErr, IfOk, IsPermutation, OnOk, filter, length, nat_lt, true, vec_len};
ghost use Rattle.std.specs.List.Sorted.{IsNonDecreasingBy};
ghost use Rattle.elf_image.specs.Image.{load_of, loaded_by};
ghost use Rattle.elf_image.specs.Layout.{Fit, IsNotKept, follow, words_of};
ghost use Rattle.elf_image.specs.Loaded.{text_of};

use crate::headers::{ProgramHeader, read_word};
use crate::{ImageError, TextWord};
use std::alloc::Global;

const PF_X: u32 = 1;

const MAX_TEXT: usize = 1 << 20;

/// The loads that are not empty, in rising order of address.
pub(crate) fn in_order(mut loads: Vec<ProgramHeader>) -> Vec<ProgramHeader>
    ensures loads { IsPermutation (filter (λ load. nat_lt 0 load.p_memsz) loads.items) result.items }
    ensures rising { IsNonDecreasingBy (λ load. load.p_vaddr) result.items }
{
    loads.retain(|load| load.p_memsz > 0);
    loads.sort_unstable_by_key(|load| load.p_vaddr);
    loads
}

/// The bytes that the file gives of a load.
pub(crate) fn bytes_of<'a>(file: &'a [u8], load: &ProgramHeader) -> &'a [u8]
    requires { load.now.p_offset + load.now.p_filesz ≤ length file.now }
    ensures { result.now ≡ (load_of file.now load.now).bytes }
{
    let offset = load.p_offset as usize;
    &file[offset..offset + load.p_filesz as usize]
}

// Appends the text words of one load.
fn push_words(text: &mut Vec<TextWord>, file: &[u8], load: &ProgramHeader) -> Result<(), ImageError>
    requires given { load.now.p_offset + load.now.p_filesz ≤ length file.now }
    requires low { load.now.p_vaddr + load.now.p_filesz ≤ 2 ^ 29 }
    requires most { vec_len text.old ≤ 2 ^ 20 }
    ensures text { OnOk result (text.new.items ≡ text.old.items ++ words_of file.now load.now) }
    ensures most { OnOk result (vec_len text.new ≤ 2 ^ 20) }
    ensures refused { IfErr result (IsNotKept (text.old.items ++ words_of file.now load.now)) }
{
    if load.p_flags & PF_X == 0 {
        return Ok(());
    }
    let bytes = bytes_of(file, load);
    let end = load.p_vaddr + load.p_filesz;
    let mut pc = load.p_vaddr.next_multiple_of(4);
    while pc + 4 <= end {
        if text.len() == MAX_TEXT {
            return Err(ImageError::TextSize);
        }
        let word = read_word(bytes, (pc - load.p_vaddr) as usize);
        text.push(TextWord { pc, word })?;
        pc += 4;
    }
    Ok(())
}

/// The text words of loads that don't overlap, in rising order of address.
pub(crate) fn read_text(
    alloc: Global,
    file: &[u8],
    loads: &[ProgramHeader],
) -> Result<Vec<TextWord>, ImageError>
    requires fit { Fit file.now loads.now }
    requires apart { follow 0 loads.now ≡ true }
    ensures text { IfOk result (λ text. text.items ≡ text_of (loaded_by 0 file.now loads.now)) }
    ensures most { IfOk result (λ text. vec_len text ≤ 2 ^ 20) }
    ensures refused { IfErr result (IsNotKept (text_of (loaded_by 0 file.now loads.now))) }
{
    let mut text = Vec::new(alloc);
    for load in loads {
        push_words(&mut text, file, load)?;
    }
    Ok(text)
}
