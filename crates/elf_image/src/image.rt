// The image that is kept of a file.
ghost use Rattle.std.specs.Prelude.{◌≡◌, ◌≤◌, IfSome, Some, length, slice_get, true};
ghost use Rattle.vm_word.specs.Bytes.{IsBytes};
ghost use Rattle.elf_image.specs.declared.TextWord.{TextWord};
ghost use Rattle.elf_image.specs.Image.{HasImage, IsOfAFile, loaded_by};
ghost use Rattle.elf_image.specs.Layout.{Begun, IsLaidOut, follow};
ghost use Rattle.elf_image.specs.Loaded.{IsPart, IsPlace, Loaded, byte_of, text_of, word_of};

use crate::headers::ProgramHeader;
use crate::segments::bytes_of;
use crate::{LoadPart, TextWord};
use std::marker::Model;

/// A program in memory, as its file gives it. Each is that of a file of bytes.
#[derive(Drop)]
pub struct Image {
    entry: u32,
    // One copy of the file's bytes, however many loads take from them.
    file: Vec<u8>,
    loads: Vec<ProgramHeader>,
    text: Vec<TextWord>,
}

impl Model for Image {
    ghost use Rattle.elf_image.specs.Loaded.{Loaded};

    ghost Value = { Loaded };

    ghost use Rattle.elf_image.specs.Image.{loaded_by};
    ghost use Rattle.elf_image.specs.Layout.{IsLaidOut};

    ghost view = { λ image. loaded_by image.entry image.file.items image.loads.items };

    ghost use Rattle.elf_image.specs.Image.{HasImage};

    ghost invariant = { λ image. IsLaidOut image.entry image.file.items image.loads.items image.text.items × HasImage image.file.items (loaded_by image.entry image.file.items image.loads.items) };
}

// How many of these loads begin at the address or before it.
fn count_begun(loads: &[ProgramHeader], address: u32) -> usize
    requires { follow 0 loads.now ≡ true }
    ensures within { result ≤ length loads.now }
    ensures begun { Begun loads.now address result }
{
    loads.partition_point(|load| load.p_vaddr <= address)
}

// The place of the word at an address, if the words from the first on follow one another up to there, as those of one
// load do.
fn place_in_line(text: &[TextWord], pc: u32) -> Option<usize>
    ensures { IfSome result (λ place. (word : TextWord) × (slice_get text.now place ≡ Some word) × (word.pc ≡ pc)) }
{
    let place = (pc.checked_sub(text.first()?.pc)? / 4) as usize;
    if text.get(place)?.pc == pc {
        Some(place)
    } else {
        None
    }
}

/// The place of the word at an address of a text.
pub(crate) fn place_in(text: &[TextWord], pc: u32) -> Option<usize>
    ensures { (loaded : Loaded) → text.now ≡ text_of loaded → IsPlace text.now pc (word_of loaded pc) result }
{
    if let Some(place) = place_in_line(text, pc) {
        return Some(place);
    }
    match text.binary_search_by_key(&pc, |word| word.pc) {
        Ok(place) => Some(place),
        Err(_) => None,
    }
}

// The elements of a vector of bytes are bytes.
fn are_bytes(bytes: &Vec<u8>)
    ensures { IsBytes bytes.now.items }
{
    let _ = bytes;
}

impl Image {
    /// The image of a file with these loads and this text.
    pub(crate) fn new(
        entry: u32,
        file: Vec<u8>,
        loads: Vec<ProgramHeader>,
        text: Vec<TextWord>,
    ) -> Self
        requires laid_out { IsLaidOut entry file.items loads.items text.items }
        requires has_image { HasImage file.items (loaded_by entry file.items loads.items) }
        ensures { HasImage file.items result }
    {
        Image {
            entry,
            file,
            loads,
            text,
        }
    }

    /// The address at which a run begins.
    pub fn entry(&self) -> u32
        ensures { result ≡ self.now.entry }
    {
        self.entry
    }

    /// The byte at an address, 0 where the file gives none.
    pub fn byte(&self, address: u32) -> u8
        ensures { result ≡ byte_of self.now address }
    {
        let begun = count_begun(&self.loads, address);
        if begun == 0 {
            return 0;
        }
        let load = self.loads[begun - 1];
        let bytes = bytes_of(&self.file, &load);
        let offset = (address - load.p_vaddr) as usize;
        if offset < bytes.len() {
            bytes[offset]
        } else {
            0
        }
    }

    /// The text word at an address.
    pub fn word_at(&self, pc: u32) -> Option<u32>
        ensures { result ≡ word_of self.now pc }
    {
        let place = self.place_of(pc)?;
        Some(self.text[place].word)
    }

    /// The place of the text word at an address, in rising order.
    pub fn place_of(&self, pc: u32) -> Option<usize>
        ensures { IsPlace (text_of self.now) pc (word_of self.now pc) result }
    {
        place_in(&self.text, pc)
    }

    /// Law: a file of bytes has this image.
    pub fn is_of_a_file(&self)
        ensures { IsOfAFile self.now }
    {
        are_bytes(&self.file);
    }

    /// How many text words there are.
    pub fn text_len(&self) -> usize
        ensures { result ≡ length (text_of self.now) }
    {
        self.text.len()
    }

    /// The text word at a place, in rising order of address.
    pub fn text(&self, place: usize) -> Option<TextWord>
        ensures { result ≡ slice_get (text_of self.now) place }
    {
        self.text.get(place).copied()
    }

    /// How many loads there are that are not empty.
    pub fn loads_len(&self) -> usize
        ensures { result ≡ length self.now.loads }
    {
        self.loads.len()
    }

    /// The load at a place, in rising order of address. A load of size 0 has no place.
    pub fn load(&self, place: usize) -> Option<LoadPart<'_>>
        ensures { IsPart (slice_get self.now.loads place) result }
    {
        if place >= self.loads.len() {
            return None;
        }
        let load = self.loads[place];
        Some(LoadPart {
            address: load.p_vaddr,
            bytes: bytes_of(&self.file, &load),
            size: load.p_memsz,
        })
    }
}
