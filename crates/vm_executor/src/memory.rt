// The memory of the machine: the pages that were reached, over the start of the run.
ghost use Rattle.std.specs.Prelude.{◌≡◌, ◌<◌, ◌≤◌, ◌^◌, ℕ, true, [], Some, IfOk};
ghost use Rattle.vm_isa.specs.Blocks.{is_block};
ghost use Rattle.vm_trace.specs.Pages.{IsMachineLabel, IsWhole};
ghost use Rattle.vm_transpile.specs.Start.{start_blocks};
ghost use Rattle.vm_executor.specs.Memory.{now_of, began_of, times_of, entry_at, label_of, place_at, Begins, IsFresh, IsReached, KeepsAll, PutBlock, StaysReached};
ghost use Rattle.vm_executor.specs.Pages.{AreTouched};

use crate::OutOfMemory;
use crate::block::Reached;
use crate::page::{begin, has_access, put, word_of};
use elf_image::Image;
use std::alloc::Global;
use std::collections::BTreeMap;
use std::marker::Model;
use vm_isa::space::MEMORY;
use vm_trace::{SPACE_PAGES, Touched};

/// The pages that were reached since the run began, and by their labels the places of all and of those that
/// were reached in the segment. Contracts see the image, the pages in the order in which they were first
/// reached, and the places of the segment's.
#[derive(Drop)]
pub struct Memory<'m> {
    image: &'m Image,
    places: BTreeMap<u32, usize>,
    pages: Vec<Touched>,
    segment: BTreeMap<u32, usize>,
}

impl<'m> Model for Memory<'m> {
    ghost use Rattle.std.specs.Prelude.{◌≡◌, ℕ};
    ghost use Rattle.std.specs.BTreeMap.{get};
    ghost use Rattle.std.specs.Ordering.{nat_cmp};
    ghost use Rattle.vm_executor.specs.Memory.{AreKept, IsSegment, Kept, place_at};

    ghost Value = { Kept };

    ghost view = { λ m. record { loaded = m.image.now; pages = m.pages.items; reached = m.segment.entries } };

    ghost invariant = { λ m. AreKept m.pages.items × ((label : ℕ) → get nat_cmp m.places label ≡ place_at m.pages.items label)
        × IsSegment (record { loaded = m.image.now; pages = m.pages.items; reached = m.segment.entries }) };
}

// The label of a block's page.
fn label_of(space: u8, pointer: u32) -> u32
    requires { is_block space pointer ≡ true }
    ensures { result ≡ label_of space pointer }
{
    SPACE_PAGES * space as u32 + pointer / 64
}

// The word that a block has where the run begins.
fn start_word(image: &Image, space: u8, pointer: u32) -> [u8; 4]
    requires { pointer < 2 ^ 29 }
    ensures { result ≡ start_blocks image.now space pointer }
{
    if space != MEMORY {
        return [0; 4];
    }
    [
        image.byte(pointer),
        image.byte(pointer + 1),
        image.byte(pointer + 2),
        image.byte(pointer + 3),
    ]
}

// The page of a block as it was where the run began.
fn fresh_page(image: &Image, label: u32) -> Touched
    requires { IsMachineLabel label }
    ensures label { result.label ≡ label }
    ensures fresh { IsFresh image.now result }
    ensures whole { IsWhole result }
{
    let space = (label / SPACE_PAGES) as u8;
    let first = label % SPACE_PAGES * 64;
    let mut page = Touched {
        label,
        old: [0; 64],
        new: [0; 64],
        times: [0; 16],
    };
    for block in 0..16usize {
        let word = start_word(image, space, first + 4 * block as u32);
        put(&mut page, block, word, 0);
    }
    begin(&mut page);
    page
}

impl<'m> Memory<'m> {
    pub fn new(alloc: Global, image: &'m Image) -> Memory<'m>
        ensures { result ≡ record { loaded = image.now; pages = []; reached = [] } }
    {
        Memory {
            image,
            places: BTreeMap::new(alloc),
            pages: Vec::new(alloc),
            segment: BTreeMap::new(alloc),
        }
    }

    /// The place of a block's page, which is kept from now on. It fails only where memory is out.
    pub fn reach(&mut self, space: u8, pointer: u32) -> Result<usize, OutOfMemory>
        requires { is_block space pointer ≡ true }
        ensures place { IfOk result (λ place. entry_at self.new.reached (label_of space pointer) ≡ Some place) }
        ensures keeps { KeepsAll self.old self.new }
        ensures stays { StaysReached self.old self.new }
    {
        let label = label_of(space, pointer);
        if let Some(place) = self.segment.get(&label) {
            return Ok(*place);
        }
        let place = self.own(space, pointer)?;
        self.segment.insert(label, place)?;
        Ok(place)
    }

    // The place of a block's page among all.
    fn own(&mut self, space: u8, pointer: u32) -> Result<usize, OutOfMemory>
        requires { is_block space pointer ≡ true }
        ensures place { IfOk result (λ place. place_at self.new.pages (label_of space pointer) ≡ Some place) }
        ensures keeps { KeepsAll self.old self.new }
        ensures stays { self.new.reached ≡ self.old.reached }
    {
        let label = label_of(space, pointer);
        if let Some(place) = self.places.get(&label) {
            return Ok(*place);
        }
        let place = self.pages.len();
        self.pages.push(fresh_page(self.image, label))?;
        if let Err(failed) = self.places.insert(label, place) {
            self.pages.pop();
            return Err(failed.into());
        }
        Ok(place)
    }

    /// The word of a block now.
    pub fn word(&self, block: &Reached) -> [u8; 4]
        requires { IsReached self.now block.now }
        ensures { result ≡ now_of self.now block.now.space block.now.pointer }
    {
        word_of(&self.pages[block.page], block.pointer as usize % 64 / 4)
    }

    /// The time of a block's last access in the segment, and 0 where there is none.
    pub fn time(&self, block: &Reached) -> u32
        requires { IsReached self.now block.now }
        ensures { result ≡ times_of self.now block.now.space block.now.pointer }
    {
        self.pages[block.page].times[block.pointer as usize % 64 / 4]
    }

    /// Puts a word into a block, with the time of its access.
    pub fn put(&mut self, block: &Reached, word: [u8; 4], time: u32)
        requires reached { IsReached self.old block.now }
        requires begun { 1 ≤ time }
        ensures put { PutBlock self.old self.new block.now.space block.now.pointer word time }
        ensures stays { self.new.reached ≡ self.old.reached }
    {
        put(
            &mut self.pages[block.page],
            block.pointer as usize % 64 / 4,
            word,
            time,
        );
    }

    /// The pages with a block that was accessed in the segment.
    pub fn touched(&self, alloc: Global) -> Result<Vec<Touched>, OutOfMemory>
        ensures { IfOk result (λ pages. AreTouched (began_of self.now) (now_of self.now) (times_of self.now) pages.items) }
    {
        let mut touched = Vec::new(alloc);
        for (_, place) in self.segment.iter() {
            let page = &self.pages[*place];
            if has_access(page) {
                touched.push(*page)?;
            }
        }
        Ok(touched)
    }

    /// Begins a segment: no block was accessed in it, and its memory begins as it is now.
    pub fn begin_segment(&mut self)
        ensures { Begins self.old self.new }
    {
        while let Some((_, place)) = self.segment.pop_first() {
            begin(&mut self.pages[place]);
        }
    }
}
