// The memory of the machine: the image, and over it the pages that were stored to.
ghost use Rattle.std.specs.Prelude.{◌≡◌, ◌<◌, ◌≤◌, ◌+◌, ◌*◌, ◌%◌, ◌^◌, ℕ, length, vec_len, IfOk, OnOk, OnErr, slice_index};

use crate::OutOfMemory;
use crate::code::Code;
use elf_image::Image;
use rv_decode::{Instr, StoreKind};
use std::alloc::{AllocError, Global};

const PAGE_SIZE: usize = 4096;

const PAGES: usize = 1 << 17;

/// A page that something was stored to.
#[derive(Drop)]
pub struct Page {
    bytes: Box<[u8; 4096]>,
}

impl Page {
    ghost use Rattle.rv_run.specs.Memory.{four_at};

    // Four bytes from a place on.
    fn four(&self, at: usize) -> [u8; 4]
        requires { at + 4 ≤ 4096 }
        ensures { result ≡ four_at (slice_index self.now.bytes.value) at }
    {
        [
            self.bytes[at],
            self.bytes[at + 1],
            self.bytes[at + 2],
            self.bytes[at + 3],
        ]
    }
}

/// The bytes below 2^29. A page is kept from the first store to it on.
#[derive(Drop)]
pub struct Memory<'a> {
    alloc: Global,
    code: Code<'a>,
    pages: Vec<Option<Page>>,
    ghost whole: { vec_len pages ≡ 131072 },
}

impl<'a> Memory<'a> {
    ghost use Rattle.elf_image.specs.Loaded.{byte_of, word_of};
    ghost use Rattle.rv_run.specs.Code.{fetched, HasRanges};
    ghost use Rattle.byteorder.specs.Endian.{little_bytes};
    ghost use Rattle.rv_run.specs.Memory.{four_at, number_at, with_bytes, with_words};
    ghost use Rattle.rv_run.specs.Step.{words_at, bytes_at};
    ghost use Rattle.vm_word.specs.Operations.{store_width};
    ghost use Rattle.rv_run.specs.Pages.{memory_of, IsOwned, KeepsOwned};

    /// The memory before anything is stored.
    pub fn new(alloc: Global, image: &'a Image) -> Result<Memory<'a>, OutOfMemory>
        ensures image { IfOk result (λ memory. memory.code.image.now ≡ image.now) }
        ensures bytes { IfOk result (λ memory. memory_of memory ≡ byte_of image.now) }
    {
        let code = Code::new(alloc, image)?;
        let mut pages = Vec::with_capacity(alloc, PAGES)?;
        for _ in 0..PAGES {
            pages.push(None).map_err(AllocError::from)?;
        }
        Ok(Memory { alloc, code, pages })
    }

    /// What the text word at an address decodes to, `None` where no text word stands there. No store changes it.
    pub fn fetch(&self, pc: u32) -> Option<Option<Instr>>
        ensures is { result ≡ fetched (word_of self.now.code.image.now pc) }
        ensures ranged { HasRanges result }
    {
        self.code.fetch(pc)
    }

    /// The byte at an address, the image's where no page is kept.
    pub fn byte(&self, address: u32) -> u8
        ensures { result ≡ memory_of self.now address }
    {
        match self.pages.get(address as usize / PAGE_SIZE) {
            Some(Some(page)) => page.bytes[address as usize % PAGE_SIZE],
            _ => self.code.image().byte(address),
        }
    }

    /// The number in two bytes from an address on.
    pub fn half(&self, address: u32) -> u16
        requires { address % 2 ≡ 0 }
        ensures { result ≡ number_at (memory_of self.now) address 2 }
    {
        u16::from_le_bytes([self.byte(address), self.byte(address + 1)])
    }

    /// Four bytes from an address on. They are in one page, which is looked up once.
    pub fn four(&self, address: u32) -> [u8; 4]
        requires { address % 4 ≡ 0 }
        ensures { result ≡ four_at (memory_of self.now) address }
    {
        match self.pages.get(address as usize / PAGE_SIZE) {
            Some(Some(page)) => page.four(address as usize % PAGE_SIZE),
            _ => self.unstored(address),
        }
    }

    // Four bytes of the image from an address on. (Out of line, so that `four` is short where a page is kept.)
    #[inline(never)]
    fn unstored(&self, address: u32) -> [u8; 4]
        requires { address % 4 ≡ 0 }
        ensures { result ≡ four_at (byte_of self.now.code.image.now) address }
    {
        let image = self.code.image();
        [
            image.byte(address),
            image.byte(address + 1),
            image.byte(address + 2),
            image.byte(address + 3),
        ]
    }

    /// The number in four bytes from an address on.
    pub fn word(&self, address: u32) -> u32
        requires { address % 4 ≡ 0 }
        ensures { result ≡ number_at (memory_of self.now) address 4 }
    {
        u32::from_le_bytes(self.four(address))
    }

    /// Puts bytes from an address on, all in one page.
    pub fn store(&mut self, address: u32, bytes: &[u8]) -> Result<(), OutOfMemory>
        requires low { address < 2 ^ 29 }
        requires within { address % 4096 + length bytes.now ≤ 4096 }
        ensures stored { OnOk result (memory_of self.new ≡ with_bytes (memory_of self.old) address bytes.now) }
        ensures err { OnErr result (memory_of self.new ≡ memory_of self.old) }
        ensures code { self.new.code ≡ self.old.code }
    {
        self.own(address)?;
        self.put(address, bytes);
        Ok(())
    }

    /// Puts the low bytes of a word from an address on, as many as the store has.
    pub fn store_number(
        &mut self,
        kind: StoreKind,
        address: u32,
        word: u32,
    ) -> Result<(), OutOfMemory>
        requires low { address < 2 ^ 29 }
        requires aligned { address % store_width kind ≡ 0 }
        ensures stored { OnOk result (memory_of self.new ≡ with_bytes (memory_of self.old) address (little_bytes (store_width kind) word)) }
        ensures err { OnErr result (memory_of self.new ≡ memory_of self.old) }
        ensures code { self.new.code ≡ self.old.code }
    {
        let bytes = word.to_le_bytes();
        match kind {
            StoreKind::Sb => self.store(address, &bytes[..1]),
            StoreKind::Sh => self.store(address, &bytes[..2]),
            StoreKind::Sw => self.store(address, &bytes),
        }
    }

    /// Eight words from an address on.
    pub fn words(&self, address: u32) -> [u32; 8]
        requires aligned { address % 4 ≡ 0 }
        requires low { address ≤ 2 ^ 29 }
        ensures { result ≡ words_at (memory_of self.now) address 8 }
    {
        let mut words = [0; 8];
        for (i, word) in words.iter_mut().enumerate() {
            *word = self.word(address + 4 * i as u32);
        }
        words
    }

    /// The 64 bytes from an address on.
    pub fn block(&self, address: u32) -> [u8; 64]
        requires aligned { address % 4 ≡ 0 }
        requires low { address ≤ 2 ^ 29 }
        ensures { result ≡ bytes_at (memory_of self.now) address 64 }
    {
        let mut bytes = [0; 64];
        for i in 0..16 {
            let at = 4 * i;
            let four = self.four(address + at as u32);
            bytes[at] = four[0];
            bytes[at + 1] = four[1];
            bytes[at + 2] = four[2];
            bytes[at + 3] = four[3];
        }
        bytes
    }

    /// Puts eight words from an address on, or none of them.
    pub fn store_words(&mut self, address: u32, words: &[u32; 8]) -> Result<(), OutOfMemory>
        requires aligned { address % 4 ≡ 0 }
        requires low { address + 32 ≤ 2 ^ 29 }
        ensures stored { OnOk result (memory_of self.new ≡ with_words (memory_of self.old) address words.now) }
        ensures err { OnErr result (memory_of self.new ≡ memory_of self.old) }
        ensures code { self.new.code ≡ self.old.code }
    {
        self.own(address)?;
        self.own(address + 28)?;
        for (i, word) in words.iter().enumerate() {
            self.put(address + 4 * i as u32, &word.to_le_bytes());
        }
        Ok(())
    }

    /// Sees to it that the page of an address is kept. No byte changes.
    pub fn own(&mut self, address: u32) -> Result<(), OutOfMemory>
        requires { address < 2 ^ 29 }
        ensures bytes { memory_of self.new ≡ memory_of self.old }
        ensures owned { OnOk result (IsOwned self.new address) }
        ensures keeps { KeepsOwned self.old self.new }
        ensures code { self.new.code ≡ self.old.code }
    {
        let place = address as usize / PAGE_SIZE;
        if self.pages[place].is_none() {
            self.pages[place] = Some(self.copied_page(place as u32)?);
        }
        Ok(())
    }

    /// Puts bytes from an address on, all in a page that is kept.
    pub fn put(&mut self, address: u32, bytes: &[u8])
        requires owned { IsOwned self.old address }
        requires within { address % 4096 + length bytes.now ≤ 4096 }
        ensures stored { memory_of self.new ≡ with_bytes (memory_of self.old) address bytes.now }
        ensures keeps { KeepsOwned self.old self.new }
        ensures code { self.new.code ≡ self.old.code }
    {
        let place = address as usize % PAGE_SIZE;
        if let Some(page) = &mut self.pages[address as usize / PAGE_SIZE] {
            page.bytes[place..place + bytes.len()].copy_from_slice(bytes);
        }
    }

    // The bytes that the image has in a page.
    #[inline(never)]
    fn copied_page(&self, number: u32) -> Result<Page, OutOfMemory>
        requires { number < 2 ^ 17 }
        ensures { IfOk result (λ page. (k : ℕ) → k < 4096 → slice_index page.bytes.value k ≡ byte_of self.now.code.image.now (4096 * number + k)) }
    {
        let image = self.code.image();
        let start = number as usize * PAGE_SIZE;
        let mut bytes = [0; PAGE_SIZE];
        let mut left = image.loads_len();
        while left > 0 {
            left -= 1;
            if let Some(load) = image.load(left) {
                load.copy_over(&mut bytes, start);
            }
        }
        Ok(Page {
            bytes: Box::new(self.alloc, bytes)?,
        })
    }
}
