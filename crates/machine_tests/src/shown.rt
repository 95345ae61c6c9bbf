//! What records show of memory.

use elf_image::Image;
use std::alloc::{AllocError, Global};
use std::process::Abort;
use vm_executor::{StepRecord, Touched};

/// A block: its word where the segment began, its word now, and the time of its last access.
#[derive(Clone, Copy)]
pub struct Block {
    pub space: u8,
    pub pointer: u32,
    pub first: [u8; 4],
    pub word: [u8; 4],
    pub time: u32,
}

/// The blocks that records accessed, over the image's bytes.
#[derive(Drop)]
pub struct Shown<'a> {
    pub image: &'a Image,
    blocks: Vec<Block>,
}

impl<'a> Shown<'a> {
    pub fn new(alloc: Global, image: &'a Image) -> Shown<'a> {
        Shown {
            image,
            blocks: Vec::new(alloc),
        }
    }

    pub fn blocks(&self) -> &[Block] {
        self.blocks.as_slice()
    }

    pub fn block(&self, space: u8, pointer: u32) -> Block {
        for block in self.blocks.as_slice() {
            if block.space == space && block.pointer == pointer {
                return *block;
            }
        }
        let word = if space == 2 {
            [
                self.image.byte(pointer),
                self.image.byte(pointer.wrapping_add(1)),
                self.image.byte(pointer.wrapping_add(2)),
                self.image.byte(pointer.wrapping_add(3)),
            ]
        } else {
            [0; 4]
        };
        Block {
            space,
            pointer,
            first: word,
            word,
            time: 0,
        }
    }

    fn put(&mut self, block: Block) -> Result<(), AllocError> {
        for place in 0..self.blocks.len() {
            let old = self.blocks[place];
            if old.space == block.space && old.pointer == block.pointer {
                self.blocks[place] = block;
                return Ok(());
            }
        }
        self.blocks.push(block)?;
        Ok(())
    }

    /// Each access of a record finds the word and the time that the last one left, and leaves its own.
    pub fn follow<R: Abort>(
        &mut self,
        rt: &R,
        record: &StepRecord,
        number: usize,
    ) -> Result<(), AllocError> {
        for place in 0..record.accesses.len() {
            if let Some(made) = record.accesses.at(place) {
                let access = made.access;
                let block = self.block(access.space, access.pointer);
                assert_eq!(rt; access.old, block.word, "program {number}");
                assert_eq!(rt; made.before, block.time, "program {number}");
                assert!(rt;
                    made.before < made.time && record.time <= made.time,
                    "program {number}"
                );
                self.put(Block {
                    word: access.new,
                    time: made.time,
                    ..block
                })?;
            }
        }
        Ok(())
    }

    /// A segment begins.
    pub fn begin_segment(&mut self) {
        for block in self.blocks.iter_mut() {
            block.first = block.word;
            block.time = 0;
        }
    }
}

fn label_of(block: &Block) -> u64 {
    (u64::from(block.space) << 23) + u64::from(block.pointer / 64)
}

/// The four bytes of a block.
fn word_in(bytes: &[u8; 64], block: usize) -> Option<&[u8]> {
    bytes.get(4 * (block % 16)..4 * (block % 16) + 4)
}

/// A page has what the records show of its blocks, and an access of one of them.
fn agree_in_page<R: Abort>(rt: &R, page: &Touched, shown: &Shown, number: usize) {
    assert!(rt; page.label < 1 << 26, "program {number}, label");
    let space = (page.label >> 23) as u8;
    let first = page.label % (1 << 23) * 64;
    for place in 0..16usize {
        let block = shown.block(space, first + 4 * place as u32);
        assert_eq!(rt;
            word_in(&page.old, place),
            Some(block.first.as_slice()),
            "program {number}"
        );
        assert_eq!(rt;
            word_in(&page.new, place),
            Some(block.word.as_slice()),
            "program {number}"
        );
        assert_eq!(rt; page.times[place], block.time, "program {number}");
    }
    assert!(rt;
        page.times.iter().any(|time| *time != 0),
        "program {number}"
    );
}

/// The pages of a segment are those with an accessed block, in rising order, as the records show them.
pub fn agree_in_pages<R: Abort>(rt: &R, pages: &[Touched], shown: &Shown, number: usize) {
    let mut least = 0;
    for page in pages {
        assert!(rt;
            least <= page.label && page.label < 1 << 31,
            "program {number}, order"
        );
        least = page.label + 1;
        agree_in_page(rt, page, shown, number);
    }
    for block in shown.blocks() {
        let is_touched = pages
            .iter()
            .any(|page| u64::from(page.label) == label_of(block));
        assert_eq!(rt;
            is_touched || block.time == 0,
            true,
            "program {number}, pages"
        );
    }
}
