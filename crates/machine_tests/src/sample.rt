//! The sample program by the manual's machine. What it makes public was told by a program outside, which put its words
//! together and interpreted them.

use elf_image::read_image;
use rv_run::{RunEnd, run};
use std::test::Fail;
use vm_vectors::{elf_of, sample_words};

/// A number, and the first twelve of the public bytes, of which the others are 0.
#[rattlefmt::skip]
const RUNS: [(u32, [u8; 12]); 3] = [
    (7, [0xd7, 0x29, 0xa6, 0xaf, 0xd4, 0xc6, 0xa5, 0x6d, 0x6a, 0x02, 0x00, 0x00]),
    (0, [0x10, 0x03, 0x37, 0xae, 0x00, 0xc8, 0xf1, 0x71, 0x76, 0x02, 0x00, 0x00]),
    (u32::MAX, [0xcf, 0x8f, 0x02, 0xae, 0x00, 0xd0, 0xff, 0xca, 0x8b, 0x02, 0x00, 0x00]),
];

#[test]
fn sample_makes_public(rt: HostRuntime) -> Result<(), Fail> {
    let alloc = rt.alloc();
    for (number, first) in RUNS {
        let words = sample_words(alloc, number)?;
        let image = read_image(alloc, &elf_of(alloc, 0x1000, &words)?)?;
        let mut public = [0; 64];
        public[..12].copy_from_slice(&first);
        let ended = RunEnd::Ended {
            steps: 26_011,
            code: 0,
            public,
        };
        assert_eq!(rt;
            run(alloc, &image, Vec::new(alloc), 26_011)?,
            ended,
            "number {number}"
        );
        assert_eq!(rt;
            run(alloc, &image, Vec::new(alloc), 26_010)?,
            RunEnd::StepLimit,
            "number {number}"
        );
    }
    Ok(())
}
