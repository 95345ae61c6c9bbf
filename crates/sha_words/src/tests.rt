ghost use Rattle.std.specs.Prelude.{◌≤◌, length};

use super::*;
use sha2::{Digest, Sha256};

// A block that begins with `start` and ends with the length `bits`.
fn block_of(start: &[u8], bits: u16) -> [u8; 64]
    requires { length start.now ≤ 62 }
{
    let mut block = [0; 64];
    block[..start.len()].copy_from_slice(start);
    block[62..].copy_from_slice(&bits.to_be_bytes());
    block
}

// The examples of FIPS 180-4, and values that a program in Python computed from its text.
#[test]
fn standard_examples(rt: HostRuntime) {
    let abc = block_of(b"abc\x80", 24);
    let mut long = [0; 64];
    long[..57].copy_from_slice(b"abcdbcdecdefdefgefghfghighijhijkijkljklmklmnlmnomnopnopq\x80");
    let between = compress(INITIAL, &long);
    let table = [
        (
            "one block",
            compress(INITIAL, &abc),
            [
                0xba78_16bf,
                0x8f01_cfea,
                0x4141_40de,
                0x5dae_2223,
                0xb003_61a3,
                0x9617_7a9c,
                0xb410_ff61,
                0xf200_15ad,
            ],
        ),
        (
            "two blocks",
            compress(between, &block_of(b"", 448)),
            [
                0x248d_6a61,
                0xd206_38b8,
                0xe5c0_2693,
                0x0c3e_6039,
                0xa33c_e459,
                0x64ff_2167,
                0xf6ec_edd4,
                0x19db_06c1,
            ],
        ),
        (
            "the first round",
            round(INITIAL, ROUND_CONSTANTS[0], 0x6162_6380),
            [
                0x5d6a_ebcd,
                0x6a09_e667,
                0xbb67_ae85,
                0x3c6e_f372,
                0xfa2a_4622,
                0x510e_527f,
                0x9b05_688c,
                0x1f83_d9ab,
            ],
        ),
        (
            "a round whose sums all carry",
            round(
                [
                    0x0123_4567,
                    0x89ab_cdef,
                    0xfedc_ba98,
                    0x7654_3210,
                    0xdead_beef,
                    0xcafe_babe,
                    0x0bad_f00d,
                    0x8bad_f00d,
                ],
                0xffff_ffff,
                0x8000_0001,
            ),
            [
                0xfbca_1194,
                0x0123_4567,
                0x89ab_cdef,
                0xfedc_ba98,
                0x820d_316e,
                0xdead_beef,
                0xcafe_babe,
                0x0bad_f00d,
            ],
        ),
    ];
    for (what, words, want) in table {
        assert_eq!(rt; words, want, "at {what}");
    }
    let words = schedule(&abc);
    let places = [
        (0, 0x6162_6380),
        (15, 24),
        (16, 0x6162_6380),
        (17, 0x000f_0000),
        (18, 0x7da8_6405),
        (19, 0x6000_03c6),
        (63, 0x12b1_edeb),
        (64, 0xb80a_5a34),
        (65, 0x1ce7_97d5),
        (79, 0xbe66_bc93),
    ];
    for (t, want) in places {
        let t: usize = t;
        assert!(rt; t < 80);
        assert_eq!(rt; words[t], want, "at word {t}");
    }
    assert_eq!(rt; schedule(&[0; 64]), [0; 80]);
}

// Whole messages, padded by hand, against a library's digests.
#[test]
fn library_digests(rt: HostRuntime) {
    let two_blocks = b"abcdbcdecdefdefgefghfghighijhijkijkljklmklmnlmnomnopnopq";
    let mut first = [0; 64];
    first[..56].copy_from_slice(two_blocks);
    first[56] = 0x80;
    let table: [(&[u8], [u32; 8]); 3] = [
        (b"", compress(INITIAL, &block_of(b"\x80", 0))),
        (b"abc", compress(INITIAL, &block_of(b"abc\x80", 24))),
        (
            two_blocks,
            compress(compress(INITIAL, &first), &block_of(b"", 448)),
        ),
    ];
    for (message, words) in table {
        let mut bytes = [0; 32];
        for (i, word) in words.iter().enumerate() {
            bytes[4 * i..4 * i + 4].copy_from_slice(&word.to_be_bytes());
        }
        assert_eq!(rt; bytes, Sha256::digest(message));
    }
}
