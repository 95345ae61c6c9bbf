//! A program and a file of three segments of a run of it, as another program wrote them: ADDI, ADDI, XOR, OR, AND, SUB, a
//! no-operation and TERMINATE.

use super::{Page, Segment};

/// The bytes of the program's file.
pub const ELF: &str =
    "7f454c460101010000000000000000000200f300010000000010000034000000000000000000000034002000010000000000000001000000540000000010000000100000200000002000000005000000040000009302700013833212b3c3620033645300b374540033856240130000000b000000";

/// The digests beside the way from the page of public bytes, which are zeros, to the last root.
pub const PATH: [&str; 25] = [
    "f5a5fd42d16a20302798ef6ed309979b43003d2320d9f0e8ea9831a92759fb4b",
    "db56114e00fdd4c1f85c892bf35ac9a89289aaecb1ebd0a96cde606a748b5d71",
    "c78009fdf07fc56a11f122370658a353aaa542ed63e44c4bc15ff4cd105ab33c",
    "536d98837f2dd165a55d5eeae91485954472d56f246df256bf3cae19352a123c",
    "9efde052aa15429fae05bad4d0b1d7c64da64d03d7a1854a588c2cb8430c0d30",
    "d88ddfeed400a8755596b21942c1497e114c302e6118290f91e6772976041fa1",
    "87eb0ddba57e35f6d286673802a4af5975e22506c7cf4c64bb6be5ee11527f2c",
    "26846476fd5fc54a5d43385167c95144f2643f533cc85bb9d16b782f8d7db193",
    "506d86582d252405b840018792cad2bf1259f1ef5aa5f887e13cb2f0094f51e1",
    "ffff0ad7e659772f9534c195c815efc4014ef1e1daed4404c06385d11192e92b",
    "6cf04127db05441cd833107a52be852868890e4317e6a02ab47683aa75964220",
    "b7d05f875f140027ef5118a2247bbb84ce8f2f0f1123623085daf7960c329f5f",
    "df6af5f5bbdb6be9ef8aa618e4bf8073960867171e29676f8b284dea6a08a85e",
    "b58d900f5e182e3c50ef74969ea16c7726c549757cc23523c369587da7293784",
    "d49a7502ffcfb0340b1d7885688500ca308161a7f96b62df9d083b71fcc8f2bb",
    "8fe6b1689256c0d385f42f5bbe2027a22c1996e110ba97c171d3e5948de92beb",
    "8d0d63c39ebade8509e0ae3c9c3876fb5fa112be18f905ecacfecb92057603ab",
    "95eec8b2e541cad4e91de38385f2e046619f54496c2382cb6cacd5b98c26f5a4",
    "f893e908917775b62bff23294dbbe3a1cd8e6cc1c35b4801887b646a6f81f17f",
    "cddba7b592e3133393c16194fac7431abf2f5485ed711db282183c819e08ebaa",
    "8a8d7fe3af8caa085a7639a832001457dfb9128a8061142ad0335629ff23ff9c",
    "feb3c337d7a51a6fbf00b9e34c52e1c9195c969bd4e7a0bfd51d5c5bed9c1167",
    "e71f0aa83cc32edfbefa9f4d3e0174ca85182eec9f3a09f6a6c0df6377a510d7",
    "d92f46bb9dd064b94c7439ae104248a0560420498842085faf770df69ecf3c42",
    "6dfe0faedaf15dc040d0ff21ca0fba40eafa66e05a5a90e24cef5d55d89d5e47",
];

/// The digests that open the page of registers, which are the same before each segment.
pub const BESIDE_REGISTERS: [&str; 25] = [
    "31206fa80a50bb6abe29085058f16212212a60eec8f049fecb92d8c8e0a84bc0",
    "f5a5fd42d16a20302798ef6ed309979b43003d2320d9f0e8ea9831a92759fb4b",
    "db56114e00fdd4c1f85c892bf35ac9a89289aaecb1ebd0a96cde606a748b5d71",
    "c78009fdf07fc56a11f122370658a353aaa542ed63e44c4bc15ff4cd105ab33c",
    "536d98837f2dd165a55d5eeae91485954472d56f246df256bf3cae19352a123c",
    "9efde052aa15429fae05bad4d0b1d7c64da64d03d7a1854a588c2cb8430c0d30",
    "d88ddfeed400a8755596b21942c1497e114c302e6118290f91e6772976041fa1",
    "87eb0ddba57e35f6d286673802a4af5975e22506c7cf4c64bb6be5ee11527f2c",
    "26846476fd5fc54a5d43385167c95144f2643f533cc85bb9d16b782f8d7db193",
    "506d86582d252405b840018792cad2bf1259f1ef5aa5f887e13cb2f0094f51e1",
    "ffff0ad7e659772f9534c195c815efc4014ef1e1daed4404c06385d11192e92b",
    "6cf04127db05441cd833107a52be852868890e4317e6a02ab47683aa75964220",
    "b7d05f875f140027ef5118a2247bbb84ce8f2f0f1123623085daf7960c329f5f",
    "df6af5f5bbdb6be9ef8aa618e4bf8073960867171e29676f8b284dea6a08a85e",
    "b58d900f5e182e3c50ef74969ea16c7726c549757cc23523c369587da7293784",
    "d49a7502ffcfb0340b1d7885688500ca308161a7f96b62df9d083b71fcc8f2bb",
    "8fe6b1689256c0d385f42f5bbe2027a22c1996e110ba97c171d3e5948de92beb",
    "8d0d63c39ebade8509e0ae3c9c3876fb5fa112be18f905ecacfecb92057603ab",
    "95eec8b2e541cad4e91de38385f2e046619f54496c2382cb6cacd5b98c26f5a4",
    "f893e908917775b62bff23294dbbe3a1cd8e6cc1c35b4801887b646a6f81f17f",
    "cddba7b592e3133393c16194fac7431abf2f5485ed711db282183c819e08ebaa",
    "8a8d7fe3af8caa085a7639a832001457dfb9128a8061142ad0335629ff23ff9c",
    "feb3c337d7a51a6fbf00b9e34c52e1c9195c969bd4e7a0bfd51d5c5bed9c1167",
    "e71f0aa83cc32edfbefa9f4d3e0174ca85182eec9f3a09f6a6c0df6377a510d7",
    "b473681e754dc8a0b024053c131a5327aca3a18aa8b030b2cfa4d7a89000a49b",
];

pub const SEGMENTS: [Segment; 3] = [
    Segment {
        start: 4096,
        end: 4108,
        end_time: 10,
        roots: [
            "a9d7c4215df03911aafa2d2857f061a9372e690328508291ffeab205ec87ff70",
            "bd65ebab66b9eda1dc0a9deefc0453b16384f7e56d6d6a1516c7d301dd0decec",
        ],
        tables: [
            &[
                &[
                    4096, 1, 1, 0, 0, 0, 0, 5, 0, 0, 1, 7, 0, 0, 0, 0, 0, 0, 0, 7, 0, 0, 0, 0, 0,
                    0, 0, 7, 0, 0, 0, 0, 0, 0, 0, 0, 0, 0, 2, 0,
                ],
                &[
                    4100, 4, 1, 0, 0, 0, 0, 6, 5, 0, 1, 35, 1, 0, 0, 7, 0, 0, 0, 35, 1, 0, 0, 0, 0,
                    0, 0, 42, 1, 0, 0, 3, 0, 0, 0, 0, 0, 0, 5, 0,
                ],
                &[
                    4104, 7, 0, 0, 1, 0, 0, 7, 5, 6, 0, 0, 0, 0, 0, 7, 0, 0, 0, 42, 1, 0, 0, 0, 0,
                    0, 0, 45, 1, 0, 0, 4, 2, 0, 6, 1, 0, 0, 8, 0,
                ],
                &[
                    0, 0, 0, 0, 0, 0, 0, 0, 0, 0, 0, 0, 0, 0, 0, 0, 0, 0, 0, 0, 0, 0, 0, 0, 0, 0,
                    0, 0, 0, 0, 0, 0, 0, 0, 0, 0, 0, 0, 0, 0,
                ],
            ],
            &[],
        ],
        program: &[(0, 1), (1, 1), (2, 1)],
        xor: &[(0, 7), (1, 1), (257, 1), (1799, 1), (1834, 1), (10794, 1)],
        range: &[
            (255, 7),
            (65535, 2),
            (65536, 1),
            (65537, 2),
            (65540, 1),
            (65543, 1),
        ],
        registers: Some(Page {
            old: "00000000000000000000000000000000000000000000000000000000000000000000000000000000000000000000000000000000000000000000000000000000",
            new: "0000000000000000000000000000000000000000070000002a0100002d0100000000000000000000000000000000000000000000000000000000000000000000",
            times: [1, 0, 0, 0, 0, 7, 8, 9, 0, 0, 0, 0, 0, 0, 0, 0],
        }),
        siblings: &BESIDE_REGISTERS,
    },
    Segment {
        start: 4108,
        end: 4120,
        end_time: 10,
        roots: [
            "bd65ebab66b9eda1dc0a9deefc0453b16384f7e56d6d6a1516c7d301dd0decec",
            "641256d7c11b48c5eb6ac7ba46404f01c422d02e43c67f29673ce5376608c216",
        ],
        tables: [
            &[
                &[
                    4108, 1, 0, 0, 0, 1, 0, 8, 6, 5, 0, 0, 0, 0, 0, 42, 1, 0, 0, 7, 0, 0, 0, 0, 0,
                    0, 0, 47, 1, 0, 0, 0, 0, 0, 0, 1, 0, 0, 2, 0,
                ],
                &[
                    4112, 4, 0, 0, 0, 0, 1, 9, 8, 5, 0, 0, 0, 0, 0, 47, 1, 0, 0, 7, 0, 0, 0, 0, 0,
                    0, 0, 7, 0, 0, 0, 3, 0, 0, 2, 2, 0, 0, 5, 0,
                ],
                &[
                    4116, 7, 0, 1, 0, 0, 0, 10, 5, 6, 0, 0, 0, 0, 0, 7, 0, 0, 0, 42, 1, 0, 0, 0, 0,
                    0, 0, 221, 254, 255, 255, 5, 1, 0, 1, 6, 0, 0, 8, 0,
                ],
                &[
                    0, 0, 0, 0, 0, 0, 0, 0, 0, 0, 0, 0, 0, 0, 0, 0, 0, 0, 0, 0, 0, 0, 0, 0, 0, 0,
                    0, 0, 0, 0, 0, 0, 0, 0, 0, 0, 0, 0, 0, 0,
                ],
            ],
            &[],
        ],
        program: &[(3, 1), (4, 1), (5, 1)],
        xor: &[
            (0, 4),
            (256, 2),
            (10759, 1),
            (12039, 1),
            (56797, 1),
            (65278, 1),
            (65535, 2),
        ],
        range: &[
            (255, 9),
            (65535, 2),
            (65536, 2),
            (65537, 2),
            (65540, 1),
            (65541, 1),
            (65543, 1),
        ],
        registers: Some(Page {
            old: "0000000000000000000000000000000000000000070000002a0100002d0100000000000000000000000000000000000000000000000000000000000000000000",
            new: "0000000000000000000000000000000000000000070000002a0100002d0100002f01000007000000ddfeffff0000000000000000000000000000000000000000",
            times: [0, 0, 0, 0, 0, 7, 8, 0, 4, 6, 9, 0, 0, 0, 0, 0],
        }),
        siblings: &BESIDE_REGISTERS,
    },
    Segment {
        start: 4120,
        end: 4124,
        end_time: 2,
        roots: [
            "641256d7c11b48c5eb6ac7ba46404f01c422d02e43c67f29673ce5376608c216",
            "641256d7c11b48c5eb6ac7ba46404f01c422d02e43c67f29673ce5376608c216",
        ],
        tables: [&[], &[&[4120, 1, 1]]],
        program: &[(6, 1)],
        xor: &[],
        range: &[],
        registers: None,
        siblings: &["641256d7c11b48c5eb6ac7ba46404f01c422d02e43c67f29673ce5376608c216"],
    },
];
