use super::*;

#[test]
fn makes_words(rt: HostRuntime) {
    // The words are those of LLVM's assembler, but for the two on custom-0.
    let table = [
        (r_word(0x33, 0, 32, 31, 0, 31), 0x41f0_0fb3), // sub x31, x0, x31
        (r_word(0x33, 0, 1, 1, 2, 3), 0x0231_00b3), // mul x1, x2, x3
        (i_word(0x13, 0, 1, 2, 0xffff_ffff), 0xfff1_0093), // addi x1, x2, -1
        (i_word(0x03, 5, 31, 0, 2047), 0x7ff0_5f83), // lhu x31, 2047(x0)
        (i_word(0x67, 0, 0, 31, 0xffff_f800), 0x800f_8067), // jalr x0, -2048(x31)
        (s_word(0x23, 2, 0, 31, 0xffff_f800), 0x81f0_2023), // sw x31, -2048(x0)
        (s_word(0x23, 0, 31, 0, 2047), 0x7e0f_8fa3), // sb x0, 2047(x31)
        (b_word(0x63, 0, 1, 2, 2048), 0x0020_80e3), // beq x1, x2, 2048
        (b_word(0x63, 7, 31, 0, 4094), 0x7e0f_ffe3), // bgeu x31, x0, 4094
        (b_word(0x63, 4, 0, 31, 0xffff_f000), 0x81f0_4063), // blt x0, x31, -4096
        (u_word(0x37, 31, 0xffff_f000), 0xffff_ffb7), // lui x31, 1048575
        (u_word(0x17, 10, 0x1234_5000), 0x1234_5517), // auipc x10, 74565
        (j_word(0x6f, 0, 0xfff0_0000), 0x8000_006f), // jal x0, -1048576
        (j_word(0x6f, 5, 2048), 0x0010_02ef), // jal x5, 2048
        (j_word(0x6f, 31, 0x000f_fffe), 0x7fff_ffef), // jal x31, 1048574
        (i_word(0x0b, 0, 0, 0, 255), 0x0ff0_000b), // terminate 255
        (r_word(0x0b, 4, 1, 1, 2, 0), 0x0201_408b), // SHA block at x1 and x2
    ];
    for (made, word) in table {
        assert_eq!(rt; made, word, "at {word}");
    }
}
