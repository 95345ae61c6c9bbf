//! Laws on words that are made, and on the sample program. Each function is empty: its contract is the law.
ghost use Rattle.vm_vectors.specs.Laws.{AddiWordDecodes, TerminateWordDecodes, InstrHasOneWord, SampleTextIsTheSample, SampleIsOne, SampleEnds, SampleHasNoShaBlock};

/// What `i_word` makes with the fields of ADDI decodes to ADDI.
pub fn addi_word_decodes()
    ensures { AddiWordDecodes }
{}

/// What `i_word` makes with the fields of terminate decodes to terminate.
pub fn terminate_word_decodes()
    ensures { TerminateWordDecodes }
{}

/// An instruction but FENCE is that of one word.
pub fn instr_has_one_word()
    ensures { InstrHasOneWord }
{}

/// The words of the sample program decode to its instructions.
pub fn sample_text_is_the_sample()
    ensures { SampleTextIsTheSample }
{}

/// No other words do.
pub fn sample_is_one()
    ensures { SampleIsOne }
{}

/// The sample program ends with code 0 after 26,011 steps, for every number.
pub fn sample_ends()
    ensures { SampleEnds }
{}

/// No instruction of the sample program is a SHA block.
pub fn sample_has_no_sha_block()
    ensures { SampleHasNoShaBlock }
{}
