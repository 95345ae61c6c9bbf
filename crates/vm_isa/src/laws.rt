//! What `next_access` says of the meanings, and the constants. Each function is empty: its contract is the law.
ghost use Rattle.vm_isa.specs.Laws.{ConstantsAreTheNumbers, DoneIsAMeaning, ElseMeaningIsLeft, GivenIsForHints, MetWordsStand, NextIsTheMeanings, NoMeaningIsFinal, SlotsOfAMeaningRise, StandingWordsAreMet};

/// The opcodes, the spaces and the greatest number of accesses are those of the definitions.
pub fn constants_are_the_numbers()
    ensures { ConstantsAreTheNumbers }
{}

/// After `NoMeaning` no further words make a meaning.
#[tactic(auto, using(crate::proofs::NextLaws::no_meaning_is_final))]
pub fn no_meaning_is_final()
    ensures { NoMeaningIsFinal }
{}

/// Where the answer isn't `NoMeaning`, some further words make a meaning of an instruction in range.
#[tactic(auto, using(crate::proofs::LeftLaws::else_meaning_is_left))]
pub fn else_meaning_is_left()
    ensures { ElseMeaningIsLeft }
{}

/// `Done` is the answer exactly at the words of a meaning.
pub fn done_is_a_meaning()
    ensures { DoneIsAMeaning }
{}

/// `At` is the place of the next access in each meaning with these first words.
#[tactic(auto, using(crate::proofs::NextLaws::next_is_the_meanings))]
pub fn next_is_the_meanings()
    ensures { NextIsTheMeanings }
{}

/// The accesses of a meaning stand at rising slots, below the number of slots of its opcode.
#[tactic(auto, using(crate::proofs::SlotRises::meaning_rises))]
pub fn slots_of_a_meaning_rise()
    ensures { SlotsOfAMeaningRise }
{}

/// A meaning depends on the word that the host gives for HINT alone.
#[tactic(auto, using(crate::proofs::GivenLaws::given_for_hints))]
pub fn given_is_for_hints()
    ensures { GivenIsForHints }
{}

/// Accesses that find their old words before the step find them one after another.
#[tactic(auto, using(crate::proofs::MeetLaws::standing_words_are_met))]
pub fn standing_words_are_met()
    ensures { StandingWordsAreMet }
{}

/// What accesses find one after another stood there before the step.
#[tactic(auto, using(crate::proofs::MeetLaws::met_words_stand))]
pub fn met_words_stand()
    ensures { MetWordsStand }
{}
