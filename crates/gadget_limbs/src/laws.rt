//! What the constraints and lookups of words by their limbs say. Each law is what a function with an empty
//! body ensures.

ghost use Rattle.gadget_limbs.specs.Laws.{LimbsThatHoldAddUp, LimbsThatAddUpHold, RightLimbsAreLookedUp};
ghost use Rattle.gadget_limbs.specs.SignLaws.{SignsAreLookedUp, TopBitsAreLookedUp, NegativesHold};
ghost use Rattle.gadget_limbs.specs.OrderLaws.{LimbsAreOrdered, OrderedLimbsMeet, WordsAreOrdered};

/// Law: under a gate of 1 bytes that meet ADD add up in whole numbers, with a last carry of 0 or 1.
pub fn limbs_that_hold_add_up()
    ensures { LimbsThatHoldAddUp }
{}

/// Law: bytes that add up meet ADD under any gate, and under a gate of 0 all limbs do.
pub fn limbs_that_add_up_hold()
    ensures { LimbsThatAddUpHold }
{}

/// Law: what is looked up of a limb stands in the xor table exactly where the limb is a byte, for a sum or
/// a difference, and where it is the result of the words' limbs, for a bitwise operation.
pub fn right_limbs_are_looked_up()
    ensures { RightLimbsAreLookedUp }
{}

/// Law: what SIGN looks up stands in the xor table exactly where g is the sign bit of the word.
pub fn signs_are_looked_up()
    ensures { SignsAreLookedUp }
{}

/// Law: SIGN holds exactly where g is the top bit of a byte, or 0 where nothing is looked up.
pub fn top_bits_are_looked_up()
    ensures { TopBitsAreLookedUp }
{}

/// Law: under its gate NEG holds exactly where the second word is the negative of the first, and else where
/// they are the same.
pub fn negatives_hold()
    ensures { NegativesHold }
{}

/// Law: columns that meet LT say whether the left number is below the right one.
pub fn limbs_are_ordered()
    ensures { LimbsAreOrdered }
{}

/// Law: the columns that are filled meet LT.
pub fn ordered_limbs_meet()
    ensures { OrderedLimbsMeet }
{}

/// Law: at four limbs the order is that of words, or of signed words.
pub fn words_are_ordered()
    ensures { WordsAreOrdered }
{}
