//! Laws of the definitions that the contracts cite. Each function is empty: its contract is the law.
ghost use Rattle.vm_word.specs.ArithmeticLaws.{DivisionsThatAreNone, MixedProductsAreWhole, SignExtensionKeepsTheValue, SignedDivision, SignedProductsAreWhole, SignedShiftRoundsDown, UnsignedDivision, UnsignedProductsAreWhole};
ghost use Rattle.vm_word.specs.Laws.{LimbsMakeTheWord, WordHasItsLimbs, RotationMovesBits, SignedValueDeterminesWord, WordIsItsHalves, WordIsSumOfItsBits};

/// The limbs of a word make that word.
pub fn limbs_make_the_word()
    ensures { LimbsMakeTheWord }
{}

/// The word that four limbs make has those limbs.
pub fn word_has_its_limbs()
    ensures { WordHasItsLimbs }
{}

/// A word is its low half and 65536 times its high half.
pub fn word_is_its_halves()
    ensures { WordIsItsHalves }
{}

/// A word is the sum of its bits, each at its weight.
pub fn word_is_the_sum_of_its_bits()
    ensures { WordIsSumOfItsBits }
{}

/// Two words with one signed value are one word.
pub fn signed_value_determines_the_word()
    ensures { SignedValueDeterminesWord }
{}

/// A rotation right by a number moves each bit down by that number of places, modulo 32.
pub fn rotation_moves_bits()
    ensures { RotationMovesBits }
{}

/// A number that is sign-extended to a word keeps its value.
pub fn sign_extension_keeps_the_value()
    ensures { SignExtensionKeepsTheValue }
{}

/// The arithmetic shift right is the quotient of the signed value, rounded down.
pub fn signed_shift_rounds_down()
    ensures { SignedShiftRoundsDown }
{}

/// The low and the high word of two words are their product.
pub fn unsigned_products_are_whole()
    ensures { UnsignedProductsAreWhole }
{}

/// The low and the high word of two signed words are the product of their values.
pub fn signed_products_are_whole()
    ensures { SignedProductsAreWhole }
{}

/// The low and the high word of a signed word and a word are the product of their values.
pub fn mixed_products_are_whole()
    ensures { MixedProductsAreWhole }
{}

/// The dividend is the divisor times the quotient, and the remainder, which is below the divisor.
pub fn unsigned_division()
    ensures { UnsignedDivision }
{}

/// The same of signed values: the quotient is rounded towards 0, and a remainder has the dividend's sign.
pub fn signed_division()
    ensures { SignedDivision }
{}

/// The results by 0, and of -2^31 by -1.
pub fn divisions_that_are_none()
    ensures { DivisionsThatAreNone }
{}
