//! What bit columns and halves mean. Each law is what a function with an empty body ensures.

ghost use Rattle.gadget_bits.specs.Laws.{HalvesTellBits, BitsTellFunctions, BitsTellChoices, GoodLookupsAddUp, SumsAreLookedUp};

/// Law: columns of 0 and 1 with the halves of a word are its bits.
pub fn halves_tell_bits()
    ensures { HalvesTellBits }
{}

/// Law: the polynomials of a word's bits are the bits of its Sigma and sigma functions.
pub fn bits_tell_functions()
    ensures { BitsTellFunctions }
{}

/// Law: those of three words' bits are the bits of their Ch and Maj.
pub fn bits_tell_choices()
    ensures { BitsTellChoices }
{}

/// Law: where the lookups of a sum of at most seven words are good, its halves are those of the sum.
pub fn good_lookups_add_up()
    ensures { GoodLookupsAddUp }
{}

/// Law: the halves of the sum have good lookups.
pub fn sums_are_looked_up()
    ensures { SumsAreLookedUp }
{}
