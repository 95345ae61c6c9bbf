//! Laws of the listing. Each function is empty: its contract is the law.
ghost use Rattle.rv_decode.specs.Laws.{NoWordIsListedTwice, ListedLineDecodes, DecodedFieldsAreInRange};

/// Lines at two different places of the listing don't both fit a word.
pub fn no_word_is_listed_twice()
    ensures { NoWordIsListedTwice }
{}

/// A word has the instruction of any line that fits it.
pub fn listed_line_decodes()
    ensures { ListedLineDecodes }
{}

/// What a word decodes to has its fields in their ranges.
pub fn decoded_fields_are_in_range()
    ensures { DecodedFieldsAreInRange }
{}
