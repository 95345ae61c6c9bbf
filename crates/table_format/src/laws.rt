//! What holds of spellings.
ghost use Rattle.table_format.specs.Exactly.{NoReasonExactly, NoReasonInAPiece, OneSpelling};
ghost use Rattle.table_format.specs.Given.{ItemsAreTheFile, PartsAreTheFile};

/// No test of a file fails exactly where its bytes spell one of the form that passes a checker's tests, whatever these
/// are; and the same of a segment alone.
pub fn no_test_fails_exactly()
    ensures file { NoReasonExactly }
    ensures piece { NoReasonInAPiece }
{}

/// Two files of the form, of whatever version, with the same bytes are one.
pub fn a_file_has_one_spelling()
    ensures { OneSpelling }
{}

/// What a reader gives, call after call, are the items of the file that the bytes spell, and then the End; or, after
/// some items, the first reason of the form's own tests.
pub fn items_are_the_file()
    ensures { ItemsAreTheFile }
{}

/// What a writer writes, call after call, is the file that is made of these segments and this claim.
pub fn parts_are_the_file()
    ensures { PartsAreTheFile }
{}
