//! Words that the host gives.

use vm_field::Fe;

/// What a row takes of the host's words.
#[derive(Clone, Copy, Debug, PartialEq, Eq)]
pub struct HintWord {
    /// The time of the row.
    pub time: Fe,
    /// The word that it writes, lowest byte first; zeros where `next` is true.
    pub word: [Fe; 4],
    /// Whether it asks for the next input instead of writing a word.
    pub next: bool,
}
