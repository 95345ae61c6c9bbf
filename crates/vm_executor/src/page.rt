// The blocks of one page.
ghost use Rattle.std.specs.Prelude.{◌≡◌, ◌<◌, ℕ, true, false, length, slice_index};
ghost use Rattle.vm_isa.specs.Words.{IsBytes};
ghost use Rattle.vm_trace.specs.Pages.{block_word, IsWhole};
ghost use Rattle.vm_executor.specs.Pages.{HasAccess, IsPut, begun_page};

use vm_trace::Touched;

// Law: the items of a slice of bytes are bytes.
fn are_bytes(bytes: &[u8])
    ensures { IsBytes bytes.now }
{
    let _ = bytes;
}

// Law: four bytes are a word.
pub fn is_word(word: &[u8; 4])
    ensures four { length word.now ≡ 4 }
    ensures bytes { IsBytes word.now }
{
    are_bytes(word);
}

/// The word of a block now.
pub fn word_of(page: &Touched, block: usize) -> [u8; 4]
    requires { block < 16 }
    ensures { result ≡ block_word page.now.new block }
{
    let at = 4 * block;
    [
        page.new[at],
        page.new[at + 1],
        page.new[at + 2],
        page.new[at + 3],
    ]
}

/// Whether some block was accessed.
pub fn has_access(page: &Touched) -> bool
    ensures accessed { result ≡ true → HasAccess page.now }
    ensures idle { result ≡ false → (block : ℕ) → block < 16 → slice_index page.now.times block ≡ 0 }
{
    for block in 0..16usize {
        if page.times[block] != 0 {
            return true;
        }
    }
    false
}

/// Puts a word into a block, with the time of its access. In its clause `entry` and `exit` are the page
/// before and after, as a page has fields `old` and `new`.
pub fn put(page: &mut Touched, block: usize, word: [u8; 4], time: u32)
    requires { block < 16 }
    ensures put { IsPut page.entry.now page.exit.now block word time }
    ensures whole { IsWhole page.entry.now → IsWhole page.exit.now }
{
    is_word(&word);
    let at = 4 * block;
    page.new[at] = word[0];
    page.new[at + 1] = word[1];
    page.new[at + 2] = word[2];
    page.new[at + 3] = word[3];
    page.times[block] = time;
}

/// Begins a segment: the bytes now are those at its start, and no block was accessed.
pub fn begin(page: &mut Touched)
    ensures begun { page.exit.now ≡ begun_page page.entry.now }
    ensures whole { IsWhole page.entry.now → IsWhole page.exit.now }
{
    page.old = page.new;
    page.times = [0; 16];
}
