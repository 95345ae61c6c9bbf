//! Bytes that are written in large pieces.
ghost use Rattle.std.specs.Prelude.{◌≡◌, ◌*◌, [], true, length, OnOk};
ghost use Rattle.std.specs.List.{flat_map};
ghost use Rattle.table_format.specs.Texts.{number_text, byte_text, flag_text, raw_text};
ghost use Rattle.table_format.specs.Writing.{Puts};

use byteorder::{ByteOrder, LittleEndian};
use vm_field::Fe;
use vm_host::{Host, HostError};
use vm_trace::Digest;

/// How many bytes are written at once, or a few more.
pub(super) const PIECE: usize = 65_536;

fn number_bytes(number: u32) -> [u8; 4]
    ensures { result ≡ number_text number }
{
    let mut text = [0u8; 4];
    LittleEndian::write_u32(&mut text, number);
    text
}

/// Writes the bytes that wait.
pub(super) fn flush<H: Host>(host: &mut H, waiting: &mut Vec<u8>) -> Result<(), HostError>
    requires open { (H.state host.old).output.creating ≡ true }
    ensures puts { Puts [] waiting.old.items waiting.new.items (H.state host.old) (H.state host.new) result }
    ensures none { OnOk result (waiting.new.items ≡ []) }
{
    host.write(waiting)?;
    waiting.clear();
    Ok(())
}

// Writes the bytes that wait where they fill a piece.
fn settle<H: Host>(host: &mut H, waiting: &mut Vec<u8>) -> Result<(), HostError>
    requires open { (H.state host.old).output.creating ≡ true }
    ensures { Puts [] waiting.old.items waiting.new.items (H.state host.old) (H.state host.new) result }
{
    if waiting.len() < PIECE {
        return Ok(());
    }
    flush(host, waiting)
}

pub(super) fn put<H: Host>(
    host: &mut H,
    waiting: &mut Vec<u8>,
    bytes: &[u8],
) -> Result<(), HostError>
    requires open { (H.state host.old).output.creating ≡ true }
    ensures { Puts bytes.now waiting.old.items waiting.new.items (H.state host.old) (H.state host.new) result }
{
    waiting.extend_from_slice(bytes)?;
    settle(host, waiting)
}

pub(super) fn put_number<H: Host>(
    host: &mut H,
    waiting: &mut Vec<u8>,
    number: u32,
) -> Result<(), HostError>
    requires open { (H.state host.old).output.creating ≡ true }
    ensures { Puts (number_text number) waiting.old.items waiting.new.items (H.state host.old) (H.state host.new) result }
{
    let text = number_bytes(number);
    put(host, waiting, &text)
}

pub(super) fn put_byte<H: Host>(
    host: &mut H,
    waiting: &mut Vec<u8>,
    byte: u8,
) -> Result<(), HostError>
    requires open { (H.state host.old).output.creating ≡ true }
    ensures { Puts (byte_text byte) waiting.old.items waiting.new.items (H.state host.old) (H.state host.new) result }
{
    let text = [byte];
    put(host, waiting, &text)
}

fn flag_byte(flag: bool) -> [u8; 1]
    ensures { result ≡ flag_text flag }
{
    if flag { [1] } else { [0] }
}

pub(super) fn put_flag<H: Host>(
    host: &mut H,
    waiting: &mut Vec<u8>,
    flag: bool,
) -> Result<(), HostError>
    requires open { (H.state host.old).output.creating ≡ true }
    ensures { Puts (flag_text flag) waiting.old.items waiting.new.items (H.state host.old) (H.state host.new) result }
{
    let text = flag_byte(flag);
    put(host, waiting, &text)
}

// Spells the values of a row, where the buffer has four bytes for each.
fn spell_row(row: &[Fe], text: &mut [u8])
    requires { length text.old ≡ 4 * length row.now }
    ensures { text.new ≡ flat_map number_text row.now }
{
    'values: for place in 0..row.len() {
        LittleEndian::write_u32(&mut text[4 * place..], row[place].value());
    }
}

pub(super) fn put_row<H: Host>(
    host: &mut H,
    waiting: &mut Vec<u8>,
    row: &[Fe],
) -> Result<(), HostError>
    requires open { (H.state host.old).output.creating ≡ true }
    ensures { Puts (flat_map number_text row.now) waiting.old.items waiting.new.items (H.state host.old) (H.state host.new) result }
{
    let start = waiting.len();
    waiting.resize(start + 4 * row.len(), 0)?;
    spell_row(row, &mut waiting[start..]);
    settle(host, waiting)
}

// Spells numbers, where the buffer has four bytes for each.
fn spell_numbers(numbers: &[u32], text: &mut [u8])
    requires { length text.old ≡ 4 * length numbers.now }
    ensures { text.new ≡ flat_map number_text numbers.now }
{
    'values: for place in 0..numbers.len() {
        LittleEndian::write_u32(&mut text[4 * place..], numbers[place]);
    }
}

pub(super) fn put_numbers<H: Host>(
    host: &mut H,
    waiting: &mut Vec<u8>,
    numbers: &[u32],
) -> Result<(), HostError>
    requires open { (H.state host.old).output.creating ≡ true }
    ensures { Puts (flat_map number_text numbers.now) waiting.old.items waiting.new.items (H.state host.old) (H.state host.new) result }
{
    let start = waiting.len();
    waiting.resize(start + 4 * numbers.len(), 0)?;
    spell_numbers(numbers, &mut waiting[start..]);
    settle(host, waiting)
}

pub(super) fn put_digests<H: Host>(
    host: &mut H,
    waiting: &mut Vec<u8>,
    digests: &[Digest],
) -> Result<(), HostError>
    requires open { (H.state host.old).output.creating ≡ true }
    ensures { Puts (flat_map raw_text digests.now) waiting.old.items waiting.new.items (H.state host.old) (H.state host.new) result }
{
    'digests: for digest in digests {
        put(host, waiting, digest)?;
    }
    Ok(())
}
