// What keeps an instruction from being done.
ghost use Rattle.std.specs.Prelude.{◌≡◌, ◌<◌};
ghost use Rattle.rv_run.specs.Step.{at_address as at_address_of, at_block as at_block_of, at_public as at_public_of, at_target as at_target_of};

use crate::outcome::Cause;

const MEMORY_SIZE: u32 = 1 << 29;

const PUBLIC_SIZE: u32 = 64;

/// A jump has to lead to a multiple of 4.
pub fn at_target(target: u32) -> Option<Cause>
    ensures { result ≡ at_target_of target }
{
    if target % 4 == 0 {
        None
    } else {
        Some(Cause::MisalignedTarget)
    }
}

/// An address has to be a multiple of the width, and below 2^29.
pub fn at_address(width: u32, address: u32) -> Option<Cause>
    requires { 0 < width }
    ensures { result ≡ at_address_of width address }
{
    if address % width != 0 {
        Some(Cause::Misaligned)
    } else if address < MEMORY_SIZE {
        None
    } else {
        Some(Cause::OutOfRange)
    }
}

/// The words of a SHA block's state and its bytes have to stand below 2^29, at multiples of 4.
pub fn at_block(state: u32, block: u32) -> Option<Cause>
    ensures { result ≡ at_block_of state block }
{
    if state % 4 != 0 || block % 4 != 0 {
        Some(Cause::Misaligned)
    } else if state <= MEMORY_SIZE - 32 && block <= MEMORY_SIZE - 64 {
        None
    } else {
        Some(Cause::OutOfRange)
    }
}

/// A word goes to a multiple of 4 below 64 of the public bytes.
pub fn at_public(place: u32) -> Option<Cause>
    ensures { result ≡ at_public_of place }
{
    if place % 4 == 0 && place < PUBLIC_SIZE {
        None
    } else {
        Some(Cause::PublicIndex)
    }
}
