//! MUL, MULH, MULHSU and MULHU, of two registers.
#![tactic(auto)]

ghost use Rattle.std.specs.Prelude.{◌≡◌, ◌*◌, ◌%◌, ◌/◌, ◌^◌, ◌<◌, ◌≤◌, ◌++◌, [], ◌∷◌, ◌&&◌, length, OnOk, OnErr};
ghost use Rattle.std.specs.Int.{from_bool};
ghost use Rattle.vm_word.specs.Word.{limbs_of};
ghost use Rattle.vm_word.specs.Arithmetic.{is_negative};
ghost use Rattle.gadget_products.specs.Laws.{extended_word};
ghost use Rattle.air_core.specs.First.{first_from};
ghost use Rattle.air_core.specs.Ring.{field};
ghost use Rattle.air_core.specs.Sheet.{counted};
ghost use Rattle.air_core.specs.Sink.{Handed, HandedSome};
ghost use Rattle.chip_mul.specs.Mul.{products_of, left_signed, chosen, mul_constraints, mul_lookups, mul_filled};

pub mod laws;
#[cfg(test)]
mod tests;

use adapter_regs::{RegsChip, RegsCore};
use air_core::{EventSink, OutOfMemory, bus, emit_sent, first, first_nonzero, flag_sum};
use gadget_limbs::{choose, emit_ranges, sign_constraints, sign_looked_up};
use gadget_products::{both, emit_carries, product_carries, word_of};
use vm_field::{Fe, Limbs};
use vm_isa::opcode;
use vm_word::limbs;

/// The own part of the table: four flags, the words of the product, and two signs. It has no values.
#[derive(Clone, Copy, Debug)]
pub struct MulCore;

/// The table of products, whose times have HI bits above the lower 16.
pub type MulAt<const HI: u32> = RegsChip<MulCore, HI>;

/// The table with times of 24 bits.
pub type Mul = MulAt<8>;

/// The opcode of each flag.
const OPCODES: [u16; 4] = [
    opcode::MUL as u16,
    opcode::MULH as u16,
    opcode::MULHSU as u16,
    opcode::MULHU as u16,
];

/// The table's own columns.
#[derive(Clone, Copy, Debug)]
struct Products {
    low: Limbs,
    high: Limbs,
    left_sign: Fe,
    right_sign: Fe,
}

#[tactic(auto, unfolding(crate::specs::Mul::products_of, vm_field::specs::Limbs::limbs_at))]
fn read(own: &[Fe]) -> Products
    requires { length own.now ≡ 10 }
    ensures low { result.low ≡ (products_of field own.now).low }
    ensures high { result.high ≡ (products_of field own.now).high }
    ensures left { result.left_sign ≡ (products_of field own.now).left_sign }
    ensures right { result.right_sign ≡ (products_of field own.now).right_sign }
{
    Products {
        low: Limbs::read(own, 0),
        high: Limbs::read(own, 4),
        left_sign: own[8],
        right_sign: own[9],
    }
}

/// Where the first word is signed.
#[tactic(auto, unfolding(crate::specs::Mul::left_signed))]
fn left_signed(flags: &[Fe]) -> Fe
    requires { length flags.now ≡ 4 }
    ensures { result ≡ left_signed field flags.now }
{
    flags[1].add(flags[2])
}

/// The low word for MUL, else the high one.
#[tactic(auto, unfolding(crate::specs::Mul::chosen))]
fn chosen(valid: Fe, mul: Fe, own: &[Fe]) -> Limbs
    requires { length own.now ≡ 10 }
    ensures { result ≡ chosen field valid mul (products_of field own.now) }
{
    let Products { low, high, .. } = read(own);
    Limbs {
        x0: choose(valid, mul, low.x0, high.x0),
        x1: choose(valid, mul, low.x1, high.x1),
        x2: choose(valid, mul, low.x2, high.x2),
        x3: choose(valid, mul, low.x3, high.x3),
    }
}

fn signs_broken(from: u32, first_gate: Fe, second_gate: Fe, own: &[Fe]) -> Option<u32>
    requires own { length own.now ≡ 10 }
    requires from { from < 2 ^ 17 }
    ensures { result ≡ first_from from (mul_constraints field first_gate second_gate (products_of field own.now)) }
{
    let columns = read(own);
    let left = sign_constraints(columns.left_sign, first_gate);
    let right = sign_constraints(columns.right_sign, second_gate);
    let left = first_nonzero(from, &left);
    first(left, first_nonzero(from + 2, &right))
}

/// The signs, the carries of the product, and its limbs.
fn emit_products<S: EventSink>(
    valid: Fe,
    first: Fe,
    second: Fe,
    own: &[Fe],
    left: Limbs,
    right: Limbs,
    sink: &mut S,
) -> Result<(), OutOfMemory>
    requires own { length own.now ≡ 10 }
    requires room { 18 ≤ S.room sink.old }
    ensures ok { OnOk result (Handed S.holds S.room sink.old sink.new (counted (mul_lookups field valid first second (products_of field own.now) left right))) }
    ensures err { OnErr result (HandedSome S.holds S.room sink.old sink.new (counted (mul_lookups field valid first second (products_of field own.now) left right))) }
{
    let c = read(own);
    emit_sent(bus::XOR, first, &sign_looked_up(c.left_sign, left.x3), sink)?;
    emit_sent(
        bus::XOR,
        second,
        &sign_looked_up(c.right_sign, right.x3),
        sink,
    )?;
    let carries = product_carries(c.left_sign, c.right_sign, left, right, c.low, c.high);
    emit_carries(valid, &carries, sink)?;
    emit_ranges(valid, Fe::of_u16(8), &both(c.low, c.high), sink)
}

/// Whether a word is negative, where it is signed.
fn is_below_zero(signed: bool, word: u32) -> bool
    ensures { result ≡ (signed && is_negative word) }
{
    signed && word >= 1 << 31
}

/// A word, extended to 64 bits by its sign.
fn extended(negative: bool, word: u32) -> u64
    ensures { result ≡ extended_word (from_bool negative) word }
{
    if negative {
        word as u64 + 0xFFFF_FFFF_0000_0000
    } else {
        word as u64
    }
}

/// The limbs of a product, and two signs.
fn cells(product: u64, left: bool, right: bool) -> [Fe; 10]
    ensures { result ≡ limbs_of (product % 2 ^ 32) ++ (limbs_of (product / 2 ^ 32) ++ (from_bool left ∷ from_bool right ∷ [])) }
{
    let low = limbs((product % (1 << 32)) as u32);
    let high = limbs((product / (1 << 32)) as u32);
    [
        Fe::of_u16(low[0] as u16),
        Fe::of_u16(low[1] as u16),
        Fe::of_u16(low[2] as u16),
        Fe::of_u16(low[3] as u16),
        Fe::of_u16(high[0] as u16),
        Fe::of_u16(high[1] as u16),
        Fe::of_u16(high[2] as u16),
        Fe::of_u16(high[3] as u16),
        Fe::of_u16(left as u16),
        Fe::of_u16(right as u16),
    ]
}

/// The table's own columns, of the place of the flag and two words.
#[tactic(auto, unfolding(crate::specs::Mul::mul_filled))]
fn filled(place: usize, left: u32, right: u32) -> [Fe; 10]
    ensures { result ≡ mul_filled place left right }
{
    let left_sign = is_below_zero(place == 1 || place == 2, left);
    let right_sign = is_below_zero(place == 1, right);
    let product = extended(left_sign, left).wrapping_mul(extended(right_sign, right));
    cells(product, left_sign, right_sign)
}

impl RegsCore for MulCore {
    ghost use Rattle.std.specs.Prelude.{refl};
    ghost use Rattle.chip_mul.specs.Mul.{mul_core};
    ghost use Rattle.chip_mul.specs.lemmas.MulLaws.{mul_laws};

    const FLAGS: usize = 4;

    const OWN: usize = 10;

    const WORDS: usize = 3;

    ghost FLAGS = { 4 };

    ghost OWN = { 10 };

    ghost WORDS = { 3 };

    ghost core = { mul_core };

    ghost sizes = { (refl, refl, refl) };

    ghost laws = { mul_laws };

    fn immediates() -> bool {
        false
    }

    fn owns(op: u8) -> bool {
        opcode::MUL <= op && op <= opcode::MULHU
    }

    fn opcode(flags: &[Fe]) -> Fe {
        air_core::opcode(&[flags[0], flags[1], flags[2], flags[3]], &OPCODES)
    }

    fn new_word(flags: &[Fe], own: &[Fe], left: Limbs, right: Limbs) -> Limbs {
        chosen(flag_sum(flags), flags[0], own)
    }

    fn constraints() -> u32 {
        4
    }

    fn first_broken(from: u32, flags: &[Fe], own: &[Fe], left: Limbs, right: Limbs) -> Option<u32> {
        signs_broken(from, left_signed(flags), flags[1], own)
    }

    fn lookups<S: EventSink>(
        flags: &[Fe],
        own: &[Fe],
        left: Limbs,
        right: Limbs,
        sink: &mut S,
    ) -> Result<(), OutOfMemory> {
        emit_products(
            flag_sum(flags),
            left_signed(flags),
            flags[1],
            own,
            left,
            right,
            sink,
        )
    }

    fn place(op: u8, left: Limbs, right: Limbs) -> usize {
        (op - opcode::MUL) as usize
    }

    fn fill(place: usize, left: Limbs, right: Limbs, new: Limbs, own: &mut [Fe]) {
        own.copy_from_slice(&filled(place, word_of(left), word_of(right)));
    }
}
