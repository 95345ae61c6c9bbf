//! What a table of the register form has of its own.

ghost use Rattle.std.specs.Prelude.{◌≡◌, ℕ, ◌+◌, ◌^◌, ◌<◌, ◌≤◌, Bool, true, length, OnOk, OnErr};
ghost use Rattle.air_core.specs.First.{first_from};
ghost use Rattle.air_core.specs.Flags.{weighted_from};
ghost use Rattle.air_core.specs.Ring.{field};
ghost use Rattle.air_core.specs.Sheet.{counted};
ghost use Rattle.air_core.specs.Sink.{Handed, HandedSome};
ghost use Rattle.gadget_time.specs.Form.{owns_of};
ghost use Rattle.adapter_regs.specs.Core.{Core, CoreLaws, Operands, operands, regs_form};
ghost use Rattle.adapter_regs.specs.Regs.{words_from};

use air_core::{EventSink, OutOfMemory};
use vm_field::{Fe, Limbs};

/// The own part of a table of the register form: its flags, its own columns, and what they say of two words.
pub trait RegsCore {
    /// How many flags it has.
    const FLAGS: usize;

    /// How many columns it has of its own.
    const OWN: usize;

    /// Where the words begin behind the flags: at 8 with immediates, at 3 without.
    const WORDS: usize;

    ghost FLAGS: { ℕ };

    ghost OWN: { ℕ };

    ghost WORDS: { ℕ };

    /// What the core is.
    ghost core: { Core };

    /// Whether its instructions may have an immediate.
    fn immediates() -> bool
        ensures { result ≡ core.immediates };

    /// Whether valid rows of the table have this opcode.
    fn owns(op: u8) -> bool
        ensures { result ≡ owns_of (regs_form core) op };

    /// The opcode of the flag that is set.
    fn opcode(flags: &[Fe]) -> Fe
        requires { length flags.now ≡ length core.opcodes }
        ensures { result ≡ weighted_from field 0 flags.now core.opcodes };

    /// The word that is written.
    fn new_word(flags: &[Fe], own: &[Fe], left: Limbs, right: Limbs) -> Limbs
        requires flags { length flags.now ≡ length core.opcodes }
        requires own { length own.now ≡ core.own }
        ensures { result ≡ core.parts.new (operands flags.now left right own.now) };

    /// How many constraints it has of its own.
    fn constraints() -> u32
        ensures few { result ≤ 65000 }
        ensures number { (o : Operands ℕ) → length o.flags ≡ length core.opcodes → length o.own ≡ core.own → length (core.parts.constraints o) ≡ result };

    /// The place of the first of its own constraints that isn't 0, where the first stands at the place `from`.
    fn first_broken(from: u32, flags: &[Fe], own: &[Fe], left: Limbs, right: Limbs) -> Option<u32>
        requires flags { length flags.now ≡ length core.opcodes }
        requires own { length own.now ≡ core.own }
        requires from { from < 2 ^ 17 }
        ensures { result ≡ first_from from (core.parts.constraints (operands flags.now left right own.now)) };

    /// Hands over its own lookups.
    fn lookups<S: EventSink>(
        flags: &[Fe],
        own: &[Fe],
        left: Limbs,
        right: Limbs,
        sink: &mut S,
    ) -> Result<(), OutOfMemory>
        requires flags { length flags.now ≡ length core.opcodes }
        requires own { length own.now ≡ core.own }
        requires room { length (core.parts.lookups (operands flags.now left right own.now)) ≤ S.room sink.old }
        ensures ok { OnOk result (Handed S.holds S.room sink.old sink.new (counted (core.parts.lookups (operands flags.now left right own.now)))) }
        ensures err { OnErr result (HandedSome S.holds S.room sink.old sink.new (counted (core.parts.lookups (operands flags.now left right own.now)))) };

    /// The place of the flag of an opcode and two words.
    fn place(op: u8, left: Limbs, right: Limbs) -> usize
        requires { owns_of (regs_form core) op ≡ true }
        ensures { result ≡ core.place op left right };

    /// Writes its own columns, by the place of the flag, the two words and the new one.
    fn fill(place: usize, left: Limbs, right: Limbs, new: Limbs, own: &mut [Fe])
        requires { length own.old ≡ core.own }
        ensures { own.new ≡ core.filled place left right new };

    ghost sizes: { (length core.opcodes ≡ FLAGS) × (core.own ≡ OWN) × (words_from core.immediates ≡ WORDS) };

    ghost laws: { CoreLaws core };
}
