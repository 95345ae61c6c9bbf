//! What a table of branches has of its own: its condition on two words.

ghost use Rattle.std.specs.Prelude.{◌≡◌, ℕ, ◌+◌, ◌^◌, ◌<◌, ◌≤◌, true, List, length, OnOk, OnErr};
ghost use Rattle.air_core.specs.First.{first_from};
ghost use Rattle.air_core.specs.Flags.{weighted_from, opcode_place};
ghost use Rattle.air_core.specs.Ring.{field};
ghost use Rattle.air_core.specs.Sheet.{counted};
ghost use Rattle.air_core.specs.Sink.{Handed, HandedSome};
ghost use Rattle.gadget_time.specs.Form.{owns_of};
ghost use Rattle.adapter_regs.specs.Core.{Operands, operands};
ghost use Rattle.chip_branch.specs.Branch.{Condition as ConditionOf, ConditionLaws, branch_form};

use air_core::{EventSink, OutOfMemory};
use vm_field::{Fe, Limbs};

/// The condition of a table of branches: its flags, its own columns, and what they say of two words.
pub trait Condition {
    /// How many flags it has.
    const FLAGS: usize;

    /// How many columns it has of its own.
    const OWN: usize;

    ghost FLAGS: { ℕ };

    ghost OWN: { ℕ };

    /// What the condition is.
    ghost condition: { ConditionOf };

    /// Whether valid rows of the table have this opcode.
    fn owns(op: u8) -> bool
        ensures { result ≡ owns_of (branch_form condition) op };

    /// The opcode of the flag that is set.
    fn opcode(flags: &[Fe]) -> Fe
        requires { length flags.now ≡ length condition.opcodes }
        ensures { result ≡ weighted_from field 0 flags.now condition.opcodes };

    /// 1 where the branch is taken, and 0 where it isn't.
    fn taken(flags: &[Fe], own: &[Fe], left: Limbs, right: Limbs) -> Fe
        requires flags { length flags.now ≡ length condition.opcodes }
        requires own { length own.now ≡ condition.own }
        ensures { result ≡ condition.parts.taken (operands flags.now left right own.now) };

    /// How many constraints it has.
    fn constraints() -> u32
        ensures few { result ≤ 65000 }
        ensures number { (o : Operands ℕ) → length o.flags ≡ length condition.opcodes → length o.own ≡ condition.own → length (condition.parts.constraints o) ≡ result };

    /// The place of the first of these that isn't 0, where the first stands at the place `from`.
    fn first_broken(from: u32, flags: &[Fe], own: &[Fe], left: Limbs, right: Limbs) -> Option<u32>
        requires flags { length flags.now ≡ length condition.opcodes }
        requires own { length own.now ≡ condition.own }
        requires from { from < 2 ^ 16 }
        ensures { result ≡ first_from from (condition.parts.constraints (operands flags.now left right own.now)) };

    /// Hands over its lookups.
    fn lookups<S: EventSink>(
        flags: &[Fe],
        own: &[Fe],
        left: Limbs,
        right: Limbs,
        sink: &mut S,
    ) -> Result<(), OutOfMemory>
        requires flags { length flags.now ≡ length condition.opcodes }
        requires own { length own.now ≡ condition.own }
        requires room { length (condition.parts.lookups (operands flags.now left right own.now)) ≤ S.room sink.old }
        ensures ok { OnOk result (Handed S.holds S.room sink.old sink.new (counted (condition.parts.lookups (operands flags.now left right own.now)))) }
        ensures err { OnErr result (HandedSome S.holds S.room sink.old sink.new (counted (condition.parts.lookups (operands flags.now left right own.now)))) };

    /// The place of the flag of an opcode.
    fn place(op: u8) -> usize
        requires { owns_of (branch_form condition) op ≡ true }
        ensures { result ≡ opcode_place condition.opcodes op };

    /// Writes its own columns, by the place of the flag and the two words.
    fn fill(place: usize, left: Limbs, right: Limbs, own: &mut [Fe])
        requires { length own.old ≡ condition.own }
        ensures { own.new ≡ condition.filled place left right };

    ghost sizes: { (length condition.opcodes ≡ FLAGS) × (condition.own ≡ OWN) };

    ghost laws: { ConditionLaws condition };
}
