//! The lookup of a result in the xor table, limb by limb.

ghost use Rattle.air_core.specs.Ring.{field};
ghost use Rattle.std.specs.Prelude.{◌≡◌, ◌≤◌, ◌<◌, [], ◌∷◌, length, OnOk, OnErr};
ghost use Rattle.air_core.specs.Sheet.{counted};
ghost use Rattle.air_core.specs.Sink.{Handed, HandedSome};
ghost use Rattle.gadget_limbs.specs.Lookup.{choose, mixed, looked_up, lookup_line, lookup_lines};

use air_core::{EventSink, OutOfMemory, bus, emit_sent};
use vm_field::{Fe, Limbs};

/// The flags of a row: their sum, that of a sum or a difference, and one for each bitwise operation.
#[derive(Clone, Copy, Debug)]
pub struct OperationFlags<F = Fe> {
    pub valid: F,
    pub sums: F,
    pub xor: F,
    pub or: F,
    pub and: F,
}

/// sums * a + (valid - sums) * b: of a valid row a where `sums` is 1, and b where it is 0.
#[tactic(auto, unfolding(crate::specs::Lookup::choose))]
pub fn choose(valid: Fe, sums: Fe, a: Fe, b: Fe) -> Fe
    ensures { result ≡ choose field valid sums a b }
{
    sums.mul(a).add(valid.sub(sums).mul(b))
}

/// What the xor of b and c is, by the result a.
#[tactic(auto, unfolding(crate::specs::Lookup::mixed))]
fn mixed(xor: Fe, or: Fe, and: Fe, a: Fe, b: Fe, c: Fe) -> Fe
    ensures { result ≡ mixed field xor or and a b c }
{
    let two = Fe::of_u16(2).mul(a);
    let both = b.add(c);
    xor.mul(a)
        .add(or.mul(two.sub(b).sub(c)))
        .add(and.mul(both.sub(two)))
}

/// What is looked up of the limb `a` of a result, where `b` and `c` are those of the two words.
#[tactic(auto, unfolding(crate::specs::Lookup::looked_up))]
pub fn looked_up(flags: &OperationFlags, a: Fe, b: Fe, c: Fe) -> [Fe; 3]
    ensures { result ≡ looked_up field flags.now a b c }
{
    let x = choose(flags.valid, flags.sums, a, b);
    let y = choose(flags.valid, flags.sums, a, c);
    let z = mixed(flags.xor, flags.or, flags.and, a, b, c);
    [x, y, z]
}

fn emit_lookup<S: EventSink>(
    flags: &OperationFlags,
    a: Fe,
    b: Fe,
    c: Fe,
    sink: &mut S,
) -> Result<(), OutOfMemory>
    requires room { 1 ≤ S.room sink.old }
    ensures ok { OnOk result (Handed S.holds S.room sink.old sink.new (counted (lookup_line field flags.now a b c ∷ []))) }
    ensures err { OnErr result (HandedSome S.holds S.room sink.old sink.new (counted (lookup_line field flags.now a b c ∷ []))) }
{
    emit_sent(bus::XOR, flags.valid, &looked_up(flags, a, b, c), sink)
}

/// Hands over the lookups of the limbs of the result `a`, where `b` and `c` are the two words.
pub fn emit_lookups<S: EventSink>(
    flags: &OperationFlags,
    a: Limbs,
    b: Limbs,
    c: Limbs,
    sink: &mut S,
) -> Result<(), OutOfMemory>
    requires room { 4 ≤ S.room sink.old }
    ensures ok { OnOk result (Handed S.holds S.room sink.old sink.new (counted (lookup_lines field flags.now a b c))) }
    ensures err { OnErr result (HandedSome S.holds S.room sink.old sink.new (counted (lookup_lines field flags.now a b c))) }
{
    emit_lookup(flags, a.x0, b.x0, c.x0, sink)?;
    emit_lookup(flags, a.x1, b.x1, c.x1, sink)?;
    emit_lookup(flags, a.x2, b.x2, c.x2, sink)?;
    emit_lookup(flags, a.x3, b.x3, c.x3, sink)
}
