//! A core with the register form around it.

ghost use Rattle.std.specs.Prelude.{◌≡◌, ℕ, ◌+◌, ◌<◌, ◌≤◌, ◌++◌, true, List, length, take, slice_index};
ghost use Rattle.air_core.specs.Ring.{field, cells};
ghost use Rattle.gadget_time.specs.Form.{owns_of};
ghost use Rattle.adapter_regs.specs.Core.{regs_form, own_filled, place_filled};
ghost use Rattle.adapter_regs.specs.Regs.{regs_of, words_from, regs_filled, new_filled, regs_cells, time_cells};

use crate::put::{put_cells, put_times};
use crate::{Regs, RegsCore, filled_regs, immediate, new_word, numbers, read, touches};
use air_core::{EventSink, HintWord, OutOfMemory, first, first_nonzero, flag_sum};
use gadget_time::{FormChip, TableForm, emit_touches, touches_broken};
use std::marker::PhantomData;
use vm_field::{Fe, Limbs};
use vm_isa::StepRecord;

/// The form of a core. It has no values.
#[derive(Drop)]
pub struct RegsForm<C: RegsCore> {
    core: PhantomData<C>,
}

/// The table of a core, whose times have HI bits above the lower 16.
pub type RegsChip<C, const HI: u32> = FormChip<RegsForm<C>, HI>;

/// Where its own columns begin, behind the flags.
fn own_from<C: RegsCore>() -> usize
    ensures few { result ≤ 20 }
    ensures is { result ≡ words_from C.core.immediates + 12 }
{
    let words = C::WORDS;
    words + 12
}

fn own_end<C: RegsCore>() -> usize
    ensures few { result ≤ 40000 }
    ensures is { result ≡ words_from C.core.immediates + 12 + C.core.own }
{
    let own = C::OWN;
    own_from::<C>() + own
}

fn regs_at<C: RegsCore>(pc: Fe, time: Fe, rest: &[Fe]) -> Regs
    requires { length rest.now ≡ words_from C.core.immediates + 21 + C.core.own }
    ensures { result ≡ regs_of field C.core.immediates C.core.own pc time rest.now }
{
    let own = C::OWN;
    read(C::immediates(), own, pc, time, rest)
}

fn own_of<C: RegsCore>(rest: &[Fe]) -> &[Fe]
    requires { length rest.now ≡ words_from C.core.immediates + 21 + C.core.own }
    ensures long { length result.now ≡ C.core.own }
    ensures is { result.now ≡ cells (slice_index rest.now) (words_from C.core.immediates + 12) C.core.own }
{
    &rest[own_from::<C>()..own_end::<C>()]
}

impl<C: RegsCore> TableForm for RegsForm<C> {
    ghost use Rattle.adapter_regs.specs.lemmas.Form.{core_form};
    ghost use Rattle.std.proofs.Common.{refl};

    const FLAGS: usize = C::FLAGS;

    const REST: usize = C::WORDS + 21 + C::OWN;

    const SLOTS: u16 = 3;

    ghost FLAGS = { C.FLAGS };

    ghost REST = { C.WORDS + 21 + C.OWN };

    ghost SLOTS = { 3 };

    ghost form = { regs_form C.core };

    ghost sizes = { (C.sizes.0, rw (C.sizes.1, C.sizes.2) refl, refl) };

    ghost laws = { core_form C.core C.laws };

    fn owns(op: u8) -> bool {
        C::owns(op)
    }

    fn opcode(flags: &[Fe]) -> Fe {
        C::opcode(flags)
    }

    fn next(pc: Fe, time: Fe, flags: &[Fe], rest: &[Fe]) -> Fe {
        pc.add(Fe::of_u16(4))
    }

    fn numbers(op: Fe, pc: Fe, time: Fe, flags: &[Fe], rest: &[Fe]) -> [Fe; 12] {
        numbers(&regs_at::<C>(pc, time, rest), op)
    }

    fn constraints() -> u32 {
        let own = C::constraints();
        if C::immediates() { 4 + own } else { own }
    }

    fn first_broken(from: u32, pc: Fe, time: Fe, flags: &[Fe], rest: &[Fe]) -> Option<u32> {
        let regs = regs_at::<C>(pc, time, rest);
        let own = own_of::<C>(rest);
        if C::immediates() {
            let immediates = first_nonzero(from, &immediate(&regs));
            let mine = C::first_broken(from + 4, flags, own, regs.left, regs.right);
            first(immediates, mine)
        } else {
            C::first_broken(from, flags, own, regs.left, regs.right)
        }
    }

    fn times_broken(from: u32, pc: Fe, time: Fe, flags: &[Fe], rest: &[Fe]) -> Option<u32> {
        let regs = regs_at::<C>(pc, time, rest);
        let new = C::new_word(flags, own_of::<C>(rest), regs.left, regs.right);
        touches_broken(from, time, &touches(&regs, flag_sum(flags), new))
    }

    fn accesses<S: EventSink>(
        hi: u32,
        pc: Fe,
        time: Fe,
        flags: &[Fe],
        rest: &[Fe],
        sink: &mut S,
    ) -> Result<(), OutOfMemory> {
        let regs = regs_at::<C>(pc, time, rest);
        let new = C::new_word(flags, own_of::<C>(rest), regs.left, regs.right);
        emit_touches(hi, time, &touches(&regs, flag_sum(flags), new), sink)
    }

    fn others<S: EventSink>(
        pc: Fe,
        time: Fe,
        flags: &[Fe],
        rest: &[Fe],
        sink: &mut S,
    ) -> Result<(), OutOfMemory> {
        let regs = regs_at::<C>(pc, time, rest);
        C::lookups(flags, own_of::<C>(rest), regs.left, regs.right, sink)
    }

    fn hint(hi: u32, row: &[Fe]) -> Option<HintWord> {
        None
    }

    fn place(done: &StepRecord) -> usize {
        let regs = filled_regs(done);
        C::place(done.instr.op, regs.left, regs.right)
    }

    fn fill(done: &StepRecord, rest: &mut [Fe]) {
        let regs = filled_regs(done);
        let place = C::place(done.instr.op, regs.left, regs.right);
        put_cells(rest, C::immediates(), &regs);
        put_own::<C>(rest, place, regs.left, regs.right, new_word(done));
        put_times(rest, own_end::<C>(), &regs);
    }
}

/// Writes the core's own columns.
fn put_own<C: RegsCore>(rest: &mut [Fe], place: usize, left: Limbs, right: Limbs, new: Limbs)
    requires { length rest.old ≡ words_from C.core.immediates + 21 + C.core.own }
    ensures long { length rest.new ≡ length rest.old }
    ensures so_far { take (words_from C.core.immediates + 12 + C.core.own) rest.new ≡ take (words_from C.core.immediates + 12) rest.old ++ C.core.filled place left right new }
{
    C::fill(
        place,
        left,
        right,
        new,
        &mut rest[own_from::<C>()..own_end::<C>()],
    );
}
