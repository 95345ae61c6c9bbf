//! Forms of accesses of memory, and sums over the flags of a table, each of which has one.

ghost use Rattle.std.specs.Prelude.{◌≡◌, ◌<◌, ◌^◌, Bool, nat_eq, length, map};
ghost use Rattle.std.specs.List.{list_any};
ghost use Rattle.vm_isa.specs.Instr.{bit_of};
ghost use Rattle.air_core.specs.Ring.{field};
ghost use Rattle.adapter_mem.specs.Forms.{form_at, place_in, opcodes_of, opcode_by, shift_by, signed_by, selected_from};

use vm_field::Fe;

/// An opcode, the place of its bytes in the block, how many they are, and whether their sign is extended.
#[derive(Clone, Copy, Debug)]
pub struct AccessForm {
    pub op: u8,
    pub shift: u8,
    pub width: u8,
    pub signed: bool,
}

/// Whether an opcode has a form.
pub fn owns(forms: &[AccessForm], op: u8) -> bool
    ensures { result ≡ list_any (nat_eq op) (opcodes_of forms.now) }
{
    for form in forms {
        if op == form.op {
            return true;
        }
    }
    false
}

/// The place of an opcode's form at a shift; behind them all where there is none.
pub fn place_in(forms: &[AccessForm], op: u8, shift: u32) -> usize
    ensures { result ≡ place_in forms.now op shift }
{
    let mut place = 0;
    for form in forms {
        if op == form.op && shift == form.shift as u32 {
            return place;
        }
        place += 1;
    }
    place
}

/// The form at a place; behind them all it is one of no bytes.
pub fn form_at(forms: &[AccessForm], place: usize) -> AccessForm
    ensures { result ≡ form_at forms.now place }
{
    match forms.get(place) {
        Some(form) => *form,
        None => AccessForm {
            op: 0,
            shift: 0,
            width: 0,
            signed: false,
        },
    }
}

/// The sum of each flag times its form's opcode.
pub fn opcode_by(forms: &[AccessForm], flags: &[Fe]) -> Fe
    requires { length flags.now ≡ length forms.now }
    ensures { result ≡ opcode_by field forms.now flags.now }
{
    let mut sum = Fe::ZERO;
    for i in 0..flags.len() {
        sum = sum.add(flags[i].mul(Fe::of_u16(forms[i].op as u16)));
    }
    sum
}

/// The sum of each flag times its form's shift.
pub fn shift_by(forms: &[AccessForm], flags: &[Fe]) -> Fe
    requires { length flags.now ≡ length forms.now }
    ensures { result ≡ shift_by field forms.now flags.now }
{
    let mut sum = Fe::ZERO;
    for i in 0..flags.len() {
        sum = sum.add(flags[i].mul(Fe::of_u16(forms[i].shift as u16)));
    }
    sum
}

fn signed_weight(form: &AccessForm) -> Fe
    ensures { result ≡ bit_of form.now.signed }
{
    if form.signed { Fe::ONE } else { Fe::ZERO }
}

/// The sum of the flags of signed forms.
pub fn signed_by(forms: &[AccessForm], flags: &[Fe]) -> Fe
    requires { length flags.now ≡ length forms.now }
    ensures { result ≡ signed_by field forms.now flags.now }
{
    let mut sum = Fe::ZERO;
    for i in 0..flags.len() {
        sum = sum.add(flags[i].mul(signed_weight(&forms[i])));
    }
    sum
}

/// The sum of each flag times a value: where one flag is set, its value.
pub fn selected(flags: &[Fe], values: &[Fe]) -> Fe
    requires { length flags.now ≡ length values.now }
    ensures { result ≡ selected_from field 0 flags.now values.now }
{
    let mut sum = Fe::ZERO;
    for i in 0..flags.len() {
        sum = sum.add(flags[i].mul(values[i]));
    }
    sum
}
