//! What the set flag selects by its form: the word that a load makes of a block, and the block that a store leaves.

ghost use Rattle.std.specs.Prelude.{◌≡◌, length};
ghost use Rattle.vm_field.specs.Limbs.{list_of};
ghost use Rattle.air_core.specs.Ring.{field, cell};
ghost use Rattle.adapter_mem.specs.Forms.{by_form};
ghost use Rattle.adapter_mem.specs.Select.{read_of, top_of, top_by, fill_of, fills_by, loaded_limb, loaded_word, sign_of, stored_of, stored_limb, stored_word};

use crate::AccessForm;
use vm_field::{Fe, Limbs};

/// The limb at a place; behind them all it is 0.
fn cell(limbs: &Limbs, place: usize) -> Fe
    ensures { result ≡ cell field (list_of limbs.now) place }
{
    match limbs.array().get(place) {
        Some(limb) => *limb,
        None => Fe::ZERO,
    }
}

/// Limb `j` of what a form reads of a block.
fn read_of(form: &AccessForm, block: &Limbs, j: usize) -> Fe
    ensures { result ≡ read_of field block.now j form.now }
{
    if j < form.width as usize {
        cell(block, form.shift as usize + j)
    } else {
        Fe::ZERO
    }
}

/// The byte that has the sign, where a form has one.
fn top_of(form: &AccessForm, block: &Limbs) -> Fe
    ensures { result ≡ top_of field block.now form.now }
{
    if form.signed {
        let place = (form.shift as usize + form.width as usize).saturating_sub(1);
        cell(block, place)
    } else {
        Fe::ZERO
    }
}

/// Whether the sign stands in limb `j`: above the bytes of a signed form.
fn fill_of(form: &AccessForm, j: usize) -> Fe
    ensures { result ≡ fill_of field j form.now }
{
    if form.signed && form.width as usize <= j {
        Fe::ONE
    } else {
        Fe::ZERO
    }
}

/// Limb `j` of what a form leaves of a block where a word is stored.
fn stored_of(form: &AccessForm, word: &Limbs, block: &Limbs, j: usize) -> Fe
    ensures { result ≡ stored_of field word.now block.now j form.now }
{
    let (shift, width) = (form.shift as usize, form.width as usize);
    if shift <= j && j < shift + width {
        cell(word, j - shift)
    } else {
        cell(block, j)
    }
}

fn read_by(forms: &[AccessForm], flags: &[Fe], block: &Limbs, j: usize) -> Fe
    requires { length flags.now ≡ length forms.now }
    ensures { result ≡ by_form field forms.now flags.now (read_of field block.now j) }
{
    let mut sum = Fe::ZERO;
    for i in 0..flags.len() {
        sum = sum.add(flags[i].mul(read_of(&forms[i], block, j)));
    }
    sum
}

/// The byte that has the sign, by the flags.
pub fn top_by(forms: &[AccessForm], flags: &[Fe], block: &Limbs) -> Fe
    requires { length flags.now ≡ length forms.now }
    ensures { result ≡ top_by field forms.now flags.now block.now }
{
    let mut sum = Fe::ZERO;
    for i in 0..flags.len() {
        sum = sum.add(flags[i].mul(top_of(&forms[i], block)));
    }
    sum
}

fn fills_by(forms: &[AccessForm], flags: &[Fe], j: usize) -> Fe
    requires { length flags.now ≡ length forms.now }
    ensures { result ≡ fills_by field forms.now flags.now j }
{
    if j >= 2 {
        return Fe::ONE;
    }
    let mut sum = Fe::ZERO;
    for i in 0..flags.len() {
        sum = sum.add(flags[i].mul(fill_of(&forms[i], j)));
    }
    sum
}

/// What is read of limb `j`, and 255 times the sign above it.
#[tactic(auto, unfolding(crate::specs::Select::loaded_limb))]
fn loaded_limb(forms: &[AccessForm], flags: &[Fe], block: &Limbs, sign: Fe, j: usize) -> Fe
    requires { length flags.now ≡ length forms.now }
    ensures { result ≡ loaded_limb field forms.now flags.now block.now sign j }
{
    let above = fills_by(forms, flags, j).mul(Fe::of_u16(255).mul(sign));
    read_by(forms, flags, block, j).add(above)
}

/// The word that is loaded of a block, with the sign of the bytes that are read.
pub fn loaded_word(forms: &[AccessForm], flags: &[Fe], block: &Limbs, sign: Fe) -> Limbs
    requires { length flags.now ≡ length forms.now }
    ensures { result ≡ loaded_word field forms.now flags.now block.now sign }
{
    Limbs {
        x0: loaded_limb(forms, flags, block, sign, 0),
        x1: loaded_limb(forms, flags, block, sign, 1),
        x2: loaded_limb(forms, flags, block, sign, 2),
        x3: loaded_limb(forms, flags, block, sign, 3),
    }
}

/// The top bit of the byte that has the sign.
pub fn sign_of(form: &AccessForm, block: &[u8; 4]) -> Fe
    ensures { result ≡ sign_of form.now block.now }
{
    if form.signed {
        let place = (form.shift as usize + form.width as usize).saturating_sub(1);
        match block.get(place) {
            Some(byte) => Fe::of_u16((*byte / 128) as u16),
            None => Fe::ZERO,
        }
    } else {
        Fe::ZERO
    }
}

#[tactic(auto, unfolding(crate::specs::Select::stored_limb))]
fn stored_limb(forms: &[AccessForm], flags: &[Fe], word: &Limbs, block: &Limbs, j: usize) -> Fe
    requires { length flags.now ≡ length forms.now }
    ensures { result ≡ stored_limb field forms.now flags.now word.now block.now j }
{
    let mut sum = Fe::ZERO;
    for i in 0..flags.len() {
        sum = sum.add(flags[i].mul(stored_of(&forms[i], word, block, j)));
    }
    sum
}

/// The block that is left where a word is stored.
pub fn stored_word(forms: &[AccessForm], flags: &[Fe], word: &Limbs, block: &Limbs) -> Limbs
    requires { length flags.now ≡ length forms.now }
    ensures { result ≡ stored_word field forms.now flags.now word.now block.now }
{
    Limbs {
        x0: stored_limb(forms, flags, word, block, 0),
        x1: stored_limb(forms, flags, word, block, 1),
        x2: stored_limb(forms, flags, word, block, 2),
        x3: stored_limb(forms, flags, word, block, 3),
    }
}
