//! What every table of the register form is. Each law is what a function with an empty body ensures.

ghost use Rattle.adapter_regs.specs.Core.{ACoreIsAForm};

/// Law: a core with its laws is a form with its laws, with immediates and without.
pub fn a_core_is_a_form()
    ensures { ACoreIsAForm }
{}
