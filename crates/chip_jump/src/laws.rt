//! What the tables of jumps are. Each law is what a function with an empty body ensures.

ghost use Rattle.chip_jump.specs.Cores.{AuipcIsFormal, JalLuiIsFormal, JalrIsFormal};
ghost use Rattle.chip_jump.specs.LinkLaws.{ALinkIsAForm};

/// Law: a core with its laws is a form with its laws.
pub fn a_link_is_a_form()
    ensures { ALinkIsAForm }
{}

/// Law: of JAL and LUI the expressions over the columns have the values of the constraints and events.
pub fn jal_lui_is_formal()
    ensures { JalLuiIsFormal }
{}

/// Law: and of AUIPC.
pub fn auipc_is_formal()
    ensures { AuipcIsFormal }
{}

/// Law: and of JALR.
pub fn jalr_is_formal()
    ensures { JalrIsFormal }
{}
