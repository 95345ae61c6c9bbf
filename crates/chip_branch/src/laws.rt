//! What the tables of branches are. Each law is what a function with an empty body ensures.

ghost use Rattle.chip_branch.specs.Branch.{AConditionIsAForm};
ghost use Rattle.chip_branch.specs.Conditions.{BranchEqIsFormal, BranchLtIsFormal};

/// Law: a condition with its laws is a form with its laws.
pub fn a_condition_is_a_form()
    ensures { AConditionIsAForm }
{}

/// Law: of BEQ and BNE the expressions over the columns have the values of the constraints and events.
pub fn branch_eq_is_formal()
    ensures { BranchEqIsFormal }
{}

/// Law: and of BLT, BLTU, BGE and BGEU.
pub fn branch_lt_is_formal()
    ensures { BranchLtIsFormal }
{}
