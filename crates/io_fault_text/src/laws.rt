//! The law of the numbers of refusals, as the clause of a function that does nothing.
ghost use Rattle.io_fault_text.specs.Refusals.{HaveOwnNumbers};

/// No two refusals of the list have one number.
pub fn refusals_have_own_numbers()
    ensures { HaveOwnNumbers }
{}
