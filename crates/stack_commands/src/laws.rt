//! The law of the numbers of refusals, as the clause of a function that does nothing.
ghost use Rattle.stack_commands.specs.Refusals.{AreNumbered};

use io_fault_text::laws::refusals_have_own_numbers;

/// Each refusal with a number from 18 on is in the list of `io_fault_text`, in which no two have one number.
pub fn refusals_are_numbered()
    ensures { AreNumbered }
{
    refusals_have_own_numbers();
}
