// What is refused for what is handed in, beside the scratch and the questions that the search judges.
ghost use Rattle.std.specs.Prelude.{◌≡◌};
ghost use Rattle.store.specs.Judged.{judged_equation, judged_number};

use crate::{MOST_CELLS, MOST_EQUATIONS, Refusal};
use terms::{Cell, check};

// The variables of a store.
const VARIABLES: u32 = 32;

// The place where an equation's second term begins, or why it is not entered where so many stand.
pub(crate) fn equation(cells: &[Cell], standing: usize) -> Result<usize, Refusal>
    ensures { result ≡ judged_equation cells.now standing }
{
    let second = check::two_terms(cells).ok_or(Refusal::NotTerms)?;
    if !check::low_variables(cells) {
        return Err(Refusal::NotTerms);
    }
    if cells.len() > MOST_CELLS {
        return Err(Refusal::TooLarge);
    }
    if standing < MOST_EQUATIONS {
        Ok(second)
    } else {
        Err(Refusal::EquationsFull)
    }
}

// Refuses a variable that a store has not.
pub(crate) fn variable(number: u32) -> Result<(), Refusal>
    ensures { result ≡ judged_number number }
{
    if number < VARIABLES {
        Ok(())
    } else {
        Err(Refusal::NoVariable)
    }
}
