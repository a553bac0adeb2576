// Terms in cells: what a cell is, which cells spell terms and goal lists, and the kinds of constants.
#![tactic(auto)]

ghost use Rattle.std.specs.Prelude.{◌≡◌};

pub mod check;
pub mod signature;

// One symbol of a term: a variable, a constant, or a function or predicate symbol, whose arguments follow one after another.
// Tag 0 is a variable, by its number. Tag 1 is a constant of form 0 integer, 1 float, 2 atom or 3 string.
// Tag 2 is a function or a predicate symbol with its arity. Fields without use are 0.
// A cell comes from outside as it may, and is judged; so its tag and form are numbers, of which some mean nothing.
#[derive(Clone, Copy, Debug, Default, PartialEq, Eq)]
pub struct Cell {
    pub tag: u8,
    pub form: u8,
    pub arity: u8,
    pub value: u32,
}

impl Cell {
    // The variable of a number.
    pub fn variable(value: u32) -> Cell
        ensures { result ≡ record { tag = 0; form = 0; arity = 0; value = value } }
    {
        Cell {
            value,
            ..Cell::default()
        }
    }

    // An integer, by its bits in two's complement.
    pub fn integer(value: u32) -> Cell
        ensures { result ≡ record { tag = 1; form = 0; arity = 0; value = value } }
    {
        Cell::constant(0, value)
    }

    // A float, by its bits.
    pub fn float(value: u32) -> Cell
        ensures { result ≡ record { tag = 1; form = 1; arity = 0; value = value } }
    {
        Cell::constant(1, value)
    }

    // An atom, by its symbol's number.
    pub fn atom(value: u32) -> Cell
        ensures { result ≡ record { tag = 1; form = 2; arity = 0; value = value } }
    {
        Cell::constant(2, value)
    }

    // A string, by its symbol's number.
    pub fn string(value: u32) -> Cell
        ensures { result ≡ record { tag = 1; form = 3; arity = 0; value = value } }
    {
        Cell::constant(3, value)
    }

    // A constant of a form.
    pub fn constant(form: u8, value: u32) -> Cell
        ensures { result ≡ record { tag = 1; form = form; arity = 0; value = value } }
    {
        Cell {
            tag: 1,
            form,
            arity: 0,
            value,
        }
    }

    // A function or a predicate, by its symbol's number, before its arguments.
    pub fn symbol(value: u32, arity: u8) -> Cell
        ensures { result ≡ record { tag = 2; form = 0; arity = arity; value = value } }
    {
        Cell {
            tag: 2,
            form: 0,
            arity,
            value,
        }
    }
}
