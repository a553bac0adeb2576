// What a record says, as facts: of its card the lot, the stage and the cycles, each under a predicate of two arguments.
ghost use Rattle.std.specs.Prelude.{◌≡◌, All};
ghost use Rattle.clauses.specs.Clauses.{Low};
ghost use Rattle.records.specs.Facts.{fact_of, value_cell, cells_of};

use terms::Cell;

// The predicate symbols. Two of them may be the same.
#[derive(Clone, Copy, Debug, Default, PartialEq, Eq)]
pub struct Symbols {
    pub lot: u16,
    pub stage: u16,
    pub cycles: u16,
}

#[derive(Clone, Copy, Debug, PartialEq, Eq)]
pub enum Value {
    Atom(u16),
    Integer(u32),
}

impl From<Value> for Cell {
    ghost from_gives = { λ value cell. cell ≡ value_cell value };

    fn from(value: Value) -> Cell {
        match value {
            Value::Atom(n) => Cell::atom(n as u32),
            Value::Integer(n) => Cell::integer(n),
        }
    }
}

#[derive(Clone, Copy, Debug, PartialEq, Eq)]
pub struct Fact {
    pub(crate) symbol: u16,
    pub(crate) card: u16,
    pub(crate) value: Value,
}

impl Fact {
    // What is said of a card under a symbol, if anything is.
    pub(crate) fn of(symbol: u16, card: u16, value: Option<Value>) -> Option<Fact>
        ensures { result ≡ fact_of symbol card value }
    {
        value.map(|value| Fact {
            symbol,
            card,
            value,
        })
    }

    // The fact's predicate and its two arguments, the card first.
    pub(crate) fn cells(self) -> [Cell; 3]
        ensures value { result ≡ cells_of self }
        ensures low { All Low result }
    {
        [
            Cell::symbol(self.symbol as u32, 2),
            Cell::atom(self.card as u32),
            self.value.into(),
        ]
    }
}
