// Renaming a clause apart.
ghost use Rattle.std.specs.Prelude.{◌≡◌, ℕ, ◌+◌, ◌-◌, ◌<◌, ◌≤◌, List, [], ◌∷◌, ◌++◌, length, drop, All};
ghost use Rattle.clauses.specs.Clauses.{raised, renamed, spliced, Low, WroteClause};

use crate::Refusal;
use terms::Cell;

// A greater base is refused: the question and 32 uses have 32 numbers each for their variables.
const MOST_BASE: u32 = 1056;

fn raise(c: Cell, base: u32) -> Cell
    requires { (Low c) × (base ≤ 1056) }
    ensures { result ≡ raised base c }
{
    if c.tag == 0 {
        Cell {
            value: c.value + base,
            ..c
        }
    } else {
        c
    }
}

// The clause with its variables raised, at the start of the slice; the rest stays.
fn copy_out(clause: &[Cell], base: u32, out: &mut [Cell])
    requires { (All Low clause.now) × ((base ≤ 1056) × (length clause.now ≤ length out.old)) }
    ensures { out.new ≡ renamed base clause.now ++ drop (length clause.now) out.old }
{
    for (i, c) in clause.iter().enumerate() {
        out[i] = raise(*c, base);
    }
}

// The same from a place on: the tail of the slice is lent on, and the head stays.
pub fn write_from(clause: &[Cell], base: u32, out: &mut [Cell], at: usize)
    requires { (All Low clause.now) × ((base ≤ 1056) × (at + length clause.now ≤ length out.old)) }
    ensures { out.new ≡ spliced out.old at (renamed base clause.now) }
{
    copy_out(clause, base, &mut out[at..]);
}

// Writes the clause with its variables raised from a place on, and tells its length; or the refusal, the base being judged before the room.
pub fn write(clause: &[Cell], base: u32, out: &mut [Cell], at: usize) -> Result<usize, Refusal>
    requires { All Low clause.now }
    ensures { WroteClause clause.now base at out.old out.new result }
{
    if base > MOST_BASE {
        return Err(Refusal::ClauseNumber);
    }
    if at > out.len() || out.len() - at < clause.len() {
        return Err(Refusal::OutputShort);
    }
    write_from(clause, base, out, at);
    Ok(clause.len())
}
