// Which cells spell a goal list: a predicate cell and its arguments, goal after goal, each function cell being followed by its arguments.
ghost use Rattle.std.specs.Prelude.{◌≡◌, ℕ, ◌+◌, ◌-◌, ◌<◌, ◌≤◌, Bool, true, false, length, drop, Some, None, MatchOption};
ghost use Rattle.terms.specs.Shape.{term_cell, goal_cell, low_cell, skip, two_terms, goals, all_low};

use crate::Cell;

// The cells of a clause, a question or a pair of terms: no more are accepted anywhere.
const FEW: usize = 32;

// A cell of a term: a variable, a constant, or a function of 1 to 8 arguments. Atoms, strings and symbols have numbers of 16 bits.
fn is_term_cell(c: Cell) -> bool
    ensures { result ≡ term_cell c }
{
    match c.tag {
        0 => c.form == 0 && c.arity == 0,
        1 => c.arity == 0 && (c.form < 2 || (c.form < 4 && c.value < 65536)),
        2 => c.form == 0 && 0 < c.arity && c.arity < 9 && c.value < 65536,
        _ => false,
    }
}

// A predicate cell, of 0 to 8 arguments.
fn is_goal_cell(c: Cell) -> bool
    ensures { result ≡ goal_cell c }
{
    c.tag == 2 && c.form == 0 && c.arity < 9 && c.value < 65536
}

// What is left of the cells after the term that they begin with, or None where they begin with none.
#[cycle(after_term_after_terms)]
fn after_term(cells: &[Cell]) -> Option<&[Cell]>
    ensures { MatchOption result (skip 1 cells.now ≡ None) (λ left. skip 1 cells.now ≡ Some left.now) }
{
    let (c, arguments) = cells.split_first()?;
    if !is_term_cell(*c) {
        return None;
    }
    after_terms(arguments, c.arity)
}

// What is left after `n` terms.
#[cycle(after_term_after_terms)]
fn after_terms(cells: &[Cell], n: u8) -> Option<&[Cell]>
    ensures { MatchOption result (skip n cells.now ≡ None) (λ left. skip n cells.now ≡ Some left.now) }
{
    if n == 0 {
        return Some(cells);
    }
    let rest = after_term(cells)?;
    after_terms(rest, n - 1)
}

// What is left after the term, cell by cell with a count of the terms that are due: however deep the terms nest, no stack is used.
fn after_by_cells(cells: &[Cell]) -> Option<&[Cell]>
    ensures { MatchOption result (skip 1 cells.now ≡ None) (λ left. skip 1 cells.now ≡ Some left.now) }
{
    let mut due: usize = 1;
    for (i, c) in cells.iter().enumerate() {
        if due > cells.len() - i || !is_term_cell(*c) {
            return None;
        }
        due = due - 1 + c.arity as usize;
        if due == 0 {
            return Some(&cells[i + 1..]);
        }
    }
    None
}

// What is left after the term, in few cells by its parts, in many cell by cell.
fn after_one(cells: &[Cell]) -> Option<&[Cell]>
    ensures { MatchOption result (skip 1 cells.now ≡ None) (λ left. skip 1 cells.now ≡ Some left.now) }
{
    if cells.len() <= FEW {
        after_term(cells)
    } else {
        after_by_cells(cells)
    }
}

// The place where the second term begins, or None where the cells are not two terms, one right after the other.
pub fn two_terms(cells: &[Cell]) -> Option<usize>
    ensures { result ≡ two_terms cells.now }
{
    let second = after_one(cells)?;
    if after_one(second)?.is_empty() {
        Some(cells.len() - second.len())
    } else {
        None
    }
}

// The number of goals, goal by goal. It nests as deep as the terms, so it is for few cells.
fn goals_by_parts(cells: &[Cell]) -> Option<usize>
    ensures { result ≡ goals 0 0 cells.now }
{
    let mut rest = cells;
    let mut n: usize = 0;
    while let Some((c, arguments)) = rest.split_first() {
        if !is_goal_cell(*c) {
            return None;
        }
        rest = after_terms(arguments, c.arity)?;
        n += 1;
    }
    Some(n)
}

// The number of goals, cell by cell with a count of the terms that are due: however deep the terms nest, no stack is used.
fn goals_by_cells(cells: &[Cell]) -> Option<usize>
    ensures { result ≡ goals 0 0 cells.now }
{
    let mut due: usize = 0;
    let mut n: usize = 0;
    for (i, c) in cells.iter().enumerate() {
        if due > cells.len() - i {
            return None;
        }
        if due == 0 {
            if !is_goal_cell(*c) {
                return None;
            }
            n += 1;
            due = c.arity as usize;
        } else {
            if !is_term_cell(*c) {
                return None;
            }
            due = due - 1 + c.arity as usize;
        }
    }
    if due == 0 { Some(n) } else { None }
}

// The number of goals that the cells spell, or None where they are no goal list.
pub fn goal_count(cells: &[Cell]) -> Option<usize>
    ensures { result ≡ goals 0 0 cells.now }
{
    if cells.len() <= FEW {
        goals_by_parts(cells)
    } else {
        goals_by_cells(cells)
    }
}

// A variable's number is at most 31; other cells are as they may be.
fn is_low(c: Cell) -> bool
    ensures { result ≡ low_cell c }
{
    c.tag != 0 || c.value < 32
}

// Whether every variable has a number of at most 31.
pub fn low_variables(cells: &[Cell]) -> bool
    ensures { result ≡ all_low cells.now }
{
    cells.iter().all(|c| is_low(*c))
}
