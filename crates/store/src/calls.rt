// What the calls do to the table.
ghost use Rattle.std.specs.Prelude.{◌≡◌, ◌+◌, ◌<◌, ◌≤◌, Some, length, All, IfOk};
ghost use Rattle.terms.specs.Shape.{two_terms};
ghost use Rattle.store.specs.Entries.{Sound, joined, places_from};
ghost use Rattle.store.specs.Model.{model_of, entries_of, marks_of, newest, opened, with_entry, with_mark, without_mark, cut_back};

use crate::table::Table;
use crate::{MOST_CELLS, MOST_EQUATIONS, MOST_MARKS};
use std::alloc::{AllocError, Global};
use terms::Cell;
use unification::Equation;

impl Table {
    // Nothing stands, and no mark is open. All memory is taken here.
    pub(crate) fn new(heap: Global) -> Result<Table, AllocError>
        ensures { IfOk result (λ t. model_of t ≡ opened) }
    {
        let cells = Vec::with_capacity(heap, MOST_EQUATIONS * MOST_CELLS)?;
        let places = Vec::with_capacity(heap, MOST_EQUATIONS)?;
        let marks = Vec::with_capacity(heap, MOST_MARKS)?;
        Ok(Table {
            cells,
            places,
            marks,
        })
    }

    // How many equations stand.
    pub(crate) fn count(&self) -> usize
        ensures { result ≡ length (entries_of self.now) }
    {
        self.places.len()
    }

    // How many marks are open.
    pub(crate) fn deep(&self) -> u8
        ensures { (result ≡ length (marks_of self.now)) × (result ≤ 8) }
    {
        self.marks.len() as u8
    }

    // The cells of the equations that stand, one after another.
    pub(crate) fn cells(&self) -> &[Cell]
        ensures cells { result.now ≡ joined (entries_of self.now) }
        ensures sound { All Sound (entries_of self.now) }
    {
        self.cells.as_slice()
    }

    // Where both sides of each stand among the cells.
    pub(crate) fn places(&self) -> &[Equation]
        ensures places { result.now ≡ places_from 0 (entries_of self.now) }
        ensures few { length (entries_of self.now) ≤ 16 }
    {
        self.places.as_slice()
    }

    // One equation more, with the place where its second term begins.
    pub(crate) fn add(&mut self, cells: &[Cell], second: usize)
        requires few { length (entries_of self.old) < 16 }
        requires sound { Sound cells.now }
        requires second { two_terms cells.now ≡ Some second }
        ensures { model_of self.new ≡ with_entry (model_of self.old) cells.now }
    {
        let left = self.cells.len();
        let Ok(()) = self.cells.extend_from_slice(cells) else {
            unreachable()
        };
        self.places.push_reserved(Equation {
            left,
            right: left + second,
        });
    }

    // One mark more, of as many equations as stand.
    pub(crate) fn mark(&mut self)
        requires { length (marks_of self.old) < 8 }
        ensures { model_of self.new ≡ with_mark (model_of self.old) }
    {
        self.marks.push_reserved(self.places.len());
    }

    // Without the newest mark, which it tells.
    pub(crate) fn unmark(&mut self) -> usize
        requires { 0 < length (marks_of self.old) }
        ensures mark { result ≡ newest (marks_of self.old) }
        ensures model { model_of self.new ≡ without_mark (model_of self.old) }
        ensures within { result ≤ length (entries_of self.new) }
    {
        self.marks.take_last()
    }

    // Without the newest mark, and without the equations that were entered after it.
    pub(crate) fn cut(&mut self)
        requires { 0 < length (marks_of self.old) }
        ensures { model_of self.new ≡ cut_back (model_of self.old) }
    {
        let stood = self.unmark();
        if stood < self.places.len() {
            self.cells.truncate(self.places[stood].left);
            self.places.truncate(stood);
        }
    }
}
