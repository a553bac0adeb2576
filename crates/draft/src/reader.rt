// Reading one clause or question, token by token. Each token is judged for its place in the grammar, and then for its size, before the next is looked at.
ghost use Rattle.std.specs.Prelude.{◌≡◌, ℕ, ◌+◌, ◌-◌, ◌<◌, ◌≤◌, min, Bool, true, false, cond, List, [], ◌∷◌, ◌++◌, length, IfOk, Ok, Err, vec_len, vec_capacity, MatchResult, OnOk, ◌≢◌, slice_index_or, slice_set};
ghost use Rattle.lexis.specs.Tokens.{start_at};
ghost use Rattle.lexis.specs.declared.token.Kind.TheVariants.{End, Variable};
ghost use Rattle.clauses.specs.Clauses.{vars_after};
ghost use Rattle.draft.specs.Drafts.{cell_of, span_of, makes_cell};
ghost use Rattle.draft.specs.Sketch.{sketch_of, blank, innermost, too_many, argued, goaled, counted_as, celled, valued, added, opened_in, closed, entered, taken, Reads, ReadsClause, Outcome, GoalsRead, GoalsRefused, QuestionRead, QuestionRefused, variable_number, same_variable, is_variable, no_cell, recelled};
ghost use Rattle.draft.specs.Numbering.{is_named, numbered, noted, numbered_all, words_after, known, no_span};
ghost use Rattle.names.specs.Places.{place_of, with_word};
ghost use Rattle.names.specs.Spans.{word_at};
ghost use Rattle.names.specs.Words.{names_of};
ghost use Rattle.draft.specs.Spelled.{Spelled};

use crate::grammar::{Due, follow};
use crate::{ARGUMENTS, Bracket, CELLS, DEPTH, Draft, GOALS};
use lexis::fault::{Cause, Fault};
use lexis::token::{Kind, Span, Token, next_token, skip_blanks};
use lexis::worth::{word, worth};
use names::Names;
use std::alloc::{AllocError, Global};
use terms::Cell;

// What is read: a clause, which is refused at once where it is over a limit; or a question, whose cells and goals are judged at its end.
#[derive(Clone, Copy, PartialEq, Eq, Debug)]
pub enum Form {
    Clause,
    Question,
}

// The cell that a token makes. A name is an atom where an argument is due, and a predicate elsewhere; its number is given later.
fn cell_of(kind: Kind, due: Due, value: u32) -> Cell
    ensures { result ≡ cell_of kind due value }
{
    match (kind, due) {
        (Kind::Variable, _) => Cell::variable(value),
        (Kind::Integer, _) => Cell::integer(value),
        (Kind::Float, _) => Cell::float(value),
        (Kind::Text, _) => Cell::string(value),
        (_, Due::Argument) => Cell::atom(value),
        _ => Cell::symbol(value, 0),
    }
}

// The bytes of a token's word: those of a string stand between its quotes.
fn span_of(token: Token) -> Span
    ensures { result ≡ span_of token }
{
    match token.kind {
        Kind::Text => Span {
            start: token.start.saturating_add(1),
            end: token.end.saturating_sub(1),
        },
        _ => token.span(),
    }
}

fn makes_cell(kind: Kind) -> bool
    ensures { result ≡ makes_cell kind }
{
    matches!(
        kind,
        Kind::Name | Kind::Variable | Kind::Integer | Kind::Float | Kind::Text
    )
}

// How many variables there are with one cell more.
fn counted(vars: u32, cell: Cell) -> u32
    requires { vars < 32 }
    ensures { result ≡ vars_after vars cell }
{
    if cell.tag == 0 && cell.value >= vars {
        vars + 1
    } else {
        vars
    }
}

fn is_variable(text: &[u8], sought: &[u8], cell: Cell, span: Span) -> bool
    ensures value { result ≡ is_variable text.now sought.now cell span }
    ensures tag { result ≡ true → cell.tag ≡ 0 }
{
    cell.tag == 0 && word(text, span) == sought
}

// Whether the cell has a name or a string: a symbol, an atom or a string constant.
fn is_named(cell: Cell) -> bool
    ensures { result ≡ is_named cell }
{
    cell.tag == 2 || cell.tag == 1 && cell.form >= 2
}

impl Draft {
    // Memory is taken here and nowhere later.
    pub fn new(heap: Global) -> Result<Draft, AllocError>
        ensures { IfOk result (λ d. d.cells.items ≡ []) }
    {
        let cells = Vec::with_capacity(heap, CELLS)?;
        let spans = Vec::with_capacity(heap, CELLS)?;
        let fresh = Vec::with_capacity(heap, CELLS)?;
        let brackets = Vec::with_capacity(heap, DEPTH)?;
        Ok(Draft {
            cells,
            spans,
            fresh,
            brackets,
            start: 0,
            vars: 0,
            goals: 0,
            body: false,
            over: false,
        })
    }

    // The cells that were read last.
    pub fn cells(&self) -> &[Cell]
        ensures { result.now ≡ self.now.cells.items }
    {
        self.cells.as_slice()
    }

    // The spans of the words that are not among the names, each once, in order.
    pub fn fresh(&self) -> &[Span]
        ensures { result.now ≡ self.now.fresh.items }
    {
        self.fresh.as_slice()
    }

    // Where the clause or question begins.
    pub fn start(&self) -> usize
        ensures { result ≡ self.now.start }
    {
        self.start
    }

    // Nothing is read yet of the clause or question that begins at the place.
    fn begin(&mut self, start: usize, body: bool)
        ensures { sketch_of self.new ≡ blank start body }
    {
        self.cells.clear();
        self.spans.clear();
        self.fresh.clear();
        self.brackets.clear();
        self.start = start;
        self.vars = 0;
        self.goals = 0;
        self.body = body;
        self.over = false;
    }

    // The number of the first variable with the same word, or the next number.
    fn same_variable(&self, text: &[u8], sought: &[u8]) -> u32
        ensures value { result ≡ same_variable text.now sought.now self.now.cells.items self.now.spans.items self.now.vars }
        ensures low { result ≤ self.now.vars }
    {
        self.cells
            .iter()
            .zip(self.spans.iter())
            .find(|(c, s)| is_variable(text, sought, **c, **s))
            .map_or(self.vars, |(c, _)| c.value)
    }

    // The number of a variable: that of the same word before, or the next one. A lone `_` is new each time.
    fn variable(&self, text: &[u8], sought: &[u8]) -> u32
        ensures value { result ≡ variable_number text.now sought.now (sketch_of self.now) }
        ensures low { result ≤ self.now.vars }
    {
        if sought == b"_".as_slice() {
            return self.vars;
        }
        self.same_variable(text, sought)
    }

    // How many arguments have begun inside the innermost bracket.
    fn arguments(&self) -> u8
        ensures { result ≡ (innermost (self.now.brackets.items)).args }
    {
        self.brackets.last().map_or(0, |b| b.args)
    }

    // Whether one cell more is over a limit that is judged at once.
    fn too_many(&self, form: Form, due: Due) -> bool
        ensures { result ≡ too_many (sketch_of self.now) form due }
    {
        match (form, due) {
            (Form::Clause, Due::Argument) => self.cells.len() >= CELLS
                || self.arguments() >= ARGUMENTS,
            (Form::Clause, Due::Goal) => self.cells.len() >= CELLS || self.goals >= GOALS,
            (Form::Clause, _) => self.cells.len() >= CELLS,
            (Form::Question, Due::Argument) => self.arguments() >= ARGUMENTS,
            (Form::Question, _) => false,
        }
    }

    // An argument begins: the innermost bracket counts it, and the cell before that bracket has one argument more.
    fn count_argument(&mut self)
        ensures { sketch_of self.new ≡ argued (sketch_of self.old) }
    {
        let Some(bracket) = self.brackets.last_mut() else {
            return;
        };
        bracket.args = bracket.args.min(ARGUMENTS - 1) + 1;
        let Bracket { cell, args } = *bracket;
        if let Some(cell) = self.cells.get_mut(cell) {
            cell.arity = args;
        }
    }

    fn count_goal(&mut self)
        ensures { sketch_of self.new ≡ goaled (sketch_of self.old) }
    {
        if self.goals >= GOALS {
            self.over = true;
        } else {
            self.goals += 1;
        }
    }

    fn count(&mut self, due: Due)
        ensures { sketch_of self.new ≡ counted_as due (sketch_of self.old) }
    {
        match due {
            Due::Argument => self.count_argument(),
            Due::Goal | Due::GoalOrDot => self.count_goal(),
            _ => {}
        }
    }

    // One cell more, with its word; a variable may have the next number.
    fn push(&mut self, cell: Cell, span: Span)
        requires low { cell.tag ≡ 0 → cell.value ≤ self.old.vars }
        requires slim { cell.arity ≤ 8 }
        ensures { sketch_of self.new ≡ celled cell span (sketch_of self.old) }
    {
        if self.cells.len() >= CELLS {
            self.over = true;
            return;
        }
        self.vars = counted(self.vars, cell);
        self.cells.push_reserved(cell);
        self.spans.push_reserved(span);
    }

    // A token that makes a cell: an argument, a goal, or the head.
    fn add(&mut self, text: &[u8], token: Token, due: Due, value: u32)
        ensures { sketch_of self.new ≡ added text.now token due value (sketch_of self.old) }
    {
        self.count(due);
        let span = span_of(token);
        let n = match token.kind {
            Kind::Variable => self.variable(text, word(text, span)),
            _ => value,
        };
        self.push(cell_of(token.kind, due, n), span);
    }

    // A bracket opens behind a name, which thereby is a function, or a predicate with arguments. Only a question can nest deeper than there is room.
    fn open_bracket(&mut self) -> Result<(), Fault>
        ensures { MatchResult result (λ _. opened_in (sketch_of self.old) ≡ Ok (sketch_of self.new)) (λ e. opened_in (sketch_of self.old) ≡ Err e) }
    {
        if self.brackets.len() >= DEPTH {
            return Err(Cause::Question.at(self.start));
        }
        let cell = self.cells.len().saturating_sub(1);
        self.brackets.push_reserved(Bracket { cell, args: 0 });
        if let Some(name) = self.cells.last_mut() {
            *name = Cell::symbol(name.value, name.arity);
        }
        Ok(())
    }

    fn close_bracket(&mut self)
        ensures { sketch_of self.new ≡ closed (sketch_of self.old) }
    {
        let _ = self.brackets.pop();
    }

    // What a token that fits the grammar and is not too large adds to the draft.
    #[tactic(auto, unfolding(crate::specs::Sketch::entered))]
    fn enter(&mut self, text: &[u8], token: Token, due: Due, value: u32) -> Result<(), Fault>
        ensures { MatchResult result (λ _. entered text.now token due value (sketch_of self.old) ≡ Ok (sketch_of self.new)) (λ e. entered text.now token due value (sketch_of self.old) ≡ Err e) }
    {
        match token.kind {
            Kind::Open => self.open_bracket()?,
            Kind::Close => self.close_bracket(),
            Kind::Neck => self.body = true,
            Kind::Comma | Kind::Dot | Kind::Query | Kind::End => {}
            _ => self.add(text, token, due, value),
        }
        Ok(())
    }

    // Judges the token for its place in the grammar, and then for its size; says what is due next.
    #[tactic(auto, unfolding(crate::specs::Sketch::taken))]
    fn take(&mut self, text: &[u8], token: Token, due: Due, form: Form) -> Result<Due, Fault>
        ensures taken { MatchResult result (λ d. taken text.now form due (sketch_of self.old) token ≡ Ok (d, sketch_of self.new)) (λ e. taken text.now form due (sketch_of self.old) token ≡ Err e) }
        ensures more { OnOk result (token.kind ≢ End) }
    {
        let nested = !self.brackets.is_empty();
        let misfit = Cause::Grammar.at(token.start);
        let next = follow(due, token.kind, nested, self.body).ok_or(misfit)?;
        let value = worth(text, token)?;
        if makes_cell(token.kind) && self.too_many(form, due) {
            return Err(Cause::Size.at(token.start));
        }
        self.enter(text, token, due, value)?;
        Ok(next)
    }

    // Reads to the dot, and tells the place after it.
    fn read(&mut self, text: &[u8], at: usize, first: Due, form: Form) -> Result<usize, Fault>
        ensures reads { Outcome (Reads text.now form first (sketch_of self.old) (min at (length text.now))) (sketch_of self.new) result }
        ensures bounds { IfOk result (λ e. (at ≤ length text.now → at < e) × (e ≤ length text.now)) }
    {
        let mut due = first;
        let mut place = at.min(text.len());
        loop {
            let token = next_token(text, place)?;
            due = self.take(text, token, due, form)?;
            place = token.end;
            if due == Due::Nothing {
                return Ok(place);
            }
        }
    }

    // The number of a word: its place among the book's names and then the new words, which it joins where it is in neither.
    fn symbol(&mut self, names: &Names, text: &[u8], span: Span) -> u32
        requires { vec_len self.old.fresh < 32 }
        ensures value { result ≡ place_of (word_at text.now span) (known names.now text.now self.old) }
        ensures words { known names.now text.now self.new ≡ with_word (word_at text.now span) (known names.now text.now self.old) }
        ensures kept { sketch_of self.new ≡ sketch_of self.old }
        ensures cells { self.new.cells ≡ self.old.cells }
        ensures fresh { vec_len self.new.fresh ≤ vec_len self.old.fresh + 1 }
    {
        if let Some(n) = names.place(text, self.fresh.as_slice(), word(text, span)) {
            return n as u32;
        }
        let n = names.len() + self.fresh.len();
        self.fresh.push_reserved(span);
        n as u32
    }

    // Gives the cell its number, where it has a name or a string.
    fn number_cell(&mut self, names: &Names, text: &[u8], i: usize)
        requires cell { i < vec_len self.old.cells }
        requires room { vec_len self.old.fresh < 32 }
        ensures words { known names.now text.now self.new ≡ noted (word_at text.now (slice_index_or self.old.spans.items i no_span)) (known names.now text.now self.old) (slice_index_or self.old.cells.items i no_cell) }
        ensures sketch { sketch_of self.new ≡ recelled (slice_set self.old.cells.items i (numbered (word_at text.now (slice_index_or self.old.spans.items i no_span)) (known names.now text.now self.old) (slice_index_or self.old.cells.items i no_cell))) (sketch_of self.old) }
        ensures cells { vec_len self.new.cells ≡ vec_len self.old.cells }
        ensures fresh { vec_len self.new.fresh ≤ vec_len self.old.fresh + 1 }
    {
        let cell = self.cells[i];
        if is_named(cell) {
            let span = self.spans[i];
            let value = self.symbol(names, text, span);
            self.cells[i] = Cell { value, ..cell };
        }
    }

    // Gives each name and string its number.
    pub fn number(&mut self, names: &Names, text: &[u8])
        ensures cells { self.new.cells.items ≡ numbered_all text.now (names_of names.now) self.old.cells.items self.old.spans.items }
        ensures words { known names.now text.now self.new ≡ words_after text.now (names_of names.now) self.old.cells.items self.old.spans.items }
        ensures start { self.new.start ≡ self.old.start }
        ensures len { vec_len self.new.cells ≡ vec_len self.old.cells }
    {
        self.fresh.clear();
        // By the index, which reaches a cell and its span: of cells that are changed inside a `zip` a proof knows nothing afterwards.
        for i in 0..self.cells.len() {
            self.number_cell(names, text, i);
        }
    }

    // Reads one clause, a head and at most 8 body goals, and tells the place after its dot.
    pub fn clause(&mut self, text: &[u8], at: usize) -> Result<usize, Fault>
        ensures reads { Outcome (ReadsClause text.now at) (sketch_of self.new) result }
        ensures bounds { IfOk result (λ e. (at ≤ length text.now → at < e) × (e ≤ length text.now)) }
        ensures some { OnOk result (0 < length self.new.cells.items) }
        ensures start { OnOk result (self.new.start ≡ start_at text.now at) }
        ensures spelled { OnOk result (Spelled 1 self.new.cells.items) }
    {
        self.begin(skip_blanks(text, at), false);
        self.read(text, at, Due::Head, Form::Clause)
    }

    // Reads the goals of a question to its dot, after which the text may have only blanks.
    fn goals(&mut self, text: &[u8], query: Token) -> Result<(), Fault>
        ensures { MatchResult result (λ _. GoalsRead text.now query (sketch_of self.new)) (λ e. GoalsRefused text.now query e) }
    {
        self.begin(query.start, true);
        let end = self.read(text, query.end, Due::GoalOrDot, Form::Question)?;
        let last = next_token(text, end)?;
        if last.kind != Kind::End {
            return Err(Cause::Grammar.at(last.start));
        }
        if self.over {
            return Err(Cause::Question.at(query.start));
        }
        Ok(())
    }

    // Reads a question, which ends the text.
    pub fn question(&mut self, text: &[u8], at: usize) -> Result<(), Fault>
        ensures { MatchResult result (λ _. QuestionRead text.now at (sketch_of self.new)) (λ e. QuestionRefused text.now at e) }
    {
        let token = next_token(text, at)?;
        if token.kind != Kind::Query {
            return Err(Cause::Grammar.at(token.start));
        }
        self.goals(text, token)
    }
}
