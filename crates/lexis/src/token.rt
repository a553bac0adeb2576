// Tokens: each is the longest that fits where it begins.
ghost use Rattle.std.specs.Prelude.{◌≡◌, ℕ, ◌+◌, ◌-◌, ◌<◌, ◌≤◌, Bool, length, slice_index};
ghost use Rattle.lexis.specs.Runs.{Tests, is_blank, is_digit, is_hex, is_quoted, is_word, end_of, Between};
ghost use Rattle.lexis.specs.Spelt.{Longest, Only};
ghost use Rattle.lexis.specs.Tokens.{number_at, quoted_at, negative_at, arrow_at, mark_at, shape_at, start_at, token_at, Placed};

use crate::class::Class;
use crate::fault::{Cause, Fault};

// What a token is. `End` stands where only blanks are left of the text.
#[derive(Clone, Copy, PartialEq, Eq, Debug)]
pub enum Kind {
    Name,
    Variable,
    Integer,
    Float,
    Text,
    Open,
    Close,
    Comma,
    Dot,
    Neck,
    Query,
    End,
}

// The bytes from `start` to before `end`.
#[derive(Clone, Copy, PartialEq, Eq, Debug)]
pub struct Span {
    pub start: usize,
    pub end: usize,
}

// A token and the bytes that it takes, from `start` to before `end`.
#[derive(Clone, Copy, PartialEq, Eq, Debug)]
pub struct Token {
    pub kind: Kind,
    pub start: usize,
    pub end: usize,
}

impl Token {
    // Where it stands.
    pub fn span(self) -> Span
        ensures { result ≡ record { start = self.start; end = self.end } }
    {
        Span {
            start: self.start,
            end: self.end,
        }
    }
}

fn is_blank(b: u8) -> bool
    ensures { result ≡ is_blank b }
{
    Class::of(b) == Class::Blank
}

fn is_digit(b: u8) -> bool
    ensures { result ≡ is_digit b }
{
    Class::of(b) == Class::Digit
}

fn is_word(b: u8) -> bool
    ensures { result ≡ is_word b }
{
    matches!(Class::of(b), Class::Digit | Class::Lower | Class::Upper)
}

fn is_hex(b: u8) -> bool
    ensures { result ≡ is_hex b }
{
    matches!(b, b'0'..=b'9' | b'a'..=b'f')
}

fn is_quoted(b: u8) -> bool
    ensures { result ≡ is_quoted b }
{
    matches!(b, b' '..=b'~') && b != b'"'
}

// The place of the first byte from `at` on that does not pass the test.
fn run_end<F: Fn(u8) -> bool>(text: &[u8], at: usize, passes: F) -> usize
    requires within { at ≤ length text.now }
    requires callable { F.IsAlwaysCallable passes }
    ensures end { (test : ℕ → Bool) → Tests (F.post passes) test → result ≡ end_of test text.now at }
    ensures bounds { Between at result (length text.now) }
{
    let rest = &text[at..];
    at + rest.iter().position(|b| !passes(*b)).unwrap_or(rest.len())
}

// The byte at the place, and past the text's end 0, with which no token goes on.
pub(crate) fn byte_at(text: &[u8], at: usize) -> u8
    ensures value { result ≡ slice_index text.now at }
    ensures inside { 0 < result → at < length text.now }
{
    text.get(at).copied().unwrap_or(0)
}

// A place with a byte, where a token may begin.
#[derive(Clone, Copy)]
struct Start<'a> {
    text: &'a [u8],
    at: usize,
    ghost inside: { at < length text.now },
}

impl Start<'_> {
    // Where the bytes behind the first that pass the test end.
    fn run<F: Fn(u8) -> bool>(&self, passes: F) -> usize
        requires callable { F.IsAlwaysCallable passes }
        ensures end { (test : ℕ → Bool) → Tests (F.post passes) test → result ≡ end_of test self.now.text.now (self.now.at + 1) }
    {
        run_end(self.text, self.at + 1, passes)
    }

    // A float is `0f` and eight digits in base 16; any other digits are an integer.
    fn number(&self) -> (Kind, usize)
        ensures value { result ≡ number_at self.now.text.now self.now.at }
    {
        if byte_at(self.text, self.at) == b'0'
            && byte_at(self.text, self.at + 1) == b'f'
            && run_end(self.text, self.at + 2, is_hex) >= self.at + 10
        {
            return (Kind::Float, self.at + 10);
        }
        (Kind::Integer, self.run(is_digit))
    }

    // A string's bytes and its closing quote.
    fn quoted(&self) -> Option<(Kind, usize)>
        ensures value { result ≡ quoted_at self.now.text.now self.now.at }
    {
        let end = self.run(is_quoted);
        if byte_at(self.text, end) == b'"' {
            Some((Kind::Text, end + 1))
        } else {
            None
        }
    }

    // Digits directly after a minus sign.
    fn negative(&self) -> Option<(Kind, usize)>
        ensures value { result ≡ negative_at self.now.text.now self.now.at }
    {
        let end = self.run(is_digit);
        (end > self.at + 1).then_some((Kind::Integer, end))
    }

    // A mark that is a token only with a `-` behind it.
    fn arrow(&self, kind: Kind) -> Option<(Kind, usize)>
        ensures value { result ≡ arrow_at self.now.text.now self.now.at kind }
    {
        (byte_at(self.text, self.at + 1) == b'-').then_some((kind, self.at + 2))
    }

    fn mark(&self) -> Option<(Kind, usize)>
        ensures value { result ≡ mark_at self.now.text.now self.now.at }
    {
        match self.text[self.at] {
            b'(' => Some((Kind::Open, self.at + 1)),
            b')' => Some((Kind::Close, self.at + 1)),
            b',' => Some((Kind::Comma, self.at + 1)),
            b'.' => Some((Kind::Dot, self.at + 1)),
            b':' => self.arrow(Kind::Neck),
            b'?' => self.arrow(Kind::Query),
            b'-' => self.negative(),
            b'"' => self.quoted(),
            _ => None,
        }
    }

    // The kind and the end of the token that begins at a place with no blank.
    fn shape(&self) -> Option<(Kind, usize)>
        ensures value { result ≡ shape_at self.now.text.now self.now.at }
    {
        match Class::of(self.text[self.at]) {
            Class::Digit => Some(self.number()),
            Class::Lower => Some((Kind::Name, self.run(is_word))),
            Class::Upper => Some((Kind::Variable, self.run(is_word))),
            Class::Mark => self.mark(),
            Class::Other | Class::Blank | Class::Visible => None,
        }
    }
}

// The place of the first byte from a place on that is no blank. A place past the text counts as its end.
pub fn skip_blanks(text: &[u8], at: usize) -> usize
    ensures value { result ≡ start_at text.now at }
    ensures bounds { (at ≤ length text.now → at ≤ result) × (result ≤ length text.now) }
{
    run_end(text, at.min(text.len()), is_blank)
}

// A token after blanks, step by step.
fn scan(text: &[u8], at: usize) -> Result<Token, Fault>
    ensures value { result ≡ token_at text.now at }
{
    let start = skip_blanks(text, at);
    if start == text.len() {
        return Ok(Token {
            kind: Kind::End,
            start,
            end: start,
        });
    }
    let (kind, end) = Start { text, at: start }
        .shape()
        .ok_or(Cause::Grammar.at(start))?;
    Ok(Token { kind, start, end })
}

// The next token from a place on, after blanks: the longest that fits there, and the only one that does.
pub fn next_token(text: &[u8], at: usize) -> Result<Token, Fault>
    ensures value { result ≡ token_at text.now at }
    ensures bounds { Placed (length text.now) at result }
    ensures longest { Longest text.now at result }
    ensures only { Only text.now at result }
{
    scan(text, at)
}
