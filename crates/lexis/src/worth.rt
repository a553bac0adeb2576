// What a token is worth: the bits of a number; and which tokens are too large. A token is judged so only where it fits the grammar.
ghost use Rattle.std.specs.Prelude.{◌≡◌, ℕ, ◌+◌, ◌-◌, ◌*◌, ◌<◌, ◌≤◌, min, length};
ghost use Rattle.lexis.specs.Numbers.{Numeral};
ghost use Rattle.lexis.specs.Worth.{word_at, word_of, decimal, integer_of, hex_of, hex_at, float_of, value_of, worth_of, positive, negated};

use crate::fault::{Cause, Fault};
use crate::token::{Kind, Span, Token, byte_at};

// A name has at most so many bytes, and a string as many between its quotes.
const LONGEST: usize = 31;

// The bit of the sign.
const SIGN: u32 = 1 << 31;

// The bytes at a span, so far as the text has them.
pub fn word(text: &[u8], span: Span) -> &[u8]
    ensures { result.now ≡ word_at text.now span }
{
    let end = span.end.min(text.len());
    let start = span.start.min(end);
    &text[start..end]
}

// The number that digits write, or the largest of 32 bits where it is larger.
fn magnitude(digits: &[u8]) -> u32
    ensures { result ≡ min (decimal digits.now) 4294967295 }
{
    digits.iter().fold(0u32, |n, b| {
        n.saturating_mul(10)
            .saturating_add(b.saturating_sub(b'0') as u32)
    })
}

fn above_zero(digits: &[u8]) -> Option<u32>
    ensures { result ≡ positive (decimal digits.now) }
{
    let n = magnitude(digits);
    (n < SIGN).then_some(n)
}

fn below_zero(digits: &[u8]) -> Option<u32>
    ensures { result ≡ negated (decimal digits.now) }
{
    let n = magnitude(digits);
    (n <= SIGN).then_some(n.wrapping_neg())
}

// An integer's bits in two's complement, or none where it is outside the 32-bit signed range.
fn integer(word: &[u8]) -> Option<u32>
    ensures { result ≡ integer_of word.now }
{
    match word.strip_prefix(b"-") {
        Some(digits) => below_zero(digits),
        None => above_zero(word),
    }
}

fn hex(b: u8) -> u32
    ensures value { result ≡ hex_of b }
    ensures bound { result ≤ 15 }
{
    let d = if b <= b'9' {
        b.saturating_sub(b'0')
    } else {
        b.saturating_sub(b'a' - 10)
    };
    d.min(15) as u32
}

// Four digits by their places. Written out, each sum fits 32 bits by what a digit is; a fold over the digits could only wrap at each step.
fn hex_at(word: &[u8], at: usize) -> u32
    requires { at ≤ 6 }
    ensures value { result ≡ hex_at word.now at }
    ensures bound { result ≤ 65535 }
{
    hex(byte_at(word, at)) * 4096
        + hex(byte_at(word, at + 1)) * 256
        + hex(byte_at(word, at + 2)) * 16
        + hex(byte_at(word, at + 3))
}

fn float(word: &[u8]) -> u32
    ensures { result ≡ float_of word.now }
{
    hex_at(word, 2) * 65536 + hex_at(word, 6)
}

fn value(kind: Kind, word: &[u8]) -> Option<u32>
    ensures { result ≡ value_of kind word.now }
{
    match kind {
        Kind::Name => (word.len() <= LONGEST).then_some(0),
        Kind::Text => (word.len() <= LONGEST + 2).then_some(0),
        Kind::Integer => integer(word),
        Kind::Float => Some(float(word)),
        _ => Some(0),
    }
}

// Too large a token is a fault at its start.
fn judge(text: &[u8], token: Token) -> Result<u32, Fault>
    ensures { result ≡ worth_of text.now token }
{
    value(token.kind, word(text, token.span())).ok_or(Cause::Size.at(token.start))
}

// A number's bits, 0 for any other token, or the fault that the token is too large. The bits are what the digits write by their places.
pub fn worth(text: &[u8], token: Token) -> Result<u32, Fault>
    ensures value { result ≡ worth_of text.now token }
    ensures numeral { Numeral token.kind (word_of text.now token.start token.end) token.start result }
{
    judge(text, token)
}
