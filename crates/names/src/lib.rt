// The table of names: the bytes of each name once, numbered in order of first appearance.
#![tactic(auto)]

ghost use Rattle.std.specs.Prelude.{◌≡◌, ℕ, ◌<◌, ◌≤◌, vec_len, vec_capacity, slice_index_or};
ghost use Rattle.names.specs.Spans.{words_in, bytes_of};
ghost use Rattle.lexis.specs.declared.token.Span.{Span as SpanOf};

pub mod words;

pub use lexis::token::Span;

// A table has at most so many names, and so many bytes of names.
const NAMES: usize = 256;

const BYTES: usize = 4096;

// There is no room for more names.
#[derive(Clone, Copy, PartialEq, Eq, Debug)]
pub struct NoRoom;

// Its memory is taken once, at the stated limits; so names lie in one buffer, where a map would take memory at each.
#[derive(Drop)]
pub struct Names {
    spans: Vec<Span>,
    bytes: Vec<u8>,
    ghost space: { (256 ≤ vec_capacity spans) × (4096 ≤ vec_capacity bytes) },
    ghost few: { vec_len spans ≤ 256 },
    ghost small: { vec_len bytes ≤ 4096 },
    ghost filled: { bytes_of (words_in bytes.items spans.items) ≡ vec_len bytes },
    ghost inside: { (k : ℕ) (d : SpanOf) → k < vec_len spans → (slice_index_or spans.items k d).end ≤ vec_len bytes },
}
