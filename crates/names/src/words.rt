// Looking names up, and adding new ones.
ghost use Rattle.std.specs.Prelude.{◌≡◌, ℕ, ◌+◌, ◌-◌, ◌<◌, ◌≤◌, true, false, List, [], ◌∷◌, ◌++◌, length, IfOk, IfSome, MatchResult, vec_len, vec_capacity, if◌then◌else◌, nat_le};
ghost use Rattle.names.specs.Places.{found_in};
ghost use Rattle.names.specs.Spans.{words_in, bytes_of};
ghost use Rattle.names.specs.Words.{names_of, names_fit};

use crate::{BYTES, NAMES, Names, NoRoom, Span};
use lexis::worth::word;
use std::alloc::{AllocError, Global};

// The place of the first of the spans whose word is the same.
fn place_in(bytes: &[u8], spans: &[Span], sought: &[u8]) -> Option<usize>
    ensures value { result ≡ found_in sought.now (words_in bytes.now spans.now) }
    ensures bound { IfSome result (λ n. n < length spans.now) }
{
    spans.iter().position(|s| word(bytes, *s) == sought)
}

// What is left of so much room after the words of a text at the spans; none at the first word that it does not hold, so that no more are looked at.
fn room_after(text: &[u8], spans: &[Span], room: usize) -> Option<usize>
    ensures { result ≡ (if nat_le (bytes_of (words_in text.now spans.now)) room then Some (room - bytes_of (words_in text.now spans.now)) else None) }
{
    let mut left = room;
    for s in spans {
        left = left.checked_sub(word(text, *s).len())?;
    }
    Some(left)
}

impl Names {
    pub fn new(heap: Global) -> Result<Names, AllocError>
        ensures { IfOk result (λ n. names_of n ≡ []) }
    {
        let spans = Vec::with_capacity(heap, NAMES)?;
        let bytes = Vec::with_capacity(heap, BYTES)?;
        Ok(Names { spans, bytes })
    }

    // The place of a word among the names and then the words of a text at the spans.
    pub fn place(&self, text: &[u8], spans: &[Span], sought: &[u8]) -> Option<usize>
        ensures value { result ≡ found_in sought.now (names_of self.now ++ words_in text.now spans.now) }
        ensures bound { IfSome result (λ n. n < vec_len self.now.spans + length spans.now) }
    {
        match place_in(self.bytes.as_slice(), self.spans.as_slice(), sought) {
            Some(n) => Some(n),
            None => Some(self.spans.len() + place_in(text, spans, sought)?),
        }
    }

    // Whether the words of a text at the spans have room as new names.
    pub fn have_room(&self, text: &[u8], spans: &[Span]) -> bool
        ensures value { result ≡ names_fit (names_of self.now ++ words_in text.now spans.now) }
        ensures room { result ≡ true → (vec_len self.now.spans + length spans.now ≤ 256) × (vec_len self.now.bytes + bytes_of (words_in text.now spans.now) ≤ 4096) }
    {
        spans.len() <= NAMES - self.spans.len()
            && room_after(text, spans, BYTES - self.bytes.len()).is_some()
    }

    // One name more, where there is room.
    fn add(&mut self, name: &[u8])
        requires few { vec_len self.old.spans < 256 }
        requires small { vec_len self.old.bytes + length name.now ≤ 4096 }
        ensures names { names_of self.new ≡ names_of self.old ++ name.now ∷ [] }
        ensures spans { vec_len self.new.spans ≡ vec_len self.old.spans + 1 }
        ensures bytes { vec_len self.new.bytes ≡ vec_len self.old.bytes + length name.now }
    {
        let start = self.bytes.len();
        let Ok(()) = self.bytes.extend_from_slice(name) else {
            unreachable()
        };
        self.spans.push_reserved(Span {
            start,
            end: self.bytes.len(),
        });
    }

    // The words of a text at the spans, as new names.
    fn add_all(&mut self, text: &[u8], spans: &[Span])
        requires few { vec_len self.old.spans + length spans.now ≤ 256 }
        requires small { vec_len self.old.bytes + bytes_of (words_in text.now spans.now) ≤ 4096 }
        ensures { names_of self.new ≡ names_of self.old ++ words_in text.now spans.now }
    {
        for s in spans {
            self.add(word(text, *s));
        }
    }

    // Adds the words of a text at the spans as new names, or tells that they have no room and changes nothing.
    pub fn take_in(&mut self, text: &[u8], spans: &[Span]) -> Result<(), NoRoom>
        ensures { MatchResult result (λ _. (names_fit (names_of self.old ++ words_in text.now spans.now) ≡ true) × (names_of self.new ≡ names_of self.old ++ words_in text.now spans.now)) (λ _. (names_fit (names_of self.old ++ words_in text.now spans.now) ≡ false) × (self.new ≡ self.old)) }
    {
        if !self.have_room(text, spans) {
            return Err(NoRoom);
        }
        self.add_all(text, spans);
        Ok(())
    }

    #[tactic(auto, using(crate::proofs::Tables::length_words))]
    pub fn len(&self) -> usize
        ensures value { result ≡ length (names_of self.now) }
        ensures spans { result ≡ vec_len self.now.spans }
        ensures few { result ≤ 256 }
    {
        self.spans.len()
    }
}
