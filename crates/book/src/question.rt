// Where the question begins, and what it says to a book.
ghost use Rattle.std.specs.Prelude.{◌≡◌, MatchResult};
ghost use Rattle.lexis.specs.Tokens.{token_at};
ghost use Rattle.book.specs.Query.{query_at};
ghost use Rattle.book.specs.Reading.{Asked};
ghost use Rattle.draft.specs.Sketch.{QuestionRefused};

use crate::SealedBook;
use draft::Draft;
use lexis::fault::Fault;
use lexis::token::{Kind, next_token};

// The place of the `?-`, where that is the next token.
pub fn question_at(text: &[u8], at: usize) -> Result<Option<usize>, Fault>
    ensures { result ≡ query_at (token_at text.now at) }
{
    let token = next_token(text, at)?;
    Ok(matches!(token.kind, Kind::Query).then_some(token.start))
}

impl SealedBook {
    // Reads the question, which ends the text, into the draft. A name that the book does not have takes the next number after the book's.
    pub fn question(&self, draft: &mut Draft, text: &[u8], at: usize) -> Result<(), Fault>
        ensures { MatchResult result (λ _. Asked self.now.book.names text.now at draft.new) (λ e. QuestionRefused text.now at e) }
    {
        draft.question(text, at)?;
        draft.number(&self.book.names, text);
        Ok(())
    }
}
