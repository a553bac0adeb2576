// The line that `endorse` prints, made from the bytes that it reads.
#![tactic(auto)]

ghost use Rattle.std.specs.Prelude.{◌≡◌, ℕ, ◌+◌, ◌<◌, ◌≤◌, List, [], length, IfOk, Some, string_bytes, nat_lt};
ghost use Rattle.line.specs.Printed.{told, printed};
ghost use Rattle.line.specs.Reading.{ReadsBook, ReadsText, Replies, RepliesByTree, RepliesWithin};
ghost use Rattle.typing.specs.Worked.{form as kinds_by_form};
ghost use Rattle.book.specs.Meaning.{book_clauses};
ghost use Rattle.frames.specs.Asked.{judged, Bounded, Asked as Put};

use book::question::question_at;
use book::{Book, SealedBook};
use draft::Draft;
use frames::Frame;
use lexis::fault::{Cause, Fault};
use resolution::search::Search;
use resolution::search::ask::{FRAMES, PAIRS, PATH};
use std::alloc::{AllocError, Global};
use std::fmt;
use terms::Cell;
use terms::signature::ByForm;
use unification::Pair;
use verdicts::settings::Settings;
use verdicts::{Answer, Refusal, Verdict};

// At most so many bytes are read, and the tree is cut at the limit and refused past the allowance.
pub const MOST_BYTES: usize = 8192;

const LIMIT: u8 = 32;

const ALLOWANCE: u32 = 100000;

// What comes of a text: an answer to its question; a fault at a place of the text; or a refusal of the question. A fault and a refusal are told in a line
// as an answer is, and only want of memory is passed on as an error: so it is no Result.
#[derive(Clone, Copy, Debug, PartialEq, Eq)]
pub enum Reply {
    Answered(Answer),
    Faulty(Fault),
    Refused(Refusal),
}

// Reads clauses until the question comes, and tells where it does.
fn read_clauses(book: &mut Book, draft: &mut Draft, text: &[u8]) -> Result<usize, Fault>
    ensures { ReadsBook text.now book.old 0 result book.new }
{
    let mut at = 0;
    loop {
        if let Some(place) = question_at(text, at)? {
            return Ok(place);
        }
        at = book.read(draft, text, at)?;
    }
}

// Whether there are more bytes than are read.
fn is_too_long(text: &[u8]) -> bool
    ensures { result ≡ nat_lt 8192 (length text.now) }
{
    text.len() > MOST_BYTES
}

// The book and the question of a text; the question's cells stand in the draft.
fn read_text(mut book: Book, draft: &mut Draft, text: &[u8]) -> Result<SealedBook, Fault>
    ensures { ReadsText text.now book draft.new result }
{
    if is_too_long(text) {
        return Err(Cause::Full.at(MOST_BYTES));
    }
    let place = read_clauses(&mut book, draft, text)?;
    let sealed = book.seal();
    sealed.question(draft, text, place)?;
    Ok(sealed)
}

// Asks a book, with kinds by form.
fn ask(
    heap: Global,
    book: &SealedBook,
    question: &[Cell],
    settings: Settings,
    path: &mut [u16],
) -> Result<Result<Answer, Refusal>, AllocError>
    ensures asked { IfOk result (λ a. Put (judged question.now 12864 512 (length path.old)) (book_clauses book.now) kinds_by_form settings.limit settings.allowance question.now [] path.old path.new a) }
    ensures bounded { IfOk result (λ a. Bounded (judged question.now 12864 512 (length path.old)) settings.allowance a) }
{
    let mut search = Search::new(heap)?;
    let mut pairs = Vec::from_elem(heap, Pair::default(), PAIRS)?;
    let mut frames = Vec::from_elem(heap, Frame::default(), FRAMES)?;
    Ok(search.ask(
        book,
        &ByForm,
        settings,
        question,
        pairs.as_mut_slice(),
        frames.as_mut_slice(),
        path,
    ))
}

// What comes of a text under a step limit and an allowance, or that there was no memory for it. With holds, the path of the shortest chain stands in the slice.
pub fn reply_within(
    heap: Global,
    text: &[u8],
    settings: Settings,
    path: &mut [u16],
) -> Result<Reply, AllocError>
    ensures { IfOk result (λ p. RepliesWithin text.now settings.limit settings.allowance path.old path.new p) }
{
    let book = Book::new(heap)?;
    let mut draft = Draft::new(heap)?;
    let sealed = match read_text(book, &mut draft, text) {
        Ok(sealed) => sealed,
        Err(fault) => return Ok(Reply::Faulty(fault)),
    };
    match ask(heap, &sealed, draft.cells(), settings, path)? {
        Ok(answer) => Ok(Reply::Answered(answer)),
        Err(refusal) => Ok(Reply::Refused(refusal)),
    }
}

// The step limit and the allowance of the program.
fn usual_settings() -> Settings
    ensures { (result.limit ≡ 32) × (result.allowance ≡ 100000) }
{
    let Ok(settings) = Settings::new(LIMIT, ALLOWANCE) else {
        unreachable()
    };
    settings
}

// What the program has to say to a text.
pub fn reply_to(heap: Global, text: &[u8]) -> Result<Reply, AllocError>
    ensures replies { IfOk result (λ p. Replies text.now p) }
    ensures tree { IfOk result (λ p. RepliesByTree text.now p) }
{
    let mut path = [0u16; PATH];
    reply_within(heap, text, usual_settings(), &mut path)
}

// The verdict, the uses or `-`, and the steps; or the refusal's number, with its place where it has one.
impl fmt::Display for Reply {
    ghost output = { λ reply. Some (told reply) };

    fn fmt<W: fmt::Write>(&self, f: &mut fmt::Formatter<W>) -> fmt::Result {
        match self {
            Reply::Answered(Answer { verdict, steps }) => match verdict {
                Verdict::Holds(uses) => write!(f, "holds {uses} {steps}"),
                Verdict::Fails => write!(f, "fails - {steps}"),
                Verdict::Erroneous => write!(f, "erroneous - {steps}"),
                Verdict::Unsettled => write!(f, "unsettled - {steps}"),
            },
            Reply::Faulty(fault) => write!(f, "refused {fault}"),
            Reply::Refused(refusal) => write!(f, "refused {refusal}"),
        }
    }
}

// The line for a reply, with its line end.
pub fn shown(heap: Global, reply: Reply) -> Result<String, AllocError>
    ensures { IfOk result (λ s. string_bytes s ≡ printed reply) }
{
    format!(in heap; "{reply}\n")
}

// The line that is printed for a text, with its line end.
pub fn line_for(heap: Global, text: &[u8]) -> Result<String, AllocError>
    ensures replies { IfOk result (λ s. (p : Reply) × Replies text.now p × (string_bytes s ≡ printed p)) }
    ensures tree { IfOk result (λ s. (p : Reply) × RepliesByTree text.now p × (string_bytes s ≡ printed p)) }
{
    let reply = reply_to(heap, text)?;
    shown(heap, reply)
}
