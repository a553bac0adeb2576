// A list of calls, made one after another.
ghost use Rattle.std.specs.Prelude.{◌≡◌, length, MatchResult};
ghost use Rattle.store.specs.Model.{model_of};
ghost use Rattle.store.specs.Calls.{ended_of};
ghost use Rattle.store.specs.History.{fixed, world, Step, Ran, Replayed};

use crate::Refusal;
use crate::call::{Call, Reply};
use crate::store::Store;
use crate::token::Token;
use clauses::ProgramSource;
use frames::Frame;
use std::alloc::{AllocError, Global};
use terms::Cell;
use terms::signature::Signature;
use unification::Pair;
use verdicts::settings::Settings;

// The token that came back is spent.
fn ended(r: Result<(), (Token, Refusal)>) -> Result<(), Refusal>
    ensures { result ≡ ended_of r }
{
    r.map_err(|(token, refusal)| {
        token.spend();
        refusal
    })
}

// One call, with its reply. The calls of a history are values, so that a contract can speak of every list of them.
fn step<P: ProgramSource, G: Signature>(
    store: &mut Store<P, G>,
    call: Call,
    pairs: &mut [Pair],
    frames: &mut [Frame],
    path: &mut [u16],
    out: &mut [Cell],
) -> Reply
    ensures told { Step (fixed (P.Source.clauses store.old.base.source) (G.Signature.kind store.old.base.signature) store.old.base.settings.limit store.old.base.settings.allowance store.old.base.number (length pairs.old) (length frames.old)) (world (model_of store.old.table) path.old out.old) call.entry result (world (model_of store.new.table) path.new out.new) }
    ensures same { store.new.base ≡ store.old.base }
{
    match call {
        Call::Enter(cells) => Reply::OfEnter(store.enter(cells, pairs, frames)),
        Call::Mark => Reply::OfMark(store.mark().map(|token| token.spend())),
        Call::Keep(slip) => Reply::OfKeep(ended(store.keep(Token { slip }))),
        Call::TakeBack(slip) => Reply::OfTakeBack(ended(store.take_back(Token { slip }))),
        Call::Ask(question) => Reply::OfAsk(store.ask(question, pairs, frames, path)),
        Call::Read(variable) => Reply::OfRead(store.read(variable, pairs, frames, out)),
    }
}

// Makes the calls on a store; the replies go to the slice, in order.
pub fn run<P: ProgramSource, G: Signature>(
    store: &mut Store<P, G>,
    calls: &[Call],
    replies: &mut [Reply],
    pairs: &mut [Pair],
    frames: &mut [Frame],
    path: &mut [u16],
    out: &mut [Cell],
) -> Result<(), Refusal>
    ensures told { Ran (fixed (P.Source.clauses store.old.base.source) (G.Signature.kind store.old.base.signature) store.old.base.settings.limit store.old.base.settings.allowance store.old.base.number (length pairs.old) (length frames.old)) (world (model_of store.old.table) path.old out.old) calls.now replies.old result replies.new (world (model_of store.new.table) path.new out.new) }
    ensures same { store.new.base ≡ store.old.base }
{
    if replies.len() < calls.len() {
        return Err(Refusal::OutputShort);
    }
    // The replies are written by place: a loop over calls and places of replies at once tells too little of what stands in the places in the end.
    for (i, call) in calls.iter().enumerate() {
        replies[i] = step(store, *call, pairs, frames, path, out);
    }
    Ok(())
}

// Opens a store and makes the calls. After each of them the store holds what it promises. Memory is taken when the store is opened, and only then.
pub fn replay<P: ProgramSource + Drop, G: Signature + Drop>(
    heap: Global,
    settings: Settings,
    number: u16,
    source: P,
    signature: G,
    calls: &[Call],
    replies: &mut [Reply],
    pairs: &mut [Pair],
    frames: &mut [Frame],
    path: &mut [u16],
    out: &mut [Cell],
) -> Result<Result<(), Refusal>, AllocError>
    ensures { MatchResult result (λ s. Replayed (fixed (P.Source.clauses source) (G.Signature.kind signature) settings.limit settings.allowance number (length pairs.old) (length frames.old)) calls.now path.old out.old replies.old s replies.new path.new out.new) (λ _. (replies.new ≡ replies.old) × (path.new ≡ path.old) × (out.new ≡ out.old)) }
{
    let mut store = Store::new(heap, settings, number, source, signature)?;
    Ok(run(&mut store, calls, replies, pairs, frames, path, out))
}
