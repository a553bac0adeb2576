// Prints the replies of a store to lists of calls, a line for each: what was called, and the number that tells how it came out. An outcome is 0 solved,
// 1 false, 2 wrong; a mark tells its depth, an ending 0, a question the uses of a path and 100 and more without one, a reading its cells; a refusal is its number after `refused`.
#![tactic(auto)]

ghost use Rattle.std.specs.Prelude.{◌≡◌, List, Some, IfOk, string_bytes};
ghost use Rattle.store.specs.declared.call.Call.{Call as CallOf};
ghost use Rattle.store_cases.specs.Texts.{outcome_number, verdict_number, reply_text, replies_text};
ghost use Rattle.store_cases.specs.Told.{Told};

use frames::Frame;
use records::Records;
use records::fact::Symbols;
use std::alloc::{AllocError, Global};
use std::fmt;
use store::call::{Call, Reply};
use store::replay::replay;
use store::token::Slip;
use store::{FRAMES, PAIRS};
use terms::Cell;
use terms::signature::ByForm;
use unification::{Outcome, Pair};
use verdicts::Verdict;
use verdicts::settings::Settings;

// The numbers of the expected output, here and below.
fn outcome_code(o: Outcome) -> u32
    ensures { result ≡ outcome_number o }
{
    match o {
        Outcome::Solved => 0,
        Outcome::False => 1,
        Outcome::Wrong => 2,
    }
}

fn verdict_code(v: Verdict) -> u32
    ensures { result ≡ verdict_number v }
{
    match v {
        Verdict::Holds(n) => n as u32,
        Verdict::Fails => 100,
        Verdict::Erroneous => 101,
        Verdict::Unsettled => 102,
    }
}

// A reply, as it is told.
#[derive(Drop)]
struct Shown(Reply);

impl fmt::Display for Shown {
    ghost output = { λ shown. Some (reply_text shown.0) };

    fn fmt<W: fmt::Write>(&self, f: &mut fmt::Formatter<W>) -> fmt::Result {
        match self.0 {
            Reply::OfEnter(Ok(o)) => write!(f, "enter {}", outcome_code(o)),
            Reply::OfMark(Ok(slip)) => write!(f, "mark {}", slip.depth),
            Reply::OfKeep(Ok(())) | Reply::OfTakeBack(Ok(())) => f.write_str("ended 0"),
            Reply::OfAsk(Ok(answer)) => write!(f, "ask {}", verdict_code(answer.verdict)),
            Reply::OfRead(Ok(n)) => write!(f, "read {n}"),
            Reply::OfEnter(Err(e))
            | Reply::OfMark(Err(e))
            | Reply::OfKeep(Err(e))
            | Reply::OfTakeBack(Err(e))
            | Reply::OfAsk(Err(e))
            | Reply::OfRead(Err(e)) => write!(f, "refused {e}"),
        }
    }
}

// The replies, each as it is told and with what parts it from the next.
fn listed(heap: Global, replies: &[Reply]) -> Result<String, AllocError>
    ensures { IfOk result (λ s. string_bytes s ≡ replies_text replies.now) }
{
    let mut text = String::new(heap);
    for reply in replies {
        let line = format!(in heap; "{}; ", Shown(*reply))?;
        text.push_str(line.as_str())?;
    }
    Ok(text)
}

// The replies to a list of at most sixteen calls, on a store numbered 3 over one record, card 7 of lot 9, under the symbol 1.
fn told(heap: Global, calls: &[Call]) -> Result<String, AllocError>
    ensures { IfOk result (λ s. Told calls.now (string_bytes s)) }
{
    let Ok(settings) = Settings::new(32, 1000) else {
        unreachable()
    };
    let symbols = Symbols {
        lot: 1,
        stage: 2,
        cycles: 3,
    };
    let records = Records::new(heap, &[3, 7, 0, 9, 0], symbols)?;
    let mut pairs = Vec::from_elem(heap, Pair::default(), PAIRS)?;
    let mut frames = Vec::from_elem(heap, Frame::default(), FRAMES)?;
    let mut replies = [Reply::OfKeep(Ok(())); 16];
    let mut path: [u16; 32] = [0; 32];
    let mut out = [Cell::variable(0); 3];
    let _ = replay(
        heap,
        settings,
        3,
        records,
        ByForm,
        calls,
        &mut replies,
        pairs.as_mut_slice(),
        frames.as_mut_slice(),
        &mut path,
        &mut out,
    )?;
    listed(heap, &replies)
}

// Equations, a mark and what taking it back leaves. The cells come from the caller, so that all are borrowed for one lifetime.
fn taken_back<'a>(
    heap: Global,
    first: &'a [Cell],
    second: &'a [Cell],
    differ: &'a [Cell],
    clash: &'a [Cell],
    nothing: &'a [Cell],
) -> Result<String, AllocError>
    ensures { IfOk result (λ s. (calls : List CallOf) × Told calls (string_bytes s)) }
{
    let slip = Slip { store: 3, depth: 1 };
    let calls = [
        Call::Enter(first),
        Call::Mark,
        Call::Enter(second),
        Call::Read(0),
        Call::Enter(differ),
        Call::Read(0),
        Call::TakeBack(slip),
        Call::Read(0),
        Call::Keep(slip),
        Call::Enter(clash),
        Call::Ask(nothing),
    ];
    told(heap, &calls)
}

// Questions under an equation, and refusals.
fn asked<'a>(
    heap: Global,
    card: &'a [Cell],
    lot: &'a [Cell],
    other: &'a [Cell],
    above: &'a [Cell],
    large: &'a [Cell],
) -> Result<String, AllocError>
    ensures { IfOk result (λ s. (calls : List CallOf) × Told calls (string_bytes s)) }
{
    let calls = [
        Call::Enter(card),
        Call::Ask(lot),
        Call::Ask(other),
        Call::Read(32),
        Call::Enter(above),
        Call::Enter(large),
        Call::Keep(Slip { store: 3, depth: 1 }),
        Call::Ask(above),
    ];
    told(heap, &calls)
}

fn main(rt: HostRuntime) -> anyhow::Result<()> {
    let first = [Cell::variable(0), Cell::symbol(0, 1), Cell::variable(1)];
    let second = [Cell::variable(1), Cell::integer(5)];
    let differ = [Cell::integer(1), Cell::integer(2)];
    let clash = [Cell::variable(0), Cell::integer(5)];
    let line = taken_back(rt.alloc(), &first, &second, &differ, &clash, &[])?;
    rt.println(line.as_str())?;
    let card = [Cell::variable(2), Cell::atom(7)];
    let lot = [Cell::symbol(1, 2), Cell::variable(2), Cell::variable(3)];
    let other = [Cell::symbol(1, 2), Cell::variable(2), Cell::atom(8)];
    let above = [Cell::variable(32), Cell::variable(0)];
    let mut large = [Cell::symbol(0, 1); 34];
    large[32] = Cell::variable(0);
    large[33] = Cell::variable(1);
    let line = asked(rt.alloc(), &card, &lot, &other, &above, &large)?;
    rt.println(line.as_str())?;
    Ok(())
}
