// Prints for each case of a table on standard input what its byte records say. A line is in hexadecimal, with blanks where they help: the symbols
// of lot, stage and cycles, each two bytes with the higher first, then the records. After a `*` the records are taken 65,536 times over. A line that
// starts with `#` is a comment. Told are the fault, the facts under each symbol (the card, a for atom or i for integer, the value; of a long list the
// last), those of a pair of two such sources under the stage's symbol, and the cells under the lot's symbol of the source, the pair and a pair of pairs.
#![tactic(auto)]

ghost use Rattle.std.specs.Prelude.{◌≡◌, ◌+◌, ◌<◌, ◌≤◌, ◌++◌, length, IfOk, string_bytes, OnOk};
ghost use Rattle.records.specs.Faults.{fault_of};
ghost use Rattle.record_cases.specs.Spelling.{hex_of, is_blank, spelled, symbol_at, fault_text};
ghost use Rattle.record_cases.specs.Shown.{fact_shown, facts_shown, pairs_shown, bench, told};
ghost use Rattle.records.specs.Meaning.{record_clauses};

use book::Book;
use clauses::pair::Pair;
use clauses::{Predicate, Source};
use draft::Draft;
use records::Records;
use records::fact::Symbols;
use records::scan::check;
use std::alloc::{AllocError, Global};
use std::io::{BufRead, BufReader};
use terms::Cell;
use total::total;

mod total;

// The value of a hexadecimal digit in small letters; 0 for any other byte, where std's `to_digit` takes capitals too.
fn hex(digit: u8) -> u8
    ensures value { result ≡ hex_of digit }
    ensures bound { result < 16 }
{
    match digit {
        b'0'..=b'9' => digit - b'0',
        b'a'..=b'f' => digit - b'a' + 10,
        _ => 0,
    }
}

// Whether a byte stands between the bytes that are spelled: a blank or a star.
fn blank(byte: u8) -> bool
    ensures { result ≡ is_blank byte }
{
    byte == b' ' || byte == b'*'
}

// Adds the bytes that a text spells.
fn decode(out: &mut Vec<u8>, text: &[u8]) -> Result<(), AllocError>
    ensures { OnOk result (out.new.items ≡ out.old.items ++ spelled text.now) }
{
    let mut left = text;
    while let [high, low, rest @ ..] = left {
        if blank(*high) {
            left = &left[1..];
        } else {
            out.push(hex(*high) * 16 + hex(*low))?;
            left = rest;
        }
    }
    Ok(())
}

// The symbol at a place, its higher byte first.
fn symbol_at(bytes: &[u8], at: usize) -> u16
    requires { at + 2 ≤ length bytes.now }
    ensures { result ≡ symbol_at bytes.now at }
{
    u16::from_be_bytes([bytes[at], bytes[at + 1]])
}

// The first fault's number and place, or that there is none.
fn fault_text(heap: Global, bytes: &[u8]) -> Result<String, AllocError>
    ensures { IfOk result (λ text. string_bytes text ≡ fault_text (fault_of bytes.now)) }
{
    match check(bytes) {
        Some(fault) => format!(in heap; "{fault}"),
        None => format!(in heap; "good"),
    }
}

// A predicate of two arguments.
fn pair_of(symbol: u16) -> Predicate
    ensures { result ≡ record { symbol = symbol; arity = 2 } }
{
    Predicate {
        symbol: symbol as u32,
        arity: 2,
    }
}

// Adds one fact.
fn show_fact<S: Source>(
    heap: Global,
    out: &mut String,
    source: &S,
    predicate: Predicate,
    i: usize,
) -> Result<(), AllocError>
    ensures { OnOk result (string_bytes out.new ≡ string_bytes out.old ++ fact_shown (S.clauses source.now predicate.symbol predicate.arity) i) }
{
    let mut cells = [Cell::default(); 3];
    if source.write(predicate, i, 0, &mut cells, 0).is_err() {
        return out.push_str(" refused");
    }
    let [_, card, value] = cells;
    let kind = if value.form == 2 { "a" } else { "i" };
    let card = card.value;
    let said = value.value;
    let text = format!(in heap; " {card}:{kind}{said}")?;
    out.push_str(text.as_str())
}

// Adds how many facts there are and what they say; of more than 16 only the last, and the refusal of one more.
fn show_facts<S: Source>(
    heap: Global,
    out: &mut String,
    source: &S,
    predicate: Predicate,
) -> Result<(), AllocError>
    ensures { OnOk result (string_bytes out.new ≡ string_bytes out.old ++ facts_shown (S.clauses source.now predicate.symbol predicate.arity)) }
{
    let n = source.count(predicate);
    let text = format!(in heap; " | {n}")?;
    out.push_str(text.as_str())?;
    if n > 16 {
        show_fact(heap, out, source, predicate, n - 1)?;
        return show_fact(heap, out, source, predicate, n);
    }
    for i in 0..n {
        show_fact(heap, out, source, predicate, i)?;
    }
    Ok(())
}

// Adds what a pair of two such sources tells, and a pair of pairs.
fn show_pairs(
    heap: Global,
    out: &mut String,
    records: Records,
    bytes: &[u8],
    symbols: Symbols,
) -> Result<(), AllocError>
    ensures { OnOk result (string_bytes out.new ≡ string_bytes out.old ++ pairs_shown symbols (record_clauses records) (bench symbols bytes.now)) }
{
    let lot = pair_of(symbols.lot);
    let one = total(&records, lot);
    let pair = Pair::new(records, Records::new(heap, bytes, symbols)?);
    show_facts(heap, out, &pair, pair_of(symbols.stage))?;
    let two = total(&pair, lot);
    let third = Records::new(heap, bytes, symbols)?;
    let fourth = Records::new(heap, bytes, symbols)?;
    let four = total(&Pair::new(pair, Pair::new(third, fourth)), lot);
    let text = format!(in heap; " | {one} {two} {four}")?;
    out.push_str(text.as_str())
}

// What the records tell: the fault, the facts under each symbol, and the pairs.
fn told(heap: Global, bytes: &[u8], symbols: Symbols) -> Result<String, AllocError>
    ensures { IfOk result (λ text. string_bytes text ≡ told symbols bytes.now) }
{
    let mut out = fault_text(heap, bytes)?;
    let records = Records::new(heap, bytes, symbols)?;
    show_facts(heap, &mut out, &records, pair_of(symbols.lot))?;
    show_facts(heap, &mut out, &records, pair_of(symbols.stage))?;
    show_facts(heap, &mut out, &records, pair_of(symbols.cycles))?;
    show_pairs(heap, &mut out, records, bytes, symbols)?;
    Ok(out)
}

// What a line of the table asks for.
fn line_for(heap: Global, text: &[u8]) -> Result<String, AllocError> {
    let mut bytes = Vec::new(heap);
    decode(&mut bytes, text)?;
    let all = bytes.as_slice();
    if all.len() < 6 {
        return format!(in heap; "no case");
    }
    let symbols = Symbols {
        lot: symbol_at(all, 0),
        stage: symbol_at(all, 2),
        cycles: symbol_at(all, 4),
    };
    if text.first() != Some(&b'*') {
        return told(heap, &all[6..], symbols);
    }
    let mut many = Vec::new(heap);
    for _ in 0..65536 {
        many.extend_from_slice(&all[6..])?;
    }
    told(heap, many.as_slice(), symbols)
}

// The cells under one predicate in a sealed book, in a pair of it and records, and in a pair of that pair and another.
fn book_totals(heap: Global) -> Result<String, AllocError> {
    let text = b"lot(a,b). lot(c,d) :- stage(c,d).";
    let symbols = Symbols {
        lot: 0,
        stage: 5,
        cycles: 6,
    };
    let lot = pair_of(symbols.lot);
    let mut book = Book::new(heap)?;
    let mut draft = Draft::new(heap)?;
    let mut at = 0;
    for _ in 0..2 {
        at = book.read(&mut draft, text, at).unwrap_or(at);
    }
    let sealed = book.seal();
    let alone = total(&sealed, lot);
    let both = Pair::new(sealed, Records::new(heap, &[3, 7, 0, 9, 0], symbols)?);
    let joined = total(&both, lot);
    let first = Records::new(heap, &[3, 7, 0, 9, 0], symbols)?;
    let second = Records::new(heap, &[3, 8, 0, 9, 0], symbols)?;
    let all = total(&Pair::new(both, Pair::new(first, second)), lot);
    format!(in heap; "book {alone} {joined} {all}")
}

fn main(rt: HostRuntime) -> anyhow::Result<()> {
    for line in BufReader::new(rt.alloc(), rt.stdin())?.lines(rt.alloc()) {
        let case = line?;
        let text = case.as_bytes();
        if text.first() != Some(&b'#') {
            let answer = line_for(rt.alloc(), text)?;
            rt.println(answer.as_str())?;
        }
    }
    let totals = book_totals(rt.alloc())?;
    rt.println(totals.as_str())?;
    Ok(())
}
