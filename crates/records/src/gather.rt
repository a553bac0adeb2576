// The facts of a byte string under one symbol.
ghost use Rattle.std.specs.Prelude.{◌≡◌, ◌<◌, ◌≤◌, length, vec_len, drop};
ghost use Rattle.records.specs.Format.{record_in};
ghost use Rattle.records.specs.Faults.{end_of};

use crate::fact::{Fact, Symbols, Value};
use crate::format::{Record, fields_len, record_in};
use std::alloc::{AllocError, Global};

// A list has at most so many facts.
const MOST: usize = 65535;

// Facts under a symbol, in order.
#[derive(Drop)]
pub struct Listing {
    pub(crate) symbol: u16,
    pub(crate) facts: Vec<Fact>,
    ghost narrow: { symbol < 65536 },
    ghost few: { vec_len facts ≤ 65535 },
}

impl Listing {
    ghost use Rattle.std.specs.Prelude.{[], ◌++◌, filter, IfOk, OnOk};
    ghost use Rattle.records.specs.Facts.{record_facts, is_for, cut, with_fact};
    ghost use Rattle.records.specs.Meaning.{Gathers};

    fn new(heap: Global, symbol: u16) -> Listing
        ensures { (result.symbol ≡ symbol) × (result.facts.items ≡ []) }
    {
        Listing {
            symbol,
            facts: Vec::new(heap),
        }
    }

    // One fact more, where there is one, it is under the symbol, and the list is not full.
    fn add(&mut self, fact: Option<Fact>) -> Result<(), AllocError>
        ensures items { OnOk result (self.new.facts.items ≡ with_fact self.old.symbol fact self.old.facts.items) }
        ensures symbol { self.new.symbol ≡ self.old.symbol }
    {
        if let Some(fact) = fact
            && fact.symbol == self.symbol
            && self.facts.len() < MOST
        {
            self.facts.push(fact)?;
        }
        Ok(())
    }

    // A record's facts under the symbol, in the order of the bits.
    fn add_record(&mut self, symbols: Symbols, said: Record) -> Result<(), AllocError>
        ensures items { OnOk result (self.new.facts.items ≡ cut (self.old.facts.items ++ filter (is_for self.old.symbol) (record_facts symbols said))) }
        ensures symbol { self.new.symbol ≡ self.old.symbol }
    {
        self.add(Fact::of(symbols.lot, said.card, said.lot.map(Value::Atom)))?;
        self.add(Fact::of(symbols.stage, said.card, said.stage.map(Value::Atom)))?;
        self.add(Fact::of(symbols.cycles, said.card, said.cycles.map(Value::Integer)))
    }

    // The facts under the symbol of the records before the place where the good ones end. Each list is gathered in a pass of its own: lists that grow side
    // by side are copied at each growth.
    pub(crate) fn gather(
        heap: Global,
        bytes: &[u8],
        end: usize,
        symbols: Symbols,
        symbol: u16,
    ) -> Result<Listing, AllocError>
        requires place { end ≡ end_of bytes.now }
        requires within { end ≤ length bytes.now }
        ensures { IfOk result (λ l. Gathers symbols bytes.now symbol l) }
    {
        let mut listing = Listing::new(heap, symbol);
        let mut at: usize = 0;
        // not byte by byte: each record is as long as its map says
        while at < end {
            listing.add_record(symbols, record_at(bytes, at))?;
            at += 1 + fields_len(bytes[at]);
        }
        Ok(listing)
    }
}

// The good record at a place.
fn record_at(bytes: &[u8], at: usize) -> Record
    requires { (at < length bytes.now) × (0 < end_of (drop at bytes.now)) }
    ensures { result ≡ record_in (drop at bytes.now) }
{
    record_in(&bytes[at..])
}
