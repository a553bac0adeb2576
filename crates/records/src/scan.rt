// Where the good records end, and what is wrong with the record there.
ghost use Rattle.std.specs.Prelude.{◌≡◌, ◌≤◌, length, drop};
ghost use Rattle.records.specs.Faults.{fault_in, end_of, fault_of};
ghost use Rattle.records.specs.Parting.{PartingLaw};

use crate::fault::{BenchFault, Cause};
use crate::format::{fields_len, map_fits, record_in};

// What is wrong with the record that the bytes begin with. The map is judged first, also where the record is cut short.
fn fault_in(bytes: &[u8]) -> Option<Cause>
    ensures { result ≡ fault_in bytes.now }
{
    if bytes.is_empty() {
        None
    } else if !map_fits(bytes[0]) {
        Some(Cause::Map)
    } else if bytes.len() <= fields_len(bytes[0]) {
        Some(Cause::Short)
    } else if record_in(bytes).cycles.is_some_and(|n| n >= 0x8000_0000) {
        Some(Cause::Cycles)
    } else {
        None
    }
}

// The same of the record at a place.
fn fault_at(bytes: &[u8], at: usize) -> Option<Cause>
    requires { at ≤ length bytes.now }
    ensures { result ≡ fault_in (drop at bytes.now) }
{
    fault_in(&bytes[at..])
}

// The place of the first bad record, or the end of the bytes.
pub(crate) fn first_bad(bytes: &[u8]) -> usize
    ensures place { result ≡ end_of bytes.now }
    ensures within { result ≤ length bytes.now }
{
    let mut at: usize = 0;
    // not byte by byte: each record is as long as its map says
    let end = loop {
        if at >= bytes.len() || fault_at(bytes, at).is_some() {
            break at;
        }
        at += 1 + fields_len(bytes[at]);
    };
    end
}

// The first fault of the bytes, if they have one.
pub fn check(bytes: &[u8]) -> Option<BenchFault>
    ensures { result ≡ fault_of bytes.now }
{
    let at = first_bad(bytes);
    fault_at(bytes, at).map(|cause| BenchFault { cause, at })
}

// Every byte string is good records one after the other and a rest that has no good one at its start; these parts have the records, the end and the fault.
pub fn parting_stands()
    ensures { PartingLaw }
{}
