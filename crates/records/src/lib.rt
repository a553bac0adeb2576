// The bench's byte records as a source of facts.
#![tactic(auto)]

ghost use Rattle.records.specs.Fit.{AllFit};

use gather::Listing;

pub mod fact;
pub mod fault;
pub mod format;
mod gather;
pub mod scan;
pub mod source;

// The facts under each of the three symbols, in order. Where symbols are the same, so are their lists.
#[derive(Drop)]
pub struct Records {
    pub(crate) lots: Listing,
    pub(crate) stages: Listing,
    pub(crate) cycles: Listing,
    ghost fit: { AllFit lots.symbol lots.facts.items × AllFit stages.symbol stages.facts.items × AllFit cycles.symbol cycles.facts.items },
}
