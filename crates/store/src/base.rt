// What a store is opened with.
use verdicts::settings::Settings;

// The settings and the source of the questions, the signature of the equations, and the number that is written on the tokens.
#[derive(Drop)]
pub struct Base<P, G> {
    pub(crate) settings: Settings,
    pub(crate) number: u16,
    pub(crate) source: P,
    pub(crate) signature: G,
}
