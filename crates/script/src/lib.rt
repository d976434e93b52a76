// Scripts of calls.
#![tactic(auto)]

mod calls;
mod fault;
mod lines;
mod media;
mod numbers;
mod reader;
mod script;
mod words;

pub use reader::parse;
pub use script::{Card, Layers, Named, Poke, Script, Span, Step, Use};
