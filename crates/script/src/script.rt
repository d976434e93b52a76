// What a script says.
ghost use Rattle.std.specs.Prelude.{◌≡◌};
ghost use Rattle.script.specs.Ranges.{pages_of};

use book::Call;
use form::{Item, ItemKind};

// A trial medium: its pages, the call in which it stops, 0 for never, and its pattern.
#[derive(Clone, Copy, PartialEq, Eq, Debug)]
pub struct Card {
    pub pages: usize,
    pub stop: u32,
    pub pattern: u64,
}

// A window: its first page below and the number of pages that is asked for.
#[derive(Clone, Copy, PartialEq, Eq, Debug)]
pub struct Span {
    pub first: usize,
    pub count: usize,
}

// The layers over a trial medium.
#[derive(Clone, Copy, PartialEq, Eq, Debug)]
pub enum Layers {
    Bare,
    Window { span: Span },
    Hold,
    // a window onto a holding layer
    WindowHold { span: Span },
    // a holding layer over a window
    HoldWindow { span: Span },
}

// The medium that a use names.
#[derive(Clone, Copy, PartialEq, Eq, Debug)]
pub enum Named {
    Memory { pages: usize },
    Trial { card: Card, under: Layers },
}

impl Named {
    // The pages that it asks for.
    pub fn pages(self) -> usize
        ensures { result ≡ pages_of self }
    {
        match self {
            Named::Memory { pages } => pages,
            Named::Trial { card, .. } => card.pages,
        }
    }
}

// One line of a use.
#[derive(Drop, PartialEq, Eq, Debug)]
pub enum Step {
    // the calls from here on have a work page of so many bytes
    Work { bytes: usize },
    Lay { pages: usize },
    Call { call: Call<Item, ItemKind> },
    // a look under the form whose kind has a number; no line asks for a number that is no kind's, but a script made by hand may
    LookNumbered { key: u32, number: u8 },
    // a put or change under a form with a field outside its range: the slip, and the lowest bit of such a field
    BadField { slip: usize, bit: usize },
    Ask,
    DumpWork,
    DumpPage { page: usize },
}

// Bytes put into what a use left.
#[derive(Drop, PartialEq, Eq, Debug)]
pub struct Poke {
    pub page: usize,
    pub offset: usize,
    pub bytes: Vec<u8>,
}

// A use: over fresh bytes, or again over those left by the one before; its lines, and the pokes after it.
#[derive(Drop, PartialEq, Eq, Debug)]
pub struct Use {
    pub again: bool,
    pub named: Named,
    pub steps: Vec<Step>,
    pub pokes: Vec<Poke>,
}

// The uses of a script, up to the first line that is not of the grammar, whose number is told, counted from 1.
#[derive(Drop, PartialEq, Eq, Debug)]
pub struct Script {
    pub uses: Vec<Use>,
    pub bad: Option<usize>,
}
