// Why a call is turned down: a number, a layer and a place, and one line for a person.
#![tactic(auto)]

ghost use Rattle.std.specs.Prelude.{◌≡◌, Some};
ghost use Rattle.refusals.specs.Refusals.{number_of, layer_of, letter_of, place_of, meaning_of, line_of};
ghost use Rattle.refusals.specs.declared.Refusal.TheVariants.{OutOfMemory};

use std::alloc::{AllocError, AllocFailed};
use std::fmt;

// The part of the library that refuses.
#[derive(Clone, Copy, PartialEq, Eq, Debug)]
pub enum Layer {
    NetworkSheet,
    OrderSheet,
    Plan,
    Memory,
}

impl Layer {
    pub fn letter(self) -> char
        ensures { result ≡ letter_of self }
    {
        match self {
            Layer::NetworkSheet => 'N',
            Layer::OrderSheet => 'O',
            Layer::Plan => 'P',
            Layer::Memory => 'M',
        }
    }
}

#[derive(Clone, Copy, PartialEq, Eq, Debug)]
pub enum Refusal {
    // the allocator found no room
    OutOfMemory,
    // the network sheet has this many bytes, too few for n and e
    NetworkCut(usize),
    // n is this, outside its limits
    ColumnCount(u16),
    // e is this, outside its limits
    EntryCount(u16),
    // the network sheet has this many bytes, which its e does not ask for
    NetworkLength(usize),
    // this entry's row or column is n or more
    EntryOutside(usize),
    // this entry does not come after the one before it
    EntryNotAfter(usize),
    // the order sheet has this many bytes, which the network's n does not ask for
    OrderLength(usize),
    // the order sheet's n is this, and not the network's
    OrderSize(u16),
    // the order's number at this index is n or more, or met before in its list
    OrderNumber(usize),
    // the record that was given is not blank
    RecordNotBlank,
    // the crew is this, outside its limits
    CrewSize(u64),
    // the threshold is this, outside its limits
    ThresholdSize(u64),
    // this column takes the filled pattern past its limit
    FillLimit(usize),
    // this column's diagonal place is neither an entry nor fill
    DiagonalNotFilled(usize),
}

impl Refusal {
    pub fn number(self) -> u8
        ensures { result ≡ number_of self }
    {
        match self {
            Refusal::OutOfMemory => 0,
            Refusal::NetworkCut(_) | Refusal::NetworkLength(_) | Refusal::OrderLength(_) => 1,
            Refusal::ColumnCount(_) | Refusal::EntryCount(_) | Refusal::OrderSize(_) => 2,
            Refusal::EntryOutside(_) => 3,
            Refusal::EntryNotAfter(_) => 4,
            Refusal::OrderNumber(_) => 5,
            Refusal::CrewSize(_) | Refusal::ThresholdSize(_) => 6,
            Refusal::FillLimit(_) => 7,
            Refusal::DiagonalNotFilled(_) => 8,
            Refusal::RecordNotBlank => 9,
        }
    }

    pub fn layer(self) -> Layer
        ensures { result ≡ layer_of self }
    {
        match self {
            Refusal::OutOfMemory => Layer::Memory,
            Refusal::NetworkCut(_)
            | Refusal::ColumnCount(_)
            | Refusal::EntryCount(_)
            | Refusal::NetworkLength(_)
            | Refusal::EntryOutside(_)
            | Refusal::EntryNotAfter(_) => Layer::NetworkSheet,
            Refusal::OrderLength(_) | Refusal::OrderSize(_) | Refusal::OrderNumber(_) =>
                Layer::OrderSheet,
            Refusal::RecordNotBlank
            | Refusal::CrewSize(_)
            | Refusal::ThresholdSize(_)
            | Refusal::FillLimit(_)
            | Refusal::DiagonalNotFilled(_) => Layer::Plan,
        }
    }

    // A usize is widened by a cast, since no `From` takes it to a u64.
    pub fn place(self) -> u64
        ensures { result ≡ place_of self }
    {
        match self {
            Refusal::OutOfMemory | Refusal::RecordNotBlank | Refusal::CrewSize(_) => 0,
            Refusal::ThresholdSize(_) => 1,
            Refusal::ColumnCount(found) | Refusal::EntryCount(found) | Refusal::OrderSize(found) =>
                u64::from(found),
            Refusal::NetworkCut(place)
            | Refusal::NetworkLength(place)
            | Refusal::EntryOutside(place)
            | Refusal::EntryNotAfter(place)
            | Refusal::OrderLength(place)
            | Refusal::FillLimit(place)
            | Refusal::DiagonalNotFilled(place)
            | Refusal::OrderNumber(place) => place as u64,
        }
    }
}

impl From<AllocError> for Refusal {
    ghost from_gives = { λ _ r. r ≡ OutOfMemory };

    fn from(_e: AllocError) -> Refusal {
        Refusal::OutOfMemory
    }
}

// `?` takes an impl for each of the two errors of memory, and no bound fits both.
impl<T: Drop> From<AllocFailed<T>> for Refusal {
    ghost from_gives = { λ _ r. r ≡ OutOfMemory };

    fn from(_e: AllocFailed<T>) -> Refusal {
        Refusal::OutOfMemory
    }
}

// What a refusal means, for a person.
#[derive(Clone, Copy)]
struct Meaning(Refusal);

impl fmt::Display for Meaning {
    ghost output = { λ meaning. Some (meaning_of meaning.0) };

    fn fmt<W: fmt::Write>(&self, f: &mut fmt::Formatter<W>) -> fmt::Result {
        match self.0 {
            Refusal::OutOfMemory => write!(f, "there is not enough memory"),
            Refusal::NetworkCut(length) => write!(
                f,
                "the network sheet has {length} bytes, too few for n and e"
            ),
            Refusal::ColumnCount(n) => write!(f, "n is {n}, but a network has 1 to 512 columns"),
            Refusal::EntryCount(e) => write!(f, "e is {e}, but a network has 1 to 8192 entries"),
            Refusal::NetworkLength(length) => write!(
                f,
                "the network sheet has {length} bytes, not 4 and 4 for each entry"
            ),
            Refusal::EntryOutside(entry) => write!(
                f,
                "entry {entry} has a row or a column that is n or more"
            ),
            Refusal::EntryNotAfter(entry) => write!(
                f,
                "entry {entry} does not come after the one before, by column, then by row"
            ),
            Refusal::OrderLength(length) => write!(
                f,
                "the order sheet has {length} bytes, not 2 and 4 for each column"
            ),
            Refusal::OrderSize(n) => write!(f, "the order sheet's n is {n}, not the network's"),
            Refusal::OrderNumber(index) => write!(
                f,
                "order entry {index} is out of range or repeated"
            ),
            Refusal::RecordNotBlank => write!(f, "the record is not blank"),
            Refusal::CrewSize(crew) => write!(f, "the crew is {crew}, but has 1 to 16 workers"),
            Refusal::ThresholdSize(threshold) => write!(
                f,
                "the threshold is {threshold}, but is 1 to 512"
            ),
            Refusal::FillLimit(column) => write!(
                f,
                "column {column} takes the filled pattern past 8192 entries"
            ),
            Refusal::DiagonalNotFilled(column) => write!(
                f,
                "the diagonal place of column {column} is neither an entry nor fill"
            ),
        }
    }
}

// One line: the number, the layer's letter, the place and the meaning.
impl fmt::Display for Refusal {
    ghost output = { λ refusal. Some (line_of refusal) };

    fn fmt<W: fmt::Write>(&self, f: &mut fmt::Formatter<W>) -> fmt::Result {
        let number = self.number();
        let letter = self.layer().letter();
        let place = self.place();
        let meaning = Meaning(*self);
        write!(f, "refused: {number} {letter} {place}: {meaning}")
    }
}
