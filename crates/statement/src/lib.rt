// What the box's calls hand about, as data. The definitions over these types are in specs/, the theory behind them in proofs/.
#![tactic(auto)]

ghost use Rattle.std.specs.Prelude.{◌≡◌};
ghost use Rattle.statement.specs.Said.{number_of_reason, code_of_kind, kind_coded};

use std::error::Error;
use std::fmt;

// A list of splits of the first `taxa` taxa: its first `rows` rows are used, the others are spare (document 01, "Growing and the allowance").
#[derive(Clone, Copy)]
pub struct Splits {
    pub taxa: usize,
    pub rows: usize,
    pub clusters: [u64; 125],
    pub weights: [u32; 125],
}

// Why input is turned away: a line each of the documents' table of refusals, with its number.
#[derive(Clone, Copy, Debug, PartialEq, Eq)]
pub enum Reason {
    Taxa = 1,
    Length = 2,
    Diagonal = 3,
    Distance = 4,
    Pair = 5,
    TableByte = 6,
    Output = 7,
    List = 8,
    Tree = 9,
    Walk = 10,
    Home = 11,
    Edge = 12,
    Twin = 13,
    Weight = 14,
    Mark = 15,
    Cut = 16,
    Kind = 17,
    Sum = 18,
    Text = 19,
    Taxon = 20,
}

impl Reason {
    // Its number in the table.
    pub fn number(self) -> u8
        ensures { result ≡ number_of_reason self }
    {
        self as u8
    }

    // The refusal for this reason, at a place.
    pub fn at(self, place: usize) -> Refusal
        ensures { result ≡ record { reason = self; place = place } }
    {
        Refusal {
            reason: self,
            place,
        }
    }
}

// What it means, for a person.
impl fmt::Display for Reason {
    fn fmt<W: fmt::Write>(&self, f: &mut fmt::Formatter<W>) -> fmt::Result {
        f.write_str(match self {
            Reason::Taxa => "the number of taxa is not from 2 to 64",
            Reason::Length => "the length does not match the number of taxa",
            Reason::Diagonal => "a diagonal entry is not 0",
            Reason::Distance => "a distance is above 1,000,000",
            Reason::Pair => "the two entries of a pair differ",
            Reason::TableByte => "a table byte is above 3",
            Reason::Output => "the lent slice does not have the exact length",
            Reason::List => "the list is not well-formed",
            Reason::Tree => "a link or home is above m, or m disagrees with the length",
            Reason::Walk => "the walk up from this vertex never reaches the root",
            Reason::Home => "taxon 0 is not at home at the root",
            Reason::Edge => "an edge has no taxon beyond it",
            Reason::Twin => "two edges have the same taxa beyond them",
            Reason::Weight => "a weight is 0 or above 2,000,000",
            Reason::Mark => "the mark is not that of a record",
            Reason::Cut => "the record is cut",
            Reason::Kind => "the kind is not known",
            Reason::Sum => "the pad is not zero, or the words do not add to zero",
            Reason::Text => "the text is outside the grammar or nested too deep",
            Reason::Taxon => "a taxon is repeated, is not below the number of taxa, or is missing",
        })
    }
}

// A refusal: its reason, and the place of document 01's table.
#[derive(Clone, Copy, Debug, PartialEq, Eq)]
pub struct Refusal {
    pub reason: Reason,
    pub place: usize,
}

impl fmt::Display for Refusal {
    fn fmt<W: fmt::Write>(&self, f: &mut fmt::Formatter<W>) -> fmt::Result {
        write!(f, "refused {} at {}", self.reason.number(), self.place)
    }
}

impl Error for Refusal {}

// Whether growth came to its end, or stopped for want of allowance.
#[derive(Clone, Copy, Debug, PartialEq, Eq)]
pub enum Ending {
    Done,
    Short,
}

// What a growth that is not refused hands back.
#[derive(Clone, Copy)]
pub struct Grown {
    pub ending: Ending,
    pub list: Splits,
    pub trials: u64,
}

// The kinds of records.
#[derive(Clone, Copy, Debug, PartialEq, Eq)]
pub enum Kind {
    Matrix = 1,
    Table = 2,
    Tree = 3,
}

impl Kind {
    // Its byte in a record's header.
    pub fn code(self) -> u8
        ensures { result ≡ code_of_kind self }
    {
        self as u8
    }

    // The kind that a byte stands for.
    pub fn coded(code: u8) -> Option<Kind>
        ensures { result ≡ kind_coded code }
    {
        match code {
            1 => Some(Kind::Matrix),
            2 => Some(Kind::Table),
            3 => Some(Kind::Tree),
            _ => None,
        }
    }
}
