// Whole numbers in a text, in decimal with spaces between them: what is wrong with the bytes, how many numbers there are, where each starts, its
// value, and the line and column of a place.
#![tactic(auto)]

ghost use Rattle.std.specs.Prelude.{◌+◌, ◌*◌, ◌-◌, ◌≤◌, ◌<◌, min, ◌≡◌, true, length, get_or, drop};
ghost use Rattle.statement.specs.Lowest.{lowest};
ghost use Rattle.statement.specs.Decimal.{digit, span};
ghost use Rattle.numerals.specs.Numerals.{space, starts_at, number_at, starts_in, numbers_in, wrong_at, coded};
ghost use Rattle.numerals.specs.Place.{behind, place_of};

use std::fmt;

// The largest number that is read, and what stands for all above it.
const LARGEST: u64 = 4294967295;

const TOO_LARGE: u64 = 4294967296;

// Line and column, both from 1.
#[derive(Clone, Copy, PartialEq, Eq, Debug)]
pub struct Place {
    pub line: usize,
    pub column: usize,
}

impl fmt::Display for Place {
    fn fmt<W: fmt::Write>(&self, f: &mut fmt::Formatter<W>) -> fmt::Result {
        write!(f, "line {}, column {}", self.line, self.column)
    }
}

// A number that was read, and the place behind it.
#[derive(Clone, Copy, PartialEq, Eq, Debug)]
pub struct Number {
    pub value: u64,
    pub behind: usize,
}

// What can be wrong at a place: a byte that is no digit and no space; a number above 4,294,967,295.
#[derive(Clone, Copy, PartialEq, Eq, Debug)]
pub enum Fault {
    Strange,
    TooLarge,
}

impl Fault {
    // The fault that a number stands for: 1, a strange byte; any other, a number too large.
    pub fn coded(code: u8) -> Fault
        ensures { result ≡ coded code }
    {
        if code == 1 {
            Fault::Strange
        } else {
            Fault::TooLarge
        }
    }
}

pub fn is_digit(b: u8) -> bool
    ensures { result ≡ digit b }
{
    b.is_ascii_digit()
}

pub fn is_space(b: u8) -> bool
    ensures { result ≡ space b }
{
    matches!(b, b' ' | b'\t' | b'\n' | b'\r')
}

// The byte at a place; 0, which is no digit, behind the end.
pub fn byte_at(text: &[u8], p: usize) -> u8
    ensures { result ≡ get_or text.now p 0 }
{
    text.get(p).copied().unwrap_or(0)
}

// A number starts at a digit with no digit right before it.
fn starts(text: &[u8], p: usize) -> bool
    ensures { result ≡ starts_at text.now p }
{
    is_digit(byte_at(text, p)) && (p == 0 || !is_digit(byte_at(text, p - 1)))
}

// A number with one digit more, but never above 4,294,967,296, which stands for all that are too large.
fn with_digit(v: u64, b: u8) -> u64
    requires { (digit b ≡ true) × (v ≤ 4294967296) }
    ensures { result ≡ min (10 * v + (b - 48)) 4294967296 }
{
    (10 * v + u64::from(b - b'0')).min(TOO_LARGE)
}

// The number at a place, 4,294,967,296 where it is above 4,294,967,295, and the place behind its digits.
pub fn read_number(text: &[u8], p: usize) -> Number
    ensures { (result.value ≡ min (number_at text.now p) 4294967296) × (result.behind ≡ p + span (drop p text.now)) }
{
    let mut value: u64 = 0;
    let mut behind = p;
    while behind < text.len() && is_digit(text[behind]) {
        value = with_digit(value, text[behind]);
        behind += 1;
    }
    Number { value, behind }
}

// The number alone.
pub fn number_at(text: &[u8], p: usize) -> u64
    ensures { result ≡ min (number_at text.now p) 4294967296 }
{
    read_number(text, p).value
}

// Whether this is wrong at the place p.
fn wrong(fault: Fault, text: &[u8], p: usize) -> bool
    ensures { result ≡ wrong_at fault text.now p }
{
    match fault {
        Fault::Strange => {
            let b = byte_at(text, p);
            !is_digit(b) && !is_space(b)
        }
        Fault::TooLarge => starts(text, p) && number_at(text, p) > LARGEST,
    }
}

// The first place with this fault, else the end of the text.
pub fn first_fault(fault: Fault, text: &[u8]) -> usize
    ensures { result ≡ lowest (wrong_at fault text.now) (length text.now) }
{
    places::lowest(text.len(), |p| wrong(fault, text, p))
}

// The same, of the fault that a number stands for.
pub fn first_wrong(fault: u8, text: &[u8]) -> usize
    ensures { result ≡ lowest (wrong_at (coded fault) text.now) (length text.now) }
{
    first_fault(Fault::coded(fault), text)
}

// How many numbers the text has.
pub fn count(text: &[u8]) -> usize
    ensures { result ≡ length (starts_in text.now) }
{
    (0..text.len()).filter(|p| starts(text, *p)).count()
}

// The place where number i starts, counted from 0; the end of the text where there are not so many.
pub fn start_of(text: &[u8], i: usize) -> usize
    ensures { result ≡ get_or (starts_in text.now) i (length text.now) }
{
    (0..text.len())
        .filter(|p| starts(text, *p))
        .nth(i)
        .unwrap_or(text.len())
}

// Number i, counted from 0: 0 where there are not so many, 4,294,967,296 where it is above 4,294,967,295.
pub fn number_of(text: &[u8], i: usize) -> u64
    ensures { result ≡ min (get_or (numbers_in text.now) i 0) 4294967296 }
{
    number_at(text, start_of(text, i))
}

// The place behind a byte: a line end leads to the next line.
fn next_place(here: Place, b: u8) -> Place
    requires { (here.line + 1 < 18446744073709551616) × (here.column + 1 < 18446744073709551616) }
    ensures { result ≡ behind here b }
{
    if b == b'\n' {
        Place {
            line: here.line + 1,
            column: 1,
        }
    } else {
        Place {
            column: here.column + 1,
            ..here
        }
    }
}

// Line and column of byte p; those of the end for all that are behind it.
pub fn place_of(text: &[u8], p: usize) -> Place
    ensures { result ≡ place_of text.now (min p (length text.now)) }
{
    let mut here = Place { line: 1, column: 1 };
    for b in &text[..p.min(text.len())] {
        here = next_place(here, *b);
    }
    here
}
