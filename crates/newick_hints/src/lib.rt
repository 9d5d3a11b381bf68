// What a reader of a Newick text can be told about a place in it: the byte before, how many brackets are open there, how many branches the root has,
// which taxon is missing. For messages only.
#![tactic(auto)]

ghost use Rattle.std.specs.Prelude.{◌≡◌, ◌-◌, ◌<◌, ◌≤◌, IfSome, length, get_or, None, Some};

use numerals::{byte_at, is_digit, number_at};

// Up to a place of a text: how many brackets are open (131 stands for more than 130), and how many commas the first of them has (2 stands for more
// than one).
#[derive(Clone, Copy, PartialEq, Eq, Debug)]
pub struct Level {
    pub depth: usize,
    pub commas: usize,
    pub ghost deep: { depth ≤ 131 },
    pub ghost parts: { commas ≤ 2 },
}

impl Level {
    fn opened(self) -> Level {
        Level {
            depth: 131.min(self.depth + 1),
            commas: self.commas,
        }
    }

    fn closed(self) -> Level {
        Level {
            depth: self.depth.saturating_sub(1),
            commas: self.commas,
        }
    }

    // A comma counts in the first bracket alone.
    fn parted(self) -> Level {
        if self.depth != 1 {
            return self;
        }
        Level {
            depth: self.depth,
            commas: 2.min(self.commas + 1),
        }
    }

    // Behind one byte more.
    fn behind(self, b: u8) -> Level {
        match b {
            b'(' => self.opened(),
            b')' => self.closed(),
            b',' => self.parted(),
            _ => self,
        }
    }
}

// The byte before a place; none at the start.
pub fn byte_before(text: &[u8], p: usize) -> Option<u8>
    ensures start { p ≡ 0 → result ≡ None }
    ensures before { 1 ≤ p → result ≡ Some (get_or text.now (p - 1) 0) }
{
    Some(byte_at(text, p.checked_sub(1)?))
}

pub fn level_at(text: &[u8], p: usize) -> Level {
    let start = Level {
        depth: 0,
        commas: 0,
    };
    text.iter().take(p).fold(start, |level, &b| level.behind(b))
}

// The place of the first semicolon; the end of the text where there is none.
pub fn semicolon(text: &[u8]) -> usize
    ensures { result ≤ length text.now }
{
    text.iter().position(|&b| b == b';').unwrap_or(text.len())
}

// A taxon starts right behind an open bracket or a comma.
fn is_taxon(text: &[u8], p: usize, taxon: usize) -> bool {
    matches!(byte_before(text, p), Some(b'(' | b','))
        && is_digit(byte_at(text, p))
        && number_at(text, p) == taxon as u64
}

fn has_taxon(text: &[u8], end: usize, taxon: usize) -> bool {
    (0..end).any(|p| is_taxon(text, p, taxon))
}

// The lowest of n taxa that the text lacks before a place; none where it has all.
pub fn lowest_missing(text: &[u8], end: usize, n: usize) -> Option<usize>
    ensures { IfSome result (λ i. i < n) }
{
    (0..n).find(|i| !has_taxon(text, end, *i))
}
