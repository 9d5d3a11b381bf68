// A walker over a file of records: it holds the lent file with its place and gives record after record (document 01, "Records in a file").
#![tactic(auto)]

ghost use Rattle.std.specs.Prelude.{◌≡◌};
ghost use Rattle.statement.specs.Calls.{step_at};
ghost use Rattle.walker.specs.Moved.{step_said, place_after};

use record_find::{find_record, record_length};
use statement::Refusal;

// A record of the file: where its body starts, how long it is, and the place behind the record.
#[derive(Clone, Copy)]
pub struct Found {
    pub start: usize,
    pub length: usize,
    pub behind: usize,
}

// The work: what stands at a place of the file, a record or its refusal; nothing at or past the end of the bytes.
pub fn step_at(file: &[u8], place: usize) -> Result<Option<Found>, Refusal>
    ensures { step_said result ≡ step_at file.now place }
{
    if place >= file.len() {
        return Ok(None);
    }
    let found = find_record(&file[place..])?;
    let length = found.body.len();
    Ok(Some(Found {
        start: place + 8,
        length,
        behind: place + record_length(length),
    }))
}

// The place behind the record at a place; at a refused record, and at the end, that same place.
pub fn place_after(file: &[u8], place: usize) -> usize
    ensures { result ≡ place_after (step_at file.now place) place }
{
    match step_at(file, place) {
        Ok(Some(found)) => found.behind,
        Ok(None) | Err(_) => place,
    }
}

#[derive(Clone, Copy)]
pub struct Walker<'a> {
    pub file: &'a [u8],
    pub place: usize,
}

impl<'a> Walker<'a> {
    // A walker at the start of a lent file.
    pub fn new(file: &'a [u8]) -> Walker<'a>
        ensures { (result.file ≡ file.entry) × (result.place ≡ 0) }
    {
        Walker { file, place: 0 }
    }

    // What the walker says at its place.
    pub fn next(&self) -> Result<Option<Found>, Refusal>
        ensures { step_said result ≡ step_at self.now.file.now self.now.place }
    {
        step_at(self.file, self.place)
    }

    // The walker moves behind the record at its place; at a refused record, and at the end, it does not move.
    pub fn advance(&mut self)
        ensures { (self.new.file ≡ self.old.file) × (self.new.place ≡ place_after (step_at self.old.file.now self.old.place) self.old.place) }
    {
        self.place = place_after(self.file, self.place);
    }
}

// The first step over a file, for callers that hold no walker.
pub fn first(file: &[u8]) -> Result<Option<Found>, Refusal>
    ensures { step_said result ≡ step_at file.now 0 }
{
    Walker::new(file).next()
}
