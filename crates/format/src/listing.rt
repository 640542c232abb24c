ghost use Rattle.std.specs.Prelude.{◌≡◌, ◌≤◌, length};
ghost use Rattle.format.specs.Lines.{answer_line, stop_line, placed, ending};

use crate::fault::{ListFault, Stop};
use crate::line::Line;
use network::refusal::Refusal;

/// A command that was made: its number from 1, its letter and its answer.
#[derive(Clone, Copy)]
pub struct Entry {
    pub number: u64,
    pub letter: u8,
    pub answer: Result<u64, Refusal>,
}

/// A listing that is being written: a buffer, and how much of it is written.
#[derive(Drop)]
pub struct Listing<'a> {
    bytes: &'a mut [u8],
    written: usize,
    ghost within: { written ≤ length bytes.now },
}

impl<'a> Listing<'a> {
    ghost use Rattle.std.specs.Prelude.{◌≡◌, ◌≤◌, length};
    ghost use Rattle.format.specs.Lines.{answer_line, placed, ending, whether_put, written_then};

    /// A buffer in which nothing is written.
    pub fn new(bytes: &'a mut [u8]) -> Listing<'a>
        ensures buffer { result.bytes.ghost_name ≡ bytes.entry.ghost_name }
        ensures bytes { result.bytes.now ≡ bytes.old }
        ensures written { result.written ≡ 0 }
    {
        Listing { bytes, written: 0 }
    }

    /// How much is written.
    pub fn written(&self) -> usize
        ensures value { result ≡ self.now.written }
        ensures within { result ≤ length self.now.bytes.now }
    {
        self.written
    }

    /// How many bytes the buffer has.
    pub fn capacity(&self) -> usize
        ensures { result ≡ length self.now.bytes.now }
    {
        self.bytes.len()
    }

    /// Puts a text after what is written, whole or not at all.
    pub fn put(&mut self, text: &[u8]) -> Result<(), ListFault>
        ensures value { result ≡ whether_put (ending self.old.bytes.now self.old.written text.now) }
        ensures buffer { self.new.bytes.ghost_name ≡ self.old.bytes.ghost_name }
        ensures bytes { self.new.bytes.now ≡ placed self.old.bytes.now self.old.written text.now }
        ensures written { self.new.written ≡ written_then self.old.written (ending self.old.bytes.now self.old.written text.now) }
    {
        let bytes = &mut *self.bytes;
        self.written = put(bytes, self.written, text)?;
        Ok(())
    }

    /// Puts the line of a command after what is written, whole or not at all.
    pub fn list(&mut self, entry: Entry) -> Result<(), ListFault>
        ensures value { result ≡ whether_put (ending self.old.bytes.now self.old.written (answer_line entry)) }
        ensures buffer { self.new.bytes.ghost_name ≡ self.old.bytes.ghost_name }
        ensures bytes { self.new.bytes.now ≡ placed self.old.bytes.now self.old.written (answer_line entry) }
        ensures written { self.new.written ≡ written_then self.old.written (ending self.old.bytes.now self.old.written (answer_line entry)) }
    {
        let bytes = &mut *self.bytes;
        self.written = list(bytes, self.written, &entry)?;
        Ok(())
    }
}

/// Puts a text at a place of a buffer, whole or not at all. Answers where it ends.
// A buffer and a place beside it, here and in `list`: both were promised so in public, and `Listing` holds the two.
pub fn put(listing: &mut [u8], at: usize, text: &[u8]) -> Result<usize, ListFault>
    ensures value { result ≡ ending listing.old at text.now }
    ensures listing { listing.new ≡ placed listing.old at text.now }
{
    if at <= listing.len() && text.len() <= listing.len() - at {
        let end = at + text.len();
        listing[at..end].copy_from_slice(text);
        Ok(end)
    } else {
        Err(ListFault::Full)
    }
}

/// Puts the line of a command at a place of a buffer, whole or not at all. Answers where it ends.
pub fn list(listing: &mut [u8], at: usize, entry: &Entry) -> Result<usize, ListFault>
    ensures value { result ≡ ending listing.old at (answer_line entry.now) }
    ensures listing { listing.new ≡ placed listing.old at (answer_line entry.now) }
{
    put(listing, at, Line::from(*entry).as_slice())
}

/// Puts the line of a stop at the start of a buffer, whole or not at all. Answers where it ends.
pub fn write_stop(buffer: &mut [u8], stop: &Stop) -> Result<usize, ListFault>
    ensures value { result ≡ ending buffer.old 0 (stop_line stop.now) }
    ensures buffer { buffer.new ≡ placed buffer.old 0 (stop_line stop.now) }
{
    put(buffer, 0, Line::from(*stop).as_slice())
}
