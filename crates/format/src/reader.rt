ghost use Rattle.std.specs.Prelude.{◌≡◌, ◌+◌, OnOk, OnErr};
ghost use Rattle.format.specs.Reader.{part_seen, part, opening_at, past_opening, heard, reading, past};

use crate::command::{Command, Opening};
use crate::fault::ReadFault;

/// The size of an open: a kind byte and four more.
pub const OPEN_LEN: usize = 5;

/// A place in a script: what comes before it has been read.
// Not the bytes that are left: a stop tells the place, and from those it would have to be counted back.
#[derive(Clone, Copy)]
pub struct Reader<'a> {
    script: &'a [u8],
    at: usize,
}

impl<'a> Reader<'a> {
    /// A reader at a place of a script.
    pub fn new(script: &'a [u8], at: usize) -> Reader<'a>
        ensures script { result.script ≡ script.entry }
        ensures at { result.at ≡ at }
    {
        Reader { script, at }
    }

    /// How many bytes have been read.
    pub fn place(&self) -> usize
        ensures { result ≡ self.now.at }
    {
        self.at
    }

    /// Takes the next N bytes, all or none.
    fn take<const N: usize>(&mut self) -> Result<&'a [u8; N], ReadFault>
        ensures value { part_seen result ≡ part self.old.script.now self.old.at N }
        ensures script { self.new.script ≡ self.old.script }
        ensures at { OnOk result (self.new.at ≡ self.old.at + N) }
        ensures stays { OnErr result (self.new.at ≡ self.old.at) }
    {
        let script = self.script;
        let at = self.place();
        let rest = script.get(at..).ok_or(ReadFault::CutShort)?;
        let (bytes, _) = rest.split_first_chunk().ok_or(ReadFault::CutShort)?;
        *self = Reader::new(script, at + N);
        Ok(bytes)
    }

    /// Reads an open.
    pub fn open(&mut self) -> Result<Opening, ReadFault>
        ensures value { result ≡ opening_at self.old.script.now self.old.at }
        ensures script { self.new.script ≡ self.old.script }
        ensures at { self.new.at ≡ past_opening self.old.at result }
    {
        let at = self.place();
        if self.script.get(at) != Some(&0) {
            return Err(ReadFault::NoOpen);
        }
        let mut ahead = Reader::new(self.script, at + 1);
        let opening = Opening::try_from(ahead.take()?)?;
        *self = ahead;
        Ok(opening)
    }

    /// Reads a command after the first, if the script has not ended.
    pub fn next(&mut self) -> Result<Option<Command<'a>>, ReadFault>
        ensures value { heard result ≡ reading self.old.script.now self.old.at }
        ensures script { self.new.script ≡ self.old.script }
        ensures at { self.new.at ≡ past self.old.at (heard result) }
    {
        let at = self.place();
        let Some(&kind) = self.script.get(at) else {
            return Ok(None);
        };
        let mut ahead = Reader::new(self.script, at + 1);
        // Here alone a kind byte becomes a case: an enum of kinds would be a second list of commands.
        let command = match kind {
            1 => Command::Post(ahead.take()?),
            2 => Command::Deliver(ahead.take()?),
            3 => Command::Cut(ahead.take()?),
            4 => Command::Release(ahead.take()?),
            5 => Command::Crash(ahead.take()?),
            6 => Command::Recover,
            7 => Command::Show(ahead.take()?),
            _ => return Err(ReadFault::NoSuchKind),
        };
        *self = ahead;
        Ok(Some(command))
    }
}
