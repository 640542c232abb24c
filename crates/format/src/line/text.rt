ghost use Rattle.std.specs.Prelude.{◌≡◌, ◌+◌, ◌≤◌, [], ◌∷◌, ◌++◌, length, decimal};
ghost use Rattle.format.specs.Lines.{text, answer_line, stop_line};

use super::{Line, ROOM};
use crate::fault::Stop;
use crate::listing::Entry;
use itoa::Buffer;

impl Line {
    /// A line with nothing in it.
    pub fn new() -> Line
        ensures text { text result ≡ [] }
        ensures len { result.len ≡ 0 }
    {
        Line {
            bytes: [0; ROOM],
            len: 0,
        }
    }

    /// What was written so far.
    pub fn as_slice(&self) -> &[u8]
        ensures value { result.now ≡ text self.now }
        ensures most { length result.now ≤ 86 }
    {
        &self.bytes[..self.len]
    }

    /// Bytes after what was written.
    // Room is asked, here and in what calls it: the parts of a line are few, and `ROOM` is for all of them.
    fn add(&mut self, more: &[u8])
        requires { self.old.len + length more.now ≤ 86 }
        ensures text { text self.new ≡ text self.old ++ more.now }
        ensures len { self.new.len ≡ self.old.len + length more.now }
    {
        let end = self.len + more.len();
        self.bytes[self.len..end].copy_from_slice(more);
        self.len = end;
    }

    /// A byte, and one after it.
    fn word(&mut self, byte: u8, end: u8)
        requires { self.old.len + 2 ≤ 86 }
        ensures text { text self.new ≡ text self.old ++ byte ∷ end ∷ [] }
        ensures len { self.new.len ≡ self.old.len + 2 }
    {
        self.add(&[byte, end]);
    }

    /// A number in decimal, which has at most 20 digits, and a byte after it.
    fn number(&mut self, n: u64, end: u8)
        requires { self.old.len + 21 ≤ 86 }
        ensures text { text self.new ≡ text self.old ++ decimal n ++ end ∷ [] }
        ensures len { self.new.len ≤ self.old.len + 21 }
    {
        // About half of the numbers of a listing have one digit: such a one needs no buffer.
        if n < 10 {
            self.word(b'0' + n as u8, end);
        } else {
            let mut digits = Buffer::new();
            self.add(digits.format(n).as_bytes());
            self.add(&[end]);
        }
    }
}

/// The line of a command: its number, its letter, the refusal or 0, the answer or 0.
impl From<Entry> for Line {
    ghost from_gives = { λ e l. text l ≡ answer_line e };

    fn from(entry: Entry) -> Line {
        let (refusal, value) = match entry.answer {
            Ok(value) => (0, value),
            Err(refusal) => (u8::from(refusal), 0),
        };
        let mut line = Line::new();
        line.number(entry.number, b' ');
        line.word(entry.letter, b' ');
        line.number(refusal as u64, b' ');
        line.number(value, b'\n');
        line
    }
}

/// The line of a stop: an exclamation mark, the layer, the fault's number, the command and its place.
impl From<Stop> for Line {
    ghost from_gives = { λ s l. text l ≡ stop_line s };

    fn from(stop: Stop) -> Line {
        let mut line = Line::new();
        line.word(b'!', b' ');
        line.number(stop.fault.layer() as u64, b' ');
        line.number(u8::from(stop.fault) as u64, b' ');
        line.number(stop.command, b' ');
        line.number(stop.place as u64, b'\n');
        line
    }
}
