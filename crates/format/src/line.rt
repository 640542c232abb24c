ghost use Rattle.std.specs.Prelude.{◌≤◌};

mod text;

/// The most bytes that a line has: an exclamation mark and a space, and four numbers of at most 20 digits with a byte
/// after each.
pub const ROOM: usize = 86;

/// A line of a listing: bytes and no text, since its letter may be any byte. It is not made by `write!`, whose contract
/// leaves open when it fails: a line always comes about.
// An array with its length, and no `ArrayVec`, which is not `Copy`: a line can be copied.
#[derive(Clone, Copy)]
pub struct Line {
    bytes: [u8; ROOM],
    len: usize,
    ghost within: { len ≤ 86 },
}
