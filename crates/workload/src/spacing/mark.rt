ghost use Rattle.std.specs.Prelude.{◌≡◌};
ghost use Rattle.workload.specs.Spacing.{mark_in, width_body, TakenWidth};

use crate::fields::Fields;

/// The widest width that is taken, by the bits of its float: 4,096.0.
const WIDEST: u32 = 0x4580_0000;

/// What a message asks of the spacing.
#[derive(Clone, Copy)]
pub enum Mark {
    /// Kind 1: a width to add.
    // A plain `f32`, by a rule of the project: so that it is taken is said where a mark is read and used.
    Width(f32),
    /// Kind 2: a barline.
    Bar,
}

impl Mark {
    /// The body of a barline.
    pub const BAR: u64 = 0x200_0000_0000_0000;

    /// The body of a width, by the bits of its float.
    // No `From`: the bits may be those of a width that is not taken, and so of no mark.
    pub fn width(bits: u32) -> u64
        ensures { result ≡ width_body bits }
    {
        0x100_0000_0000_0000 + bits as u64
    }

    /// The mark in a body, if it is one that is taken.
    // Here alone a kind byte becomes a case. No `TryFrom`, since a body of no mark is no error.
    pub fn read(body: Fields) -> Option<Mark>
        ensures value { result ≡ mark_in body }
        ensures width { TakenWidth result }
    {
        match body.kind {
            1 if body.low <= WIDEST => Some(Mark::Width(f32::from_bits(body.low))),
            2 => Some(Mark::Bar),
            _ => None,
        }
    }
}
