ghost use Rattle.std.specs.Prelude.{◌≡◌};
ghost use Rattle.workload.specs.Body.{fields};

/// The parts of a 64-bit message body that the rules look at. The others have no meaning.
#[derive(Clone, Copy)]
pub struct Fields {
    /// The highest byte, byte 7: what kind of message it is.
    pub kind: u8,
    /// Byte 4: the number of a host.
    pub target: u8,
    /// The low 32 bits: an amount, or the bits of a float.
    pub low: u32,
}

impl From<u64> for Fields {
    ghost from_gives = { λ body parts. parts ≡ fields body };

    fn from(body: u64) -> Fields {
        let [kind, _, _, target, a, b, c, d] = body.to_be_bytes();
        Fields {
            kind,
            target,
            low: u32::from_be_bytes([a, b, c, d]),
        }
    }
}
