/// What a host does when it takes a message: at most one message to another host, as a destination with its
/// body, and at most one output to the outside world.
#[derive(Clone, Copy)]
pub struct Reaction {
    pub send: Option<(u8, u64)>,
    pub output: Option<u64>,
}

impl Reaction {
    /// Neither a message nor an output.
    pub const NONE: Reaction = Reaction {
        send: None,
        output: None,
    };
}
