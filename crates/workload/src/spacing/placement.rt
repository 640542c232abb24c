/// What one host has spaced so far.
#[derive(Clone, Copy)]
pub struct Placement {
    /// The sum of the widths, rounded after each one.
    pub position: f32,
    /// The greatest of them.
    pub greatest: f32,
}
