//! The machine that a command runs on.

/// What a command has of the machine that it runs on.
#[derive(Clone, Copy)]
pub struct Machine<'a, R, P> {
    /// Its files, its memory, its network, its clock and its random bytes.
    pub rt: &'a R,

    /// What opens the store that the words name.
    pub stores: &'a P,
}
