//! Which of the two pairs of databases is meant.

/// One of the two pairs of databases that a session may compare.
#[derive(Clone, Copy)]
pub enum Whose {
    /// The pair that the configuration names.
    Compared,
    /// The pair of a trusted machine, which the arguments name.
    Trusted,
}
