//! The exit statuses of a session that compares nothing.

/// Why a session ends without a comparison.
#[derive(Clone, Copy)]
pub enum Status {
    /// The arguments are not those of the command.
    Usage = 15,
    /// The configuration or the list has a fault, or the configuration is too long.
    Configuration = 17,
    /// The configuration was not read, or what it sets was not written.
    Device = 18,
    /// Memory ran out.
    Memory = 22,
}
