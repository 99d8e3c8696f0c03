//! What a device answers that fails.

/// A device failed.
#[derive(Clone, Copy, PartialEq, Eq)]
pub struct DeviceFault;
