//! What a session works with.
ghost use Rattle.std.specs.Prelude.{◌≡◌};

use crate::site::Site;
use crate::telling::Telling;
use aide_db::Desk;
use aide_text::Sink;
use std::alloc::Global;

/// The devices of a session: its site, its output and standard error. Beside them is what it keeps in memory: the desk
/// for the bytes of the databases, and the allocator for everything else. The telling is what it says of a
/// configuration that is only checked.
#[derive(Drop)]
pub struct Devices<'a, T: Telling, S: Site, W: Sink, E: Sink> {
    /// What is said of a configuration that is only checked.
    pub telling: T,
    /// The allocator for everything but the bytes of the databases.
    pub alloc: Global,
    /// What is held of the databases.
    pub desk: &'a mut Desk<Global>,
    /// What opens the files.
    pub site: &'a mut S,
    /// The output.
    pub out: &'a mut W,
    /// Standard error.
    pub err: &'a mut E,
}

impl<'a, T: Telling, S: Site, W: Sink, E: Sink> Devices<'a, T, S, W, E> {
    /// Returns these devices as one.
    pub fn new(
        telling: T,
        alloc: Global,
        desk: &'a mut Desk<Global>,
        site: &'a mut S,
        out: &'a mut W,
        err: &'a mut E,
    ) -> Devices<'a, T, S, W, E>
        ensures { result ≡ record {
          telling = telling;
          alloc = alloc;
          desk = desk.entry;
          site = site.entry;
          out = out.entry;
          err = err.entry;
        } }
    {
        Devices {
            telling,
            alloc,
            desk,
            site,
            out,
            err,
        }
    }
}
