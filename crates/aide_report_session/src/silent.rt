//! What a session of the report says of an accepted configuration that is only checked.

use aide_conf::Settings;
use aide_site::{Telling, Unwritten};
use aide_text::Sink;

/// Nothing is said.
#[derive(Clone, Copy)]
pub(crate) struct Silent;

impl Telling for Silent {
    ghost use Rattle.std.specs.Prelude.{None};

    ghost says = { None };

    fn tell<W: Sink>(_settings: &Settings, _out: &mut W) -> Result<(), Unwritten> {
        Ok(())
    }
}
