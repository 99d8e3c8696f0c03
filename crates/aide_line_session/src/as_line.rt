//! What a session of lines says of an accepted configuration that is only checked.
ghost use Rattle.std.specs.Prelude.{◌≡◌, Some, OnOk, OnErr, option_map};
ghost use Rattle.aide_text.specs.Failures.{Rose};
ghost use Rattle.aide_site.specs.Closing.{IsTold, IsUntold};
ghost use Rattle.aide_line_session.specs.SettingsTold.{settings_told};

use aide_conf::Settings;
use aide_entry::DeviceFault;
use aide_line_text::put_settings_line;
use aide_site::{Telling, Unwritten};
use aide_text::{Pen, Sink};

/// One line says what the configuration sets.
#[derive(Clone, Copy)]
pub(crate) struct AsLine;

impl Telling for AsLine {
    ghost use Rattle.std.specs.Prelude.{Some};
    ghost use Rattle.aide_line_session.specs.SettingsTold.{settings_told};

    ghost says = { Some settings_told };

    fn tell<W: Sink>(settings: &Settings, out: &mut W) -> Result<(), Unwritten> {
        tell_settings(settings, out)
    }
}

/// Returns the bytes of a path.
fn bytes_of<'a>(path: Option<&'a str>) -> Option<&'a [u8]>
    ensures { option_map (λ p. p.now) result ≡ option_map (λ p. p.now) path.entry }
{
    match path {
        None => None,
        Some(path) => Some(path.as_bytes()),
    }
}

/// Writes the line, and flushes it.
fn tell_settings<W: Sink>(settings: &Settings, out: &mut W) -> Result<(), Unwritten>
    ensures told { OnOk result (IsTold (Some settings_told) settings.now
        (W.delivered out.old) (W.delivered out.new)
        (W.is_flushed out.new) (W.flushes out.old) (W.flushes out.new)) }
    ensures untold { OnErr result (IsUntold (Some settings_told) settings.now
        (W.delivered out.old) (W.delivered out.new) (W.flushes out.old) (W.flushes out.new)) }
    ensures rose { OnErr result (Rose (W.failures out.old) (W.failures out.new)) }
{
    let mut pen = Pen::new();
    let old_path = bytes_of(settings.old_path());
    let new_path = bytes_of(settings.new_path());
    put_settings_line(out, &mut pen, &settings.options(), old_path, new_path);
    if pen.failed {
        return Err(Unwritten);
    }
    if let Err(DeviceFault) = out.flush() {
        return Err(Unwritten);
    }
    Ok(())
}
