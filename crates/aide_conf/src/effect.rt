//! What an expanded line says.

ghost use Rattle.std.specs.Prelude.{◌≡◌, IfOk};
ghost use Rattle.aide_conf.specs.Effect.{kept_effect, assigned, option_named, value_effect};
ghost use Rattle.aide_conf.specs.code.Returned.{effect_or_fault, IsNamedWell};

use crate::expansion::LONGEST_VALUE;
use crate::fault::ConfFaultKind;
use crate::line::{at_equals, is_selection, strip};
use crate::option_kind::{OptionKind, Side, option_named};
use crate::options::{AttrList, Switch};
use crate::value::{bool_named, is_left_out, path_of};
use aide_attr::{Level, is_group_name};

/// What a line says, if it has no fault. Names and expressions are bytes of the line.
#[derive(Clone, Copy)]
pub(crate) enum Effect<'a> {
    /// Nothing.
    Nothing,
    /// The path of a database.
    NamesDatabase(Side, &'a str),
    /// The level of the report.
    SetsLevel(Level),
    /// Whether a report option is on or off.
    SetsSwitch(Switch, bool),
    /// A report option that is a set, and the expression that means this set.
    SetsAttributes(AttrList, &'a [u8]),
    /// The report options are fixed after this line.
    EndsOptions,
    /// A group's name and its expression.
    DefinesGroup(&'a [u8], &'a [u8]),
}

/// Returns what a line says after its expansion, or the fault that its bytes show by themselves.
/// The line is stripped, is no comment and is not too long.
#[tactic(auto, unfolding(crate::specs::Effect::kept_effect))]
pub(crate) fn kept_effect(line: &[u8]) -> Result<Effect<'_>, ConfFaultKind>
    ensures says { effect_or_fault result ≡ kept_effect line.now }
    ensures named { IfOk result (λ effect. IsNamedWell effect) }
{
    if is_selection(line) {
        return Ok(Effect::Nothing);
    }
    let Some((before, after)) = at_equals(line) else {
        return Err(ConfFaultKind::BadLine);
    };
    assigned(strip(before), strip(after))
}

/// Returns what a name and its value say.
fn assigned<'a>(name: &'a [u8], value: &'a [u8]) -> Result<Effect<'a>, ConfFaultKind>
    ensures says { effect_or_fault result ≡ assigned (option_named name.now) name.now value.now }
    ensures named { IfOk result (λ effect. IsNamedWell effect) }
{
    match option_named(name) {
        Some(kind) => {
            if value.is_empty() {
                Err(ConfFaultKind::BadValue)
            } else {
                value_effect(kind, value)
            }
        }
        None => {
            if is_group_name(name) {
                Ok(Effect::DefinesGroup(name, value))
            } else {
                Err(ConfFaultKind::BadName)
            }
        }
    }
}

/// Returns what the value of an option says. The value is not empty.
#[tactic(auto, unfolding(crate::specs::Effect::value_effect))]
fn value_effect(kind: OptionKind, value: &[u8]) -> Result<Effect<'_>, ConfFaultKind>
    ensures says { effect_or_fault result ≡ value_effect kind value.now }
    ensures named { IfOk result (λ effect. IsNamedWell effect) }
{
    match kind {
        OptionKind::Url(side) => url_effect(side, value),
        OptionKind::Level => match Level::from_name(value) {
            Some(level) => Ok(Effect::SetsLevel(level)),
            None => Err(ConfFaultKind::BadValue),
        },
        OptionKind::Flag(switch) => match bool_named(value) {
            Some(on) => Ok(Effect::SetsSwitch(switch, on)),
            None => Err(ConfFaultKind::BadValue),
        },
        OptionKind::Attributes(list) => Ok(Effect::SetsAttributes(list, value)),
        OptionKind::ReportUrl => {
            if value == b"stdout".as_slice() {
                Ok(Effect::EndsOptions)
            } else {
                Ok(Effect::Nothing)
            }
        }
        OptionKind::ReportFormat => format_effect(value),
        OptionKind::Accepted => Ok(Effect::Nothing),
        OptionKind::Older => Err(ConfFaultKind::LeftOut),
    }
}

/// Returns what the value of `report_format` says.
fn format_effect(value: &[u8]) -> Result<Effect<'_>, ConfFaultKind>
    ensures says { effect_or_fault result ≡ format_effect value.now }
    ensures named { IfOk result (λ effect. IsNamedWell effect) }
{
    if value == b"json".as_slice() {
        Err(ConfFaultKind::LeftOut)
    } else if value == b"plain".as_slice() {
        Ok(Effect::Nothing)
    } else {
        Err(ConfFaultKind::BadValue)
    }
}

ghost use Rattle.aide_conf.specs.Effect.{format_effect, url_effect};

/// Returns what the URL of a database says.
fn url_effect(side: Side, value: &[u8]) -> Result<Effect<'_>, ConfFaultKind>
    ensures says { effect_or_fault result ≡ url_effect side value.now }
    ensures named { IfOk result (λ effect. IsNamedWell effect) }
{
    if is_left_out(value) {
        return Err(ConfFaultKind::LeftOut);
    }
    let Some(path) = path_of(value) else {
        return Err(ConfFaultKind::BadUrl);
    };
    if path.len() > LONGEST_VALUE {
        return Err(ConfFaultKind::ValueTooLong);
    }
    Ok(Effect::NamesDatabase(side, path))
}
