//! Writes what an accepted configuration says.
ghost use Rattle.std.specs.Prelude.{◌≡◌, option_map};
ghost use Rattle.aide_json.specs.Object.{joined};
ghost use Rattle.aide_json.specs.Value.{texts_of};
ghost use Rattle.aide_line_text.specs.Settings.{set_members, settings_line, switch_members};
ghost use Rattle.aide_text.specs.PenSheet.{on_sheet};
ghost use Rattle.aide_text.specs.Sheet.{Wrote};

use crate::members::{put_attrs, put_path, put_truth};
use aide_attr::Ignore;
use aide_conf::Options;
use aide_json::{put_count_member, put_word_member};
use aide_text::{Pen, Sink, put};

/// Writes the options that are on or off, by their names in configurations.
fn put_switches<W: Sink>(out: &mut W, pen: &mut Pen, options: &Options)
    ensures { Wrote (joined (texts_of (switch_members options.now)))
        (on_sheet W.Sink out.old pen.old) (on_sheet W.Sink out.new pen.new) }
{
    // All fields are named, so an option that is new there is not forgotten here.
    let Options {
        level: _,
        grouped,
        summarize,
        base16,
        quiet,
        ignore: _,
    } = *options;
    put_truth(out, pen, b"report_grouped", grouped);
    put(out, pen, b",");
    put_truth(out, pen, b"report_summarize_changes", summarize);
    put(out, pen, b",");
    put_truth(out, pen, b"report_base16", base16);
    put(out, pen, b",");
    put_truth(out, pen, b"report_quiet", quiet);
}

/// Writes the sets of attributes that are ignored or forced, by their names in configurations.
fn put_sets<W: Sink>(out: &mut W, pen: &mut Pen, ignore: &Ignore)
    ensures { Wrote (joined (texts_of (set_members ignore.now)))
        (on_sheet W.Sink out.old pen.old) (on_sheet W.Sink out.new pen.new) }
{
    let Ignore {
        added,
        removed,
        changed,
        force,
    } = *ignore;
    put_attrs(out, pen, b"report_ignore_added_attrs", added);
    put(out, pen, b",");
    put_attrs(out, pen, b"report_ignore_removed_attrs", removed);
    put(out, pen, b",");
    put_attrs(out, pen, b"report_ignore_changed_attrs", changed);
    put(out, pen, b",");
    put_attrs(out, pen, b"report_force_attrs", force);
}

/// Writes what a configuration says: the paths of both databases, if it names them, and the options of the report.
pub fn put_settings_line<W: Sink>(
    out: &mut W,
    pen: &mut Pen,
    options: &Options,
    old_path: Option<&[u8]>,
    new_path: Option<&[u8]>,
)
    ensures { Wrote (settings_line options.now (option_map (λ p. p.now) old_path.entry)
        (option_map (λ p. p.now) new_path.entry))
        (on_sheet W.Sink out.old pen.old) (on_sheet W.Sink out.new pen.new) }
{
    put(out, pen, b"{");
    put_count_member(out, pen, b"format", 3);
    put(out, pen, b",");
    put_path(out, pen, b"database_in", old_path);
    put(out, pen, b",");
    put_path(out, pen, b"database_new", new_path);
    put(out, pen, b",");
    put_word_member(out, pen, b"report_level", options.level.name());
    put(out, pen, b",");
    put_switches(out, pen, options);
    put(out, pen, b",");
    put_sets(out, pen, &options.ignore);
    put(out, pen, b"}\n");
}
