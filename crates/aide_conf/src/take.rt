//! The lines of a configuration, taken one after another.

ghost use Rattle.std.specs.Prelude.{◌≡◌, ◌≢◌, ℕ, List, Bool, [], Some, None, Err, true, false, not};
ghost use Rattle.std.specs.Prelude.{◌||◌, ◌&&◌};
ghost use Rattle.std.specs.Prelude.{nat_lt, length, OnOk, IsSome, is_none, if◌then◌else◌};
ghost use Rattle.aide_attr.specs.Name.{is_word};
ghost use Rattle.aide_conf.specs.declared.task.Need.{Need};
ghost use Rattle.aide_conf.specs.declared.task.Need.TheVariants.{Compare};
ghost use Rattle.aide_conf.specs.declared.fault.ConfText.{ConfText};
ghost use Rattle.aide_conf.specs.declared.fault.ConfText.TheVariants.{After};
ghost use Rattle.aide_conf.specs.declared.fault.ConfFaultKind.TheVariants.{Memory};
ghost use Rattle.aide_conf.specs.Limits.{deepest};
ghost use Rattle.aide_conf.specs.Cutting.{places_of, strip};
ghost use Rattle.aide_conf.specs.Effect.{OpensBlock, DividesBlock, ClosesBlock, expanded_effect};
ghost use Rattle.aide_conf.specs.declared.directive.Directive.TheVariants.{IfOther};
ghost use Rattle.aide_conf.specs.Directive.{directive_chooses, directive_grows, directive_effect};
ghost use Rattle.aide_conf.specs.Directive.{directive_text, set_effect, role_of, unset_effect};
ghost use Rattle.aide_conf.specs.code.Returned.{as_lists};
ghost use Rattle.aide_conf.specs.code.Replacing.{expansion_after};
ghost use Rattle.aide_conf.specs.Marks.{Marked};
ghost use Rattle.aide_conf.specs.MarkedBlocks.{seen_in};
ghost use Rattle.aide_conf.specs.MarkedVariables.{is_defined, value};
ghost use Rattle.aide_conf.specs.code.PlaceFault.{line_fault, missing};
ghost use Rattle.aide_conf.specs.code.Stack.{IsOpen, closed_at, divided_at, frames_after};
ghost use Rattle.aide_conf.specs.code.Stack.{frames_of, opened, top_divided, top_used};
ghost use Rattle.aide_conf.specs.code.Builder.{IsBuiltFrom, IsAnswered, TakesAll, TakesOne};
ghost use Rattle.aide_conf.specs.code.Builder.{TakesEffect, fault_of, place_at};

use crate::blocks::Blocks;
use crate::builder::SettingsBuilder;
use crate::directive::{Directive, read_directive};
use crate::effect::kept_effect;
use crate::expansion::{Expanded, LONGEST_LINE, expand_line, expand_value};
use crate::fault::{ConfFault, ConfFaultKind, ConfText};
use crate::line::{cut_line, is_directive, is_skipped, strip};
use crate::task::Need;
use aide_attr::{NameMapFault, is_word};
use std::alloc::Allocator;

/// The most blocks that may be open.
const DEEPEST: usize = 32;

impl<A: Allocator + Copy> SettingsBuilder<A> {
    /// Takes a line after its expansion. The line is no directive.
    fn take_plain(&mut self, line: &[u8]) -> Result<(), ConfFaultKind>
        ensures { (earlier : List Marked) (depth : ℕ) (divided : Bool)
            → IsBuiltFrom earlier self.old
            → TakesEffect earlier depth divided (expanded_effect
            (strip (expansion_after (value earlier) 0 line.now))) self.new result }
    {
        match expand_line(self.alloc, line, &self.variables) {
            Err(_) => Err(ConfFaultKind::Memory),
            Ok(Expanded::Skipped) => Ok(()),
            Ok(Expanded::TooLong) => Err(ConfFaultKind::LineTooLong),
            Ok(Expanded::Line(bytes)) => match kept_effect(bytes.as_slice()) {
                Ok(effect) => self.take_effect(effect),
                Err(kind) => Err(kind),
            },
        }
    }

    /// Gives a variable the expansion of a text as its value.
    fn define_variable(&mut self, name: &[u8], text: &[u8]) -> Result<(), ConfFaultKind>
        ensures memory { result ≡ Err Memory → is_word name.now ≡ true }
        ensures taken { (earlier : List Marked) (depth : ℕ) (divided : Bool)
            → IsBuiltFrom earlier self.old
            → TakesEffect earlier depth divided
            (set_effect name.now (expansion_after (value earlier) 0 text.now)) self.new result }
    {
        if !is_word(name) {
            return Err(ConfFaultKind::BadName);
        }
        match expand_value(self.alloc, text, &self.variables) {
            Err(_) => Err(ConfFaultKind::Memory),
            Ok(None) => Err(ConfFaultKind::ValueTooLong),
            Ok(Some(value)) => match self.variables.define(name, value) {
                Ok(()) => Ok(()),
                Err(NameMapFault::Full) => Err(ConfFaultKind::TooMany),
                Err(NameMapFault::Memory) => Err(ConfFaultKind::Memory),
            },
        }
    }

    /// Removes a variable.
    fn drop_variable(&mut self, name: &[u8]) -> Result<(), ConfFaultKind>
        ensures memory { result ≢ Err Memory }
        ensures taken { (earlier : List Marked) (depth : ℕ) (divided : Bool)
            → IsBuiltFrom earlier self.old
            → TakesEffect earlier depth divided (unset_effect name.now) self.new result }
    {
        if !is_word(name) {
            return Err(ConfFaultKind::BadName);
        }
        self.variables.remove(name);
        Ok(())
    }

    /// Returns whether a variable is defined.
    fn is_defined(&self, name: &[u8]) -> bool
        ensures { (earlier : List Marked) → IsBuiltFrom earlier self.now
            → result ≡ is_defined earlier name.now }
    {
        self.variables.look(name).is_some()
    }

    /// Takes a directive.
    fn take_directive(
        &mut self,
        blocks: &mut Blocks<A>,
        directive: Directive<&[u8]>,
    ) -> Result<(), ConfFaultKind>
        ensures taken { (earlier : List Marked) → IsBuiltFrom earlier self.old
            → TakesEffect earlier (length (frames_of blocks.old))
            (top_divided (frames_of blocks.old))
            (directive_effect (top_used (frames_of blocks.old)) (as_lists directive.entry)
            (expansion_after (value earlier) 0 (directive_text [] (as_lists directive.entry))))
            self.new result }
        ensures memory { result ≡ Err Memory
            → directive_grows (top_used (frames_of blocks.old)) (length (frames_of blocks.old))
            (as_lists directive.entry) ≡ true }
        ensures blocks { (earlier : List Marked) → IsBuiltFrom earlier self.old
            → OnOk result (frames_of blocks.new
            ≡ frames_after (role_of (as_lists directive.entry)) (top_used (frames_of blocks.old))
            (directive_chooses (is_defined earlier) (as_lists directive.entry))
            (frames_of blocks.old)) }
    {
        let used = blocks.is_used();
        match directive {
            Directive::Define(name, text) => {
                if used {
                    self.define_variable(name, text)
                } else {
                    Ok(())
                }
            }
            Directive::Undef(name) => {
                if used {
                    self.drop_variable(name)
                } else {
                    Ok(())
                }
            }
            Directive::IfDef(name) => {
                let first = self.is_defined(name);
                open_block(blocks, name, first)
            }
            Directive::IfNotDef(name) => {
                let first = !self.is_defined(name);
                open_block(blocks, name, first)
            }
            Directive::IfOther => open_other(blocks),
            Directive::Else => divide_block(blocks),
            Directive::EndIf => close_block(blocks),
            Directive::Omitted(begins_with_if) => refuse(
                used,
                begins_with_if,
                ConfFaultKind::LeftOut,
            ),
            Directive::Unknown(begins_with_if) => refuse(
                used,
                begins_with_if,
                ConfFaultKind::BadDirective,
            ),
        }
    }

    /// Takes a stripped line.
    fn take_line(&mut self, blocks: &mut Blocks<A>, line: &[u8]) -> Result<(), ConfFaultKind>
        ensures { (need : Need) (earlier : List Marked) (text : ConfText) (n : ℕ)
            → IsBuiltFrom earlier self.old
            → IsOpen (seen_in text earlier) (frames_of blocks.old)
            → TakesOne need earlier (place_at text n (Some line.now)) self.new
            (frames_of blocks.new) result }
    {
        if is_skipped(line) {
            return Ok(());
        }
        let used = blocks.is_used();
        if used && line.len() > LONGEST_LINE {
            return Err(ConfFaultKind::LineTooLong);
        }
        if is_directive(line) {
            return self.take_directive(blocks, read_directive(&line[2..]));
        }
        if !used {
            return Ok(());
        }
        self.take_plain(line)
    }

    /// Takes the end of a text.
    fn take_end(&self, blocks: &Blocks<A>, text: ConfText, need: Need) -> Result<(), ConfFaultKind>
        ensures taken { (earlier : List Marked) (n : ℕ) → IsBuiltFrom earlier self.now
            → IsOpen (seen_in text earlier) (frames_of blocks.now)
            → TakesOne need earlier (place_at text n None) self.now (frames_of blocks.now) result }
        ensures named { need ≡ Compare → text ≡ After
            → OnOk result (IsSome self.now.old_path × IsSome self.now.new_path) }
    {
        if blocks.depth() > 0 {
            return Err(ConfFaultKind::MissingEndif);
        }
        match need {
            Need::Check => Ok(()),
            Need::Compare => match text {
                ConfText::Before => Ok(()),
                ConfText::File => Ok(()),
                ConfText::After => self.need_databases(),
            },
        }
    }

    /// Refuses settings that do not name both databases.
    fn need_databases(&self) -> Result<(), ConfFaultKind>
        ensures lacks { fault_of result
            ≡ missing (is_none self.now.old_path) (is_none self.now.new_path) }
        ensures named { OnOk result (IsSome self.now.old_path × IsSome self.now.new_path) }
    {
        if self.old_path.is_none() {
            return Err(ConfFaultKind::NoOldDatabase);
        }
        if self.new_path.is_none() {
            return Err(ConfFaultKind::NoNewDatabase);
        }
        Ok(())
    }

    /// Takes the lines of a text, and its end. A block ends in the text in which it began.
    pub(crate) fn take_text(
        &mut self,
        text: ConfText,
        bytes: &[u8],
        need: Need,
    ) -> Result<(), ConfFault>
        ensures taken { (earlier : List Marked) → seen_in text earlier ≡ []
            → IsBuiltFrom earlier self.old
            → TakesAll need earlier (places_of text bytes.now) self.new result }
        ensures named { need ≡ Compare → text ≡ After
            → OnOk result (IsSome self.new.old_path × IsSome self.new.new_path) }
    {
        let mut blocks = Blocks::new(self.alloc);
        let mut rest = bytes;
        let mut line: u64 = 1;
        'lines: while !rest.is_empty() {
            let (front, more) = cut_line(rest);
            if let Err(kind) = self.take_line(&mut blocks, strip(front)) {
                return Err(ConfFault { text, line, kind });
            }
            rest = more;
            line += 1;
        }
        match self.take_end(&blocks, text, need) {
            Ok(()) => Ok(()),
            Err(kind) => Err(ConfFault { text, line, kind }),
        }
    }
}

/// Refuses a directive that is in a used part, or whose word begins with `if`.
fn refuse(used: bool, begins_with_if: bool, kind: ConfFaultKind) -> Result<(), ConfFaultKind>
    ensures memory { kind ≢ Memory → result ≢ Err Memory }
    ensures answered { IsAnswered (if used || begins_with_if then Some kind else None) result }
{
    if used || begins_with_if {
        return Err(kind);
    }
    Ok(())
}

/// Opens a block that chooses its first part or not. In an unused part the name is not checked.
fn open_block<A: Allocator + Copy>(
    blocks: &mut Blocks<A>,
    name: &[u8],
    first: bool,
) -> Result<(), ConfFaultKind>
    ensures answered { IsAnswered (line_fault [] (length (frames_of blocks.old))
        (top_divided (frames_of blocks.old))
        (OpensBlock (not (top_used (frames_of blocks.old)) || is_word name.now)) None) result }
    ensures memory { result ≡ Err Memory
        → (nat_lt (length (frames_of blocks.old)) deepest
        && (not (top_used (frames_of blocks.old)) || is_word name.now)) ≡ true }
    ensures opened { OnOk result (frames_of blocks.new
        ≡ opened (top_used (frames_of blocks.old)) first (frames_of blocks.old)) }
{
    if blocks.depth() >= DEEPEST {
        return Err(ConfFaultKind::TooDeep);
    }
    let used = blocks.is_used();
    if used && !is_word(name) {
        return Err(ConfFaultKind::BadName);
    }
    match blocks.open(used, first) {
        Ok(()) => Ok(()),
        Err(_) => Err(ConfFaultKind::Memory),
    }
}

/// Opens a block whose condition is malformed. Such a block is refused in a used part.
fn open_other<A: Allocator + Copy>(blocks: &mut Blocks<A>) -> Result<(), ConfFaultKind>
    ensures answered { IsAnswered (line_fault [] (length (frames_of blocks.old))
        (top_divided (frames_of blocks.old))
        (directive_effect (top_used (frames_of blocks.old)) (Some IfOther) []) None) result }
    ensures memory { result ≡ Err Memory
        → (nat_lt (length (frames_of blocks.old)) deepest
        && not (top_used (frames_of blocks.old))) ≡ true }
    ensures opened { OnOk result (frames_of blocks.new
        ≡ opened (top_used (frames_of blocks.old)) false (frames_of blocks.old)) }
{
    if blocks.is_used() {
        return Err(ConfFaultKind::BadDirective);
    }
    open_block(blocks, b"".as_slice(), false)
}

/// Begins the second part of the innermost block.
fn divide_block<A: Allocator + Copy>(blocks: &mut Blocks<A>) -> Result<(), ConfFaultKind>
    ensures answered { IsAnswered (line_fault [] (length (frames_of blocks.old))
        (top_divided (frames_of blocks.old)) DividesBlock None) result }
    ensures memory { result ≢ Err Memory }
    ensures divided { OnOk result (frames_of blocks.new ≡ divided_at (frames_of blocks.old)) }
{
    if blocks.depth() == 0 || blocks.is_divided() {
        return Err(ConfFaultKind::StrayElse);
    }
    blocks.divide();
    Ok(())
}

/// Closes the innermost block.
fn close_block<A: Allocator + Copy>(blocks: &mut Blocks<A>) -> Result<(), ConfFaultKind>
    ensures answered { IsAnswered (line_fault [] (length (frames_of blocks.old))
        (top_divided (frames_of blocks.old)) ClosesBlock None) result }
    ensures memory { result ≢ Err Memory }
    ensures closed { OnOk result (frames_of blocks.new ≡ closed_at (frames_of blocks.old)) }
{
    if blocks.depth() == 0 {
        return Err(ConfFaultKind::StrayEndif);
    }
    blocks.close();
    Ok(())
}
