//! Settings in the making: what the lines read so far have set.

ghost use Rattle.std.specs.Prelude.{◌≡◌, ℕ, Bool, List, [], true, IfOk, IfErr, OnOk};
ghost use Rattle.aide_conf.specs.declared.fault.ConfFaultKind.TheVariants.{Memory};
ghost use Rattle.aide_attr.specs.Expression.{IsMeaning};
ghost use Rattle.aide_attr.specs.Groups.{names_of, meaning_of};
ghost use Rattle.aide_attr.specs.Name.{is_group_name};
ghost use Rattle.aide_conf.specs.code.Returned.{IsNamedWell, effect_of};
ghost use Rattle.aide_conf.specs.Marks.{Marked};
ghost use Rattle.aide_conf.specs.code.Builder.{IsBuiltFrom, TakesEffect, unless_fixed, with_level};
ghost use Rattle.aide_conf.specs.code.Builder.{with_switch, with_attrs};
ghost use Rattle.aide_conf.specs.code.Builder.{NamesPath, HasNewGroup, IsMisjudged, HasNoRoom};

use crate::effect::Effect;
use crate::fault::ConfFaultKind;
use crate::option_kind::Side;
use crate::options::{AttrList, Options, Switch};
use aide_attr::{AttrSet, ExprFault, GroupFault, Groups, Level, NameMap};
use std::alloc::Allocator;

/// Settings in the making, with the groups and the variables by which the next line is read.
#[derive(Drop)]
pub(crate) struct SettingsBuilder<A: Allocator> {
    pub(crate) groups: Groups<A>,
    /// The values of the variables that are defined.
    pub(crate) variables: NameMap<Vec<u8, A>, A>,
    pub(crate) options: Options,
    /// Whether `report_url=stdout` has come.
    pub(crate) fixed: bool,
    pub(crate) old_path: Option<String<A>>,
    pub(crate) new_path: Option<String<A>>,
    pub(crate) alloc: A,
}

impl<A: Allocator + Copy> SettingsBuilder<A> {
    /// Returns the state before the first line.
    pub(crate) fn new(alloc: A) -> SettingsBuilder<A>
        ensures { IsBuiltFrom [] result }
    {
        SettingsBuilder {
            groups: Groups::new(alloc),
            variables: NameMap::new(alloc),
            options: Options::plain(),
            fixed: false,
            old_path: None,
            new_path: None,
            alloc,
        }
    }

    /// Sets the level, unless the report options are fixed.
    fn set_level(&mut self, level: Level)
        ensures { self.new ≡ unless_fixed self.old (with_level level self.old.options) }
    {
        if !self.fixed {
            self.options.level = level;
        }
    }

    /// Sets a switch, unless the report options are fixed.
    fn set_switch(&mut self, switch: Switch, on: bool)
        ensures { self.new ≡ unless_fixed self.old (with_switch switch on self.old.options) }
    {
        if self.fixed {
            return;
        }
        self.options.set_switch(switch, on);
    }

    /// Sets a set of attributes, unless the report options are fixed.
    fn set_attributes(&mut self, list: AttrList, set: AttrSet)
        ensures { self.new ≡ unless_fixed self.old (with_attrs list set self.old.options) }
    {
        if self.fixed {
            return;
        }
        self.options.set_attributes(list, set);
    }

    /// Keeps the path of a database.
    fn name_database(&mut self, side: Side, path: &str) -> Result<(), ConfFaultKind>
        ensures ok { OnOk result (NamesPath side path.now self.old self.new) }
        ensures err { IfErr result (λ kind. kind ≡ Memory) }
    {
        let Ok(copy) = String::from_str(self.alloc, path) else {
            return Err(ConfFaultKind::Memory);
        };
        match side {
            Side::Old => self.old_path = Some(copy),
            Side::New => self.new_path = Some(copy),
        }
        Ok(())
    }

    /// Returns what an expression means with the groups defined so far.
    fn judge(&self, text: &[u8]) -> Result<AttrSet, ConfFaultKind>
        ensures ok { IfOk result (λ set.
            IsMeaning (meaning_of (names_of self.now.groups)) text.now set) }
        ensures err { IfErr result (λ kind.
            IsMisjudged (meaning_of (names_of self.now.groups)) text.now kind) }
    {
        match self.groups.eval(text) {
            Ok(set) => Ok(set),
            Err(ExprFault::UnknownName { at: _ }) => Err(ConfFaultKind::UnknownAttribute),
            Err(ExprFault::BadExpression { at: _ }) => Err(ConfFaultKind::BadExpression),
        }
    }

    /// Gives a set to a group.
    fn define_group(&mut self, name: &[u8], set: AttrSet) -> Result<(), ConfFaultKind>
        requires { is_group_name name.now ≡ true }
        ensures ok { OnOk result (HasNewGroup name.now set self.old self.new) }
        ensures err { IfErr result (λ kind. HasNoRoom name.now self.old kind) }
    {
        match self.groups.define(name, set) {
            Ok(()) => Ok(()),
            Err(GroupFault::BadName) => Err(ConfFaultKind::BadName),
            Err(GroupFault::Full) => Err(ConfFaultKind::TooMany),
            Err(GroupFault::Memory) => Err(ConfFaultKind::Memory),
        }
    }

    /// Applies what a line says.
    pub(crate) fn take_effect(&mut self, effect: Effect<'_>) -> Result<(), ConfFaultKind>
        requires { IsNamedWell effect }
        ensures { (earlier : List Marked) (depth : ℕ) (divided : Bool)
            → IsBuiltFrom earlier self.old
            → TakesEffect earlier depth divided (effect_of effect.entry) self.new result }
    {
        match effect {
            Effect::Nothing => Ok(()),
            Effect::NamesDatabase(side, path) => self.name_database(side, path),
            Effect::SetsLevel(level) => {
                self.set_level(level);
                Ok(())
            }
            Effect::SetsSwitch(switch, on) => {
                self.set_switch(switch, on);
                Ok(())
            }
            Effect::SetsAttributes(list, text) => match self.judge(text) {
                Ok(set) => {
                    self.set_attributes(list, set);
                    Ok(())
                }
                Err(kind) => Err(kind),
            },
            Effect::EndsOptions => {
                self.fixed = true;
                Ok(())
            }
            Effect::DefinesGroup(name, text) => match self.judge(text) {
                Ok(set) => self.define_group(name, set),
                Err(kind) => Err(kind),
            },
        }
    }
}
