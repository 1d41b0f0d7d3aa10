// The rules of a configuration, by the modules that they are on.
ghost use Rattle.std.specs.Prelude.{◌≡◌, filter, IfOk, option_map};
ghost use Rattle.plan_sources.specs.Rules.{owner, is_on, shown_rules};

use modprobe_conf::{Rule, Rules};
use name_lookup::NameGroups;
use std::alloc::{AllocError, Global};
use std::marker::Model;

/// Rules, and for the name of each module those on it, so that they are found without looking
/// through all. Contracts see the list of rules.
#[derive(Drop)]
pub struct RuleTable<'a> {
    rules: &'a Rules,
    groups: NameGroups<'a, &'a Rule>,
}

impl<'a> Model for RuleTable<'a> {
    ghost use Rattle.std.specs.Prelude.{List};
    ghost use Rattle.modprobe_conf.specs.declared.rule.Rule.{Rule};
    ghost use Rattle.plan_sources.specs.Kept.{IsGrouped};

    ghost Value = { List Rule };

    ghost view = { λ t. t.rules.now };

    ghost invariant = { λ t. IsGrouped t.groups t.rules.now };
}

impl<'a> RuleTable<'a> {
    /// Makes the table of some rules.
    pub(crate) fn new(alloc: Global, rules: &'a Rules) -> Result<RuleTable<'a>, AllocError>
        ensures { IfOk result (λ table. table ≡ rules.now) }
    {
        let mut groups = NameGroups::new(alloc);
        for rule in rules.as_slice() {
            if let Some(name) = owner(rule) {
                groups.push(alloc, name, rule)?;
            }
        }
        Ok(RuleTable { rules, groups })
    }

    /// Returns all rules, in order.
    pub fn all(&self) -> &'a Rules
        ensures { result.now ≡ self.now }
    {
        self.rules
    }

    /// Returns the rules on the module of this name, in order.
    pub fn on(&self, name: &[u8]) -> &[&'a Rule]
        ensures { shown_rules result.now ≡ filter (is_on name.now) self.now }
    {
        self.groups.of(name)
    }
}

/// Returns the module that the rule is on, if plans ask for rules on it.
fn owner(rule: &Rule) -> Option<&[u8]>
    ensures { option_map (λ name. name.now) result ≡ owner rule.now }
{
    match rule {
        Rule::Options { name, .. } | Rule::Install { name, .. } | Rule::Softdep { name, .. } => {
            Some(name.as_bytes())
        }
        Rule::Alias { .. } | Rule::Blacklist { .. } | Rule::Remove { .. } => None,
    }
}
