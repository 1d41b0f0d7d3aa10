// The steps of a plan.
ghost use Rattle.std.specs.Prelude.{◌≡◌, ◌<◌, ◌&&◌, ◌++◌, [], ℕ, List, map, length, All, IfOk};
ghost use Rattle.std.specs.Prelude.{OnOk};
ghost use Rattle.std.specs.List.{flat_map};
ghost use Rattle.name_table.specs.FirstSeen.{is_among};
ghost use Rattle.dependency_lines.specs.Modules.{name_at, path_at};
ghost use Rattle.plan_sources.specs.Sources.{modules};
ghost use Rattle.plan_builder.specs.Requested.{found_for, is_member};
ghost use Rattle.plan_sources.specs.Planner.{sources_of};
ghost use Rattle.plan_builder.specs.Tables.{byte_texts};
ghost use Rattle.plan_builder.specs.Steps.{rule_options, options_of, module_step, own_step};
ghost use Rattle.plan_builder.specs.Steps.{own_step_unless, own_steps};
ghost use Rattle.plan_builder.specs.Ends.{RisingEnds, steps_by};

use crate::members::{insert_all, member_names};
use crate::request::Request;
use crate::step::{PlanStep, PlanSteps};
use km_names::{Blob, Name, Names, PathText};
use modprobe_conf::Rule;
use name_lookup::Found;
use name_table::NameSet;
use plan_order::GroupedOrder;
use planned_modules::{Planner, RuleTable, chosen_command};
use std::alloc::{AllocError, Global};

/// Makes the steps of requested names, whose groups end at some places of an order, and then the
/// steps of the rest of the order.
pub(crate) fn all_steps(
    alloc: Global,
    planner: &Planner<'_>,
    request: &Request,
    founds: &[Found],
    plan: &GroupedOrder,
) -> Result<PlanSteps, AllocError>
    requires long { length plan.now.ends.items ≡ length founds.now }
    requires ends { RisingEnds plan.now.ends.items (length plan.now.order.items) }
    requires order { All (λ y. y < length (modules (sources_of planner.now)))
        plan.now.order.items }
    requires founds { founds.now ≡ found_for (sources_of planner.now) request.now }
    ensures { IfOk result (λ steps. steps ≡ steps_by (sources_of planner.now) request.now [] 0
        founds.now plan.now.ends.items plan.now.order.items) }
{
    let members = member_names(alloc, founds)?;
    let stepping = Stepping {
        alloc,
        planner,
        request,
        members: &members,
    };
    stepping.steps_of(founds, plan)
}

/// What the steps of a request are made from.
#[derive(Drop)]
struct Stepping<'a> {
    alloc: Global,
    planner: &'a Planner<'a>,
    request: &'a Request,
    /// The names that the requested names are resolved to.
    members: &'a NameSet<'a>,
    ghost are_members: { (name : List ℕ) → is_among members.now name
        ≡ is_member (sources_of planner.now) request.now name },
}

impl Stepping<'_> {
    /// Returns the parameters that a module is loaded with.
    fn options_of(&self, name: &[u8]) -> Result<Blob, AllocError>
        ensures { IfOk result (λ options. options
            ≡ options_of (sources_of self.now.planner.now) self.now.request.now name.now) }
    {
        let mut texts = rule_texts(self.alloc, self.planner.rules(), name)?;
        if !self.request.options.is_empty() && self.members.contains(name) {
            texts.push(self.request.options.as_bytes())?;
        }
        Blob::spaced(self.alloc, &texts)
    }

    /// Returns whether commands are ignored for the module of this name.
    fn is_ignored(&self, name: &[u8]) -> bool
        ensures { result ≡ (self.now.request.now.ignore_install
            && is_member (sources_of self.now.planner.now) self.now.request.now name.now) }
    {
        self.request.ignore_install && self.members.contains(name)
    }

    /// Makes the step of a module.
    fn module_step(&self, place: usize) -> Result<PlanStep, AllocError>
        requires { place < length (modules (sources_of self.now.planner.now)) }
        ensures { IfOk result (λ step. step
            ≡ module_step (sources_of self.now.planner.now) self.now.request.now place) }
    {
        let name = self.planner.modules().name(place);
        match chosen_command(self.planner.rules(), self.is_ignored(name), name) {
            Some(command) => command_step(self.alloc, name, command),
            None => self.insert_step(place),
        }
    }

    /// Makes the step that loads a module.
    fn insert_step(&self, place: usize) -> Result<PlanStep, AllocError>
        requires { place < length (modules (sources_of self.now.planner.now)) }
        ensures { IfOk result (λ step. step
            ≡ PlanStep.Insert (name_at (modules (sources_of self.now.planner.now)) place)
            (path_at (modules (sources_of self.now.planner.now)) place)
            (options_of (sources_of self.now.planner.now) self.now.request.now
            (name_at (modules (sources_of self.now.planner.now)) place))) }
    {
        let name = self.planner.modules().name(place);
        Ok(PlanStep::Insert {
            name: Name::from_slice(self.alloc, name)?,
            path: PathText::from_slice(self.alloc, self.planner.modules().path(place))?,
            options: self.options_of(name)?,
        })
    }

    /// Adds the steps of some modules.
    fn push_modules(&self, steps: &mut PlanSteps, places: &[usize]) -> Result<(), AllocError>
        requires { All (λ y. y < length (modules (sources_of self.now.planner.now))) places.now }
        ensures { OnOk result (steps.new ≡ steps.old
            ++ map (module_step (sources_of self.now.planner.now) self.now.request.now)
            places.now) }
    {
        for place in places {
            steps.push(self.module_step(*place)?)?;
        }
        Ok(())
    }

    /// Adds the step of a member that is no module.
    fn push_own_step(&self, steps: &mut PlanSteps, name: &[u8]) -> Result<(), AllocError>
        ensures { OnOk result (steps.new ≡ steps.old
            ++ own_step (sources_of self.now.planner.now) self.now.request.now name.now) }
    {
        if self.planner.modules().place(name).is_some() {
            return Ok(());
        }
        let ignored = self.request.ignore_install;
        if let Some(command) = chosen_command(self.planner.rules(), ignored, name) {
            return steps.push(command_step(self.alloc, name, command)?);
        }
        if self.planner.is_builtin(name) {
            return steps.push(PlanStep::Builtin {
                name: Name::from_slice(self.alloc, name)?,
            });
        }
        Ok(())
    }

    /// Adds the steps of those members of a list that are no modules and aren't among earlier
    /// names.
    fn push_own_steps(
        &self,
        steps: &mut PlanSteps,
        earlier: &NameSet<'_>,
        names: &Names,
    ) -> Result<(), AllocError>
        ensures { OnOk result (steps.new ≡ steps.old
            ++ own_steps (sources_of self.now.planner.now) self.now.request.now earlier.now
            names.now) }
    {
        for name in names.as_slice() {
            self.push_unless(steps, earlier, name.as_bytes())?;
        }
        Ok(())
    }

    fn push_unless(
        &self,
        steps: &mut PlanSteps,
        earlier: &NameSet<'_>,
        name: &[u8],
    ) -> Result<(), AllocError>
        ensures { OnOk result (steps.new ≡ steps.old
            ++ own_step_unless (sources_of self.now.planner.now) self.now.request.now earlier.now
            name.now) }
    {
        if earlier.contains(name) {
            return Ok(());
        }
        self.push_own_step(steps, name)
    }

    /// Adds the steps of requested names, whose groups end at some places of an order, and then the
    /// steps of the rest of the order. Members that are among earlier names are left out.
    fn push_groups_after<'n>(
        &self,
        steps: &mut PlanSteps,
        earlier: &mut NameSet<'n>,
        founds: &'n [Found],
        plan: &GroupedOrder,
    ) -> Result<(), AllocError>
        requires long { length plan.now.ends.items ≡ length founds.now }
        requires ends { RisingEnds plan.now.ends.items (length plan.now.order.items) }
        requires order { All (λ y. y < length (modules (sources_of self.now.planner.now)))
            plan.now.order.items }
        ensures { OnOk result (steps.new ≡ steps.old
            ++ steps_by (sources_of self.now.planner.now) self.now.request.now earlier.old 0
            founds.now plan.now.ends.items plan.now.order.items) }
    {
        let mut start = 0;
        for k in 0..founds.len() {
            let end = plan.ends[k];
            let names = &founds[k].names;
            let places = &plan.order[start..end];
            self.push_own_steps(steps, earlier, names)?;
            self.push_modules(steps, places)?;
            insert_all(earlier, names)?;
            start = end;
        }
        let places = &plan.order[start..];
        self.push_modules(steps, places)
    }

    /// Adds the steps of requested names, as [`Stepping::push_groups_after`] says, without earlier
    /// names.
    fn push_groups(
        &self,
        steps: &mut PlanSteps,
        founds: &[Found],
        plan: &GroupedOrder,
    ) -> Result<(), AllocError>
        requires long { length plan.now.ends.items ≡ length founds.now }
        requires ends { RisingEnds plan.now.ends.items (length plan.now.order.items) }
        requires order { All (λ y. y < length (modules (sources_of self.now.planner.now)))
            plan.now.order.items }
        ensures { OnOk result (steps.new ≡ steps.old
            ++ steps_by (sources_of self.now.planner.now) self.now.request.now [] 0 founds.now
            plan.now.ends.items plan.now.order.items) }
    {
        let mut earlier = NameSet::new(self.alloc);
        self.push_groups_after(steps, &mut earlier, founds, plan)
    }

    /// Makes the steps of requested names, whose groups end at some places of an order, and then
    /// the steps of the rest of the order.
    fn steps_of(&self, founds: &[Found], plan: &GroupedOrder) -> Result<PlanSteps, AllocError>
        requires long { length plan.now.ends.items ≡ length founds.now }
        requires ends { RisingEnds plan.now.ends.items (length plan.now.order.items) }
        requires order { All (λ y. y < length (modules (sources_of self.now.planner.now)))
            plan.now.order.items }
        ensures { IfOk result (λ steps. steps
            ≡ steps_by (sources_of self.now.planner.now) self.now.request.now [] 0 founds.now
            plan.now.ends.items plan.now.order.items) }
    {
        let mut steps = PlanSteps::new(self.alloc);
        self.push_groups(&mut steps, founds, plan)?;
        Ok(steps)
    }
}

/// Returns the parameters that rules have for the module of this name.
fn rule_texts<'a>(
    alloc: Global,
    rules: &'a RuleTable<'_>,
    name: &[u8],
) -> Result<Vec<&'a [u8]>, AllocError>
    ensures { IfOk result
        (λ texts. byte_texts texts.items ≡ flat_map (rule_options name.now) rules.now) }
{
    let mut texts = Vec::new(alloc);
    let own = rules.on(name);
    for rule in own {
        push_text(&mut texts, *rule, name)?;
    }
    Ok(texts)
}

/// Makes the step of a command.
fn command_step(alloc: Global, name: &[u8], command: &[u8]) -> Result<PlanStep, AllocError>
    ensures { IfOk result (λ step. step ≡ PlanStep.Install name.now command.now) }
{
    Ok(PlanStep::Install {
        name: Name::from_slice(alloc, name)?,
        command: Blob::from_slice(alloc, command)?,
    })
}

fn push_text<'a>(texts: &mut Vec<&'a [u8]>, rule: &'a Rule, wanted: &[u8]) -> Result<(), AllocError>
    ensures { OnOk result
        (byte_texts texts.new.items
        ≡ byte_texts texts.old.items ++ rule_options wanted.now rule.now) }
{
    match rule {
        Rule::Options { name, text } if name.as_bytes() == wanted => {
            texts.push(text.as_bytes())?;
            Ok(())
        }
        Rule::Options { .. }
        | Rule::Alias { .. }
        | Rule::Blacklist { .. }
        | Rule::Install { .. }
        | Rule::Remove { .. }
        | Rule::Softdep { .. } => Ok(()),
    }
}
