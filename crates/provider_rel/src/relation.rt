// The relation of a tree.
ghost use Rattle.std.specs.Prelude.{◌≡◌, ◌<◌, ◌⊎◌, ◌^◌, [], ◌∷◌, Some, None, length, map};
ghost use Rattle.std.specs.Prelude.{slice_get, All, IfOk, IfErr, OnOk};
ghost use Rattle.std.specs.List.{sum_by};
ghost use Rattle.km_names.specs.First.{first};
ghost use Rattle.name_table.specs.NameTable.{IsTableOf};
ghost use Rattle.symbol_binding.specs.Unmet.{unmet};
ghost use Rattle.relation_order.specs.Sets.{below};
ghost use Rattle.relation_order.specs.Cycle.{cycle};
ghost use Rattle.provider_rel.specs.Faces.{modules_of, kernel_of};
ghost use Rattle.provider_rel.specs.Tree.{IsTree};
ghost use Rattle.provider_rel.specs.Relation.{uses_at, name_at, cycle_fault, deps_fault};
ghost use Rattle.provider_rel.specs.Relation.{doubles_fault, dependencies, relation_fault};
ghost use Rattle.provider_rel.specs.Seen.{provider_by, places_of, closures_by, obstacles_by};
ghost use Rattle.provider_rel.specs.Seen.{IsRelation};
ghost use Rattle.provider_rel.specs.Items.{item_answer, item_name, item_doubles, answer_at};
ghost use Rattle.provider_rel.specs.Bindings.{AreBindings};

use crate::bindings::{Bindings, all_used};
use crate::doubles::{count_doubles, push_doubles};
use crate::items::ExportItem;
use crate::unmet::push_need_lines;
use crate::{Provider, RelationFault, TreeFacts};
use kernel_exports::Kernel;
use km_names::{List, Name, Names, TreeIndex};
use name_table::OwnedNameTable;
use relation_order::{Closures, OrderOrCycle, all_members, order_or_cycle};
use std::alloc::{AllocError, Global};
use symbol_binding::Obstacles;

/// Modules of a tree, by their places.
pub type Order = List<TreeIndex>;

/// The relation of a tree over a kernel: who provides a name, what each module depends on, and the
/// lines of modules.unmet. modules.dep(5).
#[derive(Drop)]
pub struct Relation {
    known: bool,
    names: OwnedNameTable,
    owners: Vec<Provider>,
    closures: Vec<Order>,
    unmet: Obstacles,
}

/// Returns the owner of an export as an answer.
fn owner(item: &ExportItem) -> Provider
    ensures { result ≡ item_answer item.now }
{
    match item.place() {
        Some(place) => Provider::Module(TreeIndex(place)),
        None => Provider::Kernel,
    }
}

/// Lists the owners of exports.
fn owners(alloc: Global, items: &[ExportItem]) -> Result<Vec<Provider>, AllocError>
    ensures { IfOk result (λ owners. owners.items ≡ map item_answer items.now) }
{
    items.iter().map(|item| owner(item)).collect(alloc)
}

/// Lists the names of the modules at some places.
fn names_at(alloc: Global, tree: &TreeFacts, places: &[usize]) -> Result<Names, AllocError>
    ensures { IfOk result (λ names. names ≡ map (name_at (modules_of tree.now)) places.now) }
{
    let mut names = Names::new(alloc);
    for place in places {
        names.push(match tree.get(*place) {
            Some(facts) => Name::from_slice(alloc, facts.name.as_bytes())?,
            None => Name::new(alloc),
        })?;
    }
    Ok(names)
}

/// Finds what each module depends on, unless walks lead back.
fn reach(
    alloc: Global,
    tree: &TreeFacts,
    bindings: &Bindings,
    kernel: &Kernel,
) -> Result<Closures, RelationFault>
    requires tree { IsTree tree.now }
    requires bindings { AreBindings tree.now kernel.now bindings.now }
    ensures ok { IfOk result
        (λ all. all ≡ dependencies (modules_of tree.now) (kernel_of kernel.now)) }
    ensures passed { OnOk result
        (cycle (uses_at (modules_of tree.now) (kernel_of kernel.now)) (below (length tree.now))
        ≡ []) }
    ensures err { IfErr result (λ fault. (fault ≡ RelationFault.Memory)
        ⊎ (cycle_fault (modules_of tree.now)
        (cycle (uses_at (modules_of tree.now) (kernel_of kernel.now)) (below (length tree.now)))
        ≡ Some fault)) }
{
    let lists = all_used(alloc, &bindings.items, &bindings.bound)?;
    let members = all_members(alloc, lists.len())?;
    match order_or_cycle(alloc, &lists, &members)? {
        OrderOrCycle::Order(order) => Ok(Closures::new(alloc, &lists, order)?),
        OrderOrCycle::Cycle(cycle) => Err(RelationFault::Cycle {
            names: names_at(alloc, tree, &cycle)?,
        }),
    }
}

/// The most dependencies that all modules may have together.
const DEPENDENCY_LIMIT: u64 = 2_000_000;

/// The most double lines that there may be.
const DOUBLE_LIMIT: u64 = 100_000;

/// Tests how many dependencies and double lines there are.
fn check_counts(
    alloc: Global,
    closures: &Closures,
    bindings: &Bindings,
) -> Result<(), RelationFault>
    requires closures { length closures.now < 2 ^ 32 }
    requires names { IsTableOf bindings.now.names (map item_name bindings.now.items.items) }
    requires few { length bindings.now.items.items < 2 ^ 32 }
    ensures passed { OnOk result
        (first (deps_fault (sum_by length closures.now)
        ∷ doubles_fault (length (item_doubles [] bindings.now.items.items)) ∷ [])
        ≡ None) }
    ensures err { IfErr result (λ fault. (fault ≡ RelationFault.Memory)
        ⊎ (first (deps_fault (sum_by length closures.now)
        ∷ doubles_fault (length (item_doubles [] bindings.now.items.items)) ∷ [])
        ≡ Some fault)) }
{
    let deps = closures.count();
    if deps > DEPENDENCY_LIMIT {
        return Err(RelationFault::TooManyDeps { count: deps });
    }
    let doubles = count_doubles(alloc, &bindings.names, &bindings.items)?;
    if doubles > DOUBLE_LIMIT {
        return Err(RelationFault::TooManyDoubles { count: doubles });
    }
    Ok(())
}

/// Makes a list of places.
fn order_of(alloc: Global, places: &[usize]) -> Result<Order, AllocError>
    requires { All (λ i. i < 2 ^ 32) places.now }
    ensures { IfOk result (λ order. map (λ i. i.0) order ≡ places.now) }
{
    let mut order = Order::new(alloc);
    for place in places {
        order.push(TreeIndex(*place as u32))?;
    }
    Ok(order)
}

/// Makes the dependencies of each module, as lists of places.
fn orders_of(alloc: Global, closures: &Closures, count: usize) -> Result<Vec<Order>, AllocError>
    requires long { length closures.now ≡ count }
    requires small { All (λ xs. All (λ i. i < 2 ^ 32) xs) closures.now }
    ensures { IfOk result (λ orders. map (map (λ i. i.0)) orders.items ≡ closures.now) }
{
    let mut orders = Vec::new(alloc);
    for x in 0..count {
        orders.push(order_of(alloc, &closures.closure(alloc, x)?)?)?;
    }
    Ok(orders)
}

/// Makes all lines of modules.unmet, in order.
fn obstacles_of(
    alloc: Global,
    tree: &TreeFacts,
    bindings: &Bindings,
    kernel: &Kernel,
) -> Result<Obstacles, AllocError>
    requires tree { IsTree tree.now }
    requires bindings { AreBindings tree.now kernel.now bindings.now }
    ensures { IfOk result (λ lines. lines ≡ unmet (modules_of tree.now) (kernel_of kernel.now)) }
{
    let mut lines = Obstacles::new(alloc);
    push_need_lines(alloc, &mut lines, tree, bindings)?;
    push_doubles(alloc, &mut lines, &bindings.names, &bindings.items)?;
    Ok(lines)
}

/// Makes the dependencies of each module, unless walks lead back or something is too many.
fn closures_of(
    alloc: Global,
    tree: &TreeFacts,
    bindings: &Bindings,
    kernel: &Kernel,
) -> Result<Vec<Order>, RelationFault>
    requires tree { IsTree tree.now }
    requires bindings { AreBindings tree.now kernel.now bindings.now }
    ensures ok { IfOk result
        (λ closures. map places_of closures.items
        ≡ dependencies (modules_of tree.now) (kernel_of kernel.now)) }
    ensures passed { OnOk result
        (relation_fault (modules_of tree.now) (kernel_of kernel.now) ≡ None) }
    ensures err { IfErr result (λ fault. (fault ≡ RelationFault.Memory)
        ⊎ (relation_fault (modules_of tree.now) (kernel_of kernel.now) ≡ Some fault)) }
{
    let closures = reach(alloc, tree, bindings, kernel)?;
    check_counts(alloc, &closures, bindings)?;
    Ok(orders_of(alloc, &closures, tree.len())?)
}

/// The lists of a relation: the owner of each export, the dependencies of each module, and the
/// lines of modules.unmet.
#[derive(Drop)]
struct Lists {
    owners: Vec<Provider>,
    closures: Vec<Order>,
    unmet: Obstacles,
}

impl Lists {
    /// Makes the lists, unless the tree has no relation.
    fn new(
        alloc: Global,
        tree: &TreeFacts,
        bindings: &Bindings,
        kernel: &Kernel,
    ) -> Result<Lists, RelationFault>
        requires tree { IsTree tree.now }
        requires bindings { AreBindings tree.now kernel.now bindings.now }
        ensures owners { IfOk result
            (λ lists. lists.owners.items ≡ map item_answer bindings.now.items.items) }
        ensures closures { IfOk result
            (λ lists. map places_of lists.closures.items
            ≡ dependencies (modules_of tree.now) (kernel_of kernel.now)) }
        ensures unmet { IfOk result
            (λ lists. lists.unmet ≡ unmet (modules_of tree.now) (kernel_of kernel.now)) }
        ensures passed { OnOk result
            (relation_fault (modules_of tree.now) (kernel_of kernel.now) ≡ None) }
        ensures err { IfErr result (λ fault. (fault ≡ RelationFault.Memory)
            ⊎ (relation_fault (modules_of tree.now) (kernel_of kernel.now) ≡ Some fault)) }
    {
        let closures = closures_of(alloc, tree, bindings, kernel)?;
        let unmet = obstacles_of(alloc, tree, bindings, kernel)?;
        let owners = owners(alloc, &bindings.items)?;
        Ok(Lists {
            owners,
            closures,
            unmet,
        })
    }
}

impl Relation {
    /// Makes the relation of the modules of a tree, in its order, over a kernel. modules.dep(5),
    /// depmod(8).
    ///
    /// # Errors
    ///
    /// The first of these that is so, or `Memory`:
    ///
    /// - `Cycle` exactly if modules use one another in a cycle;
    /// - `TooManyDeps` exactly if all modules together have more than 2,000,000 dependencies;
    /// - `TooManyDoubles` exactly if there are more than 100,000 double lines.
    pub fn make(alloc: Global, tree: &TreeFacts, kernel: &Kernel) -> Result<Relation, RelationFault>
        requires { IsTree tree.now }
        ensures ok { IfOk result
            (λ relation. IsRelation (modules_of tree.now) (kernel_of kernel.now) relation) }
        ensures passed { OnOk result
            (relation_fault (modules_of tree.now) (kernel_of kernel.now) ≡ None) }
        ensures err { IfErr result (λ fault. (fault ≡ RelationFault.Memory)
            ⊎ (relation_fault (modules_of tree.now) (kernel_of kernel.now) ≡ Some fault)) }
    {
        let bindings = Bindings::new(alloc, tree, kernel)?;
        let lists = Lists::new(alloc, tree, &bindings, kernel)?;
        Ok(Relation {
            known: bindings.known,
            names: bindings.names,
            owners: lists.owners,
            closures: lists.closures,
            unmet: lists.unmet,
        })
    }

    /// Finds who provides a name. It takes no memory.
    #[tactic(auto, unfolding(crate::specs::Seen::provider_by))]
    pub fn provider(&self, name: &[u8]) -> Provider
        ensures { result ≡ provider_by self.now name.now }
    {
        owner_at(self.known, &self.owners, self.names.place(name))
    }

    /// Returns the modules that the module at a place depends on, each after those that it depends
    /// on itself. Of those that may come next, the first in the tree does. It takes no memory.
    #[tactic(auto, unfolding(crate::specs::Seen::closures_by))]
    pub fn closure(&self, m: TreeIndex) -> &Order
        requires { m.0 < length (closures_by self.now) }
        ensures { slice_get (closures_by self.now) m.0 ≡ Some (places_of result.now) }
    {
        &self.closures[m.0 as usize]
    }

    /// Returns what prevents modules of the tree from being loaded: the lines of modules.unmet. It
    /// takes no memory.
    #[tactic(auto, unfolding(crate::specs::Seen::obstacles_by))]
    pub fn obstacles(&self) -> &Obstacles
        ensures { result.now ≡ obstacles_by self.now }
    {
        &self.unmet
    }
}

/// Returns who provides the export at a place, or a name that has no export.
fn owner_at(known: bool, owners: &[Provider], place: Option<u32>) -> Provider
    ensures { result ≡ answer_at known owners.now place }
{
    if let Some(place) = place {
        if let Some(owner) = owners.get(place as usize) {
            return *owner;
        }
    }
    if known {
        Provider::Nobody
    } else {
        Provider::Kernel
    }
}
