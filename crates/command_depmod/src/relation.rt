// The relation of a tree over a kernel.
ghost use Rattle.std.specs.Prelude.{◌≡◌, IfOk};
ghost use Rattle.km_course.specs.Follows.{Answers};
ghost use Rattle.provider_rel.specs.Tree.{IsTree};
ghost use Rattle.provider_rel.specs.Faces.{kernel_of};
ghost use Rattle.command_depmod.specs.Relation.{relation_outcome, relation_stop};
ghost use Rattle.command_depmod.specs.Related.{IsRelated, seen_tree};

use km_course::{Refusal, Stop};
use provider_rel::{Kernel, Relation, RelationFault, TreeFacts};
use std::alloc::Global;

/// A tree with its relation over a kernel.
#[derive(Drop)]
pub(crate) struct RelatedTree {
    pub(crate) facts: TreeFacts,
    pub(crate) kernel: Kernel,
    pub(crate) relation: Relation,
}

/// Relates the modules of a tree over a kernel, or refuses the tree.
pub(crate) fn relate(alloc: Global, facts: TreeFacts, kernel: Kernel) -> Result<RelatedTree, Stop>
    requires { IsTree facts }
    ensures answers { Answers seen_tree
        (relation_outcome (record { facts = facts; kernel = kernel_of kernel })) result }
    ensures related { IfOk result (λ tree. IsRelated tree) }
{
    match Relation::make(alloc, &facts, &kernel) {
        Ok(relation) => Ok(RelatedTree {
            facts,
            kernel,
            relation,
        }),
        Err(fault) => Err(refused(fault)),
    }
}

/// Returns how a fault of the relation stops the command.
fn refused(fault: RelationFault) -> Stop
    ensures { result ≡ relation_stop fault }
{
    match fault {
        RelationFault::Cycle { names } => Stop::from(Refusal::Cycle { names }),
        RelationFault::TooManyDeps { count: _ } => Stop::from(Refusal::TooManyDependencies),
        RelationFault::TooManyDoubles { count: _ } => Stop::from(Refusal::TooManyDoubles),
        RelationFault::Memory => Stop::Memory,
    }
}
