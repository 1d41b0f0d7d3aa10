// One step of a plan, and lists of steps.
use km_names::{Blob, List, Name, PathText};

/// A step of a plan.
#[derive(Debug, Drop)]
pub enum PlanStep {
    /// The module at the path below the folder of the kernel's modules is loaded, with these
    /// parameters.
    Insert {
        name: Name,
        path: PathText,
        options: Blob,
    },
    /// The command is run in place of loading what the name stands for.
    Install {
        name: Name,
        command: Blob,
    },
    /// The module is built into the kernel.
    Builtin {
        name: Name,
    },
}

/// The steps of a plan, in order.
pub type PlanSteps = List<PlanStep>;
