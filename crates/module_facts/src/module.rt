// A module.

ghost use Rattle.module_facts.specs.Module.{IsModule, IsSound};

use crate::Facts;
use elf_object::Object;

/// A kernel module: its object file and its facts. The facts are the ones of the file at the path,
/// and no test of the module fails.
#[derive(Drop)]
pub struct Module {
    /// The object file.
    pub object: Object,
    /// The facts that it states.
    pub facts: Facts,
    ghost valid: { IsModule object facts },
    ghost sound: { IsSound object facts },
}
