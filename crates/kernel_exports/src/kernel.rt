// What a kernel exports.
ghost use Rattle.std.specs.Prelude.{◌≡◌, ◌≤◌, ◌⊎◌, [], true, false, length, option_map, IfOk};
ghost use Rattle.std.specs.Prelude.{IfErr, Ok, Some, OnOk, OnErr};
ghost use Rattle.std.specs.Result.{result_err};
ghost use Rattle.km_names.specs.Limit.{file_limit};
ghost use Rattle.kernel_exports.specs.KernelTable.{IsTable, exports_of_map, exports_of_symvers};
ghost use Rattle.kernel_exports.specs.KernelTable.{exports_with_addresses, with_addresses};

use crate::KernelFault;
use crate::exports::{exports_of_lines, exports_of_symbols, with_all_addresses};
use crate::lines::read_lines;
use crate::map::SystemMap;
use crate::symvers::SymversLine;
use km_names::{List, Name};
use std::alloc::{AllocError, Global};

/// A symbol that a kernel exports. The kernel's EXPORT_SYMBOL, include/linux/export.h.
#[derive(Debug, Drop)]
pub struct KernelExport {
    /// Its name.
    pub name: Name,
    /// Its version, if one is stated.
    pub crc: Option<u64>,
    /// Its address in the kernel's memory, if a map states one.
    pub address: Option<u64>,
    /// Whether it is for GPL-compatible modules only. EXPORT_SYMBOL_GPL.
    pub gpl: bool,
    /// Its namespace, empty for none. EXPORT_SYMBOL_NS.
    pub space: Name,
}

/// The exports of a kernel, in the order of the lines that state them.
pub type KernelExports = List<KernelExport>;

/// What a kernel exports, each name once.
#[derive(Drop)]
pub struct Kernel {
    /// Whether its exports are known. An unknown kernel counts as exporting everything that no
    /// module exports.
    pub known: bool,
    /// Its exports.
    pub exports: KernelExports,
    ghost table: { IsTable exports },
}

impl Kernel {
    /// Makes an unknown kernel. It takes no memory.
    pub fn unknown(alloc: Global) -> Kernel
        ensures known { result.known ≡ false }
        ensures exports { result.exports ≡ [] }
    {
        Kernel {
            known: false,
            exports: KernelExports::new(alloc),
        }
    }

    /// Reads the kernel of a System.map. It exports each name N that has an entry `__ksymtab_N` in
    /// the map, at the address there, without a version. A blank line states nothing. nm(1); the
    /// kernel's include/linux/export.h.
    ///
    /// # Errors
    ///
    /// `BadKernelLine` exactly at the first line that isn't understood, or `Memory`.
    #[tactic(auto, using(crate::proofs::LineSteps::refusal_of), unfolding(crate::specs::KernelTable::exports_of_map))]
    pub fn from_map(alloc: Global, bytes: &[u8]) -> Result<Kernel, KernelFault>
        requires { length bytes.now ≤ file_limit }
        ensures known { IfOk result (λ kernel. kernel.known ≡ true) }
        ensures exports { IfOk result (λ kernel. exports_of_map bytes.now ≡ Ok kernel.exports) }
        ensures err { IfErr result (λ fault. (fault ≡ KernelFault.Memory)
            ⊎ (option_map KernelFault.BadKernelLine (result_err (exports_of_map bytes.now))
            ≡ Some fault)) }
    {
        let map = SystemMap::read(alloc, bytes)?;
        let exports = exports_of_symbols(alloc, &map)?;
        Ok(Kernel {
            known: true,
            exports,
        })
    }

    /// Reads the kernel of a Module.symvers. It exports what lines with `vmlinux` in their third
    /// field state, with versions, and without addresses. A blank line states nothing. The kernel's
    /// Documentation/kbuild/modules.rst.
    ///
    /// # Errors
    ///
    /// `BadKernelLine` exactly at the first line that isn't understood, or `Memory`.
    #[tactic(auto, using(crate::proofs::LineSteps::refusal_of), unfolding(crate::specs::KernelTable::exports_of_symvers))]
    pub fn from_symvers(alloc: Global, bytes: &[u8]) -> Result<Kernel, KernelFault>
        requires { length bytes.now ≤ file_limit }
        ensures known { IfOk result (λ kernel. kernel.known ≡ true) }
        ensures exports { IfOk result (λ kernel. exports_of_symvers bytes.now ≡ Ok kernel.exports) }
        ensures err { IfErr result (λ fault. (fault ≡ KernelFault.Memory)
            ⊎ (option_map KernelFault.BadKernelLine (result_err (exports_of_symvers bytes.now))
            ≡ Some fault)) }
    {
        let lines: Vec<SymversLine> = read_lines(alloc, bytes)?;
        let exports = exports_of_lines(alloc, &lines)?;
        Ok(Kernel {
            known: true,
            exports,
        })
    }

    /// Gives the exports the addresses that a System.map states. If it has none for a name, an
    /// address stays as it was. After a refusal all are as before. nm(1).
    ///
    /// # Errors
    ///
    /// `BadKernelLine` exactly at the first line that isn't understood, or `Memory`.
    #[tactic(auto, using(crate::proofs::LineSteps::refusal_of), unfolding(crate::specs::KernelTable::exports_with_addresses))]
    pub fn add_addresses(&mut self, bytes: &[u8]) -> Result<(), KernelFault>
        requires { length bytes.now ≤ file_limit }
        ensures known { self.new.known ≡ self.old.known }
        ensures exports { OnOk result
            (exports_with_addresses bytes.now self.old.exports ≡ Ok self.new.exports) }
        ensures kept { OnErr result (self.new ≡ self.old) }
        ensures err { IfErr result (λ fault. (fault ≡ KernelFault.Memory)
            ⊎ (option_map KernelFault.BadKernelLine
            (result_err (exports_with_addresses bytes.now self.old.exports)) ≡ Some fault)) }
    {
        let map = SystemMap::read(self.exports.allocator(), bytes)?;
        self.set_addresses(&map)?;
        Ok(())
    }

    /// Gives the exports the addresses that the symbols of a System.map state. If it has none for a
    /// name, an address stays as it was. If it is out of memory, all are as before.
    pub fn set_addresses(&mut self, map: &SystemMap) -> Result<(), AllocError>
        ensures known { self.new.known ≡ self.old.known }
        ensures exports { OnOk result (self.new.exports ≡ with_addresses map.now self.old.exports) }
        ensures kept { OnErr result (self.new ≡ self.old) }
    {
        let alloc = self.exports.allocator();
        self.exports = with_all_addresses(alloc, &self.exports, map)?;
        Ok(())
    }
}
