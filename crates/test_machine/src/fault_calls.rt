//! The texts of faults: why a machine isn't made, and why it refuses a module.

use crate::param_calls::name_of;
use crate::same::{same, shown};
use image_layout::LayFault;
use km_names::Name;
use load_fault::{LoadFault, MachineFault};
use std::alloc::{AllocError, AllocFailed, Global};
use std::fmt::{Debug, Display};
use std::process::Abort;
use x86_relocate::Overflow;

/// Stops unless a value is displayed as this text. It drops the value.
fn displayed<T: Display + Drop>(rt: &impl Abort, alloc: Global, got: T, want: &str) {
    let text = format!(in alloc; "{got}").expect(rt, "a text");
    same(rt, text.as_bytes(), want.as_bytes());
}

/// Stops unless a fault has this text, and is displayed so.
fn expect_text(rt: &impl Abort, alloc: Global, fault: LoadFault, want: &str) {
    let text = fault.text(alloc).expect(rt, "a text");
    same(rt, text.as_bytes(), want.as_bytes());
    displayed(rt, alloc, fault, want);
}

/// Returns the name of the symbol.
fn fa(rt: &impl Abort, alloc: Global) -> Name {
    name_of(rt, alloc, b"fa")
}

/// Returns the fault of an export of `fa`, which `a` exports.
fn taken(rt: &impl Abort, alloc: Global) -> LoadFault {
    LoadFault::ExportTaken {
        name: fa(rt, alloc),
        owner: name_of(rt, alloc, b"a"),
    }
}

fn faults_of_names_have_texts(rt: &impl Abort, alloc: Global) {
    let name = fa(rt, alloc);
    let fault = LoadFault::MissingSymbol { name };
    expect_text(rt, alloc, fault, "missing symbol fa");
    let name = fa(rt, alloc);
    expect_text(rt, alloc, LoadFault::GplOnly { name }, "fa is GPL-only");
    let name = fa(rt, alloc);
    let fault = LoadFault::VersionDiffers { name };
    expect_text(rt, alloc, fault, "version of fa differs");
    let name = fa(rt, alloc);
    let fault = LoadFault::NotImported { name };
    expect_text(rt, alloc, fault, "namespace of fa not imported");
    expect_text(rt, alloc, taken(rt, alloc), "fa is taken by a");
}

fn other_faults_have_texts(rt: &impl Abort, alloc: Global) {
    expect_text(rt, alloc, LoadFault::AlreadyLoaded, "already loaded");
    let full = LoadFault::RegionFull { pages: u64::MAX };
    let want = "region full, 18446744073709551615 pages";
    expect_text(rt, alloc, full, want);
    let overflow = LoadFault::Overflow {
        section: u32::MAX,
        entry: 0,
    };
    let want = "overflow at section 4294967295 entry 0";
    expect_text(rt, alloc, overflow, want);
    expect_text(rt, alloc, LoadFault::Memory, "out of memory");
}

fn faults_of_machines_are_displayed(rt: &impl Abort, alloc: Global) {
    let name = fa(rt, alloc);
    let fault = MachineFault::KernelWithoutAddress { name };
    displayed(rt, alloc, fault, "kernel without address fa");
    displayed(rt, alloc, MachineFault::Memory, "out of memory");
}

/// Stops unless a refused allocation is the fault of being out of memory, by the bound of `?`.
fn expect_memory<F: From<AllocError> + Debug + Drop>(rt: &impl Abort, alloc: Global) {
    shown(rt, alloc, F::from(AllocError), "Memory");
}

/// Stops unless a value that isn't stored is that fault too.
fn expect_unstored<F: From<AllocFailed<u8>> + Debug + Drop>(rt: &impl Abort, alloc: Global) {
    shown(rt, alloc, F::from(AllocFailed { value: 7 }), "Memory");
}

/// The word that doesn't fit.
const OVERFLOW: Overflow = Overflow {
    section: 3,
    entry: 1,
};

fn faults_come_from_others(rt: &impl Abort, alloc: Global) {
    let word = LoadFault::from(LayFault::Overflow(OVERFLOW));
    shown(rt, alloc, word, "Overflow { section: 3, entry: 1 }");
    shown(rt, alloc, LoadFault::from(LayFault::Memory), "Memory");
    expect_memory::<LoadFault>(rt, alloc);
    expect_unstored::<LoadFault>(rt, alloc);
    expect_memory::<MachineFault>(rt, alloc);
    expect_unstored::<MachineFault>(rt, alloc);
}

#[test]
fn faults_are_called(rt: HostRuntime) {
    faults_of_names_have_texts(&rt, rt.alloc());
    other_faults_have_texts(&rt, rt.alloc());
    faults_of_machines_are_displayed(&rt, rt.alloc());
    faults_come_from_others(&rt, rt.alloc());
}
