// The addresses of the undefined symbols of a module.

ghost use Rattle.std.specs.Prelude.{◌≡◌, ◌<◌, All, IfOk, map, replicate};
ghost use Rattle.std.specs.List.{range_with_len};
ghost use Rattle.export_table.specs.NeedTests.{given_by, kept_address};
ghost use Rattle.module_symbols.specs.declared.needs.Need.{Need};

use crate::standing::ExportTable;
use module_facts::{Facts, Need};
use std::alloc::{AllocError, Global};
use symbol_binding::sees;

/// Returns for each of `count` symbols of a module the address of the first need of that symbol, or
/// 0 if there is none.
pub fn given_addresses(
    alloc: Global,
    table: &ExportTable,
    facts: &Facts,
    count: u32,
) -> Result<Vec<u64>, AllocError>
    requires { All (λ (n : Need). n.symbol < count) facts.now.needs }
    ensures { IfOk result
        (λ v. v.items
        ≡ map (given_by table.now facts.now facts.now.needs) (range_with_len 0 count)) }
{
    let needs = facts.needs.as_slice();
    let mut given = zeros(alloc, count as usize)?;
    for done in 0..needs.len() {
        let need = &needs[needs.len() - 1 - done];
        given[need.symbol as usize] = address_of(table, facts, need);
    }
    Ok(given)
}

/// Returns this many zeros.
fn zeros(alloc: Global, count: usize) -> Result<Vec<u64>, AllocError>
    ensures { IfOk result (λ v. v.items ≡ replicate count 0) }
{
    vec![in alloc; 0; count]
}

/// Returns the address of a need of a module.
fn address_of(table: &ExportTable, facts: &Facts, need: &Need) -> u64
    ensures { result ≡ kept_address table.now facts.now need.now }
{
    match table.get(need.name.as_bytes()) {
        Some(standing) => {
            if sees(facts.free, standing.gpl) {
                standing.address
            } else {
                0
            }
        }
        None => 0,
    }
}
