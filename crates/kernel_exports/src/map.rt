// The symbols of a System.map and their addresses.
ghost use Rattle.std.specs.Prelude.{◌≡◌, ◌≤◌, ◌⊎◌, length, map, option_copied, option_and_then};
ghost use Rattle.std.specs.Prelude.{option_map, slice_get, None, Some, IfOk, IfErr, OnOk};
ghost use Rattle.km_names.specs.Limit.{file_limit};
ghost use Rattle.name_table.specs.NameTable.{IsTableOf};
ghost use Rattle.kernel_exports.specs.TableLines.{refused_line, stated};
ghost use Rattle.kernel_exports.specs.MapLines.{map_line, global_name, any_name, symbol_of};
ghost use Rattle.kernel_exports.specs.MapLines.{address_of};

use crate::KernelFault;
use crate::lines::{TableLine, read_lines};
use km_names::{hexadecimal, is_graphic, split_at_byte};
use name_table::NameTable;
use std::alloc::{AllocError, Global};
use std::marker::Model;

/// A symbol of a System.map: its address, the letter of its kind, and its name.
#[derive(Drop)]
pub(crate) struct MapLine<'a> {
    address: u64,
    letter: u8,
    name: &'a [u8],
}

impl<'a> Model for MapLine<'a> {
    ghost use Rattle.kernel_exports.specs.MapLines.{MapSymbol};

    ghost Value = { MapSymbol };

    ghost view = { λ l. record { address = l.address; letter = l.letter; name = l.name.now } };
}

impl<'a> TableLine<'a> for MapLine<'a> {
    ghost use Rattle.kernel_exports.specs.MapLines.{map_line};

    ghost read = { map_line };

    #[tactic(auto, unfolding(crate::specs::MapLines::map_line))]
    fn parse(line: &'a [u8]) -> Option<MapLine<'a>> {
        let (address, rest) = split_at_byte(line, b' ');
        let (kind, name) = split_at_byte(rest, b' ');
        if kind.len() != 1 || !is_graphic(kind) || !is_graphic(name) {
            return None;
        }
        match hexadecimal(address) {
            Some(address) => Some(MapLine {
                address,
                letter: kind[0],
                name,
            }),
            None => None,
        }
    }
}

impl<'a> MapLine<'a> {
    /// Returns its name.
    pub(crate) fn name(&self) -> &'a [u8]
        ensures { result.now ≡ self.now.name }
    {
        self.name
    }

    /// Returns its address.
    fn address(&self) -> u64
        ensures { result ≡ self.now.address }
    {
        self.address
    }

    /// Returns its name, if it is a global one.
    fn global_name(&self) -> Option<&'a [u8]>
        ensures { option_copied result ≡ global_name self.now }
    {
        if self.letter.is_ascii_uppercase() {
            Some(self.name)
        } else {
            None
        }
    }
}

/// A System.map: its symbols, with two tables: the place of the first symbol of each name, and of
/// its first global one. Contracts see the list of the symbols. nm(1).
#[derive(Drop)]
pub struct SystemMap<'a> {
    lines: Vec<MapLine<'a>>,
    globals: NameTable<'a>,
    all: NameTable<'a>,
}

impl<'a> Model for SystemMap<'a> {
    ghost use Rattle.std.specs.Prelude.{List};
    ghost use Rattle.kernel_exports.specs.MapLines.{MapSymbol, AreTables};

    ghost Value = { List MapSymbol };

    ghost view = { λ s. s.lines.items };

    ghost invariant = { λ s. AreTables s.lines.items s.globals s.all };
}

/// Makes the table of the global names.
fn table_of_globals<'a>(alloc: Global, lines: &[MapLine<'a>]) -> Result<NameTable<'a>, AllocError>
    requires { length lines.now ≤ file_limit }
    ensures { IfOk result (λ table. IsTableOf table (map global_name lines.now)) }
{
    let mut table = NameTable::new(alloc);
    for line in lines {
        table.push(line.global_name())?;
    }
    Ok(table)
}

/// Makes the table of all names.
fn table_of_all<'a>(alloc: Global, lines: &[MapLine<'a>]) -> Result<NameTable<'a>, AllocError>
    requires { length lines.now ≤ file_limit }
    ensures { IfOk result (λ table. IsTableOf table (map any_name lines.now)) }
{
    let mut table = NameTable::new(alloc);
    for line in lines {
        table.push(Some(line.name()))?;
    }
    Ok(table)
}

impl<'a> SystemMap<'a> {
    /// Reads the symbols that a System.map states. A blank line states nothing.
    ///
    /// # Errors
    ///
    /// `BadKernelLine` exactly at the first line that isn't understood, or `Memory`.
    pub fn read(alloc: Global, bytes: &'a [u8]) -> Result<SystemMap<'a>, KernelFault>
        requires { length bytes.now ≤ file_limit }
        ensures ok { IfOk result (λ symbols. symbols ≡ stated map_line bytes.now) }
        ensures short { IfOk result (λ symbols. length symbols ≤ file_limit) }
        ensures passed { OnOk result (refused_line map_line bytes.now ≡ None) }
        ensures err { IfErr result (λ fault. (fault ≡ KernelFault.Memory)
            ⊎ (option_map KernelFault.BadKernelLine (refused_line map_line bytes.now)
            ≡ Some fault)) }
    {
        let lines: Vec<MapLine<'a>> = read_lines(alloc, bytes)?;
        let globals = table_of_globals(alloc, &lines)?;
        let all = table_of_all(alloc, &lines)?;
        Ok(SystemMap {
            lines,
            globals,
            all,
        })
    }

    /// Returns the symbols, in the order of their lines.
    pub(crate) fn lines(&self) -> &[MapLine<'a>]
        ensures { result.now ≡ self.now }
    {
        self.lines.as_slice()
    }

    /// Finds the first global symbol of a name, or else its first symbol.
    fn symbol(&self, name: &[u8]) -> Option<&MapLine<'a>>
        ensures { option_copied result ≡ symbol_of self.now name.now }
    {
        match line_at(&self.lines, self.globals.place(name)) {
            Some(line) => Some(line),
            None => line_at(&self.lines, self.all.place(name)),
        }
    }

    /// Finds the address of a name.
    pub(crate) fn address(&self, name: &[u8]) -> Option<u64>
        ensures { result ≡ address_of self.now name.now }
    {
        match self.symbol(name) {
            Some(line) => Some(line.address()),
            None => None,
        }
    }
}

/// Returns the line at a place, if there is one.
fn line_at<'s, 'a>(lines: &'s [MapLine<'a>], place: Option<u32>) -> Option<&'s MapLine<'a>>
    ensures { option_copied result ≡ option_and_then (slice_get lines.now) place }
{
    match place {
        Some(place) => lines.get(place as usize),
        None => None,
    }
}
