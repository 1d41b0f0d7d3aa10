// The lines of a Module.symvers.
ghost use Rattle.std.specs.Prelude.{◌≡◌, codes};
ghost use Rattle.std.specs.Str.{bytes_eq};
ghost use Rattle.kernel_exports.specs.SymversLines.{field};

use crate::lines::TableLine;
use km_names::{is_graphic, prefixed_hexadecimal, split_at_byte};
use std::marker::Model;

/// What a line of a Module.symvers states.
#[derive(Drop)]
pub(crate) struct SymversLine<'a> {
    crc: u64,
    name: &'a [u8],
    owner: &'a [u8],
    gpl: bool,
    space: &'a [u8],
}

impl<'a> Model for SymversLine<'a> {
    ghost use Rattle.kernel_exports.specs.SymversLines.{SymversExport};

    ghost Value = { SymversExport };

    ghost view = { λ l. record
        { crc = l.crc; name = l.name.now; owner = l.owner.now; gpl = l.gpl; space = l.space.now } };
}

/// The first five fields of a line.
#[derive(Drop)]
struct Fields<'a> {
    crc: &'a [u8],
    name: &'a [u8],
    owner: &'a [u8],
    kind: &'a [u8],
    space: &'a [u8],
}

fn split_fields(line: &[u8]) -> Fields<'_>
    ensures crc { result.crc.now ≡ field line.now 0 }
    ensures name { result.name.now ≡ field line.now 1 }
    ensures owner { result.owner.now ≡ field line.now 2 }
    ensures kind { result.kind.now ≡ field line.now 3 }
    ensures space { result.space.now ≡ field line.now 4 }
{
    let (crc, after_crc) = split_at_byte(line, b'\t');
    let (name, after_name) = split_at_byte(after_crc, b'\t');
    let (owner, after_owner) = split_at_byte(after_name, b'\t');
    let (kind, after_kind) = split_at_byte(after_owner, b'\t');
    let (space, _) = split_at_byte(after_kind, b'\t');
    Fields {
        crc,
        name,
        owner,
        kind,
        space,
    }
}

impl<'a> TableLine<'a> for SymversLine<'a> {
    ghost use Rattle.kernel_exports.specs.SymversLines.{symvers_line};

    ghost read = { symvers_line };

    #[tactic(auto, unfolding(crate::specs::SymversLines::symvers_line))]
    fn parse(line: &'a [u8]) -> Option<SymversLine<'a>> {
        let fields = split_fields(line);
        if !is_graphic(fields.name) || !is_graphic(fields.owner) {
            return None;
        }
        match prefixed_hexadecimal(fields.crc) {
            Some(crc) => Some(SymversLine {
                crc,
                name: fields.name,
                owner: fields.owner,
                gpl: fields.kind == b"EXPORT_SYMBOL_GPL".as_slice(),
                space: fields.space,
            }),
            None => None,
        }
    }
}

impl<'a> SymversLine<'a> {
    /// Returns the name of the export.
    pub(crate) fn name(&self) -> &'a [u8]
        ensures { result.now ≡ self.now.name }
    {
        self.name
    }

    /// Returns its version.
    pub(crate) fn crc(&self) -> u64
        ensures { result ≡ self.now.crc }
    {
        self.crc
    }

    /// Returns whether the kernel itself exports it.
    pub(crate) fn is_of_kernel(&self) -> bool
        ensures { result ≡ bytes_eq self.now.owner (codes "vmlinux") }
    {
        self.owner == b"vmlinux".as_slice()
    }

    /// Returns whether it is for GPL-compatible modules only.
    pub(crate) fn gpl(&self) -> bool
        ensures { result ≡ self.now.gpl }
    {
        self.gpl
    }

    /// Returns its namespace.
    pub(crate) fn space(&self) -> &'a [u8]
        ensures { result.now ≡ self.now.space }
    {
        self.space
    }
}
