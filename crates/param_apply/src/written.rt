// Writes the words of options into a copy of an image.

ghost use Rattle.std.specs.Prelude.{◌≡◌, ℕ, ◌+◌, ◌<◌, ◌≤◌, ◌^◌, ◌⊎◌, List, ◌∷◌, [], ◌++◌, All};
ghost use Rattle.std.specs.Prelude.{length, map, None, Some, IfErr, IfOk, OnOk};
ghost use Rattle.elf_object.specs.Object.{FileObject};
ghost use Rattle.image_layout.specs.Offsets.{image_size};
ghost use Rattle.raw_image.specs.Bytes.{with_bytes};
ghost use Rattle.param_apply.specs.declared.fault.ParamFault.TheVariants.{Memory};
ghost use Rattle.param_apply.specs.Applied.{named_count, piece, setting_fault, with_pieces};
ghost use Rattle.param_apply.specs.Applied.{words_fault};
ghost use Rattle.param_apply.specs.Naming.{parameters_of};
ghost use Rattle.param_apply.specs.Table.{table_of};
ghost use Rattle.param_apply.specs.Words.{Setting};
ghost use Rattle.param_apply.specs.Writing.{AreClaims};

use crate::claims::{Claims, value_of};
use crate::parameter::Parameters;
use crate::setting::SettingRef;
use crate::table::ParamTable;
use crate::taken::reserved;
use crate::{ParamFault, Params};
use elf_object::Object;
use raw_image::Image;
use std::alloc::{AllocError, Global};

/// Returns a copy of an image with the values that words state.
///
/// # Errors
///
/// The fault of the first bad word, or `Memory`.
pub(crate) fn written(
    alloc: Global,
    object: &Object,
    table: ParamTable,
    image: &[u8],
    params: &Parameters,
    settings: &[SettingRef],
) -> Result<Params, ParamFault>
    requires fits { image_size object.now.sections < 2 ^ 63 }
    requires table { table ≡ table_of object.now }
    requires numbers { All (λ s. s.number < length (parameters_of params.now)) settings.now }
    ensures image { IfOk result
        (λ p. p.image
        ≡ with_pieces image.now (map (piece (parameters_of params.now)) settings.now)) }
    ensures count { IfOk result
        (λ p. p.count ≡ named_count (parameters_of params.now) settings.now) }
    ensures passed { OnOk result
        (words_fault object.now (parameters_of params.now) (length image.now) settings.now ≡ None) }
    ensures fault { IfErr result
        (λ e. (e ≡ Memory)
        ⊎ (words_fault object.now (parameters_of params.now) (length image.now) settings.now
        ≡ Some e)) }
{
    let mut copy = copied(alloc, image)?;
    let taken = reserved(alloc, object, table, image.len())?;
    let mut claims = Claims::new(alloc, taken, params.count())?;
    for setting in settings {
        write(alloc, &mut copy, &mut claims, params, setting)?;
    }
    Ok(Params {
        image: copy,
        count: claims.count() as u32,
    })
}

/// Copies an image.
fn copied(alloc: Global, bytes: &[u8]) -> Result<Image, AllocError>
    ensures { IfOk result (λ image. image ≡ bytes.now) }
{
    let mut image = Image::zeroed(alloc, bytes.len())?;
    image.copy_in(0, bytes);
    Ok(image)
}

/// Writes the value that a word states at the place of its parameter.
///
/// # Errors
///
/// The fault of the word, or `Memory`.
fn write(
    alloc: Global,
    image: &mut Image,
    claims: &mut Claims,
    params: &Parameters,
    setting: &SettingRef,
) -> Result<(), ParamFault>
    requires number { setting.now.number < length (parameters_of params.now) }
    requires named { length claims.old.named.items ≡ length (parameters_of params.now) }
    requires taken { length claims.old.taken.items ≡ length image.old }
    ensures same { OnOk result (length claims.new.taken.items ≡ length claims.old.taken.items) }
    ensures count { OnOk result (length claims.new.named.items ≡ length claims.old.named.items) }
    ensures bytes { OnOk result
        (image.new
        ≡ with_bytes image.old (piece (parameters_of params.now) setting.now).at
        (piece (parameters_of params.now) setting.now).bytes) }
    ensures inside { OnOk result
        ((piece (parameters_of params.now) setting.now).at
        + length (piece (parameters_of params.now) setting.now).bytes
        ≤ length image.old) }
    ensures claims { OnOk result ((o : FileObject) (done : List Setting)
        → AreClaims claims.old o (parameters_of params.now) done
        → AreClaims claims.new o (parameters_of params.now) (done ++ setting.now ∷ [])) }
    ensures passed { OnOk result ((o : FileObject) (done : List Setting)
        → AreClaims claims.old o (parameters_of params.now) done
        → setting_fault o (parameters_of params.now) (length image.old) done setting.now ≡ None) }
    ensures fault { IfErr result (λ e. (e ≡ Memory) ⊎ ((o : FileObject) (done : List Setting)
        → AreClaims claims.old o (parameters_of params.now) done
        → setting_fault o (parameters_of params.now) (length image.old) done setting.now
        ≡ Some e)) }
{
    let param = params.get(alloc, setting.number)?;
    let value = value_of(alloc, &param, setting)?;
    claims.claim(alloc, &param, setting.number, value.width)?;
    let bytes = value.number.to_le_bytes();
    image.copy_in(param.at as usize, &bytes[..value.width]);
    Ok(())
}
