// An image with the values that options state for parameters.

ghost use Rattle.std.specs.Prelude.{◌≡◌, ◌<◌, ◌^◌, ◌⊎◌, length, map, None, Some, IfErr, IfOk, OnOk};
ghost use Rattle.image_layout.specs.Offsets.{image_size};
ghost use Rattle.param_apply.specs.declared.fault.ParamFault.TheVariants.{Memory};
ghost use Rattle.param_apply.specs.Applied.{count_of, finished, named_count, param_fault, piece};
ghost use Rattle.param_apply.specs.Applied.{with_pieces, words_fault};
ghost use Rattle.param_apply.specs.Naming.{parameters_of};
ghost use Rattle.param_apply.specs.Table.{table_of};
ghost use Rattle.param_apply.specs.Words.{settings as settings_spec};

use crate::ParamFault;
use crate::parameter::Parameters;
use crate::setting::settings;
use crate::table::{ParamTable, table_of};
use crate::written::written;
use elf_object::Object;
use module_facts::Module;
use raw_image::Image;
use std::alloc::Global;

/// An image with the values of parameters in it.
#[derive(Drop)]
pub struct Params {
    /// The image.
    pub image: Image,
    /// The number of parameters that the options name.
    pub count: u32,
}

/// Writes the options of a module into a copy of its image, which is the image of the module loaded
/// at `base`.
///
/// A word of the options that names a parameter states a value for the parameter's place, in as
/// many bytes as the parameter's type has, the lowest first. Each byte of the copy is from the last
/// such word whose parameter's place covers it. Every other byte is as in the image. The kernel's
/// kernel/params.c and include/linux/moduleparam.h.
///
/// # Errors
///
/// The first of these that applies. `BadParamTable` if the table of parameters can't be read. Then,
/// for the first word that can't be written, `UnknownParamType`, `BadValue` or `BadParamPlace` of
/// its parameter. Or `Memory`.
pub fn apply_params(
    alloc: Global,
    module: &Module,
    base: u64,
    image: &[u8],
    options: &[u8],
) -> Result<Params, ParamFault>
    requires { length image.now ≡ image_size «module».now.object.sections }
    ensures image { IfOk result
        (λ p. p.image ≡ finished «module».now.object base image.now options.now) }
    ensures count { IfOk result
        (λ p. p.count ≡ count_of «module».now.object base image.now options.now) }
    ensures passed { OnOk result
        (param_fault «module».now.object base image.now options.now ≡ None) }
    ensures fault { IfErr result
        (λ e. (e ≡ Memory)
        ⊎ (param_fault «module».now.object base image.now options.now ≡ Some e)) }
{
    let object = &module.object;
    let table = table_of(object);
    let params = Parameters::in_image(alloc, object, table, base, image)?;
    with_options(alloc, object, table, image, &params, options)
}

/// Returns a copy of an image with the values that options state for these parameters.
///
/// # Errors
///
/// The fault of the first bad word, or `Memory`.
fn with_options(
    alloc: Global,
    object: &Object,
    table: ParamTable,
    image: &[u8],
    params: &Parameters,
    options: &[u8],
) -> Result<Params, ParamFault>
    requires fits { image_size object.now.sections < 2 ^ 63 }
    requires table { table ≡ table_of object.now }
    ensures image { IfOk result (λ p. p.image
        ≡ with_pieces image.now
        (map (piece (parameters_of params.now))
        (settings_spec (parameters_of params.now) options.now))) }
    ensures count { IfOk result (λ p. p.count
        ≡ named_count (parameters_of params.now)
        (settings_spec (parameters_of params.now) options.now)) }
    ensures passed { OnOk result
        (words_fault object.now (parameters_of params.now) (length image.now)
        (settings_spec (parameters_of params.now) options.now) ≡ None) }
    ensures fault { IfErr result (λ e. (e ≡ Memory)
        ⊎ (words_fault object.now (parameters_of params.now) (length image.now)
        (settings_spec (parameters_of params.now) options.now) ≡ Some e)) }
{
    let settings = settings(alloc, params, options)?;
    written(alloc, object, table, image, params, &settings)
}
