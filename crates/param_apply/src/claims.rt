// The bytes of an image that are taken while words are written into it, and the parameters that
// words name.

ghost use Rattle.std.specs.Prelude.{◌≡◌, ℕ, ◌+◌, ◌<◌, ◌≤◌, ◌⊎◌, List, [], ◌∷◌, ◌++◌, true, false};
ghost use Rattle.std.specs.Prelude.{length, slice_get, get_or, None, Some, IfErr, IfOk, OnOk};
ghost use Rattle.std.specs.List.{count_by};
ghost use Rattle.elf_object.specs.Object.{FileObject};
ghost use Rattle.param_apply.specs.declared.fault.ParamFault.TheVariants.{BadParamPlace, Memory};
ghost use Rattle.param_apply.specs.Applied.{value_test};
ghost use Rattle.param_apply.specs.Places.{is_misplaced, is_reserved, value_width};
ghost use Rattle.param_apply.specs.Writing.{AreClaims, IsValueOf};
ghost use Rattle.param_apply.specs.Words.{Parameter, Setting};

use crate::ParamFault;
use crate::parameter::ParamRef;
use crate::setting::SettingRef;
use crate::taken::{are_free, mark};
use km_names::Name;
use std::alloc::{AllocError, Global};

/// A value: its number, and how many of its bytes are written.
#[derive(Clone, Copy)]
pub(crate) struct Value {
    pub(crate) number: u64,
    pub(crate) width: usize,
}

/// Returns the value that a word states for its parameter.
///
/// # Errors
///
/// `UnknownParamType`, `BadValue`, or `Memory`.
pub(crate) fn value_of(
    alloc: Global,
    param: &ParamRef,
    setting: &SettingRef,
) -> Result<Value, ParamFault>
    ensures value { IfOk result (λ v. IsValueOf v param.now setting.now) }
    ensures small { IfOk result (λ v. v.width ≤ 8) }
    ensures fault { IfErr result
        (λ e. (e ≡ Memory) ⊎ (value_test setting.now param.now param.now.kind ≡ Some e)) }
{
    let Some(kind) = param.kind else {
        return Err(ParamFault::UnknownParamType {
            name: name_of(alloc, param)?,
        });
    };
    let Some(number) = kind.number_of(setting.text) else {
        return Err(ParamFault::BadValue {
            name: name_of(alloc, param)?,
        });
    };
    Ok(Value {
        number,
        width: kind.width(),
    })
}

/// The bytes of an image that are reserved or belong to a named parameter, and the parameters that
/// are named.
#[derive(Drop)]
pub(crate) struct Claims {
    pub(crate) taken: Vec<bool>,
    pub(crate) named: Vec<bool>,
}

impl Claims {
    /// Returns the claims of this many parameters before any word, by the bytes that are reserved.
    pub(crate) fn new(alloc: Global, taken: Vec<bool>, params: usize) -> Result<Claims, AllocError>
        ensures taken { IfOk result (λ c. c.taken.items ≡ taken.items) }
        ensures claims { IfOk result (λ c. (o : FileObject) (list : List Parameter)
            → length list ≡ params
            → ((x : ℕ) → x < length taken.items → get_or taken.items x false ≡ is_reserved o x)
            → AreClaims c o list []) }
    {
        let named = vec![in alloc; false; params]?;
        Ok(Claims { taken, named })
    }

    /// Claims the bytes of a parameter's value, unless the parameter has them already.
    ///
    /// # Errors
    ///
    /// `BadParamPlace` if the value is misplaced, or `Memory`.
    pub(crate) fn claim(
        &mut self,
        alloc: Global,
        param: &ParamRef,
        number: u32,
        width: usize,
    ) -> Result<(), ParamFault>
        requires number { number < length self.old.named.items }
        requires width { width ≤ 8 }
        ensures same { OnOk result (length self.new.taken.items ≡ length self.old.taken.items) }
        ensures count { OnOk result (length self.new.named.items ≡ length self.old.named.items) }
        ensures inside { OnOk result (param.now.at + width ≤ length self.old.taken.items) }
        ensures claims { OnOk result
            ((o : FileObject) (list : List Parameter) (done : List Setting) (s : Setting)
            → AreClaims self.old o list done → slice_get list number ≡ Some param.now
            → value_width param.now ≡ width → s.number ≡ number
            → (is_misplaced o list (length self.old.taken.items) done number param.now ≡ false)
            × AreClaims self.new o list (done ++ s ∷ [])) }
        ensures fault { IfErr result (λ e. (e ≡ Memory)
            ⊎ ((e ≡ BadParamPlace param.now.name)
            × ((o : FileObject) (list : List Parameter) (done : List Setting)
            → AreClaims self.old o list done → slice_get list number ≡ Some param.now
            → value_width param.now ≡ width
            → is_misplaced o list (length self.old.taken.items) done number param.now ≡ true))) }
    {
        let len = self.taken.len() as u128;
        if len < u128::from(param.at) + width as u128 {
            return Err(bad_place(alloc, param));
        }
        if self.named[number as usize] {
            return Ok(());
        }
        if !are_free(&self.taken, param.at, width) {
            return Err(bad_place(alloc, param));
        }
        mark(&mut self.taken, u128::from(param.at), width as u64);
        self.named[number as usize] = true;
        Ok(())
    }

    /// Returns the number of named parameters.
    pub(crate) fn count(&self) -> usize
        ensures { result ≡ count_by (λ b. b) self.now.named.items }
    {
        self.named.iter().filter(|named| **named).count()
    }
}

/// Copies the name of a parameter.
fn name_of(alloc: Global, param: &ParamRef) -> Result<Name, AllocError>
    ensures { IfOk result (λ name. name ≡ param.now.name) }
{
    Name::from_slice(alloc, param.name)
}

/// Returns the fault of a misplaced value, or `Memory`.
fn bad_place(alloc: Global, param: &ParamRef) -> ParamFault
    ensures { (result ≡ Memory) ⊎ (result ≡ BadParamPlace param.now.name) }
{
    match name_of(alloc, param) {
        Ok(name) => ParamFault::BadParamPlace { name },
        Err(_) => ParamFault::Memory,
    }
}
