//! The parameters of a module, written into a copy of its image.
//!
//! A module's section `__param` has an entry for each parameter, whose relocated words are the
//! addresses of the name and of the value. The module's texts state the type of each.
//! [`apply_params`] reads the options of a module by them. It answers a copy of the image with the
//! values in it, or the first of four refusals. The machine's own image stays as it was. Contracts
//! see the copy byte by byte. Each byte is from the last word whose parameter's place covers it,
//! and every other byte is as before.
//!
//! The crate builds on `image_layout` for the places of sections, on `module_facts` and
//! `modinfo_fields` for the texts, on `name_table` for names, and on `raw_image` for the copy. It
//! takes time in proportion to the image, the options and the places of relocations. Names of
//! parameters may share their bytes, so none is read further than the longest name in the options:
//! each entry takes time in proportion to that at most. Out of memory may be reported at any time.
#![tactic(auto)]

mod apply;
mod claims;
mod fault;
mod kind;
mod number;
mod parameter;
mod setting;
mod table;
mod taken;
mod words;
mod worked;
mod written;

pub use apply::{Params, apply_params};
pub use fault::ParamFault;
pub use worked::{forms_of_numbers, signed_edges, truth_values, unsigned_edges, words_of_options};
