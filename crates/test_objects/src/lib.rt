//! What the crates of tests share. There are written sheets, with what a module has as one
//! constant, their objects, and small modules. There are also one object byte by byte, bytes in
//! hexadecimal digits, and texts for which calls have conditions.
//!
//! It builds on `sheet_object` for sheets and their objects, on `km_names` for lists and names, on
//! `hex` for digits, and on the definitions of `index_format` for keys and texts.
#![tactic(auto)]

mod digits;
mod fault;
mod license;
mod lists;
mod object;
mod row;
mod sheets;
mod texts;

pub use digits::bytes_of;
pub use fault::RowFault;
pub use license::LICENSE_OBJECT;
pub use object::{more, object_of, object_with, sheet};
pub use row::{
    EMPTY_MORE, EMPTY_SHEET, ExportRow, MoreRow, NeedRow, PlaceRow, SheetRow, SpaceRow, VersionRow,
};
pub use sheets::{
    FREE, GIVES, GIVES_ALONE, GIVES_VERSION_1, GPL_ONLY, IMPORTS, IN_SPACE, MAY_NEED,
    MAY_NEED_VERSION_2, NEEDS, NEEDS_NOSUCH, NO_MORE, NOTHING,
};
pub use texts::{conf_file, is_key, is_text};
