/// The size limit, in bytes, of a file that is read or written. It is this project's own; the
/// largest module of a distribution's kernel has a fifth of it.
pub const FILE_LIMIT: usize = 67_108_864;
