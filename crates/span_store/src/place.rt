/// Where bytes come among extents.
#[derive(Clone, Copy, Debug)]
pub(crate) enum Place {
    /// No extent reaches them, and the one with this start ends where they begin.
    Behind(u64),
    /// No extent reaches them, and none ends where they begin.
    Apart,
    /// An extent reaches them.
    Meets,
}
