//! Values that carry a log.
ghost use Rattle.std.specs.Prelude.{◌≡◌, ◌^◌, ◌<◌, List, length};

/// A value that stands for an opening and a list of entries.
///
/// The opening is what it began with, and the list what happened to it since, oldest first. That the opening stays and
/// the list only grows is asked where a value is given back, by [`Turn::give`](crate::Turn::give).
pub trait Logged {
    type Opening;

    type Entry;

    ghost opening: { Self → Self.Opening };

    ghost entries: { Self → List Self.Entry };

    /// The number of entries. It is read at each take and at each give, so it should take no walk through the list.
    fn count(&self) -> u64
        ensures number { result ≡ length (entries self.now) }
        ensures few { length (entries self.now) < 2 ^ 63 };
}
