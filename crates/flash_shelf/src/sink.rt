ghost use Rattle.std.specs.Prelude.{◌≡◌, ◌≤◌, Bool, ℕ, List};
ghost use Rattle.flash_shelf.specs.History.{SinkHistory};
ghost use Rattle.flash_shelf.specs.Outside.{Went};

/// Not all of the bytes were written.
#[derive(Debug, Drop)]
pub struct SinkFault;

/// Where printed text goes. A failure raises the count of faults, which never falls and stays at
/// 2^64 - 1 once there.
pub trait Sink {
    /// Whether it is told what was written.
    ghost tells: { Bool };

    /// What was written so far, and how many writes failed.
    ghost history: { Self → SinkHistory };

    /// Puts all the bytes at the end; after a failure a prefix of them.
    fn write(&mut self, bytes: &[u8]) -> Result<(), SinkFault>
        ensures never_falls { (history self.old).faults ≤ (history self.new).faults }
        ensures went { Went tells (history self.old) (history self.new) bytes.now result };
}
