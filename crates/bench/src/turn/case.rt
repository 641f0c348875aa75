//! What is run.
ghost use Rattle.std.specs.Prelude.{◌≡◌, ◌*◌, ◌/◌, ◌≤◌};

/// `workers` threads take the log `turns` times each, and read `block` bytes while they hold it.
#[derive(Clone, Copy)]
pub struct Case {
    pub workers: u64,
    pub turns: u64,
    pub block: usize,
    ghost some: { (1 ≤ workers) × (workers ≤ 16) },
    ghost few: { turns ≤ 1000000 },
    ghost small: { block ≤ 65536 },
}

impl Case {
    /// The same with a hundredth of the turns.
    pub fn shortened(&self) -> Case
        ensures turns { result.turns ≡ self.now.turns / 100 }
        ensures same { (result.workers ≡ self.now.workers) × (result.block ≡ self.now.block) }
    {
        Case {
            workers: self.workers,
            turns: self.turns / 100,
            block: self.block,
        }
    }

    /// How many entries the log has afterwards.
    pub fn entries(&self) -> u64
        ensures { result ≡ self.now.workers * self.now.turns }
    {
        self.workers * self.turns
    }
}
