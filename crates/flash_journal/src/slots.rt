ghost use Rattle.std.specs.Prelude.{◌≡◌, ◌≤◌, length};
ghost use Rattle.journal_steps.specs.Tables.{open_run as first_open, closed_run as first_closed};

/// How many gates are open before the first that is closed.
pub fn open_run(gates: &[bool]) -> usize
    ensures run { result ≡ first_open gates.now }
    ensures within { result ≤ length gates.now }
{
    let mut slot = 0;
    while slot < gates.len() && gates[slot] {
        slot += 1;
    }
    slot
}

/// How many gates are closed before the first that is open.
pub fn closed_run(gates: &[bool]) -> usize
    ensures run { result ≡ first_closed gates.now }
    ensures within { result ≤ length gates.now }
{
    let mut slot = 0;
    while slot < gates.len() && !gates[slot] {
        slot += 1;
    }
    slot
}
