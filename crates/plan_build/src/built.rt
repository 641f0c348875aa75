use ecu_mem::{EcuMem, Ident};
use flash_base::{Bytes, Files, Items, Text};
use flash_order::Order;
use flash_plan::{Draft, Plan, Wanted};
use session_image::Checked;

/// A plan, and what its files say besides.
#[derive(Debug, Drop)]
pub struct Built {
    /// What the order file says.
    pub order: Order,
    /// Unit `n` is task `n` of the order.
    pub plan: Plan,
    /// One for each task, in order.
    pub checks: Items<TaskChecks>,
    /// One for each task, in order.
    pub own: Items<TaskOwn>,
}

/// The checksums of a task's session, in its order; none where the task names a file.
#[derive(Debug, Drop)]
pub struct TaskChecks {
    /// The task's number in the order, from 0.
    pub task: u16,
    pub checks: Items<Checked>,
}

/// The idents that the datablocks of a task's session have of their own, in order; none where the
/// task names a file.
#[derive(Debug, Drop)]
pub struct TaskOwn {
    /// The task's number in the order, from 0.
    pub task: u16,
    pub own: Items<Ident>,
}

/// A catalogue that was resolved, and the name of its file.
#[derive(Debug, Drop)]
pub struct Catalogue {
    pub name: Text,
    pub mem: EcuMem,
}

/// What is read for one task.
#[derive(Debug, Drop)]
pub enum Load {
    /// The bytes of its file, which go to this address.
    File {
        at: u64,
        idents: Items<Wanted>,
        bytes: Bytes,
    },
    /// The number of its session, the expected idents with their identifiers, and the session's files.
    Session {
        session: u64,
        idents: Items<Wanted>,
        files: Files,
        fill: Option<u8>,
    },
}

/// What one task gives.
#[derive(Debug, Drop)]
pub struct Part {
    pub draft: Draft,
    pub checks: Items<Checked>,
    pub own: Items<Ident>,
}

/// What tasks give, each list in their order.
#[derive(Debug, Drop)]
pub struct Parts {
    pub drafts: Items<Draft>,
    pub checks: Items<TaskChecks>,
    pub own: Items<TaskOwn>,
}
