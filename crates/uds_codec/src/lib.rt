//! UDS requests and answers (ISO 14229-1): what bytes spell a request, what bytes answer one.
#![tactic(auto)]

pub mod code;
mod judging;
mod laws;
mod number;
mod read;
mod reading;
mod request;
pub mod service;
pub mod write;

pub use code::is_listed_code;
pub use judging::{Awaited, Verdict, judge};
pub use laws::{beginnings, determined, grammar, read_again, written_again};
pub use number::{get_number, put_number};
pub use reading::{decode, decode_reply};
pub use request::{Reply, Request, UdsFault};
pub use write::encode;
