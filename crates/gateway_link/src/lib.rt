//! The link to a gateway over a shop (ISO 13400-2:2019, sections 7 and 9): each step makes one call of the
//! device and does to the link's state what the call's answer does to it.
//!
//! - [`redial`], [`deliver`] and [`receive`] are the calls alone. Whoever keeps the state of the link
//!   elsewhere makes its calls by them.
//! - [`activation`], [`alive_answer`] and [`message`] spell the frames that a tester sends.
//! - [`Link`] is a call and its effect together.
//!
//! What an answer does to a link stands in `link_state`, and nowhere else.
#![tactic(auto)]

mod calls;
mod laws;
mod link;
mod spelled;

pub use calls::{Came, deliver, receive, redial};
pub use laws::messages_are_handed_in_order;
pub use link::{Link, Polled};
pub use link_state::{Message, Phase};
pub use spelled::{activation, alive_answer, message};
