//! A theorem about a link: a function with nothing to run.

ghost use Rattle.gateway_link.specs.Handed.{AreHanded};

/// Over any steps of a link since it was dialed, each unit is handed the messages of its address among the frames
/// that were looked at, in their order and each once, and none from before the dial.
pub fn messages_are_handed_in_order()
    ensures { AreHanded }
{
    link_state::messages_come_in_order();
}
