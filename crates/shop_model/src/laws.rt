//! A theorem about the calls of a shop: a function with nothing to run.

ghost use Rattle.shop_model.specs.Stepping.{AreUnitSteps};

/// Whatever a link call does to a vehicle, each unit is then, its counts of troubles aside, that unit after some
/// list of unit steps, and no unit comes or goes.
pub fn each_link_call_is_unit_steps()
    ensures { AreUnitSteps }
{}
