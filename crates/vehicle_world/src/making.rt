//! A vehicle from a spec, and a spec of a vehicle.

ghost use Rattle.std.specs.Prelude.{◌≡◌, map, not, IfOk};
ghost use Rattle.flash_base.specs.Lists.{Each};
ghost use Rattle.gateway_sim.specs.Gates.{gate_of, made_of as gate_made};
ghost use Rattle.gateway_sim.specs.Saving.{left_at};
ghost use Rattle.gateway_sim.specs.Troubles.{IsGatewaySpec};
ghost use Rattle.unit_model.specs.Running.{IsUnitSpec};
ghost use Rattle.unit_sim.specs.Sims.{made_of as sim_made};
ghost use Rattle.vehicle_world.specs.Saving.{SavesUnit, SaveUnits, address_in, is_met, unmet, until_met};
ghost use Rattle.vehicle_world.specs.States.{node_sim};

use crate::finding::has_heard;
use crate::node::Node;
use flash_base::{Items, NoMemory};
use gateway_sim::{GatewaySim, GatewaySpec};
use std::alloc::Global;
use unit_model::{Act, TroubleSpec, UnitSpec, Until};

/// The gateway of a spec; an alive check at tick 0 is over.
pub(crate) fn gate_of(alloc: Global, spec: &GatewaySpec) -> Result<GatewaySim, NoMemory>
    requires { IsGatewaySpec spec.now }
    ensures { IfOk result (λ g. gate_of g ≡ gate_made (record spec.now { gateway = left_at 0 spec.now.gateway })) }
{
    let all = GatewaySim::new(alloc, spec)?;
    let left = all.spec(alloc)?;
    GatewaySim::new(alloc, &left)
}

/// The units of specs, in their order.
pub(crate) fn nodes_of(alloc: Global, specs: &[UnitSpec]) -> Result<Vec<Node>, NoMemory>
    requires { Each IsUnitSpec specs.now }
    ensures { IfOk result (λ made. map node_sim made.items ≡ map sim_made specs.now) }
{
    let mut made = Vec::new(alloc);
    for spec in specs {
        made.push(Node::new(alloc, spec)?)?;
    }
    Ok(made)
}

fn until_met(units: &[Node], until: Until) -> bool
    ensures { result ≡ until_met (map node_sim units.now) until }
{
    match until {
        Until::Times(_) => false,
        Until::Heard { unit, sid } => has_heard(units, unit, sid),
    }
}

/// Responses pending until a unit has heard what it has heard already.
fn is_met(units: &[Node], act: &Act) -> bool
    ensures { result ≡ is_met (map node_sim units.now) act.now }
{
    match act {
        Act::Pending { until, .. } => until_met(units, *until),
        Act::Refuse { .. } => false,
        Act::Odd { .. } => false,
        Act::Fail { .. } => false,
        Act::Mute => false,
        Act::Delay { .. } => false,
        Act::Busy { .. } => false,
    }
}

fn is_unmet(units: &[Node], trouble: &TroubleSpec) -> bool
    ensures { result ≡ not (is_met (map node_sim units.now) trouble.now.act) }
{
    !is_met(units, &trouble.act)
}

/// The troubles that remain.
fn unmet(units: &[Node], troubles: Items<TroubleSpec>) -> Items<TroubleSpec>
    ensures { result ≡ unmet (map node_sim units.now) troubles }
{
    let mut list = troubles.into_vec();
    list.retain(|t| is_unmet(units, t));
    Items::from_vec(list)
}

fn with_unmet(units: &[Node], spec: UnitSpec) -> UnitSpec
    ensures { result ≡ record spec { troubles = unmet (map node_sim units.now) spec.troubles } }
{
    UnitSpec {
        troubles: unmet(units, spec.troubles),
        ..spec
    }
}

/// The unit as a spec.
fn spec_of(alloc: Global, units: &[Node], node: &Node) -> Result<UnitSpec, NoMemory>
    ensures is { IfOk result (SavesUnit (map node_sim units.now) (node_sim node.now)) }
    ensures form { IfOk result IsUnitSpec }
{
    Ok(with_unmet(units, node.sim.spec(alloc)?))
}

/// The units as specs.
pub(crate) fn specs_of(alloc: Global, units: &[Node]) -> Result<Items<UnitSpec>, NoMemory>
    ensures is { IfOk result (SaveUnits (map node_sim units.now) (map node_sim units.now)) }
    ensures form { IfOk result (Each IsUnitSpec) }
{
    let mut made = Items::new(alloc);
    for node in units {
        made.push(spec_of(alloc, units, node)?)?;
    }
    Ok(made)
}

/// The addresses of specs.
pub(crate) fn addresses(alloc: Global, specs: &[UnitSpec]) -> Result<Items<u16>, NoMemory>
    ensures { IfOk result (λ made. made ≡ map address_in specs.now) }
{
    let mut made = Items::new(alloc);
    for spec in specs {
        made.push(spec.address)?;
    }
    Ok(made)
}
