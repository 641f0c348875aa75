use flash_base::Items;
use gateway_sim::GatewaySpec;
use unit_model::UnitSpec;

/// What a vehicle is made of: a gateway, and the units behind it, whose addresses the gateway has in their order.
#[derive(Debug, Drop)]
pub struct VehicleSpec {
    pub gateway: GatewaySpec,
    pub units: Items<UnitSpec>,
}
