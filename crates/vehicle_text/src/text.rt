//! The text of a vehicle.

ghost use Rattle.std.specs.Prelude.{◌≡◌, OnOk, Ok, IfOk};
ghost use Rattle.vehicle_file.specs.Files.{vehicle_of};
ghost use Rattle.vehicle_text.specs.Objects.{put_all};
ghost use Rattle.vehicle_text.specs.Ranges.{FitsVehicle};
ghost use Rattle.vehicle_text.specs.Texts.{IsSaid, text_of, vehicle_fields};

use crate::forms::put_four;
use crate::lists::{Form, object, put_list, put_some_list};
use crate::out::Out;
use crate::troubles::GateForm;
use crate::units::UnitForm;
use flash_base::{Bytes, NoMemory};
use std::alloc::Global;
use vehicle_file::VehicleSpec;

/// A vehicle.
struct VehicleForm;

impl Form for VehicleForm {
    type Item = VehicleSpec;

    ghost fields = { vehicle_fields };

    ghost fits = { FitsVehicle };

    fn write(&self, alloc: Global, out: &mut Out, item: &VehicleSpec) -> Result<(), NoMemory> {
        put_four(alloc, out, "entity", item.gateway.entity)?;
        put_list(alloc, out, "units", item.units.as_slice(), &UnitForm)?;
        put_some_list(
            alloc,
            out,
            "gateway",
            item.gateway.gateway.as_slice(),
            &GateForm,
        )
    }
}

/// The text of a vehicle: JSON without blanks, the members of an object in the order in which the format lists
/// them. A member that has the value which an absent one stands for is left out.
///
/// A vehicle that a file can say is read from its text as it was.
pub fn write(alloc: Global, vehicle: &VehicleSpec) -> Result<Bytes, NoMemory>
    ensures is { IfOk result (λ b. b ≡ text_of vehicle.now) }
    ensures back { IfOk result (λ b. IsSaid vehicle.now → vehicle_of b ≡ Ok vehicle.now) }
{
    let mut out = Out::new(alloc);
    object(alloc, &mut out, vehicle, &VehicleForm)?;
    Ok(out.finish())
}
