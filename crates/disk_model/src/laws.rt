//! A theorem about the model: a function with nothing to run.

ghost use Rattle.disk_model.specs.Rows.{AreImagesWorked};

/// The images that were worked out by hand: of a byte that is written and not yet synced, and of a file that grows.
pub fn worked_images()
    ensures { AreImagesWorked }
{}
