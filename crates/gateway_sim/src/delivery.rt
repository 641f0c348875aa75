/// What a frame means for a unit.
#[derive(Clone, Copy, Debug)]
pub enum Delivery<'a> {
    /// Nothing.
    Nothing,
    /// The unit hears this request.
    Heard { unit: u16, body: &'a [u8] },
    /// A message to the unit was refused with this code.
    Refused { unit: u16, code: u8 },
}
