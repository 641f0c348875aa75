//! Theorems about the reading of a tree: functions with nothing to run.

ghost use Rattle.odx_tree.specs.Laws.{FirstPlaceDecides};

/// A JSON value is read as an element exactly where no place of it is out of the form. Else it
/// is refused at the first such place in document order, a value before all inside it.
pub fn first_place_decides()
    ensures { FirstPlaceDecides }
{}
