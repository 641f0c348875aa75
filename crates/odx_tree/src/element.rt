use flash_base::{Items, Text};

/// An element of a catalogue tree: the JSON transcription of an XML element.
///
/// `tag` is never empty. `attrs` are pairs of a name and its text, in the ascending order of
/// the names' bytes, each name once. `kids` stand in document order. What the JSON leaves out
/// is empty here.
#[derive(Debug, Drop)]
pub struct Element {
    pub tag: Text,
    pub attrs: Items<(Text, Text)>,
    pub kids: Items<Element>,
    pub text: Text,
}
