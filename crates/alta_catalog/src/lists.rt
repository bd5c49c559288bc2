// Names with their numbers.

use alta_codec::{DocNumber, Listed, Text};

/// A live document's name and number.
#[derive(Drop)]
pub struct NameRow {
    /// Its name.
    pub name: Text,
    /// Its number.
    pub number: DocNumber,
}

/// Names with their numbers.
pub type Names = Listed<NameRow>;
