//! What follows from the definitions alone. Each law is the contract of a call that does nothing.

ghost use Rattle.acpins_records.specs.Laws.{OneBodyText, OneContents};

/// Tables load to one list of records, targets, text, parts and bytes: so two calls over the same tables need the same
/// room, and write the same.
pub fn one_contents()
    ensures { OneContents }
{}

/// The text of a body is one: so two calls for it need the same room.
pub fn one_body_text()
    ensures { OneBodyText }
{}
