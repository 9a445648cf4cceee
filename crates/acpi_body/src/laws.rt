//! Laws of the readings of method bodies, of the definitions alone.

ghost use Rattle.acpi_body.specs.Laws.{AtMostOneReading, ReadOrNot, OneRefusal, ReadOrRefused, ReturnsNoValue, ReadingIsKept, SearchesAreSpelled, ReadingsAreSame};

/// Bytes have at most one reading.
pub fn at_most_one_reading()
    ensures { AtMostOneReading }
{}

/// Bytes are read, or have no reading.
pub fn read_or_not()
    ensures { ReadOrNot }
{}

/// At most one fault is true of bytes, and exactly one of bytes that have no reading.
pub fn one_refusal()
    ensures one { OneRefusal }
    ensures some { ReadOrRefused }
    ensures example { ReturnsNoValue }
{}

/// A reading depends on a namespace only by the argument counts of names that are spelled in its bytes.
pub fn reading_is_kept()
    ensures kept { ReadingIsKept }
    ensures spelled { SearchesAreSpelled }
    ensures same { ReadingsAreSame }
{}
