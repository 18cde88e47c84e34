//! Laws of the faults that a row of fields may have: what is at a place where no field is.
ghost use Rattle.law_export.specs.Faults.{FaultsSayWhatStands, RowStopsAtTheFault};

/// Where no field is at the front of some bytes, the fault says what is there: a field that
/// breaks off, a varint of more than ten bytes, or a tag that no field has. A row is read up to the
/// first such place. (Protocol Buffers, Encoding: Base 128 Varints, Message Structure; that groups
/// are refused, and that the fields before a fault count: profile)
pub fn faults_say_what_stands()
    ensures field { FaultsSayWhatStands }
    ensures row { RowStopsAtTheFault }
{}
