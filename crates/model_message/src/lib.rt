//! What bytes mean as messages of a trace export, and the bytes that a message is written as
//! (Protocol Buffers, "Encoding"; opentelemetry-proto): definitions, and laws of them, each as a
//! function's contract.
#![tactic(auto)]

ghost use Rattle.model_message.specs.Laws.{OneVarint, OneField, RowIsSpelled, WrittenIsRead};

/// No spelling of a varint or of a field begins another, and a row is read just where it is
/// spelled.
pub fn wire_laws()
    ensures varint { OneVarint }
    ensures field { OneField }
    ensures row { RowIsSpelled }
{}

/// A message that is written by its table is read by its table.
pub fn written_is_read()
    ensures { WrittenIsRead }
{}
