//! The image of spans in the messages of a trace export, and their groups: definitions, and a law
//! of them as a function's contract.
#![tactic(auto)]

ghost use Rattle.model_export.specs.Laws.{SpansAreCarried, GroupsAreCarried};

/// A request carries the spans of its groups, and where these are the groups of some spans, just
/// these spans.
pub fn groups_are_carried()
    ensures spans { SpansAreCarried }
    ensures groups { GroupsAreCarried }
{}
