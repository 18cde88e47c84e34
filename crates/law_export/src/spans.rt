//! Laws of the model of tracing: what holds of attributes, calls on a span and groups of spans,
//! whatever they are.
ghost use Rattle.law_export.specs.Rows.{OneRow};
ghost use Rattle.law_export.specs.Keeping.{FirstKeysAreKept, AtMostTheLimitIsKept, NoKeyIsEmpty};
ghost use Rattle.law_export.specs.Keeping.{NoKeyIsTwice, KeptKeysAreSet, KeysAreInOrderOfFirstUse};
ghost use Rattle.law_export.specs.Keeping.{OnlyLaterKeysAreLeftOut, MorePairsKeepTheKeys};
ghost use Rattle.law_export.specs.Keeping.{LastPairCounts, TextIsCut, EachTextIsCut};
ghost use Rattle.law_export.specs.Keeping.{OtherValuesStay, NoLimitCutsNothing, OthersAreDropped};
ghost use Rattle.law_export.specs.Keeping.{KeptAndDroppedAddUp};
ghost use Rattle.law_export.specs.Calls.{FirstEventsAreKept, FirstLinksAreKept, OkIsFinal};
ghost use Rattle.law_export.specs.Calls.{UnsetIsIgnored, LastErrorCounts, StatusBeginsUnset};
ghost use Rattle.law_export.specs.Calls.{LastNameCounts, NameBeginsAsGiven};
ghost use Rattle.law_export.specs.Calls.{CallsAfterTheEndAreIgnored, FirstEndCounts};
ghost use Rattle.law_export.specs.Grouping.{ResourceEqDecides, ScopeEqDecides, EachSpanIsGrouped};
ghost use Rattle.law_export.specs.Grouping.{GroupsAreOfOneScope, EachResourceIsOnce};
ghost use Rattle.law_export.specs.Grouping.{EachScopeIsOnce, NoGroupIsEmpty, ResourcesAreInOrder};
ghost use Rattle.law_export.specs.Grouping.{ScopesAreInOrder};

/// Some bytes are cut into fields in one way at most. (Protocol Buffers, Encoding: Message
/// Structure)
pub fn one_row()
    ensures { OneRow }
{}

/// Of the keys that are set on a list of attributes, the first are kept, up to the limit, in the
/// order of their first use. An empty key is not kept. What is set later removes no key and moves
/// none. (Common, Attribute Limits)
pub fn keys_are_kept()
    ensures first { FirstKeysAreKept }
    ensures at_most { AtMostTheLimitIsKept }
    ensures not_empty { NoKeyIsEmpty }
    ensures not_twice { NoKeyIsTwice }
    ensures set { KeptKeysAreSet }
    ensures in_order { KeysAreInOrderOfFirstUse }
    ensures left_out { OnlyLaterKeysAreLeftOut }
    ensures stay { MorePairsKeepTheKeys }
{}

/// A key that is kept has the value that was set last, cut to the limit of its texts. (Trace API,
/// Set Attributes; Common, Attribute Limits)
pub fn last_value_counts()
    ensures { LastPairCounts }
{}

/// Where texts have a limit, a value keeps the first characters of each of its texts, and any other
/// value stays. (Common, Attribute Limits)
pub fn texts_are_cut()
    ensures text { TextIsCut }
    ensures each_text { EachTextIsCut }
    ensures others { OtherValuesStay }
    ensures no_limit { NoLimitCutsNothing }
{}

/// The pairs whose key is kept and the count of dropped ones add up to the pairs that were set
/// under a key that isn't empty, and the count stops at the greatest number of 32 bits. (Common,
/// Attribute Limits; the greatest count: profile)
pub fn dropped_pairs_are_counted()
    ensures capped { OthersAreDropped }
    ensures exact { KeptAndDroppedAddUp }
{}

/// The first events and links are kept, up to the limit, and the others are counted. (Trace SDK,
/// Span Limits)
pub fn first_events_and_links_are_kept()
    ensures events { FirstEventsAreKept }
    ensures links { FirstLinksAreKept }
{}

/// Ok is final, Unset changes nothing, and without Ok the last Error counts. (Trace API, Set
/// Status)
pub fn status_laws()
    ensures ok { OkIsFinal }
    ensures unset { UnsetIsIgnored }
    ensures error { LastErrorCounts }
    ensures none { StatusBeginsUnset }
{}

/// The last update of the name counts. (Trace API, UpdateName)
pub fn name_laws()
    ensures last { LastNameCounts }
    ensures none { NameBeginsAsGiven }
{}

/// A span ends at its first end, and the calls after it change nothing. (Trace API, End)
pub fn end_laws()
    ensures appended { CallsAfterTheEndAreIgnored }
    ensures first { FirstEndCounts }
{}

/// Resources and scopes are equal where all their parts are. (profile)
pub fn equality_laws()
    ensures resource { ResourceEqDecides }
    ensures scope { ScopeEqDecides }
{}

/// Each span is in the group of its resource and scope, in order, and in no other; no group is
/// empty; a resource has one group, and a scope one in it. Groups are in the order of their first
/// spans. (opentelemetry-proto, trace.proto: ResourceSpans, ScopeSpans; the order: profile)
pub fn groups_are_the_spans()
    ensures all { EachSpanIsGrouped }
    ensures same { GroupsAreOfOneScope }
    ensures resource_once { EachResourceIsOnce }
    ensures scope_once { EachScopeIsOnce }
    ensures not_empty { NoGroupIsEmpty }
    ensures resources_in_order { ResourcesAreInOrder }
    ensures scopes_in_order { ScopesAreInOrder }
{}
