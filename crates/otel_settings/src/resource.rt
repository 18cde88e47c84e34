//! What makes the spans.

ghost use Rattle.std.specs.Prelude.{◌≡◌, ◌++◌, [], IfOk, OnOk, is_some, option_map, unwrap_or};
ghost use Rattle.otlp_value.specs.Value.{attributes_view};
ghost use Rattle.otel_settings.specs.ResourcePairs as texts;
ghost use Rattle.otel_settings.specs.Pairs.{pairs_view};
ghost use Rattle.otel_settings.specs.Faults.{faults_view, read_by};
ghost use Rattle.otel_settings.specs.Resources as resources;

use crate::fault::{Instead, SettingFault, note_unread};
use crate::pairs::text_set;
use crate::variable::Variable;
use crate::{ResourceFault, resource_attributes, resource_pairs};
use otlp_value::Value;
use std::alloc::{AllocError, Allocator};

/// The pairs that a text spells, and whether it was read. There are none if it isn't set,
/// or can't be read.
fn pairs_in<A: Allocator + Copy>(
    alloc: A,
    text: Option<&str>,
) -> Result<(Vec<(String<A>, String<A>), A>, bool), AllocError>
    ensures pairs { let read = read_by texts.pairs_of (option_map (λ t. t.now) text.entry) in
        IfOk result (λ found. texts.pairs_view found.0.items ≡ unwrap_or read []) }
    ensures is_read { let read = read_by texts.pairs_of (option_map (λ t. t.now) text.entry) in
        IfOk result (λ found. found.1 ≡ is_some read) }
{
    let Some(text) = text else {
        return Ok((Vec::new(alloc), false));
    };
    match resource_pairs(alloc, text.as_bytes()) {
        Ok(all) => Ok((all, true)),
        Err(ResourceFault::NotPairs) => Ok((Vec::new(alloc), false)),
        Err(ResourceFault::OutOfMemory) => Err(AllocError),
    }
}

/// The pairs, and after them that of the name of the service, if it is set.
#[tactic(auto, using(crate::proofs::Resources::named_pairs))]
fn with_name<A: Allocator + Copy>(
    alloc: A,
    pairs: Vec<(String<A>, String<A>), A>,
    name: Option<&str>,
) -> Result<Vec<(String<A>, String<A>), A>, AllocError>
    ensures { IfOk result (λ all. texts.pairs_view all.items ≡ texts.pairs_view pairs.items
        ++ resources.name_pair (option_map (λ t. t.now) name.entry)) }
{
    let Some(name) = name else {
        return Ok(pairs);
    };
    let key = String::from_str(alloc, "service.name")?;
    let value = String::from_str(alloc, name)?;
    let mut all = pairs;
    all.push((key, value))?;
    Ok(all)
}

/// The attributes of the resource, with the fault after those before.
#[tactic(auto, unfolding(crate::specs::Resources::resource_of, crate::specs::Resources::resource_faults))]
pub(crate) fn read_resource<A: Allocator + Copy>(
    alloc: A,
    faults: &mut Vec<SettingFault<A>, A>,
    pairs: &[(&str, &str)],
) -> Result<Vec<(String<A>, Value<A>), A>, AllocError>
    ensures value { IfOk result (λ all.
        attributes_view all.items ≡ resources.resource_of (pairs_view pairs.now)) }
    ensures faults { OnOk result (faults_view faults.new.items
        ≡ resources.resource_faults (faults_view faults.old.items) (pairs_view pairs.now)) }
{
    let variable = Variable::ResourceAttributes;
    let text = text_set(pairs, variable);
    let (read, is_read) = pairs_in(alloc, text)?;
    let instead = Instead::NoAttributes;
    note_unread(alloc, faults, variable, text, is_read, instead)?;
    let name = text_set(pairs, Variable::ServiceName);
    let all = with_name(alloc, read, name)?;
    resource_attributes(alloc, &all).map_err(|_| AllocError)
}
