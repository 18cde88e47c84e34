//! How values are read.

ghost use Rattle.std.specs.Prelude.{◌≡◌, ◌≤◌, ◌++◌, IfOk, IfSome, OnOk, option_map, string_bytes};
ghost use Rattle.otel_settings.specs.Pairs.{pairs_view, text_set};
ghost use Rattle.otel_settings.specs.Faults.{faults_by, faults_view, read_by};
ghost use Rattle.otel_settings.specs.Readings as readings;

use crate::fault::{Instead, SettingFault, note_unread};
use crate::pairs::text_set;
use crate::variable::Variable;
use std::alloc::{AllocError, Allocator};
use text_words::small_number;

/// `true` or `false`, in letters of either case.
#[tactic(auto, unfolding(crate::specs::Readings::boolean))]
fn boolean(text: &str) -> Option<bool>
    ensures { result ≡ readings.boolean text.now }
{
    if text.eq_ignore_ascii_case("true") {
        return Some(true);
    }
    if text.eq_ignore_ascii_case("false") {
        return Some(false);
    }
    None
}

/// Decimal digits alone, of a number from `least` to `most`.
#[tactic(auto, unfolding(crate::specs::Readings::number_in))]
pub(crate) fn number_in(text: &str, least: u32, most: u32) -> Option<u32>
    ensures value { result ≡ readings.number_in least most text.now }
    ensures within { IfSome result (λ number. (least ≤ number) × (number ≤ most)) }
{
    let number = small_number(text.as_bytes()).ok()?;
    if least <= number && number <= most {
        return Some(number);
    }
    None
}

/// A truth value, if the variable is set and read. What is set and not read is a fault more.
pub(crate) fn read_boolean<A: Allocator>(
    alloc: A,
    faults: &mut Vec<SettingFault<A>, A>,
    pairs: &[(&str, &str)],
    variable: Variable,
) -> Result<Option<bool>, AllocError>
    ensures value { IfOk result (λ value.
        value ≡ read_by readings.boolean (text_set variable (pairs_view pairs.now))) }
    ensures faults { OnOk result (faults_view faults.new.items ≡ faults_view faults.old.items
        ++ faults_by readings.boolean variable Instead.False
        (text_set variable (pairs_view pairs.now))) }
{
    let text = text_set(pairs, variable);
    let value = text.and_then(|text| boolean(text));
    note_unread(
        alloc,
        faults,
        variable,
        text,
        value.is_some(),
        Instead::False,
    )?;
    Ok(value)
}

/// A number from `least` to `most`, if the variable is set and read. What is set and not read is a
/// fault more.
pub(crate) fn read_number<A: Allocator>(
    alloc: A,
    faults: &mut Vec<SettingFault<A>, A>,
    pairs: &[(&str, &str)],
    variable: Variable,
    least: u32,
    most: u32,
    instead: Instead,
) -> Result<Option<u32>, AllocError>
    ensures value { IfOk result (λ value.
        value ≡ read_by (readings.number_in least most)
        (text_set variable (pairs_view pairs.now))) }
    ensures faults { OnOk result (faults_view faults.new.items ≡ faults_view faults.old.items
        ++ faults_by (readings.number_in least most) variable instead
        (text_set variable (pairs_view pairs.now))) }
{
    let text = text_set(pairs, variable);
    let value = text.and_then(|text| number_in(text, least, most));
    note_unread(alloc, faults, variable, text, value.is_some(), instead)?;
    Ok(value)
}

/// What a variable is set to, if it is.
pub(crate) fn read_text<A: Allocator>(
    alloc: A,
    pairs: &[(&str, &str)],
    variable: Variable,
) -> Result<Option<String<A>>, AllocError>
    ensures { IfOk result (λ text.
        option_map string_bytes text ≡ text_set variable (pairs_view pairs.now)) }
{
    let Some(text) = text_set(pairs, variable) else {
        return Ok(None)
    };
    Ok(Some(String::from_str(alloc, text)?))
}
