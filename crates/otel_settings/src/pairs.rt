//! What a variable is set to by a list of names and values.

ghost use Rattle.std.specs.Prelude.{◌≡◌, option_map};
ghost use Rattle.otel_settings.specs.Pairs.{last_of, pairs_view, text_set};

use crate::variable::Variable;

/// The value of the last pair with this name.
fn last_of<'a>(pairs: &[(&'a str, &'a str)], name: &str) -> Option<&'a str>
    ensures { option_map (λ t. t.now) result ≡ last_of name.now (pairs_view pairs.now) }
{
    let mut last = None;
    for (key, value) in pairs {
        if *key == name {
            last = Some(*value);
        }
    }
    last
}

/// What a variable is set to: the value of the last pair with its name, unless that is empty.
pub(crate) fn text_set<'a>(pairs: &[(&'a str, &'a str)], variable: Variable) -> Option<&'a str>
    ensures { option_map (λ t. t.now) result ≡ text_set variable (pairs_view pairs.now) }
{
    let text = last_of(pairs, variable.name())?;
    if text.is_empty() {
        return None;
    }
    Some(text)
}
