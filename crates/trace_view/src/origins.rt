//! The origins that the command line names.
ghost use Rattle.std.specs.Prelude.{◌≡◌};
ghost use Rattle.program_args.specs.Words.{texts_of};
ghost use Rattle.trace_view.specs.Command as spec;
ghost use Rattle.http_listener.specs.Origins.{is_origin};
ghost use Rattle.std.specs.Prelude.{string_bytes};
ghost use Rattle.std.specs.List.{list_all};

use http_listener::is_origin;

/// Whether each of these texts is an origin.
fn is_each_origin(texts: &[String]) -> bool
    ensures { result ≡ list_all (λ text. is_origin (string_bytes text)) texts.now }
{
    texts.iter().all(|text| is_origin(text.as_str()))
}

/// Whether each of these texts, which `--allow-origin` was given, is an origin.
pub(crate) fn are_origins(texts: &[String]) -> bool
    ensures { result ≡ spec.are_origins (texts_of texts.now) }
{
    is_each_origin(texts)
}

/// The first of these texts that is no origin. It is empty where each is one.
pub(crate) fn first_bad_origin(texts: &[String]) -> &str {
    for text in texts {
        if !is_origin(text.as_str()) {
            return text.as_str();
        }
    }
    ""
}
