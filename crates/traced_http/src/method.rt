//! The method of a request, as spans and their attributes say it.

ghost use Rattle.std.specs.Prelude.{◌≡◌, ◌++◌, IfOk, OnOk, bytes_eq, flat_map, map};
ghost use Rattle.std.specs.List.{list_any};
ghost use Rattle.std.specs.Option.{option_copied};
ghost use Rattle.trace_context.specs.Tracestate.{entry_in};
ghost use Rattle.traced_http.specs.Methods as spec;

use otlp_ids::OutOfMemory;
use std::alloc::Global;
use std::marker::Model;
use text_words::{parts_of, trimmed};

/// The methods that spans are named by: those of RFC 9110, section 9, and `PATCH` of RFC 5789, or
/// those that a text lists (Semantic Conventions, "http.request.method"). Any other is `_OTHER`,
/// since clients may make up any number of them. Letters count in their case: `get` isn't `GET`. In
/// contracts it is the list.
#[derive(Drop)]
pub struct KnownMethods {
    /// Those that a text lists, if one was given that lists some.
    listed: Option<Vec<Vec<u8>>>,
}

impl Model for KnownMethods {
    ghost use Rattle.std.specs.Prelude.{List, ℕ};
    ghost use Rattle.traced_http.specs.Methods.{known_view};

    ghost Value = { List (List ℕ) };

    ghost view = { λ k. known_view k.listed };
}

/// Whether this is one of the standard methods.
#[tactic(auto, unfolding(crate::specs::Methods::is_known))]
fn is_standard(method: &str) -> bool
    ensures { result ≡ spec.is_known spec.standard_methods method.now }
{
    matches!(
        method,
        "CONNECT" | "DELETE" | "GET" | "HEAD" | "OPTIONS" | "PATCH" | "POST" | "PUT" | "TRACE"
    )
}

/// Whether this is one of the methods of a list.
fn is_listed(listed: &[Vec<u8>], method: &[u8]) -> bool
    ensures { result ≡ list_any (bytes_eq method.now) (spec.lent_methods listed.now) }
{
    let mut rest = listed;
    while let [first, after @ ..] = rest {
        if method == first.as_slice() {
            return true;
        }
        rest = after;
    }
    false
}

/// Adds each method that isn't empty, without the blanks around it.
#[tactic(auto, using(crate::proofs::Queries::joined_more))]
fn push_methods(
    alloc: Global,
    methods: &mut Vec<Vec<u8>>,
    parts: &[&[u8]],
) -> Result<(), OutOfMemory>
    ensures { OnOk result (spec.lent_methods methods.new.items
        ≡ spec.lent_methods methods.old.items ++ flat_map entry_in (map (λ p. p.now) parts.now)) }
{
    for part in parts {
        let method = trimmed(part);
        if !method.is_empty() {
            methods.push(Vec::from_slice(alloc, method)?)?;
        }
    }
    Ok(())
}

/// These methods, or the standard ones where there are none.
#[tactic(auto, using(crate::proofs::Methods::no_method, crate::proofs::Methods::some_methods))]
fn chosen(listed: Vec<Vec<u8>>) -> KnownMethods
    ensures { result ≡ spec.chosen_methods (spec.lent_methods listed.items) }
{
    if listed.is_empty() {
        KnownMethods { listed: None }
    } else {
        KnownMethods {
            listed: Some(listed),
        }
    }
}

impl Default for KnownMethods {
    /// The standard methods.
    fn default() -> KnownMethods
        ensures { result ≡ spec.standard_methods }
    {
        KnownMethods { listed: None }
    }
}

impl KnownMethods {
    /// The methods that a text lists, with commas between them, as the variable
    /// `OTEL_INSTRUMENTATION_HTTP_KNOWN_METHODS` has them: they replace the standard ones (Semantic
    /// Conventions, "http.request.method"). Blanks around them and empty ones don't count; where
    /// the text lists none, they are the standard ones.
    ///
    /// # Errors
    ///
    /// `OutOfMemory` where memory was refused.
    #[tactic(auto, unfolding(trace_context::specs::Tracestate::entries_in))]
    pub fn parse(alloc: Global, text: &str) -> Result<KnownMethods, OutOfMemory>
        ensures { IfOk result (λ known. known ≡ spec.listed_methods text.now) }
    {
        let parts = parts_of(alloc, text.as_bytes(), b',')?;
        let mut listed = Vec::new(alloc);
        push_methods(alloc, &mut listed, &parts)?;
        Ok(chosen(listed))
    }

    /// Whether a span is named by this method.
    #[tactic(auto, unfolding(crate::specs::Methods::is_known))]
    pub fn contains(&self, method: &str) -> bool
        ensures { result ≡ spec.is_known self.now method.now }
    {
        match &self.listed {
            None => is_standard(method),
            Some(listed) => is_listed(listed, method.as_bytes()),
        }
    }

    /// The method as the attribute `http.request.method` has it: `_OTHER` where it isn't known.
    pub fn shown<'a>(&self, method: &'a str) -> &'a str
        ensures { result.now ≡ spec.shown_method self.now method.now }
    {
        if self.contains(method) {
            method
        } else {
            "_OTHER"
        }
    }

    /// The method as `http.request.method_original` has it: as it is, where it isn't known; else
    /// there is no such attribute.
    pub fn original<'a>(&self, method: &'a str) -> Option<&'a str>
        ensures { option_copied result ≡ spec.original_method self.now method.now }
    {
        if self.contains(method) {
            None
        } else {
            Some(method)
        }
    }

    /// The method as the name of a span has it: `HTTP` where it isn't known (Semantic Conventions,
    /// "HTTP spans", "Name").
    pub fn name<'a>(&self, method: &'a str) -> &'a str
        ensures { result.now ≡ spec.method_name self.now method.now }
    {
        if self.contains(method) {
            method
        } else {
            "HTTP"
        }
    }
}
