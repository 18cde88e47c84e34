//! Worked examples of what a server's span says, with values that were written out by hand. The
//! checker computes what the definitions make of each, and compares.
//!
//! Each function is a group of examples. Its clauses are the examples, and it does nothing when it
//! is called.

ghost use Rattle.std.specs.Prelude.{◌≡◌, ◌∷◌, [], None, Some, codes, false, pos, true};
ghost use Rattle.trace_api.specs.Endings.{ending_calls};
ghost use Rattle.model_span.specs.Attributes.{int, text};
ghost use Rattle.model_span.specs.Spans.{error, set_attribute, set_status};
ghost use Rattle.traced_http.specs.Attributes.{ending_of};
ghost use Rattle.http_connection.specs.Dates.{has_date, second_of};
ghost use Rattle.traced_http.specs.Methods.{listed_methods, original_method, shown_method};
ghost use Rattle.traced_http.specs.Methods.{span_name, standard_methods};

/// How a span is named, and says its method (Semantic Conventions, "HTTP spans", "Name";
/// "http.request.method").
pub fn names()
    ensures route { span_name standard_methods (codes "GET") (Some (codes "/stock/{id}"))
        ≡ codes "GET /stock/{id}" }
    ensures no_route { span_name standard_methods (codes "POST") None ≡ codes "POST" }
    ensures unknown { span_name standard_methods (codes "BREW") (Some (codes "/pot"))
        ≡ codes "HTTP /pot" }
    ensures known_value { shown_method standard_methods (codes "PATCH") ≡ codes "PATCH" }
    ensures small_letters { shown_method standard_methods (codes "get") ≡ codes "_OTHER" }
    ensures original { original_method standard_methods (codes "get") ≡ Some (codes "get") }
    ensures no_original { original_method standard_methods (codes "TRACE") ≡ None }
    ensures replaced { shown_method (codes "BREW" ∷ []) (codes "BREW") ≡ codes "BREW" }
    ensures no_standard { shown_method (codes "BREW" ∷ []) (codes "GET") ≡ codes "_OTHER" }
{}

/// The methods that a text lists (Semantic Conventions, "http.request.method").
pub fn methods()
    ensures two { listed_methods (codes "GET,BREW") ≡ codes "GET" ∷ codes "BREW" ∷ [] }
    ensures blanks { listed_methods (codes " GET ,,\tget, ")
        ≡ codes "GET" ∷ codes "get" ∷ [] }
    ensures empty { listed_methods [] ≡ standard_methods }
    ensures commas { listed_methods (codes " , ") ≡ standard_methods }
{}

/// Whether a response says when it was made, and at which second (RFC 9110, section 6.6.1).
pub fn dates()
    ensures has_one { has_date ((codes "vary", codes "*") ∷ (codes "date", []) ∷ []) ≡ true }
    ensures has_none { has_date ((codes "update", []) ∷ (codes "dat", []) ∷ []) ≡ false }
    ensures before { second_of 784_111_776_999_999_999 ≡ 784_111_776 }
    ensures at { second_of 784_111_777_000_000_000 ≡ 784_111_777 }
{}

/// The results of requests (Semantic Conventions, "HTTP spans", "Status").
pub fn endings()
    ensures good { ending_of 200 ≡ record { status = Some 200; error_type = None } }
    ensures of_the_client { ending_of 499 ≡ record { status = Some 499; error_type = None } }
    ensures first { ending_of 500 ≡ record { status = Some 500; error_type = Some (codes "500") } }
    ensures last { ending_of 599 ≡ record { status = Some 599; error_type = Some (codes "599") } }
    ensures beyond { ending_of 600 ≡ record { status = Some 600; error_type = None } }
    ensures calls { ending_calls (ending_of 503) ≡
        set_attribute (record {
          key = codes "http.response.status_code";
          value = int (pos 503);
        })
        ∷ set_attribute (record { key = codes "error.type"; value = text (codes "503") })
        ∷ set_status (error []) ∷ [] }
{}
