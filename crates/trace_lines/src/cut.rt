//! Texts that are cut.

ghost use Rattle.std.specs.Prelude.{◌≡◌, IfOk, string_bytes};
ghost use Rattle.std.specs.Fmt.{take_chars};

use std::alloc::{AllocError, Allocator};

/// The first 120 characters of a text, of which a list shows no more. (profile) Its memory doesn't
/// grow with the text.
///
/// # Errors
///
/// `AllocError` where memory was refused.
#[tactic(auto, using(crate::proofs::Precision::cut_text))]
pub fn front_of<A: Allocator>(alloc: A, text: &str) -> Result<String<A>, AllocError>
    ensures { IfOk result (λ front. string_bytes front ≡ take_chars 120 text.now) }
{
    format!(in alloc; "{text:.120}")
}
