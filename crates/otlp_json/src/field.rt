//! Members of objects of JSON.

ghost use Rattle.std.specs.Prelude.{◌≡◌, [], ◌∷◌, ◌++◌, OnOk};
ghost use Rattle.std.specs.Fmt.{signed_decimal};
ghost use Rattle.json.specs.Token.{begin_array, begin_object, boolean, end_array, end_object, key};
ghost use Rattle.otlp_json.specs.Seen.{Other, hex_member, long_member, number_member, seen};
ghost use Rattle.otlp_json.specs.Seen.{signed_member, text_member};

use json::Writer;
use std::alloc::{AllocError, Allocator};

/// Begins an object.
///
/// # Errors
///
/// `AllocError` where the text could not be stored. It may then have been written in part.
pub fn begin<A: Allocator>(out: &mut Writer<A>) -> Result<(), AllocError>
    ensures tokens { OnOk result (out.new.tokens ≡ out.old.tokens ++ begin_object ∷ []) }
    ensures seen { OnOk result (seen out.new.tokens
        ≡ seen out.old.tokens ++ Other begin_object ∷ []) }
    ensures before { out.new.before ≡ out.old.before }
{
    out.begin_object()
}

/// Ends an object.
///
/// # Errors
///
/// `AllocError` where the text could not be stored. It may then have been written in part.
pub fn end<A: Allocator>(out: &mut Writer<A>) -> Result<(), AllocError>
    ensures tokens { OnOk result (out.new.tokens ≡ out.old.tokens ++ end_object ∷ []) }
    ensures seen { OnOk result (seen out.new.tokens
        ≡ seen out.old.tokens ++ Other end_object ∷ []) }
    ensures before { out.new.before ≡ out.old.before }
{
    out.end_object()
}

/// Begins a member whose value is an object.
///
/// # Errors
///
/// `AllocError` where the text could not be stored. It may then have been written in part.
pub fn begin_member<A: Allocator>(out: &mut Writer<A>, name: &str) -> Result<(), AllocError>
    ensures tokens { OnOk result (out.new.tokens
        ≡ out.old.tokens ++ key name.now ∷ begin_object ∷ []) }
    ensures seen { OnOk result (seen out.new.tokens
        ≡ seen out.old.tokens ++ Other (key name.now) ∷ Other begin_object ∷ []) }
    ensures before { out.new.before ≡ out.old.before }
{
    out.key(name)?;
    out.begin_object()
}

/// Begins a member whose value is an array.
///
/// # Errors
///
/// `AllocError` where the text could not be stored. It may then have been written in part.
pub fn begin_list<A: Allocator>(out: &mut Writer<A>, name: &str) -> Result<(), AllocError>
    ensures tokens { OnOk result (out.new.tokens
        ≡ out.old.tokens ++ key name.now ∷ begin_array ∷ []) }
    ensures seen { OnOk result (seen out.new.tokens
        ≡ seen out.old.tokens ++ Other (key name.now) ∷ Other begin_array ∷ []) }
    ensures before { out.new.before ≡ out.old.before }
{
    out.key(name)?;
    out.begin_array()
}

/// Ends an array.
///
/// # Errors
///
/// `AllocError` where the text could not be stored. It may then have been written in part.
pub fn end_list<A: Allocator>(out: &mut Writer<A>) -> Result<(), AllocError>
    ensures tokens { OnOk result (out.new.tokens ≡ out.old.tokens ++ end_array ∷ []) }
    ensures seen { OnOk result (seen out.new.tokens
        ≡ seen out.old.tokens ++ Other end_array ∷ []) }
    ensures before { out.new.before ≡ out.old.before }
{
    out.end_array()
}

/// Begins a member.
///
/// # Errors
///
/// `AllocError` where the text could not be stored. It may then have been written in part.
pub fn push_key<A: Allocator>(out: &mut Writer<A>, name: &str) -> Result<(), AllocError>
    ensures seen { OnOk result (seen out.new.tokens
        ≡ seen out.old.tokens ++ Other (key name.now) ∷ []) }
    ensures before { out.new.before ≡ out.old.before }
{
    out.key(name)
}

/// Writes a member whose value is a text.
///
/// # Errors
///
/// `AllocError` where the text could not be stored. It may then have been written in part.
pub fn push_text<A: Allocator>(
    out: &mut Writer<A>,
    name: &str,
    text: &str,
) -> Result<(), AllocError>
    ensures tokens { OnOk result (out.new.tokens
        ≡ out.old.tokens ++ text_member name.now text.now) }
    ensures seen { OnOk result (seen out.new.tokens
        ≡ seen out.old.tokens ++ seen (text_member name.now text.now)) }
    ensures before { out.new.before ≡ out.old.before }
{
    out.key(name)?;
    out.string(text)
}

/// Writes a member whose value is bytes in hexadecimal.
///
/// # Errors
///
/// `AllocError` where the text could not be stored. It may then have been written in part.
pub fn push_hex<A: Allocator + Copy>(
    alloc: A,
    out: &mut Writer<A>,
    name: &str,
    bytes: &[u8],
) -> Result<(), AllocError>
    ensures tokens { OnOk result (out.new.tokens
        ≡ out.old.tokens ++ hex_member name.now bytes.now) }
    ensures seen { OnOk result (seen out.new.tokens
        ≡ seen out.old.tokens ++ seen (hex_member name.now bytes.now)) }
    ensures before { out.new.before ≡ out.old.before }
{
    let digits = hex::encode(alloc, bytes)?;
    push_text(out, name, &digits)
}

/// Writes a member whose value is a number of 64 bits, as a text.
///
/// # Errors
///
/// `AllocError` where the text could not be stored. It may then have been written in part.
pub fn push_long<A: Allocator>(
    out: &mut Writer<A>,
    name: &str,
    number: u64,
) -> Result<(), AllocError>
    ensures tokens { OnOk result (out.new.tokens
        ≡ out.old.tokens ++ long_member name.now number) }
    ensures seen { OnOk result (seen out.new.tokens
        ≡ seen out.old.tokens ++ seen (long_member name.now number)) }
    ensures before { out.new.before ≡ out.old.before }
{
    out.key(name)?;
    out.quoted_u64(number)
}

/// Writes a member whose value is a number.
///
/// # Errors
///
/// `AllocError` where the text could not be stored. It may then have been written in part.
pub fn push_number<A: Allocator>(
    out: &mut Writer<A>,
    name: &str,
    number: u64,
) -> Result<(), AllocError>
    ensures tokens { OnOk result (out.new.tokens
        ≡ out.old.tokens ++ number_member name.now number) }
    ensures seen { OnOk result (seen out.new.tokens
        ≡ seen out.old.tokens ++ seen (number_member name.now number)) }
    ensures before { out.new.before ≡ out.old.before }
{
    out.key(name)?;
    out.u64(number)
}

/// Writes a member whose value is a number with a sign.
///
/// # Errors
///
/// `AllocError` where the text could not be stored. It may then have been written in part.
pub fn push_signed<A: Allocator>(
    out: &mut Writer<A>,
    name: &str,
    number: i32,
) -> Result<(), AllocError>
    ensures tokens { OnOk result (out.new.tokens
        ≡ out.old.tokens ++ signed_member name.now number) }
    ensures seen { OnOk result (seen out.new.tokens
        ≡ seen out.old.tokens ++ seen (signed_member name.now number)) }
    ensures before { out.new.before ≡ out.old.before }
{
    out.key(name)?;
    out.i64(i64::from(number))
}

/// Writes a member whose value is a number of 64 bits with a sign, as a text.
///
/// # Errors
///
/// `AllocError` where the text could not be stored. It may then have been written in part.
pub fn push_signed_long<A: Allocator>(
    out: &mut Writer<A>,
    name: &str,
    number: i64,
) -> Result<(), AllocError>
    ensures seen { OnOk result (seen out.new.tokens
        ≡ seen out.old.tokens ++ seen (text_member name.now (signed_decimal number))) }
    ensures before { out.new.before ≡ out.old.before }
{
    out.key(name)?;
    out.quoted_i64(number)
}

/// Writes a member whose value is a truth value.
///
/// # Errors
///
/// `AllocError` where the text could not be stored. It may then have been written in part.
pub fn push_bool<A: Allocator>(
    out: &mut Writer<A>,
    name: &str,
    truth: bool,
) -> Result<(), AllocError>
    ensures seen { OnOk result (seen out.new.tokens
        ≡ seen out.old.tokens ++ seen (key name.now ∷ boolean truth ∷ [])) }
    ensures before { out.new.before ≡ out.old.before }
{
    out.key(name)?;
    out.boolean(truth)
}
