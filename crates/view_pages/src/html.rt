//! The parts of a page.

ghost use Rattle.std.specs.Prelude.{OnOk};
ghost use Rattle.view_pages.specs.Html.{Appends, Digits, Markup, Number, Signed, Text};
ghost use Rattle.view_pages.specs.Html.{markup_if, text_after};

use otlp_ids::OutOfMemory;
use page_text::write_text;
use std::alloc::Allocator;

/// Appends what the template says.
#[tactic(auto, unfolding(crate::specs::Html::html_bytes))]
pub(crate) fn push_markup<A: Allocator>(
    out: &mut String<A>,
    markup: &str,
) -> Result<(), OutOfMemory>
    ensures { OnOk result (Appends out.old out.new (Markup markup.now)) }
{
    Ok(out.push_str(markup)?)
}

/// Appends a text from outside.
#[tactic(auto, unfolding(crate::specs::Html::html_bytes))]
pub(crate) fn push_text<A: Allocator>(out: &mut String<A>, text: &str) -> Result<(), OutOfMemory>
    ensures { OnOk result (Appends out.old out.new (Text text.now)) }
{
    Ok(write_text(out, text)?)
}

/// Appends a number.
#[tactic(auto, unfolding(crate::specs::Html::html_bytes))]
pub(crate) fn push_number<A: Allocator>(out: &mut String<A>, number: u64) -> Result<(), OutOfMemory>
    ensures { OnOk result (Appends out.old out.new (Number number)) }
{
    Ok(write!(out, "{number}")?)
}

/// Appends a number with its sign.
#[tactic(auto, unfolding(crate::specs::Html::html_bytes))]
pub(crate) fn push_signed<A: Allocator>(out: &mut String<A>, number: i64) -> Result<(), OutOfMemory>
    ensures { OnOk result (Appends out.old out.new (Signed number)) }
{
    Ok(write!(out, "{number}")?)
}

/// Appends bytes by two hexadecimal digits each.
#[tactic(auto, unfolding(crate::specs::Html::html_bytes))]
pub(crate) fn push_digits<A: Allocator + Copy>(
    out: &mut String<A>,
    bytes: &[u8],
) -> Result<(), OutOfMemory>
    ensures { OnOk result (Appends out.old out.new (Digits bytes.now)) }
{
    let digits = hex::encode(*out.allocator(), bytes)?;
    Ok(out.push_str(&digits)?)
}

/// Appends what the template says, where something holds.
#[tactic(auto, unfolding(crate::specs::Html::html_bytes, crate::specs::Html::markup_if))]
pub(crate) fn push_if<A: Allocator>(
    out: &mut String<A>,
    holds: bool,
    markup: &str,
) -> Result<(), OutOfMemory>
    ensures { OnOk result (Appends out.old out.new (markup_if holds markup.now)) }
{
    if holds {
        push_markup(out, markup)
    } else {
        Ok(())
    }
}

/// Appends a text from outside after what the template says, unless the text is empty.
#[tactic(auto, unfolding(crate::specs::Html::html_bytes, crate::specs::Html::text_after))]
pub(crate) fn push_after<A: Allocator>(
    out: &mut String<A>,
    before: &str,
    text: &str,
) -> Result<(), OutOfMemory>
    ensures { OnOk result (Appends out.old out.new (text_after before.now text.now)) }
{
    if text.len() == 0 {
        return Ok(());
    }
    push_markup(out, before)?;
    push_text(out, text)
}
