//! What comes of an attempt to send a batch, as words.

ghost use Rattle.std.specs.Prelude.{◌≡◌, ◌^◌, map, ok_or, option_map};
ghost use Rattle.retry_core.specs.Retries.{outcome_view, retry_after_view};
ghost use Rattle.text_words.specs.Words.{Gives, number_below};
ghost use Rattle.trace_script.specs.Outcomes.{later_of, later_outcome_of, numbered_outcome_of};
ghost use Rattle.trace_script.specs.Outcomes.{outcome_of_words, plain_outcome_of, wait_of_word};
ghost use Rattle.text_words.specs.declared.WordFault.TheVariants.{Bad};

use retry_core::{Outcome, RetryAfter};
use text_words::{WordFault, integer, number, small_number};

/// Reads `delivered`, `partial N`, `later STATUS SECONDS`, `later STATUS none`, `refused STATUS`,
/// `none` or `bad`.
#[tactic(auto, unfolding(crate::specs::Outcomes::outcome_of_words))]
pub(crate) fn parse_outcome(words: &[&[u8]]) -> Result<Outcome, WordFault>
    ensures { Gives outcome_view result (outcome_of_words (map (λ w. w.now) words.now)) }
{
    match words {
        [name] => parse_plain_outcome(name),
        [name, number] => parse_numbered_outcome(name, number),
        [name, status, wait] => parse_later_outcome(name, status, wait),
        _ => Err(WordFault::Bad),
    }
}

/// `delivered`, `none` or `bad`
#[tactic(auto, unfolding(crate::specs::Outcomes::plain_outcome_of))]
fn parse_plain_outcome(name: &[u8]) -> Result<Outcome, WordFault>
    ensures { Gives outcome_view result (plain_outcome_of name.now) }
{
    if name == b"delivered".as_slice() {
        Ok(Outcome::Delivered)
    } else if name == b"none".as_slice() {
        Ok(Outcome::NoReply)
    } else if name == b"bad".as_slice() {
        Ok(Outcome::Bad)
    } else {
        Err(WordFault::Bad)
    }
}

/// `partial N` or `refused STATUS`
#[tactic(auto, unfolding(crate::specs::Outcomes::numbered_outcome_of))]
fn parse_numbered_outcome(name: &[u8], number: &[u8]) -> Result<Outcome, WordFault>
    ensures { Gives outcome_view result (numbered_outcome_of name.now number.now) }
{
    match name {
        b"partial" => Ok(Outcome::Partial(integer(number)?)),
        b"refused" => Ok(Outcome::Refused(http_status(number)?)),
        _ => Err(WordFault::Bad),
    }
}

/// `later STATUS SECONDS` or `later STATUS none`
#[tactic(auto, unfolding(crate::specs::Outcomes::later_outcome_of))]
fn parse_later_outcome(name: &[u8], status: &[u8], wait: &[u8]) -> Result<Outcome, WordFault>
    ensures { Gives outcome_view result (later_outcome_of name.now status.now wait.now) }
{
    match name {
        b"later" => parse_later(status, wait),
        _ => Err(WordFault::Bad),
    }
}

/// A status, and `none` or a number of seconds
#[tactic(auto, unfolding(crate::specs::Outcomes::later_of))]
fn parse_later(status: &[u8], wait: &[u8]) -> Result<Outcome, WordFault>
    ensures { Gives outcome_view result (later_of status.now wait.now) }
{
    let status = http_status(status)?;
    let after = parse_wait(wait)?;
    Ok(Outcome::Later { status, after })
}

/// `none`, or a number of seconds, of 64 bits
#[tactic(auto, unfolding(crate::specs::Outcomes::wait_of_word))]
fn parse_wait(word: &[u8]) -> Result<Option<RetryAfter>, WordFault>
    ensures { Gives (option_map retry_after_view) result (wait_of_word word.now) }
{
    match word {
        b"none" => Ok(None),
        _ => Ok(Some(RetryAfter::Seconds(number(word)?))),
    }
}

/// A status of HTTP: a number of 16 bits.
fn http_status(word: &[u8]) -> Result<u16, WordFault>
    ensures { result ≡ ok_or (number_below (2 ^ 16) word.now) Bad }
{
    let number = small_number(word)?;
    u16::try_from(number).map_err(|_| WordFault::Bad)
}
