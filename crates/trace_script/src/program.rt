//! The program `trace-script`, over readers and writers.
ghost use Rattle.std.specs.Prelude.{◌≡◌, ◌≤◌, ◌⊎◌, ◌++◌, ◌∷◌, [], true, false, ℕ, List, Option};
ghost use Rattle.std.specs.Prelude.{IfOk, IfErr, IfSome, OnErr, OnOk, string_bytes};
ghost use Rattle.std.specs.Io.KnownBytes.{Appends, IsAtEnd, Keeps};
ghost use Rattle.hex.specs.Hex.{encode_lower};
ghost use Rattle.trace_script.specs.Parsed.{Means};
ghost use Rattle.trace_script.specs.Scripts.{Script as ScriptRead};
ghost use Rattle.trace_script.specs.Command.{AskForBody, AskForRun, AskForText, IsTaken};
ghost use Rattle.trace_script.specs.Printed.{AppendsStart, Explains, IsBadAt, IsBodyLine};
ghost use Rattle.trace_script.specs.Printed.{IsPrinted, Prints, PrintsStart};

use crate::command::read_words;
use crate::failure::{Failure, tell};
use crate::parse::Script;
use crate::recorder::spans_of_script;
use crate::text::text_of_script;
use otlp_ids::OutOfMemory;
use otlp_proto::{DEFAULT_MAX_BODY, body_of};
use std::alloc::{Allocator, Global};
use std::io;
use std::io::{ErrorKind, Read, Write};

/// The program `trace-script`, whose words are those of its command line, the program's name first.
/// Where they ask for a script to be run, or for its body, it does so with that of the input, as
/// `script`; nothing is read before. Where they ask for help or the version it is printed, with the
/// status 0. A mistake is reported on `faults`, with the status 2, and nothing is printed.
///
/// The answer is the program's status: 0, or 1 where a read or a write failed, 2 where the words or
/// a line of the script are bad, 3 where memory was refused or the body would be too large.
pub fn trace_script<R: Read, W: Write, F: Write>(
    alloc: Global,
    words: &[String],
    input: &mut R,
    output: &mut W,
    faults: &mut F,
) -> u8
    ensures status { result ≤ 3 }
    ensures asked { result ≡ 0 → IsTaken words.now ⊎ AskForText words.now }
    ensures run_printed { AskForRun words.now → result ≡ 0
        → Prints false (R.remaining input.old) (W.contents output.old) (W.contents output.new) }
    ensures body_printed { AskForBody words.now → result ≡ 0
        → Prints true (R.remaining input.old) (W.contents output.old) (W.contents output.new) }
    ensures consumed { IsTaken words.now → result ≡ 0 → IsAtEnd (R.remaining input.new) }
    ensures unread { IsTaken words.now ⊎ (input.new ≡ input.old) }
    ensures untold { result ≡ 0 → Keeps (F.contents faults.old) (F.contents faults.new) }
    ensures refused { IsTaken words.now → result ≡ 2
        → (n : ℕ) × IsBadAt (R.remaining input.old) n }
    ensures run_failed { AskForRun words.now → result ≡ 1 → PrintsStart false
        (R.remaining input.old) (W.contents output.old) (W.contents output.new) }
    ensures body_failed { AskForBody words.now → result ≡ 1 → PrintsStart true
        (R.remaining input.old) (W.contents output.old) (W.contents output.new) }
    ensures quiet { 2 ≤ result → Keeps (W.contents output.old) (W.contents output.new) }
{
    match read_words(alloc, words) {
        Ok(body) => script(alloc, input, output, faults, body),
        Err(fault) => fault.tell(output, faults),
    }
}

/// Runs a script. Nothing happens before the whole script is read.
///
/// Without `body` its steps are run over an exporter that keeps what it is handed and has the
/// script's outcomes. A line is printed for each step, and after the last one the report: how many
/// spans wait or are in a batch that was not handed over, the names of the dropped ones, and how
/// many were late (`run_text`). Memory that is refused to a step is its answer.
///
/// With `body`, the body of the request is printed that exports the sampled spans which the script
/// ends before its first shutdown, in the order of their first ends: a line of hexadecimal digits,
/// which is empty where there is none.
///
/// The answer is the program's status: 0, or 1 where a read or a write failed, 2 where a line is
/// bad (`line N: bad script` on `faults`; nothing is printed), 3 where memory was refused or the
/// body would be longer than the script's greatest (`out of memory` or `too large` on `faults`;
/// nothing is printed). Nothing is reported where it is 0. Where the fault itself can't be reported
/// it is 1.
pub fn script<A: Allocator + Copy, R: Read, W: Write, F: Write>(
    alloc: A,
    input: &mut R,
    output: &mut W,
    faults: &mut F,
    body: bool,
) -> u8
    ensures status { result ≤ 3 }
    ensures printed { result ≡ 0
        → Prints body (R.remaining input.old) (W.contents output.old) (W.contents output.new) }
    ensures consumed { result ≡ 0 → IsAtEnd (R.remaining input.new) }
    ensures untold { result ≡ 0 → Keeps (F.contents faults.old) (F.contents faults.new) }
    ensures refused { result ≡ 2 → (n : ℕ) × IsBadAt (R.remaining input.old) n }
    ensures failed { result ≡ 1
        → PrintsStart body (R.remaining input.old) (W.contents output.old) (W.contents output.new) }
    ensures quiet { 2 ≤ result → Keeps (W.contents output.old) (W.contents output.new) }
{
    let text = match text_of_input(alloc, input, body) {
        Ok(text) => text,
        Err(failure) => return tell(faults, &failure),
    };
    let printed = print(output, text.as_bytes());
    if printed.is_err() {
        return tell(faults, &Failure::Write);
    }
    0
}

/// What is printed for the script of the input: the line of its body, or the lines of its run.
fn text_of_input<A: Allocator + Copy, R: Read>(
    alloc: A,
    input: &mut R,
    body: bool,
) -> Result<String<A>, Failure>
    ensures text { IfOk result
        (λ text. IsPrinted body (R.remaining input.old) (string_bytes text)) }
    ensures fault { IfErr result (Explains (R.remaining input.old)) }
    ensures consumed { OnOk result (IsAtEnd (R.remaining input.new)) }
{
    let text = read_all(alloc, input)?;
    let script = match Script::parse(alloc, text.as_slice()) {
        Ok(script) => script,
        Err(error) => return Err(Failure::Script(error)),
    };
    if body {
        return body_line(alloc, script);
    }
    Ok(text_of_script(alloc, script)?)
}

/// The body of the script's spans in hexadecimal digits, and the end of the line.
fn body_line<A: Allocator + Copy>(alloc: A, script: Script<A>) -> Result<String<A>, Failure>
    ensures line { (read : ScriptRead) → Means script read
        → IfOk result (λ line. IsBodyLine read (string_bytes line)) }
    ensures fault { (input : Option (List ℕ)) → IfErr result (Explains input) }
{
    let max_body = script.max_body.unwrap_or(DEFAULT_MAX_BODY);
    let pass = spans_of_script(alloc, script)?;
    let body = body_of(alloc, pass.spans(), max_body)?;
    Ok(hex_line(alloc, body.as_slice())?)
}

/// Bytes in hexadecimal digits, and the end of the line.
fn hex_line<A: Allocator>(alloc: A, bytes: &[u8]) -> Result<String<A>, OutOfMemory>
    ensures { IfOk result (λ line. string_bytes line ≡ encode_lower bytes.now ++ 10 ∷ []) }
{
    let mut line = hex::encode(alloc, bytes)?;
    line.push('\n')?;
    Ok(line)
}

/// All bytes that the input has left.
fn read_all<A: Allocator, R: Read>(alloc: A, input: &mut R) -> Result<Vec<u8, A>, Failure>
    ensures text { IfOk result
        (λ text. IfSome (R.remaining input.old) (λ bytes. text.items ≡ bytes)) }
    ensures fault { IfErr result (Explains (R.remaining input.old)) }
    ensures consumed { OnOk result (IsAtEnd (R.remaining input.new)) }
{
    let mut text = Vec::new(alloc);
    match input.read_to_end(&mut text) {
        Ok(_) => Ok(text),
        Err(error) if error.kind() == ErrorKind::OutOfMemory => Err(Failure::OutOfMemory),
        Err(_) => Err(Failure::Read),
    }
}

/// Writes a line, and flushes. Where a write fails, a beginning of the line is written.
fn print<W: Write>(output: &mut W, line: &[u8]) -> io::Result<()>
    ensures ok { OnOk result
        (Appends (W.contents output.old) (W.contents output.new) line.now) }
    ensures err { OnErr result
        (AppendsStart (W.contents output.old) (W.contents output.new) line.now) }
{
    let mut written = 0;
    'turns: for _ in 0..u64::MAX {
        if written == line.len() {
            return output.flush();
        }
        match output.write(&line[written..]) {
            Ok(0) => return Err(io::Error::from(ErrorKind::WriteZero)),
            Ok(count) => written += count,
            Err(error) if error.kind() == ErrorKind::Interrupted => {}
            Err(error) => return Err(error),
        }
    }
    Err(io::Error::from(ErrorKind::Interrupted))
}
