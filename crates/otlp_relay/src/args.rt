//! The command line of `otlp-relay`.
ghost use Rattle.std.specs.Prelude.{◌≡◌, codes, option_map, string_bytes, IfErr, IfOk};
ghost use Rattle.std.specs.Prelude.{◌∷◌, [], length};
ghost use Rattle.program_args.specs.Faults.{IsMistake};
ghost use Rattle.program_args.specs.Words.{IsTaken, each_texts, number_in, texts_given, texts_of};
ghost use Rattle.otlp_relay.specs.Command.{IsListenAddress, command, first_text};

use crate::address::address_of;
use crate::header::{BadHeader, fields_of, name_of};
use crate::target::{NoTarget, target_of};
use otlp_http::{HeaderFault, Target};
use program_args::{ArgFault, CommandLine, NumberOption, OptionValues, TextOption};
use std::alloc::Global;
use std::net::IpAddr;

/// What the command line asks for.
#[derive(Debug, Drop)]
pub struct RelayArgs {
    /// `--to` and `--header`: the collector, and the fields that each request to it has.
    pub target: Target,
    /// `--address`: the address to listen at, 127.0.0.1 by default.
    pub address: IpAddr,
    /// `--port`: the port to listen at, 0 to 65,535, 4318 by default (OTLP Specification, "OTLP/HTTP
    /// Default Port"). 0 takes a free one.
    pub port: u16,
    /// `--spool`: the folder of the spool. Without it, what is kept is kept in memory alone.
    pub spool: Option<String>,
    /// `--spool-mb`: how many MiB its files may have, 1 to 1,048,576, 1,024 by default.
    pub spool_mb: u64,
    /// `--memory-mb`: how many MiB the bodies that are kept take of memory at most, 1 to 1,048,576,
    /// 64 by default.
    pub memory_mb: u64,
    /// `--batch-bytes`: how many bytes a request to the collector has at most, unless it is a single
    /// body, 1 to 1 GiB, 4 MiB by default.
    pub batch_bytes: u64,
    /// `--linger`: how long it waits for more bodies at most, 1 to 60,000 ms, 200 by default.
    pub linger_ms: u64,
    /// `--names`: the file to which the names of lost spans are appended. Without it they go to
    /// standard error.
    pub names: Option<String>,
    /// `--stop-within`: for how long it hands on once it is stopped, 0 to 3,600 s, 5 by default.
    pub stop_seconds: u64,
    /// `--attempts`: how often a batch is sent at most, up to 1,000,000. By default it is 0: there is
    /// no last attempt.
    pub attempts: u64,
    /// `--max-body`: the most bytes of a request's body, 0 to 1 GiB, 16 MiB by default.
    pub max_body: u64,
    /// `--pending-mb`: how many MiB of requests that arrive and of answers that wait to go out are
    /// held at most, 1 to 1,048,576, 64 by default.
    pub pending_mb: u64,
    /// `--timeout`: how long an attempt to send a batch may take, 1 to 600,000 ms, 10,000 by default
    /// (OTLP Exporter Configuration, "Timeout").
    pub timeout_ms: u64,
    /// `--refused-after`: after how many requests in a row that the collector refuses whatever they
    /// have what is refused is lost, up to 1,000,000. By default it is 0: it never is, and is sent
    /// again.
    pub refused_after: u64,
    /// `--host`: further names that a request's Host may have, in the order of the words.
    pub hosts: Vec<String>,
}

/// The options with a number, in the order of help.
const NUMBERS: [NumberOption<'static>; 11] = [
    NumberOption {
        name: "port",
        value: "P",
        least: 0,
        most: 65_535,
        default: 4318,
        help: "The port to listen at, where 0 takes a free one [default: 4318]",
    },
    NumberOption {
        name: "spool-mb",
        value: "MB",
        least: 1,
        most: 1_048_576,
        default: 1_024,
        help: "How many MiB the files of the spool may have [default: 1024]",
    },
    NumberOption {
        name: "memory-mb",
        value: "MB",
        least: 1,
        most: 1_048_576,
        default: 64,
        help: "How many MiB of memory the bodies that are kept may take [default: 64]",
    },
    NumberOption {
        name: "batch-bytes",
        value: "N",
        least: 1,
        most: 1_073_741_824,
        default: 4_194_304,
        help: "The most bytes of a request of several bodies [default: 4194304]",
    },
    NumberOption {
        name: "linger",
        value: "MS",
        least: 1,
        most: 60_000,
        default: 200,
        help: "How long it waits for more bodies at most [default: 200]",
    },
    NumberOption {
        name: "stop-within",
        value: "S",
        least: 0,
        most: 3_600,
        default: 5,
        help: "For how many seconds it hands on once it is stopped [default: 5]",
    },
    NumberOption {
        name: "attempts",
        value: "N",
        least: 0,
        most: 1_000_000,
        default: 0,
        help: "How often a request is sent at most, where 0 is without end [default: 0]",
    },
    NumberOption {
        name: "max-body",
        value: "BYTES",
        least: 0,
        most: 1_073_741_824,
        default: 16_777_216,
        help: "The most bytes of a body that is posted [default: 16777216]",
    },
    NumberOption {
        name: "pending-mb",
        value: "MB",
        least: 1,
        most: 1_048_576,
        default: 64,
        help: "How many MiB of requests and answers may be on their way [default: 64]",
    },
    NumberOption {
        name: "timeout",
        value: "MS",
        least: 1,
        most: 600_000,
        default: 10_000,
        help: "How long an attempt to send a request may take [default: 10000]",
    },
    NumberOption {
        name: "refused-after",
        value: "N",
        least: 0,
        most: 1_000_000,
        default: 0,
        help: "Refusals in a row after which bodies are lost, 0 for never [default: 0]",
    },
];

/// The options with a text, in the order of help.
const TEXTS: [TextOption<'static>; 6] = [
    TextOption {
        name: "to",
        value: "URL",
        is_repeatable: false,
        help: "The collector: http://HOST:PORT, and a path if it isn't /v1/traces",
    },
    TextOption {
        name: "address",
        value: "IP",
        is_repeatable: false,
        help: "The address to listen at [default: 127.0.0.1]",
    },
    TextOption {
        name: "spool",
        value: "DIR",
        is_repeatable: false,
        help: "The folder in which bodies are kept; without it they are in memory alone",
    },
    TextOption {
        name: "header",
        value: "NAME:VALUE",
        is_repeatable: true,
        help: "A field of each request to the collector; may be repeated",
    },
    TextOption {
        name: "names",
        value: "FILE",
        is_repeatable: false,
        help: "The file for the names of lost spans [default: standard error]",
    },
    TextOption {
        name: "host",
        value: "NAME",
        is_repeatable: true,
        help: "A further name that a request's Host may have; may be repeated",
    },
];

/// What the words give each of these options.
#[derive(Drop)]
struct Texts {
    to: Vec<String>,
    address: Vec<String>,
    spool: Vec<String>,
    headers: Vec<String>,
    names: Vec<String>,
    hosts: Vec<String>,
}

impl Texts {
    /// The lists of texts in the order of these options.
    fn of(mut lists: Vec<Vec<String>>) -> Texts
        requires { length lists.items ≡ 6 }
        ensures { each_texts lists.items ≡ texts_of result.to.items ∷ texts_of result.address.items
            ∷ texts_of result.spool.items ∷ texts_of result.headers.items
            ∷ texts_of result.names.items ∷ texts_of result.hosts.items ∷ [] }
    {
        let hosts = lists.remove(5);
        let names = lists.remove(4);
        let headers = lists.remove(3);
        let spool = lists.remove(2);
        let address = lists.remove(1);
        let to = lists.remove(0);
        Texts {
            to,
            address,
            spool,
            headers,
            names,
            hosts,
        }
    }
}

/// What the program does.
const ABOUT: &str =
    "Receives spans by OTLP/HTTP, keeps them in memory or on a disk, and hands them \
    on to a collector.";

/// The first of these texts; nothing where there is none.
fn first_of(texts: &[String]) -> &str {
    match texts.first() {
        Some(text) => text.as_str(),
        None => "",
    }
}

/// The first of these texts, if there is one.
fn first_text(mut texts: Vec<String>) -> Option<String>
    ensures { option_map (λ text. string_bytes text) result ≡ first_text (texts_of texts.items) }
{
    if texts.is_empty() {
        return None;
    }
    Some(texts.remove(0))
}

/// The mistake that the first of these texts after `--address` is, since it is no IP address.
fn no_address(alloc: Global, line: &CommandLine<'_>, texts: &[String]) -> ArgFault
    ensures { IsMistake result }
{
    let text = first_of(texts);
    let Ok(cause) = format!(in alloc;
        "'{text}' isn't an IP address; write --address 127.0.0.1, 0.0.0.0 or ::1, for example"
    ) else {
        return ArgFault::OutOfMemory;
    };
    line.mistake(alloc, &cause)
}

/// The mistake that the first of these texts after `--to` is, or that there is none.
fn no_target(alloc: Global, line: &CommandLine<'_>, texts: &[String]) -> ArgFault
    ensures { IsMistake result }
{
    let text = first_of(texts);
    let Ok(cause) = format!(in alloc;
        "'{text}' isn't a collector; write --to http://127.0.0.1:4319, for example"
    ) else {
        return ArgFault::OutOfMemory;
    };
    line.mistake(alloc, &cause)
}

/// The mistake that one of these texts after `--header` is. It doesn't say the value, which may be a
/// secret.
fn no_header(alloc: Global, line: &CommandLine<'_>, texts: &[String], bad: BadHeader) -> ArgFault
    ensures { IsMistake result }
{
    let name = match texts.get(bad.index) {
        Some(text) => name_of(text.as_str()),
        None => "",
    };
    let fault = bad.fault;
    if fault == HeaderFault::OutOfMemory {
        return ArgFault::OutOfMemory;
    }
    let Ok(cause) = format!(in alloc;
        "the header '{name}' can't be sent: {fault}; write --header 'api-key: 123', for example"
    ) else {
        return ArgFault::OutOfMemory;
    };
    line.mistake(alloc, &cause)
}

/// The collector that these texts name, after `--to` and `--header`.
fn target_in(
    alloc: Global,
    line: &CommandLine<'_>,
    to: &[String],
    headers: &[String],
) -> Result<Target, ArgFault>
    ensures { IfErr result IsMistake }
{
    let fields = match fields_of(alloc, headers) {
        Ok(fields) => fields,
        Err(bad) => return Err(no_header(alloc, line, headers, bad)),
    };
    match target_of(alloc, first_of(to), fields) {
        Ok(target) => Ok(target),
        Err(NoTarget::OutOfMemory) => Err(ArgFault::OutOfMemory),
        Err(NoTarget::Unread) => Err(no_target(alloc, line, to)),
    }
}

impl RelayArgs {
    /// Reads the words of the command line, of which the first is the program's name. An option
    /// that they don't name has its default; `--to` has none.
    ///
    /// # Errors
    ///
    /// A mistake, a number past its bounds, an address, a collector or a header that is none among
    /// them, a request for help or for the version, or refused memory.
    pub fn read(alloc: Global, words: &[String]) -> Result<RelayArgs, ArgFault>
        ensures taken { IfOk result (λ _. IsTaken command words.now) }
        ensures address { IfOk result (λ args.
            IsListenAddress (texts_given command (codes "address") words.now) args.address) }
        ensures port { IfOk result (λ args.
            args.port ≡ number_in command (codes "port") 4318 words.now) }
        ensures spool { IfOk result (λ args. option_map (λ text. string_bytes text) args.spool
            ≡ first_text (texts_given command (codes "spool") words.now)) }
        ensures names { IfOk result (λ args. option_map (λ text. string_bytes text) args.names
            ≡ first_text (texts_given command (codes "names") words.now)) }
        ensures spool_mb { IfOk result (λ args.
            args.spool_mb ≡ number_in command (codes "spool-mb") 1_024 words.now) }
        ensures memory_mb { IfOk result (λ args.
            args.memory_mb ≡ number_in command (codes "memory-mb") 64 words.now) }
        ensures batch_bytes { IfOk result (λ args.
            args.batch_bytes ≡ number_in command (codes "batch-bytes") 4_194_304 words.now) }
        ensures linger { IfOk result (λ args.
            args.linger_ms ≡ number_in command (codes "linger") 200 words.now) }
        ensures stop { IfOk result (λ args.
            args.stop_seconds ≡ number_in command (codes "stop-within") 5 words.now) }
        ensures attempts { IfOk result (λ args.
            args.attempts ≡ number_in command (codes "attempts") 0 words.now) }
        ensures max_body { IfOk result (λ args.
            args.max_body ≡ number_in command (codes "max-body") 16_777_216 words.now) }
        ensures pending_mb { IfOk result (λ args.
            args.pending_mb ≡ number_in command (codes "pending-mb") 64 words.now) }
        ensures timeout { IfOk result (λ args.
            args.timeout_ms ≡ number_in command (codes "timeout") 10_000 words.now) }
        ensures refused_after { IfOk result (λ args.
            args.refused_after ≡ number_in command (codes "refused-after") 0 words.now) }
        ensures hosts { IfOk result (λ args.
            texts_of args.hosts.items ≡ texts_given command (codes "host") words.now) }
    {
        let line = CommandLine {
            program: "otlp-relay",
            about: ABOUT,
            numbers: &NUMBERS,
            texts: &TEXTS,
            flag: None,
        };
        let OptionValues { numbers, texts, .. } = line.read(alloc, words)?;
        let texts = Texts::of(texts);
        let Some(address) = address_of(texts.address.as_slice()) else {
            return Err(no_address(alloc, &line, texts.address.as_slice()));
        };
        let target = target_in(alloc, &line, texts.to.as_slice(), texts.headers.as_slice())?;
        let Texts {
            spool,
            names,
            hosts,
            ..
        } = texts;
        Ok(RelayArgs {
            target,
            address,
            port: numbers[0] as u16,
            spool: first_text(spool),
            spool_mb: numbers[1],
            memory_mb: numbers[2],
            batch_bytes: numbers[3],
            linger_ms: numbers[4],
            names: first_text(names),
            stop_seconds: numbers[5],
            attempts: numbers[6],
            max_body: numbers[7],
            pending_mb: numbers[8],
            timeout_ms: numbers[9],
            refused_after: numbers[10],
            hosts,
        })
    }
}
