//! The command line of `trace-view`.
ghost use Rattle.std.specs.Prelude.{◌≡◌, codes, IfErr, IfOk, true};
ghost use Rattle.program_args.specs.Faults.{IsMistake};
ghost use Rattle.program_args.specs.Words.{IsTaken, number_in, texts_given, texts_of};
ghost use Rattle.trace_view.specs.Command.{IsCause, IsListenAddress, are_origins, command};

use crate::address::address_of;
use crate::origins::{are_origins, first_bad_origin};
use program_args::{ArgFault, CommandLine, NumberOption, TextOption};
use std::alloc::Global;
use std::net::IpAddr;

/// What the command line asks for.
#[derive(Debug, Drop)]
pub struct ViewArgs {
    /// `--address`: the address to listen at, 127.0.0.1 by default.
    pub address: IpAddr,
    /// `--port`: the port to listen at, 0 to 65,535, 4318 by default (OTLP Specification, "OTLP/HTTP
    /// Default Port"). 0 takes a free one.
    pub port: u16,
    /// `--host`: further names that a request's Host may have, in the order of the words.
    pub hosts: Vec<String>,
    /// `--allow-origin`: the origins whose pages may post traces, in the order of the words.
    pub origins: Vec<String>,
    /// `--max-body`: the most bytes of a request's body, 0 to 1 GiB, 16 MiB by default.
    pub max_body: u64,
    /// `--keep-spans`: how many spans are kept at most, 1 to 1,000,000,000, 1,000,000 by default.
    pub keep_spans: u64,
    /// `--keep-mb`: how many MiB they take at most, 1 to 1,048,576, 256 by default.
    pub keep_mb: u64,
    /// `--pending-mb`: how many MiB of requests that arrive and of answers that wait to go out are
    /// held at most, 1 to 1,048,576, 64 by default.
    pub pending_mb: u64,
    /// `--idle-seconds`: how long a connection may last without a request, 1 to 86,400 s, 60 s by
    /// default.
    pub idle_seconds: u64,
    /// `--request-seconds`: how long a request may take to arrive, from its first byte, and how
    /// long a client may take nothing of its answer, 1 to 86,400 s, 30 s by default.
    pub request_seconds: u64,
}

/// The options with a number, in the order of help.
const NUMBERS: [NumberOption<'static>; 7] = [
    NumberOption {
        name: "port",
        value: "P",
        least: 0,
        most: 65_535,
        default: 4318,
        help: "The port to listen at, where 0 takes a free one [default: 4318]",
    },
    NumberOption {
        name: "max-body",
        value: "BYTES",
        least: 0,
        most: 1_073_741_824,
        default: 16_777_216,
        help: "The most bytes of a request's body [default: 16777216]",
    },
    NumberOption {
        name: "keep-spans",
        value: "N",
        least: 1,
        most: 1_000_000_000,
        default: 1_000_000,
        help: "How many spans are kept at most [default: 1000000]",
    },
    NumberOption {
        name: "keep-mb",
        value: "MB",
        least: 1,
        most: 1_048_576,
        default: 256,
        help: "How many MiB the spans that are kept take at most [default: 256]",
    },
    NumberOption {
        name: "pending-mb",
        value: "MB",
        least: 1,
        most: 1_048_576,
        default: 64,
        help: "How many MiB of requests and answers may be on their way [default: 64]",
    },
    NumberOption {
        name: "idle-seconds",
        value: "S",
        least: 1,
        most: 86_400,
        default: 60,
        help: "How long a connection may last without a request [default: 60]",
    },
    NumberOption {
        name: "request-seconds",
        value: "S",
        least: 1,
        most: 86_400,
        default: 30,
        help: "How long a request may take, or a client take nothing of its answer [default: 30]",
    },
];

/// The options with a text, in the order of help.
const TEXTS: [TextOption<'static>; 3] = [
    TextOption {
        name: "address",
        value: "IP",
        is_repeatable: false,
        help: "The address to listen at [default: 127.0.0.1]",
    },
    TextOption {
        name: "host",
        value: "NAME",
        is_repeatable: true,
        help: "A further name that a request's Host may have; may be repeated",
    },
    TextOption {
        name: "allow-origin",
        value: "ORIGIN",
        is_repeatable: true,
        help: "An origin whose pages may post traces, as https://shop.example; may be repeated",
    },
];

/// What the program does.
const ABOUT: &str = "Receives spans by OTLP/HTTP, keeps the newest traces, and shows them in a \
    browser.";

/// The mistake that the first of these texts after `--address` is, since it is no IP address.
fn no_address(alloc: Global, line: &CommandLine<'_>, texts: &[String]) -> ArgFault
    ensures { IsMistake result }
{
    let text = match texts.first() {
        Some(text) => text.as_str(),
        None => "",
    };
    let Ok(cause) = format!(in alloc;
        "'{text}' isn't an IP address; write --address 127.0.0.1, 0.0.0.0 or ::1, for example"
    ) else {
        return ArgFault::OutOfMemory;
    };
    line.mistake(alloc, &cause)
}

/// The mistake that one of these texts after `--allow-origin` is, since it is no origin.
fn no_origin(alloc: Global, line: &CommandLine<'_>, texts: &[String]) -> ArgFault
    ensures { IsMistake result }
{
    let text = first_bad_origin(texts);
    let Ok(cause) = format!(in alloc;
        "'{text}' isn't an origin; write --allow-origin https://shop.example, without a path"
    ) else {
        return ArgFault::OutOfMemory;
    };
    line.mistake(alloc, &cause)
}

impl ViewArgs {
    /// Reads the words of the command line, of which the first is the program's name. An option
    /// that they don't name has its default.
    ///
    /// # Errors
    ///
    /// A mistake, a number past its bounds, an address or an origin that is none among them, a
    /// request for help or for the version, or refused memory.
    pub fn read(alloc: Global, words: &[String]) -> Result<ViewArgs, ArgFault>
        ensures taken { IfOk result (λ _. IsTaken command words.now) }
        ensures address { IfOk result (λ args.
            IsListenAddress (texts_given command (codes "address") words.now) args.address) }
        ensures port { IfOk result (λ args.
            args.port ≡ number_in command (codes "port") 4318 words.now) }
        ensures hosts { IfOk result (λ args.
            texts_of args.hosts.items ≡ texts_given command (codes "host") words.now) }
        ensures origins { IfOk result (λ args.
            texts_of args.origins.items ≡ texts_given command (codes "allow-origin") words.now) }
        ensures are_origins { IfOk result (λ args. are_origins (texts_of args.origins.items) ≡ true) }
        ensures max_body { IfOk result (λ args.
            args.max_body ≡ number_in command (codes "max-body") 16_777_216 words.now) }
        ensures keep_spans { IfOk result (λ args.
            args.keep_spans ≡ number_in command (codes "keep-spans") 1_000_000 words.now) }
        ensures keep_mb { IfOk result (λ args.
            args.keep_mb ≡ number_in command (codes "keep-mb") 256 words.now) }
        ensures pending_mb { IfOk result (λ args.
            args.pending_mb ≡ number_in command (codes "pending-mb") 64 words.now) }
        ensures idle_seconds { IfOk result (λ args.
            args.idle_seconds ≡ number_in command (codes "idle-seconds") 60 words.now) }
        ensures request_seconds { IfOk result (λ args.
            args.request_seconds ≡ number_in command (codes "request-seconds") 30 words.now) }
        ensures refused { IfErr result (IsCause words.now) }
    {
        let line = CommandLine {
            program: "trace-view",
            about: ABOUT,
            numbers: &NUMBERS,
            texts: &TEXTS,
            flag: None,
        };
        let mut found = line.read(alloc, words)?;
        let origins = found.texts.remove(2);
        let hosts = found.texts.remove(1);
        let Some(address) = address_of(found.texts[0].as_slice()) else {
            return Err(no_address(alloc, &line, found.texts[0].as_slice()));
        };
        if !are_origins(origins.as_slice()) {
            return Err(no_origin(alloc, &line, origins.as_slice()));
        }
        Ok(ViewArgs {
            address,
            port: found.numbers[0] as u16,
            hosts,
            origins,
            max_body: found.numbers[1],
            keep_spans: found.numbers[2],
            keep_mb: found.numbers[3],
            pending_mb: found.numbers[4],
            idle_seconds: found.numbers[5],
            request_seconds: found.numbers[6],
        })
    }
}
