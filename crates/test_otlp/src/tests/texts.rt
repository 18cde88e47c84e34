//! How each fault is displayed.
use crate::tests::equal::assert_displayed;
use gzip::{GunzipError, GzipFault};
use otel_settings::ResourceFault;
use otlp_json::{JsonError, JsonFault};
use otlp_proto::EncodeFault;
use otlp_wire::{ReadFault, WireFault};

#[test]
fn faults_of_messages_are_displayed(rt: HostRuntime) {
    let alloc = rt.alloc();
    for (fault, text) in [
        (WireFault::Truncated, "a field runs past the end"),
        (WireFault::LongVarint, "a varint has more than ten bytes"),
        (WireFault::BadNumber, "a field number is out of range"),
        (WireFault::Group, "a group begins or ends"),
        (WireFault::BadWireType, "a wire type is unknown"),
    ] {
        assert_displayed(&rt, alloc, &ReadFault::Wire(fault), text);
    }
    for (fault, text) in [
        (ReadFault::BadUtf8, "a text is not UTF-8"),
        (ReadFault::TooDeep, "a value nests too deep"),
        (ReadFault::OutOfMemory, "out of memory"),
    ] {
        assert_displayed(&rt, alloc, &fault, text);
    }
    assert_displayed(&rt, alloc, &EncodeFault::OutOfMemory, "out of memory");
    assert_displayed(&rt, alloc, &EncodeFault::TooLarge, "too large");
}

#[test]
fn faults_of_texts_are_displayed(rt: HostRuntime) {
    let alloc = rt.alloc();
    let error = JsonError::Fault {
        fault: JsonFault::WrongType,
        offset: 18,
    };
    let text = "a value is not of the type of its field (near byte 18)";
    assert_displayed(&rt, alloc, &error, text);
    assert_displayed(&rt, alloc, &JsonError::OutOfMemory, "out of memory");
    let text =
        "bad resource attributes: they are key=value,key=value, and other characters are %XX";
    assert_displayed(&rt, alloc, &ResourceFault::NotPairs, text);
    assert_displayed(&rt, alloc, &ResourceFault::OutOfMemory, "out of memory");
}

#[test]
fn faults_of_gzip_files_are_displayed(rt: HostRuntime) {
    for (fault, text) in [
        (GzipFault::Truncated, "the file ends too early"),
        (GzipFault::BadBlockType, "a block is of an unknown type"),
        (
            GzipFault::LengthMismatch,
            "the length of a stored block is not the one that its complement gives",
        ),
        (GzipFault::TooManyCodes, "a block has too many codes"),
        (
            GzipFault::BadCodeLengths,
            "the lengths of codes are not those of a set of codes",
        ),
        (
            GzipFault::NoLengthBefore,
            "the length of a code is repeated before there is one",
        ),
        (
            GzipFault::TooManyLengths,
            "a block has more lengths of codes than codes",
        ),
        (GzipFault::NoEndOfBlock, "the end of a block has no code"),
        (GzipFault::NoSuchCode, "bits begin with no code"),
        (
            GzipFault::BadSymbol,
            "a code stands for no length and no distance",
        ),
        (
            GzipFault::DistanceTooFar,
            "a string is repeated from before the first byte",
        ),
        (GzipFault::NotGzip, "these bytes are not a gzip file"),
        (GzipFault::BadMethod, "the method of compression is unknown"),
        (GzipFault::BadFlags, "a reserved flag is set"),
        (
            GzipFault::HeaderMismatch,
            "the check of a header does not fit it",
        ),
        (GzipFault::CrcMismatch, "the check does not fit the bytes"),
        (GzipFault::SizeMismatch, "the size does not fit the bytes"),
        (
            GzipFault::TooLarge,
            "the file means more bytes than the limit",
        ),
    ] {
        assert_displayed(&rt, rt.alloc(), &GunzipError::Fault(fault), text);
    }
    assert_displayed(&rt, rt.alloc(), &GunzipError::OutOfMemory, "out of memory");
}
