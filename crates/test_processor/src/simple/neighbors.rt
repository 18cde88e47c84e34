//! Two processors side by side. Each has a name of its own, and so has the type of its passes: none
//! fits the other.
ghost use Rattle.std.specs.Prelude.{◌≡◌, ◌≤◌, ◌<◌, IfOk, MatchResult, true, vec_len};

use otlp_proto::DEFAULT_MAX_BODY;
use simple_processor::{
    Naming, SimpleAccounts, SimpleBlank, SimpleFault, SimpleMissing, SimpleParts, SimplePass,
    SimpleProcessor,
};
use span_exporter::{Exporter, MemoryExporter};
use std::alloc::Allocator;
use std::sync::Wait;

/// A processor, and all its passes.
///
/// # Errors
///
/// As of `SimpleProcessor::new`.
pub(crate) fn make<J: Naming, E: Exporter + Drop, R: Wait + Copy, A: Allocator + Copy>(
    alloc: A,
    rt: R,
    blank: SimpleBlank,
    exporter: E,
    passes: usize,
    max_body: usize,
) -> Result<SimpleParts<J, E, R, A>, SimpleFault>
    requires { blank ≡ J.name }
    ensures count { IfOk result (λ parts. parts.processor.passes ≡ passes) }
    ensures passes { IfOk result (λ parts. vec_len parts.passes ≡ passes) }
{
    SimpleProcessor::<J, E, R, A>::new(alloc, rt, blank, exporter, passes, max_body)
}

/// Closes a processor out.
///
/// # Errors
///
/// As of `SimpleProcessor::close_out`.
pub(crate) fn close_out<J: Naming, E: Exporter + Drop, R: Wait + Copy, A: Allocator + Copy>(
    processor: SimpleProcessor<J, E, R, A>,
    passes: Vec<SimplePass<J, E, R, A>, A>,
) -> Result<SimpleAccounts<E, A>, SimpleMissing<J, E, R, A>>
    ensures { MatchResult result
        (λ _. processor.passes ≤ vec_len passes) (λ _. vec_len passes < processor.passes) }
{
    processor.close_out(passes)
}

/// Whether a processor has all its passes back.
fn is_whole<J: Naming, R: Wait + Copy, A: Allocator + Copy>(
    processor: SimpleProcessor<J, MemoryExporter<A>, R, A>,
    passes: Vec<SimplePass<J, MemoryExporter<A>, R, A>, A>,
) -> bool
    requires { processor.passes ≤ vec_len passes }
    ensures { result ≡ true }
{
    close_out(processor, passes).is_ok()
}

/// Makes two processors and closes each out with its own pass: whether both had all their passes.
///
/// # Errors
///
/// As of `SimpleProcessor::new`.
pub fn close_two<J: Naming, K: Naming, R: Wait + Copy, A: Allocator + Copy>(
    alloc: A,
    rt: R,
    first: SimpleBlank,
    second: SimpleBlank,
) -> Result<bool, SimpleFault>
    requires first { first ≡ J.name }
    requires second { second ≡ K.name }
    ensures { IfOk result (λ closed. closed ≡ true) }
{
    let exporter = MemoryExporter::new(alloc, Vec::new(alloc));
    let SimpleParts { processor, passes } = make::<J, _, R, A>(
        alloc,
        rt,
        first,
        exporter,
        1,
        DEFAULT_MAX_BODY,
    )?;
    let exporter = MemoryExporter::new(alloc, Vec::new(alloc));
    let neighbor = make::<K, _, R, A>(alloc, rt, second, exporter, 1, DEFAULT_MAX_BODY)?;
    let own = is_whole(processor, passes);
    let neighbors = is_whole(neighbor.processor, neighbor.passes);
    Ok(own && neighbors)
}
