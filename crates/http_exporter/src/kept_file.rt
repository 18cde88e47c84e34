//! The last body with its gzip file.

ghost use Rattle.std.specs.Prelude.{◌≡◌, ◌↔◌, ℕ, List, IsTrue, IfOk, false, None};
ghost use Rattle.gzip.specs.Streams.{IsFile};
ghost use Rattle.http_exporter.specs.Compressed.{keeping};

use gzip::Gzip;
use std::alloc::{AllocError, Allocator};
use std::marker::Model;

/// A body, and its gzip file. In contracts it is a `KeptFile`.
#[derive(Drop)]
pub(crate) struct BodyFile<A: Allocator> {
    body: Vec<u8, A>,
    file: Vec<u8, A>,
}

impl<A: Allocator> Model for BodyFile<A> {
    ghost use Rattle.gzip.specs.Streams.{IsFile};
    ghost use Rattle.http_exporter.specs.Compressed.{KeptFile};

    ghost Value = { KeptFile };

    ghost view = { λ b. record { body = b.body.items; file = b.file.items } };

    ghost invariant = { λ b. IsFile b.file.items b.body.items };
}

impl<A: Allocator> BodyFile<A> {
    /// A body with its file.
    fn new(body: Vec<u8, A>, file: Vec<u8, A>) -> BodyFile<A>
        requires { IsFile file.items body.items }
        ensures { result ≡ record { body = body.items; file = file.items } }
    {
        BodyFile { body, file }
    }

    /// The body.
    fn body(&self) -> &[u8]
        ensures { result.now ≡ self.now.body }
    {
        self.body.as_slice()
    }

    /// The file.
    pub(crate) fn file(&self) -> &[u8]
        ensures value { result.now ≡ self.now.file }
        ensures is_file { IsFile result.now self.now.body }
    {
        self.file.as_slice()
    }
}

/// Whether two bodies are the same.
fn is_same(body: &[u8], other: &[u8]) -> bool
    ensures { IsTrue result ↔ (body.now ≡ other.now) }
{
    body == other
}

/// Whether the file of this body is kept.
fn has_file<A: Allocator>(kept: &Option<BodyFile<A>>, body: &[u8]) -> bool
    ensures kept { IsTrue result → (file : List ℕ) × (kept.now ≡ keeping body.now file) }
    ensures other { result ≡ false → (file : List ℕ) → ¬ (kept.now ≡ keeping body.now file) }
{
    match kept {
        Some(last) => is_same(last.body(), body),
        None => false,
    }
}

/// A body with its file. It fails where memory is refused, to the writer or to either.
fn compress<A: Allocator + Copy>(
    alloc: A,
    writer: &mut Option<Gzip<A>>,
    body: &[u8],
) -> Result<BodyFile<A>, AllocError>
    ensures { IfOk result (λ kept. kept.body ≡ body.now) }
{
    let mut writing = match writer.take() {
        Some(writing) => writing,
        None => Gzip::new(alloc)?,
    };
    let mut file = Vec::new(alloc);
    let written = writing.write(body, &mut file);
    *writer = Some(writing);
    written?;
    let body = body.to_vec(alloc)?;
    Ok(BodyFile::new(body, file))
}

/// Keeps this body with its file, in place of the last one, unless they are kept already. The
/// answer is whether they are: not where bodies aren't compressed, and then nothing changes, and not
/// where memory is refused, and then none is kept.
pub(crate) fn keep<A: Allocator + Copy>(
    is_on: bool,
    alloc: A,
    writer: &mut Option<Gzip<A>>,
    kept: &mut Option<BodyFile<A>>,
    body: &[u8],
) -> bool
    ensures on { IsTrue result → IsTrue is_on }
    ensures some { IsTrue result → (file : List ℕ) × (kept.new ≡ keeping body.now file) }
    ensures same { (file : List ℕ) → IsTrue is_on → kept.old ≡ keeping body.now file
        → IsTrue result × (kept.new ≡ kept.old) }
{
    if !is_on {
        return false;
    }
    if has_file(kept, body) {
        return true;
    }
    *kept = None;
    match compress(alloc, writer, body) {
        Ok(file) => {
            *kept = Some(file);
            true
        }
        Err(_) => false,
    }
}
