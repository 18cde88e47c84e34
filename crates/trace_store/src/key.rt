//! The number of a trace.

ghost use Rattle.std.specs.Prelude.{◌≡◌};
ghost use Rattle.trace_store.specs.Keys.{trace_key};

/// The number of a trace: the 16 bytes of its identifier, the most significant first; 0 where it
/// hasn't 16 bytes. So spans without a valid identifier of a trace are shown together, as trace 0.
/// (W3C Trace Context, "trace-id": 16 bytes, of which some isn't zero; what becomes of others:
/// profile)
pub fn trace_key(id: &[u8]) -> u128
    ensures { result ≡ trace_key id.now }
{
    match <[u8; 16]>::try_from(id) {
        Ok(bytes) => u128::from_be_bytes(bytes),
        Err(_) => 0,
    }
}
