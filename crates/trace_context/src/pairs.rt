//! A list of names and values carries a context.

ghost use Rattle.trace_context.specs.Pairs.{fields_view};

use crate::carrier::{Extractor, Injector};
use otlp_ids::OutOfMemory;
use std::alloc::Allocator;

impl<A: Allocator> Extractor for Vec<(String<A>, Vec<u8, A>), A> {
    ghost fields = { λ list. fields_view list.items };

    fn count(&self) -> usize {
        self.len()
    }

    fn field(&self, index: usize) -> (&[u8], &[u8]) {
        let (name, value) = &self[index];
        (name.as_bytes(), value.as_slice())
    }
}

impl<A: Allocator + Copy> Injector for Vec<(String<A>, Vec<u8, A>), A> {
    ghost fields = { λ list. fields_view list.items };

    fn set(&mut self, name: &str, value: &[u8]) -> Result<(), OutOfMemory> {
        let alloc = *self.allocator();
        let name = String::from_str(alloc, name)?;
        let value = Vec::from_slice(alloc, value)?;
        self.push((name, value))?;
        Ok(())
    }
}
