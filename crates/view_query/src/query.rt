//! Searches.

ghost use Rattle.std.specs.Prelude.{◌≡◌, [], IfErr, IfOk, OnOk};
ghost use Rattle.view_query.specs.Matching as spec;
ghost use Rattle.view_query.specs.Reading.{IsSearchFault, and_terms, put_before, term_of, terms_of};
ghost use Rattle.view_query.specs.Terms.{terms_view};

use crate::fault::{Mistake, SearchFault, TermFault};
use crate::lex::word_length;
use crate::parse::term_of;
use crate::term::Term;
use crate::test::fits;
use std::alloc::{Allocator, Global};
use std::collections::LinkedList;
use std::marker::Model;
use std::sync::Arc;
use trace_store::ViewSpan;

/// What a search asks for: terms, each of which one span has to fulfil. A clause sees the terms.
pub struct Query<A: Allocator = Global> {
    terms: Vec<Term<A>, A>,
}

impl<A: Allocator> Drop for Query<A> {
    fn drop(self) {
        let Self { terms: _ } = self;
    }
}

impl<A: Allocator> Model for Query<A> {
    ghost use Rattle.std.specs.Prelude.{List, map};
    ghost use Rattle.view_query.specs.Terms.{TermView, terms_view};

    ghost Value = { List TermView };

    ghost view = { λ q. terms_view q.terms.items };
}

/// Adds the term that a word is, which begins at this place.
fn push_term<A: Allocator + Copy>(
    alloc: A,
    terms: &mut Vec<Term<A>, A>,
    at: usize,
    word: &[u8],
) -> Result<(), SearchFault>
    ensures ok { OnOk result (put_before (terms_view terms.old.items)
        (and_terms at (term_of word.now) (Ok [])) ≡ Ok (terms_view terms.new.items)) }
    ensures err { IfErr result (λ fault.
        IsSearchFault (and_terms at (term_of word.now) (Ok [])) fault) }
{
    match term_of(alloc, word) {
        Ok(term) => match terms.push(term) {
            Ok(()) => Ok(()),
            Err(_) => Err(SearchFault::OutOfMemory),
        },
        Err(TermFault::OutOfMemory) => Err(SearchFault::OutOfMemory),
        Err(TermFault::Wrong(why)) => Err(SearchFault::Mistake(Mistake { at, why })),
    }
}

impl<A: Allocator + Copy> Query<A> {
    /// Reads a search text. (profile)
    ///
    /// # Errors
    ///
    /// `Mistake` with the first word that is no term, and its place; and `OutOfMemory`.
    pub fn parse(alloc: A, text: &str) -> Result<Query<A>, SearchFault>
        ensures ok { IfOk result (λ query. terms_of text.now ≡ Ok query) }
        ensures err { IfErr result (λ fault. IsSearchFault (terms_of text.now) fault) }
    {
        let bytes = text.as_bytes();
        let mut terms = Vec::new(alloc);
        let mut at = 0usize;
        while at < bytes.len() {
            let length = word_length(&bytes[at..]);
            if length == 0 {
                at += 1;
            } else {
                let (word, _) = bytes[at..].split_at(length);
                push_term(alloc, &mut terms, at, word)?;
                at += length;
            }
        }
        Ok(Query { terms })
    }
}

impl<A: Allocator> Query<A> {
    /// Whether a trace with these spans is found: one of them fulfils all terms.
    pub fn finds(&self, spans: &LinkedList<Arc<ViewSpan<A>, A>, A>) -> bool
        ensures { result ≡ spec.finds self.now spans.now }
    {
        for span in spans.iter() {
            if fits(&self.terms, span) {
                return true;
            }
        }
        false
    }
}
