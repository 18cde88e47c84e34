//! What threads share, with their accounts.
ghost use Rattle.std.specs.Prelude.{◌≡◌, ◌≤◌, vec_len, true, option_map, IfSome, IfNone};
ghost use Rattle.otlp_span.specs.Dropped.{entry_view};
ghost use Rattle.model_processor.specs.Passes.{after_pop, after_pop_lost};
ghost use Rattle.simple_processor.specs.Accounts.{after_end, after_shutdown, is_simple_answer};
ghost use Rattle.simple_processor.specs.AnyAccounts.{account_in, on_pass, origin_in, pass};
ghost use Rattle.simple_processor.specs.AnyAccounts.{processor};
ghost use Rattle.simple_processor.specs.Kept.{IsAccountOf};

use crate::account::{ShutsDown, SimpleState};
use crate::export::ExportState;
use crate::pass::SimplePass;
use crate::processor::SimpleAccounts;
use account_book::{Account, Book, Naming};
use otlp_span::{Entry, SpanData};
use processor_account::{Ends, Pops, PopsLost, SpanEnded};
use span_exporter::Exporter;
use std::alloc::Allocator;
use std::marker::Model;
use std::snapshot::Snapshot;
use trace_api::Ended;

/// What the lock of a processor guards until it is closed out, with the book of its accounts.
pub(crate) struct Shared<J: Naming, E: Exporter, A: Allocator> {
    pub(crate) export: Option<ExportState<E, A>>,
    pub(crate) book: Book<J, SimpleState>,
    pub(crate) passes: usize,
    pub(crate) max_body: usize,
    pub(crate) began: Snapshot<E>,
}

/// By hand: a derived one would be proved again in each crate that drops it.
impl<J: Naming, E: Exporter + Drop, A: Allocator> Drop for Shared<J, E, A> {
    fn drop(self) {
        let Self {
            export: _,
            book: _,
            passes: _,
            max_body: _,
            began: _,
        } = self;
    }
}

impl<J: Naming, E: Exporter, A: Allocator> Model for Shared<J, E, A> {
    ghost use Rattle.simple_processor.specs.Kept.{IsShared};

    ghost Value = { Unit {0} };

    ghost view = { λ s. tt };

    ghost invariant = { λ s. IsShared (λ d. E.handed d.exporter) (λ d. d.state)
        (record { passes = s.passes; had = E.handed s.began.value; max_body = s.max_body })
        s.export s.book };
}

impl<J: Naming, E: Exporter, A: Allocator + Copy> Shared<J, E, A> {
    /// A span ends on a pass.
    pub(crate) fn admit(
        &mut self,
        account: &mut Account<J, SimpleState>,
        span: SpanData<A>,
    ) -> Ended
        requires { account.old ≡ pass (account_in account.old) }
        ensures account { account.new ≡ on_pass (after_end result span) account.old }
        ensures answer { is_simple_answer result ≡ true }
    {
        self.book.recognize(account);
        let Some(export) = &mut self.export else {
            unreachable!()
        };
        let seen = Snapshot::of(&span);
        let answer = export.admit(span);
        self.book
            .record::<SpanEnded<A>, Ends>(account, &SpanEnded { span: seen, answer });
        answer
    }

    /// A pass shuts the processor down.
    pub(crate) fn shutdown(&mut self, account: &mut Account<J, SimpleState>)
        requires { account.old ≡ pass (account_in account.old) }
        ensures { account.new ≡ on_pass after_shutdown account.old }
    {
        self.book.recognize(account);
        let Some(export) = &mut self.export else {
            unreachable!()
        };
        export.shutdown();
        self.book.record::<(), ShutsDown>(account, &());
    }

    /// A pass pops an entry of the ledger.
    pub(crate) fn pop_entry(&mut self, account: &mut Account<J, SimpleState>) -> Option<Entry>
        requires { account.old ≡ pass (account_in account.old) }
        ensures some { IfSome result
            (λ entry. account.new ≡ on_pass (after_pop (entry_view entry)) account.old) }
        ensures none { IfNone result (account.new ≡ account.old) }
    {
        self.book.recognize(account);
        let Some(export) = &mut self.export else {
            unreachable!()
        };
        let entry = export.pop_entry()?;
        self.book.record::<Entry, Pops>(account, &entry);
        Some(entry)
    }

    /// A pass pops an entry of the ledger of lost spans.
    pub(crate) fn pop_lost(&mut self, account: &mut Account<J, SimpleState>) -> Option<Entry>
        requires { account.old ≡ pass (account_in account.old) }
        ensures some { IfSome result
            (λ entry. account.new ≡ on_pass (after_pop_lost (entry_view entry)) account.old) }
        ensures none { IfNone result (account.new ≡ account.old) }
    {
        self.book.recognize(account);
        let Some(export) = &mut self.export else {
            unreachable!()
        };
        let entry = export.pop_lost()?;
        self.book.record::<Entry, PopsLost>(account, &entry);
        Some(entry)
    }

    /// Takes all out, once the processor and all passes are back.
    pub(crate) fn close<R>(
        &mut self,
        mut account: Account<J, SimpleState>,
        passes: Vec<SimplePass<J, E, R, A>, A>,
    ) -> SimpleAccounts<E, A>
    where
        E: Drop,
        R: Drop,
        requires processor { account ≡ processor (origin_in account) }
        requires all { (origin_in account).passes ≤ vec_len passes }
        ensures { IsAccountOf (origin_in account) (E.handed result.exporter) result.totals
            result.ledger result.lost passes.items }
    {
        self.book.recognize(&mut account);
        let Some(export) = self.export.take() else {
            unreachable!()
        };
        self.book.close(account);
        for pass in passes {
            let SimplePass {
                shared: _,
                account,
                rt: _,
            } = pass;
            self.book.close(account);
        }
        export.into_accounts()
    }
}
