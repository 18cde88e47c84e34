//! What an account says.
use account_book::Opening;
use std::marker::{Model, PhantomData};

/// What an account says: what a processor began with, or what a pass knows, or the worker. `O` is
/// what a processor begins with. No value of it is made.
pub struct AccountState<O> {
    marker: PhantomData<O>,
}

impl<O> Model for AccountState<O> {
    ghost use Rattle.model_processor.specs.Passes.{new_account};
    ghost use Rattle.model_processor.specs.Holders.{Holder, pass};

    ghost Value = { Holder O };

    ghost view = { λ _. pass new_account };
}

/// The account of a pass that has done nothing. Those of a processor and of its worker begin so too,
/// until what they began with is recorded.
impl<O> Opening<AccountState<O>> for AccountState<O> {
    ghost use Rattle.model_processor.specs.Passes.{new_account};
    ghost use Rattle.model_processor.specs.Holders.{pass};

    ghost first = { pass new_account };
}
