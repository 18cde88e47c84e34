//! The settings of an environment.

ghost use Rattle.std.specs.Prelude.{◌≡◌, ℕ, List, Option, IfOk, option_map, string_bytes};
ghost use Rattle.otel_settings.specs.Environments.{AreRead, texts_view};
ghost use Rattle.otel_settings.specs.Pairs.{Pairs, pairs_view};
ghost use Rattle.otel_settings.specs.Settings as settings;
ghost use Rattle.otel_settings.specs.SettingsView.{settings_view};

use crate::settings::{Settings, settings_of};
use crate::variable::Variable;
use std::alloc::{AllocError, Global};
use std::env::VarError;
use std::rt::Env;

/// What gives variables their values: a process, or what stands for one.
pub trait Environment {
    /// What the value of the variable with a name may be, if it has one.
    ghost gives: { Self → List ℕ → Option (List ℕ) → Type 0 };

    /// The value of the variable with this name, if it is there.
    ///
    /// # Errors
    ///
    /// `AllocError` where memory was refused.
    fn value_of(&self, name: &str) -> Result<Option<String>, AllocError>
        ensures { IfOk result (λ value.
            gives self.now name.now (option_map string_bytes value)) };
}

/// The environment of a process. Which values it gives, no contract says. One that isn't UTF-8
/// counts as the one character U+FFFD, which no number, truth value, sampler and URL is, so that it
/// is among the faults.
impl<R: Env + AllocGlobal> Environment for R {
    ghost gives = { λ _ _ _. Unit {0} };

    fn value_of(&self, name: &str) -> Result<Option<String>, AllocError> {
        match std::env::var(self, name) {
            Ok(text) => Ok(Some(text)),
            Err(VarError::NotPresent) => Ok(None),
            Err(VarError::NotUnicode) => Ok(Some(String::from_str(self.alloc(), "\u{FFFD}")?)),
            Err(VarError::OutOfMemory) => Err(AllocError),
        }
    }
}

/// The names and values of the variables that are in the environment.
fn variables<E: Environment>(
    alloc: Global,
    environment: &E,
) -> Result<Vec<(&'static str, String)>, AllocError>
    ensures { IfOk result (λ all. AreRead (E.gives environment.now) (texts_view all.items)) }
{
    let mut all = Vec::new(alloc);
    for variable in &Variable::ALL {
        let name = variable.name();
        if let Some(text) = environment.value_of(name)? {
            all.push((name, text))?;
        }
    }
    Ok(all)
}

/// The settings that an environment makes, as the process's: those of [`settings_of`] at the names
/// and values that it gives for each [`Variable`].
///
/// # Errors
///
/// `AllocError` where memory was refused.
pub fn settings_of_environment<E: Environment + AllocGlobal>(
    environment: &E,
) -> Result<Settings<Global>, AllocError>
    ensures { IfOk result (λ all. (pairs : Pairs) × AreRead (E.gives environment.now) pairs
        × (settings_view all ≡ settings.settings_of pairs)) }
{
    let alloc = environment.alloc();
    let all = variables(alloc, environment)?;
    let mut pairs = Vec::new(alloc);
    for (name, text) in &all {
        pairs.push((*name, text.as_str()))?;
    }
    settings_of(alloc, pairs.as_slice())
}
