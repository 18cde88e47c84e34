//! Which settings of its queue, and which numbers of threads, keep a service from being started
//! (profile).

ghost use Rattle.std.specs.Prelude.{◌≡◌, ℕ, None, Some, Ok, Err};
ghost use Rattle.batch_service.specs.Refusals.{Answers, IsOfSystem, refusal_of};
ghost use Rattle.batch_service.specs.declared.fault.StartFault.TheVariants as starts;
ghost use Rattle.worked_sdk.specs.Settings.{sized};

/// The first that holds is the answer: of the number of passes, of a queue or a batch without room,
/// of a batch above the queue, and of a queue above 65,536.
pub fn refusals()
    ensures no_pass { refusal_of (sized 0 0) 0 ≡ Some starts.BadPasses }
    ensures many_passes { refusal_of (sized 2048 512) 65 ≡ Some starts.BadPasses }
    ensures no_queue { refusal_of (sized 0 0) 1 ≡ Some starts.ZeroSize }
    ensures no_batch { refusal_of (sized 65537 0) 64 ≡ Some starts.ZeroSize }
    ensures large_batch { refusal_of (sized 65537 65538) 64 ≡ Some starts.BatchAboveQueue }
    ensures large_queue { refusal_of (sized 65537 65537) 64 ≡ Some starts.TooLarge }
    ensures largest { refusal_of (sized 65536 65536) 64 ≡ None }
    ensures smallest { refusal_of (sized 1 1) 1 ≡ None }
    ensures usual { refusal_of (sized 2048 512) 4 ≡ None }
{}

/// What such a service is answered, and one whose settings are good.
pub fn answers()
    ensures refused { Answers {T = ℕ} (Some starts.ZeroSize) (Err starts.ZeroSize) }
    ensures another { ¬ (Answers {T = ℕ} (Some starts.ZeroSize) (Err starts.NoThread)) }
    ensures started { Answers {T = ℕ} None (Ok 0) }
    ensures no_thread { IsOfSystem starts.NoThread }
    ensures no_bytes { IsOfSystem starts.NoRandomBytes }
    ensures no_memory { IsOfSystem starts.OutOfMemory }
    ensures of_settings { ¬ (IsOfSystem starts.TooLarge) }
{}
