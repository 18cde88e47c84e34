//! Worked values, written by hand: the checker computes what the definitions make of each, and
//! compares.
ghost use Rattle.std.specs.Prelude.{◌≡◌, ◌∷◌, [], None, Some, false, true};
ghost use Rattle.model_desk.specs.Retries.{Fate, Next};
ghost use Rattle.model_body.specs.Histories.{again, idle};
ghost use Rattle.spool.specs.Spools.{numbered_from};
ghost use Rattle.relay_store.specs.Accounts.{after_closing, after_posts, closes, ended_after};
ghost use Rattle.relay_store.specs.Accounts.{noted_from, posts, read_from, returned_from};
ghost use Rattle.relay_store.specs.Agreement.{AreInOrder, came_of};
ghost use Rattle.relay_store.specs.Balances.{delivered_in, lost_in};
ghost use Rattle.relay_store.specs.Examples.{both_out, one, refused, second_out, two};
ghost use Rattle.relay_store.specs.Fronts.{bodies_of};

/// What is noted of a batch: one of several bodies that is refused ends none of them, one that is
/// to be sent again keeps its bodies, and a body that is refused alone is lost.
pub fn outcomes()
    ensures split { noted_from refused both_out ≡ record both_out { turn = idle; batch = [] } }
    ensures none { ended_after refused both_out.batch ≡ [] }
    ensures later { noted_from (Next.again 5) both_out ≡ record both_out { turn = again } }
    ensures alone { (noted_from refused second_out).ended
        ≡ (one, Fate.delivered) ∷ (two, Fate.refused 400) ∷ [] }
    ensures delivered { delivered_in (noted_from Next.done second_out) ≡ one ∷ two ∷ [] }
    ensures lost { lost_in (noted_from refused second_out) ≡ two ∷ [] }
{}

/// The order of the bodies of a spool: those that waited at the start, followed by those that were
/// kept, are those that ended, followed by those that wait. None may be missing, come twice, or come
/// early.
pub fn orders()
    ensures waits { AreInOrder (two ∷ []) second_out (two ∷ []) }
    ensures ended { AreInOrder (two ∷ []) (noted_from Next.done second_out) [] }
    ensures missing { AreInOrder (two ∷ []) second_out [] → ⊥ }
    ensures twice { AreInOrder (two ∷ []) second_out (two ∷ two ∷ []) → ⊥ }
    ensures early { AreInOrder (two ∷ one ∷ []) second_out (one ∷ two ∷ []) → ⊥ }
{}

/// What bodies came to memory, with a spool and without one, and what was given up.
pub fn bodies()
    ensures kept { after_posts (two ∷ []) (posts (one ∷ [])) ≡ posts (one ∷ two ∷ []) }
    ensures in_memory { came_of false (one ∷ []) (read_from (two ∷ []) both_out) ≡ one ∷ [] }
    ensures spooled { came_of true (one ∷ []) (read_from (two ∷ []) both_out) ≡ two ∷ [] }
    ensures returned { (returned_from (one ∷ two ∷ []) both_out).returned ≡ one ∷ two ∷ [] }
    ensures given_up { after_closing (two ∷ []) (closes (Some (one ∷ [])))
        ≡ closes (Some (one ∷ two ∷ [])) }
    ensures first { after_closing (one ∷ []) (closes None) ≡ closes (Some (one ∷ [])) }
{}

/// The bodies of a spool that are left, where those with a number below 6 ended.
pub fn remaining()
    ensures { bodies_of (numbered_from 6 ((5, 1 ∷ []) ∷ (6, 2 ∷ []) ∷ [])) ≡ (2 ∷ []) ∷ [] }
{}
