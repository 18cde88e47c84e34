//! Worked values, written by hand: the checker computes what the definitions make of each, and
//! compares.
//!
//! Two requests of one span each. The first has trace id 1 and span id 2, and the second 3 and 4;
//! identifiers have a byte here. A span (6 bytes) is in the spans of a scope (8), these are in
//! those of a resource (10), and these in the request (12).

ghost use Rattle.std.specs.Prelude.{◌≡◌, ◌++◌, ◌∷◌, []};
ghost use Rattle.model_desk.specs.Retries.{Fate};
ghost use Rattle.model_body.specs.Histories.{attempts, alone_count, delivered_bodies, deliveries};
ghost use Rattle.model_body.specs.Histories.{ends, kept_bodies, lost_bodies};
ghost use Rattle.model_body.specs.Desks.{body_size, memory_of};
ghost use Rattle.model_body.specs.Examples.{first, second, without_spans, named, tried};
ghost use Rattle.model_body.specs.Examples.{spoiled, ended};

/// How the spans of a lost body are named: with the identifiers that were received, and how the
/// body ended.
pub fn names()
    ensures one { named (Fate.refused 400) first
        ≡ record { trace = 1 ∷ []; span = 2 ∷ []; fate = Fate.refused 400 } ∷ [] }
    ensures both { named Fate.abandoned (first ++ second)
        ≡ record { trace = 1 ∷ []; span = 2 ∷ []; fate = Fate.abandoned }
        ∷ record { trace = 3 ∷ []; span = 4 ∷ []; fate = Fate.abandoned } ∷ [] }
    ensures other_order { named Fate.abandoned (second ++ first)
        ≡ record { trace = 3 ∷ []; span = 4 ∷ []; fate = Fate.abandoned }
        ∷ record { trace = 1 ∷ []; span = 2 ∷ []; fate = Fate.abandoned } ∷ [] }
    ensures nothing { named Fate.abandoned [] ≡ [] }
    ensures none { named Fate.abandoned without_spans ≡ [] }
{}

/// A batch of two bodies that is sent again, with the same bytes, and is refused: all bodies are
/// kept, and the two are to be sent alone.
pub fn refused()
    ensures attempts { attempts tried ≡ (1 ∷ 2 ∷ 3 ∷ []) ∷ (1 ∷ 2 ∷ 3 ∷ []) ∷ [] }
    ensures ends { ends tried ≡ [] }
    ensures kept { kept_bodies tried
        ≡ (1 ∷ 2 ∷ []) ∷ (3 ∷ []) ∷ (4 ∷ []) ∷ (5 ∷ []) ∷ [] }
    ensures alone { alone_count tried ≡ 2 }
{}

/// One of the two is lost, and its neighbour is delivered.
pub fn alone()
    ensures attempts { attempts spoiled
        ≡ (1 ∷ 2 ∷ 3 ∷ []) ∷ (1 ∷ 2 ∷ 3 ∷ []) ∷ (1 ∷ 2 ∷ []) ∷ (3 ∷ []) ∷ [] }
    ensures lost { lost_bodies spoiled ≡ (1 ∷ 2 ∷ [], Fate.refused 400) ∷ [] }
    ensures delivered { delivered_bodies spoiled ≡ (3 ∷ []) ∷ [] }
    ensures deliveries { deliveries spoiled ≡ (3 ∷ []) ∷ [] }
    ensures kept { kept_bodies spoiled ≡ (4 ∷ []) ∷ (5 ∷ []) ∷ [] }
    ensures alone { alone_count spoiled ≡ 0 }
{}

/// The others are given up at the end.
pub fn drained()
    ensures ends { ends ended
        ≡ Fate.refused 400 ∷ Fate.delivered ∷ Fate.abandoned ∷ Fate.abandoned ∷ [] }
    ensures lost { lost_bodies ended
        ≡ (1 ∷ 2 ∷ [], Fate.refused 400) ∷ (4 ∷ [], Fate.abandoned)
        ∷ (5 ∷ [], Fate.abandoned) ∷ [] }
    ensures kept { kept_bodies ended ≡ [] }
{}

/// What bodies take: their bytes, and 96 more each.
pub fn sizes()
    ensures empty { body_size [] ≡ 96 }
    ensures first { body_size first ≡ 108 }
    ensures both { memory_of (first ∷ second ∷ []) ≡ 216 }
{}
