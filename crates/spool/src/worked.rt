//! Worked values, written by hand: the checker computes what the definitions make of each, and
//! compares.
ghost use Rattle.std.specs.Prelude.{◌≡◌, ◌++◌, ◌∷◌, [], take, Some, None};
ghost use Rattle.spool.specs.Records.{record_bytes, contents, rest};
ghost use Rattle.spool.specs.Spools.{waiting, next_number, damaged_bytes, Rises, AreRising};
ghost use Rattle.spool.specs.Examples.{first, second, note, flipped, old_file, torn_file, damaged_file};
ghost use Rattle.spool.specs.Examples.{touching_file, torn_note_file, sixth_file};
ghost use Rattle.spool.specs.Examples.{flipped_note, longer, lost_file};

/// The bytes of records, and what is read of them: whole, cut short and damaged.
pub fn records()
    ensures body { record_bytes (1 ∷ 7 ∷ 8 ∷ []) ≡ first }
    ensures note { record_bytes (2 ∷ 6 ∷ 0 ∷ 0 ∷ 0 ∷ 0 ∷ 0 ∷ 0 ∷ 0 ∷ [])
        ≡ note }
    ensures whole { contents (first ++ second)
        ≡ Some (1 ∷ 7 ∷ 8 ∷ []) ∷ Some (1 ∷ 9 ∷ []) ∷ [] }
    ensures torn { contents (first ++ take 9 second) ≡ Some (1 ∷ 7 ∷ 8 ∷ []) ∷ [] }
    ensures left { rest (first ++ take 9 second) ≡ take 9 second }
    ensures zeros { contents (0 ∷ 0 ∷ 0 ∷ 0 ∷ 0 ∷ 0 ∷ 0 ∷ 0 ∷ 0 ∷ []) ≡ [] }
{}

/// What is read of damaged records: one is skipped where the record after it checks, which is found
/// by its length. A damaged body keeps its place, a damaged note has none.
pub fn damaged()
    ensures skipped { contents (flipped ++ second) ≡ None ∷ Some (1 ∷ 9 ∷ []) ∷ [] }
    ensures left { rest (flipped ++ second) ≡ flipped }
    ensures note { contents (flipped_note ++ second) ≡ Some (1 ∷ 9 ∷ []) ∷ [] }
    ensures note_left { rest (flipped_note ++ second) ≡ flipped_note }
    ensures last { contents (second ++ flipped) ≡ Some (1 ∷ 9 ∷ []) ∷ [] }
    ensures last_left { rest (second ++ flipped) ≡ flipped }
    ensures two { contents (flipped ++ (flipped ++ second)) ≡ [] }
    ensures two_left { rest (flipped ++ (flipped ++ second))
        ≡ flipped ++ (flipped ++ second) }
    ensures length { contents (longer ++ second) ≡ [] }
    ensures torn { rest (flipped ++ (second ++ take 9 first)) ≡ flipped ++ take 9 first }
{}

/// What files mean: bodies with their numbers, without those that a later file notes as delivered.
pub fn spools()
    ensures one { waiting (old_file ∷ []) ≡ (5, 7 ∷ 8 ∷ []) ∷ (6, 9 ∷ []) ∷ [] }
    ensures noted { waiting (old_file ∷ torn_file ∷ [])
        ≡ (6, 9 ∷ []) ∷ (9, 9 ∷ []) ∷ [] }
    ensures next { next_number (old_file ∷ torn_file ∷ []) ≡ 11 }
    ensures damaged { damaged_bytes (old_file ∷ torn_file ∷ damaged_file ∷ []) ≡ 20 }
    ensures skipped { waiting (old_file ∷ damaged_file ∷ [])
        ≡ (5, 7 ∷ 8 ∷ []) ∷ (6, 9 ∷ []) ∷ (21, 7 ∷ 8 ∷ []) ∷ [] }
    ensures later { next_number (old_file ∷ damaged_file ∷ []) ≡ 23 }
    ensures lost { waiting (lost_file ∷ []) ≡ (30, 9 ∷ []) ∷ [] }
    ensures after { next_number (lost_file ∷ []) ≡ 32 }
{}

/// Files whose numbers rise, and files whose numbers overlap; the same of bodies.
pub fn rising()
    ensures files { Rises (old_file ∷ torn_file ∷ touching_file ∷ []) }
    ensures torn_note { Rises (torn_note_file ∷ sixth_file ∷ []) }
    ensures overlap { Rises (old_file ∷ sixth_file ∷ []) → ⊥ }
    ensures bodies { AreRising 6 10 ((6, 9 ∷ []) ∷ (9, 9 ∷ []) ∷ []) }
    ensures twice { AreRising 6 10 ((6, 9 ∷ []) ∷ (6, 7 ∷ []) ∷ []) → ⊥ }
    ensures early { AreRising 7 10 ((6, 9 ∷ []) ∷ (9, 9 ∷ []) ∷ []) → ⊥ }
    ensures late { AreRising 6 9 ((6, 9 ∷ []) ∷ (9, 9 ∷ []) ∷ []) → ⊥ }
{}
