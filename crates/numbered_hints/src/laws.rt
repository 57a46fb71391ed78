ghost use Rattle.std.specs.Prelude.{◌*◌, ◌<◌, ◌≢◌, ℕ, All, AllPairs, length, List, map, Option};
ghost use Rattle.var_names.specs.LiteralNumbers.{lit_of};
ghost use Rattle.var_names.specs.Variables.{Variable};
ghost use Rattle.refutation_lines.specs.Propagation.{Conflicts};
ghost use Rattle.refutation_check.specs.Hints.{ConflictsAlong};
ghost use Rattle.numbered_hints.specs.ByLiteral.{AreBelow, literals_of};

/// Where hints lead to a conflict by number, they do by literals, the literals of variables that differ.
pub fn follows_by_number()
    ensures { (variables : List Variable) (clauses : List (Option (List ℕ))) (trues hints : List ℕ) → AllPairs ◌≢◌ variables
        → AreBelow (2 * length variables) clauses → All (λ n. n < 2 * length variables) trues → ConflictsAlong clauses trues hints
        → Conflicts (literals_of variables clauses) (map (lit_of variables) trues) hints }
{}
