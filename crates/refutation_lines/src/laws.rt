//! What a refutation proves.

ghost use Rattle.std.specs.Prelude.{All, Bool, List};
ghost use Rattle.var_names.specs.Formulas.{RuledClause};
ghost use Rattle.var_names.specs.Variables.{Variable};
ghost use Rattle.refutation_lines.specs.declared.line.Line.{Line};
ghost use Rattle.refutation_lines.specs.Refutations.{IsRefutation, IsSatisfied};

/// Where lines are a refutation of instances, no assignment makes all instances true.
pub fn refuted_is_unsatisfiable()
    ensures { (instances : List RuledClause) (lines : List Line) (value : Variable → Bool) → IsRefutation instances lines
        → All (λ instance. IsSatisfied value instance.literals) instances → ⊥ }
{}
