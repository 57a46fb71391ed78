//! What the list of all instances of a table is, and when rules are true.

ghost use Rattle.std.specs.Prelude.{Bool, IsTrue, List, ℕ, []};
ghost use Rattle.rule_base.specs.declared.instances.Instance.{Instance};
ghost use Rattle.rule_base.specs.declared.question.Question.{Question};
ghost use Rattle.rule_base.specs.Instances.{IsInstance, Rows, all_instances, instance};
ghost use Rattle.rule_base.specs.Listing.{Among, Distinct};
ghost use Rattle.rule_base.specs.Rules.{AnyHolds, IsTrueRule, Rule, are_args, clause_at};
ghost use Rattle.var_names.specs.Variables.{Variable};

/// The list of all instances of a table has each instance, nothing else, and each once.
pub fn all_instances_once()
    ensures sound { (q : Question) (rows : Rows) (i : Instance) → Among i (all_instances q rows) → IsInstance q rows i.place i.choices }
    ensures complete { (q : Question) (rows : Rows) (place : ℕ) (args : List ℕ) → IsInstance q rows place args → Among (instance place args) (all_instances q rows) }
    ensures once { (q : Question) (rows : Rows) → Distinct (all_instances q rows) }
{}

/// A rule is true under an assignment exactly where it has a true literal at all its arguments.
pub fn true_at_its_arguments()
    ensures literal { (q : Question) (value : Variable → Bool) (rule : Rule) (args : List ℕ) → IsTrueRule q value rule → IsTrue (are_args q rule.letters [] args) → AnyHolds value (clause_at rule args) }
    ensures rule { (q : Question) (value : Variable → Bool) (rule : Rule) → ((args : List ℕ) → IsTrue (are_args q rule.letters [] args) → AnyHolds value (clause_at rule args)) → IsTrueRule q value rule }
{}
