//! A text is that of one literal only.

ghost use Rattle.std.specs.Prelude.{◌++◌, ◌≡◌, ℕ, List};
ghost use Rattle.var_names.specs.declared.var.Lit.{Lit};
ghost use Rattle.var_names.specs.LiteralText.{literal_bytes, literal_text};
ghost use Rattle.var_names.specs.Readable.{IsLiteral};

/// No two literals have one text in words. So what `put_lit` puts, `read_lit` reads, and the other way round.
pub fn one_literal_in_words()
    ensures { (a b : Lit) → IsLiteral a → IsLiteral b → literal_text a ≡ literal_text b → a ≡ b }
{}

/// No two literals begin the same bytes. So what `put_lit_bytes` puts, `read_lit_bytes` reads, whatever follows it.
pub fn one_literal_in_bytes()
    ensures { (a b : Lit) (x y : List ℕ) → IsLiteral a → IsLiteral b → literal_bytes a ++ x ≡ literal_bytes b ++ y → a ≡ b }
{}
