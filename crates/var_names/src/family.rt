ghost use Rattle.std.specs.Prelude.{◌≡◌, ◌<◌, ◌≤◌};
ghost use Rattle.var_names.specs.Families.{arity, takes_default};

/// What a variable says, and so the meaning of its arguments (docs/TEXTS.md).
#[derive(Clone, Copy, Debug, PartialEq, Eq, Hash, Drop)]
pub enum Family {
    On,
    Go,
    Sl,
    Re,
    Ca,
    Pr,
    Se,
    So,
    Hb,
    Vi,
    Id,
    Co,
    Hx,
    Ph,
    Sx,
    Ps,
    Wx,
    Pw,
    Pb,
    No,
    Pa,
    Cn,
    Ss,
    Bt,
    Ne,
    Ox,
    Ob,
}

/// All families, by number from 1 on.
pub const FAMILIES: [Family; 27] = [
    Family::On,
    Family::Go,
    Family::Sl,
    Family::Re,
    Family::Ca,
    Family::Pr,
    Family::Se,
    Family::So,
    Family::Hb,
    Family::Vi,
    Family::Id,
    Family::Co,
    Family::Hx,
    Family::Ph,
    Family::Sx,
    Family::Ps,
    Family::Wx,
    Family::Pw,
    Family::Pb,
    Family::No,
    Family::Pa,
    Family::Cn,
    Family::Ss,
    Family::Bt,
    Family::Ne,
    Family::Ox,
    Family::Ob,
];

impl Family {
    /// How many arguments its variables have.
    pub fn arity(self) -> usize
        ensures { result ≡ arity self }
    {
        match self {
            Family::On | Family::Go | Family::Pr | Family::Co | Family::Cn | Family::Ne => 2,
            Family::Sl | Family::Vi | Family::Bt => 4,
            _ => 3,
        }
    }

    /// Whether the last argument may be the default write.
    pub fn takes_default(self) -> bool
        ensures { result ≡ takes_default self }
    {
        matches!(self, Family::Se | Family::Wx | Family::Pw)
    }
}
