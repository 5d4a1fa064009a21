ghost use Rattle.std.specs.Prelude.{◌≡◌};
ghost use Rattle.pv_fault.specs.Grades.{least};

/// How closely an input met its schema, in rising order.
#[derive(Clone, Copy, Debug, PartialEq, Eq, PartialOrd, Ord)]
pub enum Grade {
    Lax,
    Strict,
    Exact,
}

impl Grade {
    /// The lower of two grades.
    pub fn least(self, other: Grade) -> Grade
        ensures { result ≡ least self other }
    {
        match (self, other) {
            (Grade::Lax, _) | (_, Grade::Lax) => Grade::Lax,
            (Grade::Strict, _) | (_, Grade::Strict) => Grade::Strict,
            (Grade::Exact, Grade::Exact) => Grade::Exact,
        }
    }
}
