// The two literals of a variable, and a literal of a short clause by its place.
ghost use Rattle.std.specs.Prelude.{◌≡◌, ◌<◌, pos, slice_get};
ghost use Rattle.cnf.specs.Clauses.{minus};

// A variable that a literal can stand on.
#[derive(Clone, Copy)]
pub(crate) struct Variable {
    pub(crate) number: u32,
    ghost low: { number < 2147483648 },
}

impl Variable {
    // The literal that says that the variable is true.
    pub(crate) fn positive(self) -> i32
        ensures { result ≡ pos self.number }
    {
        self.number as i32
    }

    // The literal that says that the variable is false.
    pub(crate) fn negative(self) -> i32
        ensures { result ≡ minus self.number }
    {
        -(self.number as i32)
    }
}

// Literal j of a short clause.
pub(crate) fn literal_at<const N: usize>(clause: [i32; N], j: u32) -> Option<i32>
    ensures { result ≡ slice_get clause.entry j }
{
    clause.get(j as usize).copied()
}
