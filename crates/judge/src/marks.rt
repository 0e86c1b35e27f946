// The caller's mark bytes, which say what has been placed. However a verdict ends that looks at the
// nodes, their marks are zero after it, since the guard that holds them clears them when it is
// dropped. A refusal for too few values or places looks at no node, and leaves the marks.
ghost use Rattle.std.specs.Prelude.{◌≡◌, length, replicate};
ghost use Rattle.judge.specs.Marks.{unmarked};

// Mark bytes that are lent: all are zero once the guard is gone. (Placing and walking take the bytes
// and not the guard, whose loan each of their contracts would have to keep by name. Nor is there a
// struct of the graph and the bytes: it can't share the bytes while placing writes them.)
pub(crate) struct Marks<'a> {
    pub(crate) bytes: &'a mut [u8],
}

impl Drop for Marks<'_> {
    fn drop(self)
        ensures { self.exit.0.now ≡ replicate (length self.entry.bytes.now) 0 }
    {
        self.bytes.fill(0);
        let Marks { bytes: _ } = self;
    }
}

// Whether a node has no mark.
pub(crate) fn is_unmarked(marks: &[u8], u: u32) -> bool
    ensures { result ≡ unmarked marks.now u }
{
    marks.get(u as usize).is_none_or(|mark| *mark == 0)
}
