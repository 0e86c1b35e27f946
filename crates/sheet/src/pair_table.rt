// Numbers for the ordered pairs of 64 nodes: the variables of arcs.
ghost use Rattle.std.specs.Prelude.{◌≡◌, ◌<◌, unwrap_or};
ghost use Rattle.sheet.specs.Tables.{blank, entry, put, table, without};

#[derive(Clone, Copy)]
pub(crate) struct PairTable {
    // 64 rows of 64 places, so that ascending places are ascending pairs; 0 for none: an array of
    // `Option<u32>` would take twice its memory, and `Option<NonZeroU32>` here too
    pub(crate) numbers: [u32; 4096],
}

impl PairTable {
    // The table with no number in it.
    pub(crate) fn new() -> PairTable
        ensures { table result.numbers ≡ blank }
    {
        PairTable { numbers: [0; 4096] }
    }

    // The number at the pair (u, w), or none. (A pair's nodes come one by one, as the public questions
    // of a sheet take them.)
    pub(crate) fn get(&self, u: u32, w: u32) -> Option<u32>
        ensures { result ≡ entry (table self.now.numbers u w) }
    {
        if u >= 64 || w >= 64 {
            return None;
        }
        match self.numbers[u as usize * 64 + w as usize] {
            0 => None,
            number => Some(number),
        }
    }

    // Writes a number, or none.
    pub(crate) fn set(&mut self, u: u32, w: u32, number: Option<u32>)
        requires { (u < 64) × (w < 64) }
        ensures { table self.new.numbers ≡ put (table self.old.numbers) u w (unwrap_or number 0) }
    {
        self.numbers[u as usize * 64 + w as usize] = number.unwrap_or(0);
    }

    // Clears the pairs with the node v.
    pub(crate) fn clear_node(&mut self, v: u32)
        requires { v < 64 }
        ensures { table self.new.numbers ≡ without v (table self.old.numbers) }
    {
        // k is a node: its pair with v stands in v's row, and in its own
        for k in 0..64 {
            self.set(v, k, None);
            self.set(k, v, None);
        }
    }
}
