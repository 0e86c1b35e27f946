// The valves of pipes, for the ordered pairs of 64 nodes. It answers as a `PairTable` does and takes
// half of its memory, which making a sheet has to fill: no valve needs more than 16 bits. It is a type
// of its own since no struct holds an array of a type parameter.
ghost use Rattle.std.specs.Prelude.{◌≡◌, ◌<◌, ◌^◌};
ghost use Rattle.sheet.specs.Tables.{blank, entry, put, table};

#[derive(Clone, Copy)]
pub(crate) struct ValveTable {
    // 64 rows of 64 places, so that ascending places are ascending pairs; 0 for none
    pub(crate) numbers: [u16; 4096],
}

impl ValveTable {
    // The table with no valve in it.
    pub(crate) fn new() -> ValveTable
        ensures { table result.numbers ≡ blank }
    {
        ValveTable { numbers: [0; 4096] }
    }

    // The valve at the pair (u, w), or none.
    pub(crate) fn get(&self, u: u32, w: u32) -> Option<u32>
        ensures { result ≡ entry (table self.now.numbers u w) }
    {
        if u >= 64 || w >= 64 {
            return None;
        }
        match self.numbers[u as usize * 64 + w as usize] {
            0 => None,
            valve => Some(u32::from(valve)),
        }
    }

    // Writes a valve.
    pub(crate) fn set(&mut self, u: u32, w: u32, valve: u32)
        requires pair { (u < 64) × (w < 64) }
        requires small { valve < 2 ^ 16 }
        ensures { table self.new.numbers ≡ put (table self.old.numbers) u w valve }
    {
        self.numbers[u as usize * 64 + w as usize] = valve as u16;
    }
}
