// Which pipes are open, by the value bytes of their valves: what is true of a valve is that it is open.
ghost use Rattle.std.specs.Prelude.{◌≡◌, if◌then◌else◌, Some, None};
ghost use Rattle.judge.specs.Values.{first_unknown, is_known, is_open, is_unknown, opens};
ghost use Rattle.sheet.specs.View.{view};

use crate::digraph::Digraph;
use cnf::meeting::{Value, value_byte};
use sheet::place::Sheet;

// Whether a pipe is open at the value byte of its valve: 1 is open. (A byte, since the caller's buffer
// holds bytes, and the question is for every byte.)
pub fn is_open(value: u8) -> bool
    ensures { result ≡ is_open value }
{
    Value::from(value) == Value::True
}

// Whether a value byte tells a position: open, or shut.
fn is_known(value: u8) -> bool
    ensures { result ≡ is_known value }
{
    is_open(value) || Value::from(value) == Value::False
}

// The open pipes of a sheet.
#[derive(Drop)]
pub(crate) struct OpenPipes<'s, 'v> {
    pub(crate) sheet: &'s Sheet,
    pub(crate) values: &'v [u8],
}

impl<'s, 'v> Digraph for OpenPipes<'s, 'v> {
    ghost size = { λ g. (view g.sheet.now).nodes };

    ghost edges = { λ g. opens (view g.sheet.now).pipe g.values.now };

    fn nodes(&self) -> u32 {
        self.sheet.nodes()
    }

    fn leads(&self, u: u32, w: u32) -> bool {
        self.sheet
            .valve(u, w)
            .is_some_and(|valve| is_open(value_byte(self.values, valve)))
    }
}

impl OpenPipes<'_, '_> {
    // The valve of the pipe from u to w, where its byte tells no position.
    fn unknown_valve(&self, u: u32, w: u32) -> Option<u32>
        ensures { result ≡ (if is_unknown self.now.values.now ((view self.now.sheet.now).pipe u w) then Some ((view self.now.sheet.now).pipe u w) else None) }
    {
        self.sheet
            .valve(u, w)
            .filter(|valve| !is_known(value_byte(self.values, *valve)))
    }

    // The first drawn valve, by ascending pairs of nodes, whose byte tells no position. (One search
    // over the places of the pairs, as its definition counts them: a search within a search would
    // need a further function with a contract, and a proof that both count alike.)
    pub(crate) fn first_unknown(&self) -> Option<u32>
        ensures { result ≡ first_unknown (view self.now.sheet.now).nodes (view self.now.sheet.now).pipe self.now.values.now }
    {
        let n = self.sheet.nodes();
        (0..n * n).find_map(|i| self.unknown_valve(i / n, i % n))
    }
}
