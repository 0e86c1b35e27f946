// What a sheet tells of itself. These calls change nothing.
ghost use Rattle.sheet.specs.Tables.{entry};
ghost use Rattle.sheet.specs.View.{view};
ghost use Rattle.std.specs.Prelude.{◌≡◌};

use crate::phase::Phase;
use crate::place::Sheet;

impl Sheet {
    // What its caller called it; 0 in an unmade place.
    pub fn number(&self) -> u32
        ensures { result ≡ (view self.now).number }
    {
        self.number
    }

    pub fn phase(&self) -> Phase
        ensures { result ≡ (view self.now).phase }
    {
        self.phase
    }

    // How many nodes there are.
    pub fn nodes(&self) -> u32
        ensures { result ≡ (view self.now).nodes }
    {
        self.nodes
    }

    // How many valves there are.
    pub fn valves(&self) -> u32
        ensures { result ≡ (view self.now).valves }
    {
        self.valves
    }

    // The valve of the pipe from u to w, or none where no such pipe is drawn.
    pub fn valve(&self, u: u32, w: u32) -> Option<u32>
        ensures { result ≡ entry ((view self.now).pipe u w) }
    {
        self.pipes.get(u, w)
    }

    // The variable of the arc from u to w, or none where there is no such arc.
    pub fn arc(&self, u: u32, w: u32) -> Option<u32>
        ensures { result ≡ entry ((view self.now).arc u w) }
    {
        self.arcs.variables.get(u, w)
    }

    // Whether node u has been eliminated.
    pub fn is_eliminated(&self, u: u32) -> bool
        ensures { result ≡ (view self.now).out u }
    {
        self.out.get(u as usize).copied().unwrap_or(false)
    }

    // The next free variable.
    pub fn next_free(&self) -> u32
        ensures { result ≡ (view self.now).next }
    {
        self.arcs.next
    }
}
