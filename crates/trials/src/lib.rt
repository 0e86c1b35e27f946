// What the programs share that compare many cases with an independent computation: a fixed sequence
// of numbers, which a second program can draw too, and sheets that are drawn by it.
#![tactic(auto)]

ghost use Rattle.std.specs.Prelude.{◌≡◌, ℕ, ◌+◌, ◌*◌, ◌/◌, ◌%◌, ◌^◌, if◌then◌else◌, nat_eq};
ghost use Rattle.sheet.specs.View.{view, with_pipes};

use sheet::pipe::Pipe;
use sheet::place::Sheet;
use sheet::refusal::Refused;
use sheet::token::DrawingToken;

// A linear congruential sequence.
#[derive(Drop)]
pub struct Sequence {
    pub state: u64,
}

impl Sequence {
    // The next number below `bound`, or 0 where that is 0: a remainder of the high bits of the state.
    pub fn below(&mut self, bound: u32) -> u32
        ensures after { self.new.state ≡ ((self.old.state * 6364136223846793005) % 2 ^ 64 + 1442695040888963407) % 2 ^ 64 }
        ensures value { result ≡ (if nat_eq bound 0 then 0 else (self.new.state / 2 ^ 33) % bound) }
    {
        self.state = self
            .state
            .wrapping_mul(6_364_136_223_846_793_005)
            .wrapping_add(1_442_695_040_888_963_407);
        if bound == 0 {
            return 0;
        }
        ((self.state >> 33) % u64::from(bound)) as u32
    }
}

// Tries to draw some pipes, fewer than so many; a refused one is passed over. Nothing but pipes is
// changed.
pub fn draw_some(
    sheet: &mut Sheet,
    token: DrawingToken,
    numbers: &mut Sequence,
    bound: u32,
) -> DrawingToken
    ensures token { result ≡ token }
    ensures same { with_pipes (view sheet.new) (view sheet.old).pipe ≡ view sheet.old }
{
    let mut token = token;
    let nodes = sheet.nodes();
    let valves = sheet.valves();
    let count = numbers.below(bound);
    for _ in 0..count {
        let from = numbers.below(nodes);
        let to = numbers.below(nodes);
        let valve = numbers.below(valves).saturating_add(1);
        token = match sheet.draw(token, Pipe { from, to, valve }) {
            Ok(token) => token,
            Err(Refused { token, refusal: _ }) => token,
        };
    }
    token
}
