// Worked sheets and verdicts, and lists at every kind of entry.
#![tactic(auto)]

ghost use Rattle.bounded.specs.Refusals.{entry_back};
ghost use Rattle.std.specs.Prelude.{◌≡◌, length, is_ok, IfErr, if◌then◌else◌, nat_lt, slice_set};

use bounded::{Bounded, ListRefusal};

// Lists one pair of an offset and a length in lent places. Once the list is gone, the caller still
// knows what every place holds.
pub fn list_pair(places: &mut [(u32, u32)], pair: (u32, u32)) -> Result<(), ListRefusal<(u32, u32)>>
    ensures test { is_ok result ≡ nat_lt 0 (length places.old) }
    ensures after { places.new ≡ (if is_ok result then slice_set places.old 0 pair else places.old) }
    ensures refused { IfErr result (λ e. entry_back e ≡ pair) }
{
    let mut list = Bounded::new(places);
    list.push(pair)
}

#[cfg(test)]
mod tests {
    use super::*;
    use judge::refusal::VerdictRefusal;
    use judge::verdict::{Verdict, judge_valves};
    use sheet::pipe::Pipe;
    use sheet::place::Sheet;
    use sheet::refusal::{Refused, SheetRefusal};
    use sheet::token::DrawingToken;
    use std::test::Fail;

    // Draws a pipe; a refusal loses the token. (The examples of encodings draw in a like way: a common
    // function would be public in a crate of its own, with a contract and an edit, for these few lines.)
    fn draw(
        sheet: &mut Sheet,
        token: DrawingToken,
        from: u32,
        to: u32,
        valve: u32,
    ) -> Result<DrawingToken, SheetRefusal> {
        match sheet.draw(token, Pipe { from, to, valve }) {
            Ok(token) => Ok(token),
            Err(Refused { token: _, refusal }) => Err(refusal),
        }
    }

    // Three nodes in a ring, on valves 1, 2 and 3.
    fn ring_of_three() -> Result<Sheet, SheetRefusal> {
        let mut sheet = Sheet::unmade();
        let token = sheet.make(1, 3, 3)?;
        let token = draw(&mut sheet, token, 0, 1, 1)?;
        let token = draw(&mut sheet, token, 1, 2, 2)?;
        let _ = draw(&mut sheet, token, 2, 0, 3)?;
        Ok(sheet)
    }

    // A pipe of no verdict, in places that were not written.
    const NINES: Pipe = Pipe {
        from: 9,
        to: 9,
        valve: 9,
    };

    // A verdict with the places and marks after it, which held nines before it.
    #[derive(Drop)]
    struct Judged {
        answer: Result<Verdict, VerdictRefusal>,
        nodes: [u32; 4],
        pipes: [Pipe; 4],
        marks: [u8; 4],
    }

    // Judges the ring of three with four places for each list and four marks.
    fn judge(values: &[u8]) -> Result<Judged, SheetRefusal> {
        let sheet = ring_of_three()?;
        let mut nodes = [9; 4];
        let mut pipes = [NINES; 4];
        let mut marks = [9; 4];
        let answer = judge_valves(
            &sheet,
            values,
            &mut Bounded::new(&mut nodes),
            &mut Bounded::new(&mut pipes),
            &mut marks,
        );
        Ok(Judged {
            answer,
            nodes,
            pipes,
            marks,
        })
    }

    #[test]
    fn open_ring_is_named(rt: HostRuntime) -> Result<(), Fail> {
        let judged = judge(&[1, 1, 1])?;
        assert_eq!(rt; judged.answer, Ok(Verdict::Ring));
        assert_eq!(rt; judged.nodes, [0, 1, 2, 9]);
        assert_eq!(rt;
            judged.pipes[2],
            Pipe {
                from: 2,
                to: 0,
                valve: 3,
            }
        );
        assert_eq!(rt; judged.marks, [0, 0, 0, 9]);
        Ok(())
    }

    #[test]
    fn shut_valve_leaves_an_order(rt: HostRuntime) -> Result<(), Fail> {
        let judged = judge(&[2, 1, 1])?;
        assert_eq!(rt; judged.answer, Ok(Verdict::Order));
        assert_eq!(rt; judged.nodes, [1, 2, 0, 9]);
        assert_eq!(rt; judged.pipes[0], NINES);
        Ok(())
    }

    #[test]
    fn unknown_valve_is_refused(rt: HostRuntime) -> Result<(), Fail> {
        let judged = judge(&[1, 3, 0])?;
        assert_eq!(rt; judged.answer, Err(VerdictRefusal::UnknownValve(2)));
        assert_eq!(rt; judged.nodes, [9, 9, 9, 9]);
        assert_eq!(rt; judged.marks, [0, 0, 0, 9]);
        Ok(())
    }

    #[test]
    fn too_few_values_are_refused(rt: HostRuntime) -> Result<(), Fail> {
        let judged = judge(&[1, 1])?;
        assert_eq!(rt; judged.answer, Err(VerdictRefusal::TooFewValues));
        assert_eq!(rt; judged.marks, [9, 9, 9, 9]);
        Ok(())
    }

    #[test]
    fn too_few_places_are_refused(rt: HostRuntime) -> Result<(), Fail> {
        let sheet = ring_of_three()?;
        let mut node_places = [9; 3];
        let mut pipe_places = [NINES; 2];
        let mut marks = [5; 3];
        let mut nodes = Bounded::new(&mut node_places);
        let mut pipes = Bounded::new(&mut pipe_places);
        let answer = judge_valves(&sheet, &[1, 1, 1], &mut nodes, &mut pipes, &mut marks);
        assert_eq!(rt; answer, Err(VerdictRefusal::TooFewPlaces));
        assert_eq!(rt; marks, [5, 5, 5]);
        Ok(())
    }

    #[test]
    fn sheets_have_up_to_64_nodes(rt: HostRuntime) -> Result<(), Fail> {
        let mut sheet = Sheet::unmade();
        let token = sheet.make(1, 64, 60_000)?;
        let _ = draw(&mut sheet, token, 63, 62, 60_000)?;
        assert!(rt; sheet.make(2, 65, 1).is_err());
        assert!(rt; sheet.make(2, 64, 60_001).is_err());
        assert_eq!(rt; sheet.number(), 1);
        assert_eq!(rt; sheet.valve(63, 62), Some(60_000));
        Ok(())
    }

    #[test]
    fn first_refusal_by_number_is_given(rt: HostRuntime) -> Result<(), Fail> {
        let mut sheet = Sheet::unmade();
        let token = sheet.make(1, 3, 3)?;
        let token = draw(&mut sheet, token, 0, 1, 1)?;
        assert_eq!(rt;
            draw(&mut sheet, token, 9, 9, 0).err(),
            Some(SheetRefusal::NoSuchNode)
        );
        let mut other = Sheet::unmade();
        let token = other.make(2, 3, 3)?;
        assert_eq!(rt;
            draw(&mut sheet, token, 9, 9, 0).err(),
            Some(SheetRefusal::WrongToken)
        );
        Ok(())
    }

    #[test]
    fn full_list_gives_the_entry_back(rt: HostRuntime) -> Result<(), Fail> {
        let mut places = [(0, 0); 1];
        let mut list = Bounded::new(&mut places);
        list.push((3, 4))?;
        assert_eq!(rt; list.push((7, 2)), Err(ListRefusal::Full((7, 2))));
        assert_eq!(rt; list.get(0), Some((3, 4)));
        list.clear();
        assert_eq!(rt; list.get(0), None);
        assert_eq!(rt;
            list.replace(&[(1, 1), (2, 2)]),
            Err(ListRefusal::Full((2, 2)))
        );
        Ok(())
    }
}
