// Worked sheets, started and eliminated into tables.
#![tactic(auto)]

#[cfg(test)]
mod tests {
    use cnf::refusal::SinkRefusal;
    use cnf::sink::Sink;
    use sheet::phase::Phase;
    use sheet::pipe::Pipe;
    use sheet::place::Sheet;
    use sheet::refusal::{Layer, Refused, SheetRefusal};
    use sheet::token::{ClosingToken, DrawingToken};
    use sinks::table::TableSink;
    use std::test::Fail;

    // Makes a sheet and draws pipes on it; a refusal loses the token.
    fn drawn(
        sheet: &mut Sheet,
        nodes: u32,
        valves: u32,
        pipes: &[Pipe],
    ) -> Result<DrawingToken, SheetRefusal> {
        let mut token = sheet.make(1, nodes, valves)?;
        for pipe in pipes {
            token = match sheet.draw(token, *pipe) {
                Ok(token) => token,
                Err(Refused { token: _, refusal }) => return Err(refusal),
            };
        }
        Ok(token)
    }

    // Eliminates nodes one after the other, and calls off.
    fn eliminate_all<S: Sink>(
        sheet: &mut Sheet,
        closing: ClosingToken,
        nodes: &[u32],
        sink: &mut S,
    ) -> Result<(), SheetRefusal> {
        let mut closing = closing;
        for node in nodes {
            closing = match sheet.eliminate(closing, *node, sink) {
                Ok(token) => token,
                Err(Refused { token, refusal }) => {
                    token.call_off();
                    return Err(refusal);
                }
            };
        }
        closing.call_off();
        Ok(())
    }

    // Starts a drawn sheet, and eliminates nodes.
    fn encode<S: Sink>(
        sheet: &mut Sheet,
        token: DrawingToken,
        nodes: &[u32],
        sink: &mut S,
    ) -> Result<(), SheetRefusal> {
        match sheet.start(token, sink) {
            Ok(closing) => eliminate_all(sheet, closing, nodes, sink),
            Err(Refused { token: _, refusal }) => Err(refusal),
        }
    }

    const RING_OF_THREE: [Pipe; 3] = [
        Pipe {
            from: 0,
            to: 1,
            valve: 1,
        },
        Pipe {
            from: 1,
            to: 2,
            valve: 2,
        },
        Pipe {
            from: 2,
            to: 0,
            valve: 3,
        },
    ];

    #[test]
    fn ring_of_three_is_forbidden(rt: HostRuntime) -> Result<(), Fail> {
        let mut sheet = Sheet::unmade();
        let token = drawn(&mut sheet, 3, 3, &RING_OF_THREE)?;
        let mut literals = [0; 11];
        let mut pairs = [(0, 0); 5];
        let mut table = TableSink::new(&mut literals, &mut pairs);
        encode(&mut sheet, token, &[1, 0], &mut table)?;
        assert_eq!(rt; literals, [-1, 4, -2, 5, -3, 6, -4, -5, 7, -6, -7]);
        assert_eq!(rt; pairs[3], (6, 3));
        Ok(())
    }

    #[test]
    fn eliminated_nodes_leave(rt: HostRuntime) -> Result<(), Fail> {
        let mut sheet = Sheet::unmade();
        let token = drawn(&mut sheet, 3, 3, &RING_OF_THREE)?;
        let mut literals = [0; 9];
        let mut pairs = [(0, 0); 4];
        let mut table = TableSink::new(&mut literals, &mut pairs);
        encode(&mut sheet, token, &[1], &mut table)?;
        assert_eq!(rt; sheet.phase(), Phase::Closing);
        assert_eq!(rt; sheet.arc(0, 2), Some(7));
        assert_eq!(rt; sheet.arc(0, 1), None);
        assert_eq!(rt; sheet.arc(2, 0), Some(6));
        assert!(rt; sheet.is_eliminated(1));
        assert_eq!(rt; sheet.least_node(), Some(0));
        assert_eq!(rt; sheet.next_free(), 8);
        Ok(())
    }

    #[test]
    fn arc_that_is_there_is_used_again(rt: HostRuntime) -> Result<(), Fail> {
        let pipes = [
            Pipe {
                from: 0,
                to: 1,
                valve: 1,
            },
            Pipe {
                from: 1,
                to: 2,
                valve: 2,
            },
            Pipe {
                from: 0,
                to: 2,
                valve: 3,
            },
        ];
        let mut sheet = Sheet::unmade();
        let token = drawn(&mut sheet, 3, 3, &pipes)?;
        let mut literals = [0; 9];
        let mut pairs = [(0, 0); 4];
        let mut table = TableSink::new(&mut literals, &mut pairs);
        encode(&mut sheet, token, &[1], &mut table)?;
        assert_eq!(rt; literals, [-1, 4, -3, 5, -2, 6, -4, -6, 5]);
        Ok(())
    }

    #[test]
    fn both_ways_are_forbidden(rt: HostRuntime) -> Result<(), Fail> {
        let pipes = [
            Pipe {
                from: 0,
                to: 1,
                valve: 1,
            },
            Pipe {
                from: 1,
                to: 0,
                valve: 1,
            },
        ];
        let mut sheet = Sheet::unmade();
        let token = drawn(&mut sheet, 2, 1, &pipes)?;
        let mut literals = [0; 6];
        let mut pairs = [(0, 0); 3];
        let mut table = TableSink::new(&mut literals, &mut pairs);
        encode(&mut sheet, token, &[0], &mut table)?;
        assert_eq!(rt; literals, [-1, 2, -1, 3, -3, -2]);
        Ok(())
    }

    // What the ring of three answers with this many places for literals, and how many are used.
    fn with_places(
        places: &mut [i32],
        nodes: &[u32],
    ) -> Result<(Option<SheetRefusal>, usize), Fail> {
        let mut sheet = Sheet::unmade();
        let token = drawn(&mut sheet, 3, 3, &RING_OF_THREE)?;
        let mut pairs = [(0, 0); 5];
        let mut table = TableSink::new(places, &mut pairs);
        let answer = encode(&mut sheet, token, nodes, &mut table);
        let (_, used) = table.stored();
        Ok((answer.err(), used))
    }

    #[test]
    fn all_clauses_of_a_call_are_written_or_none(rt: HostRuntime) -> Result<(), Fail> {
        let no_room = Some(SheetRefusal::Sink(SinkRefusal::Room));
        assert_eq!(rt; with_places(&mut [0; 5], &[])?, (no_room, 0));
        assert_eq!(rt; with_places(&mut [0; 6], &[])?, (None, 6));
        assert_eq!(rt; with_places(&mut [0; 10], &[1, 0])?, (no_room, 9));
        assert_eq!(rt; with_places(&mut [0; 11], &[1, 0])?, (None, 11));
        Ok(())
    }

    #[test]
    fn refusals_come_in_order(rt: HostRuntime) -> Result<(), Fail> {
        let no_node = Some(SheetRefusal::NoSuchNode);
        let out = Some(SheetRefusal::NodeEliminated);
        assert_eq!(rt; with_places(&mut [0; 9], &[1, 3])?, (no_node, 9));
        assert_eq!(rt; with_places(&mut [0; 9], &[1, 1])?, (out, 9));
        assert_eq!(rt; with_places(&mut [0; 12], &[1, 0, 2])?, (None, 11));
        assert_eq!(rt; SheetRefusal::NodeEliminated.number(), 8);
        assert_eq!(rt; SheetRefusal::NodeEliminated.layer(), Layer::Sheet);
        assert_eq!(rt; SheetRefusal::Sink(SinkRefusal::Room).number(), 11);
        assert_eq!(rt;
            SheetRefusal::Sink(SinkRefusal::Literal).layer(),
            Layer::Sink
        );
        Ok(())
    }

    // Whether a token starts this sheet.
    fn starts<S: Sink>(sheet: &mut Sheet, token: DrawingToken, sink: &mut S) -> bool {
        match sheet.start(token, sink) {
            Ok(closing) => {
                closing.call_off();
                true
            }
            Err(_) => false,
        }
    }

    #[test]
    fn tokens_are_for_their_sheet(rt: HostRuntime) -> Result<(), Fail> {
        let mut literals = [0; 6];
        let mut pairs = [(0, 0); 3];
        let mut table = TableSink::new(&mut literals, &mut pairs);
        let mut sheet = Sheet::unmade();
        let token = drawn(&mut sheet, 3, 3, &RING_OF_THREE)?;
        let mut other = Sheet::unmade();
        let foreign = other.make(2, 3, 3)?;
        assert!(rt; !starts(&mut sheet, foreign, &mut table));
        assert_eq!(rt; sheet.phase(), Phase::Drawing);
        assert!(rt; starts(&mut sheet, token, &mut table));
        assert_eq!(rt; sheet.phase(), Phase::Closing);
        Ok(())
    }

    #[test]
    fn least_node_may_be_none(rt: HostRuntime) -> Result<(), Fail> {
        let mut sheet = Sheet::unmade();
        assert_eq!(rt; sheet.least_node(), Some(0));
        let token = sheet.make(1, 2, 1)?;
        let mut table = TableSink::new(&mut [], &mut []);
        encode(&mut sheet, token, &[1, 0], &mut table)?;
        assert_eq!(rt; sheet.least_node(), None);
        Ok(())
    }
}
