// Worked clauses on their way through layers to tables, and checked against values.
#![tactic(auto)]

#[cfg(test)]
mod tests {
    use cnf::formula::Formula;
    use cnf::meeting::{first_unmet_clause, meets};
    use cnf::refusal::SinkRefusal;
    use cnf::sink::Sink;
    use cnf::writing::write_all;
    use sinks::guard::Guard;
    use sinks::offset::Offset;
    use sinks::table::TableSink;
    use std::process::Abort;

    #[test]
    fn table_lays_clauses_out(rt: HostRuntime) {
        let mut literals = [9; 4];
        let mut pairs = [(9, 9); 3];
        let mut table = TableSink::new(&mut literals, &mut pairs);
        assert_eq!(rt; table.append(&[-104, -107, 108]), Ok(()));
        assert_eq!(rt; table.append(&[5, 6]), Err(SinkRefusal::Room));
        assert_eq!(rt; table.append(&[5]), Ok(()));
        assert_eq!(rt; table.append(&[6]), Err(SinkRefusal::Room));
        assert_eq!(rt; table.stored(), (2, 4));
        assert_eq!(rt; literals, [-104, -107, 108, 5]);
        assert_eq!(rt; pairs[0], (0, 3));
        assert_eq!(rt; pairs[1], (3, 1));
        assert_eq!(rt; pairs[2], (9, 9));
    }

    #[test]
    fn table_refuses_by_form_first(rt: HostRuntime) {
        let mut table = TableSink::new(&mut [], &mut []);
        assert_eq!(rt; table.append(&[]), Err(SinkRefusal::Length));
        assert_eq!(rt; table.append(&[1; 257]), Err(SinkRefusal::Length));
        assert_eq!(rt; table.append(&[1, 0]), Err(SinkRefusal::Literal));
        assert_eq!(rt; table.append(&[i32::MIN]), Err(SinkRefusal::Literal));
        assert_eq!(rt; table.append(&[1_073_741_824]), Err(SinkRefusal::Literal));
        assert_eq!(rt; table.append(&[-1_073_741_823]), Err(SinkRefusal::Room));
    }

    // What a sink says of a clause, and that it has these limits.
    fn says<S: Sink>(
        rt: &impl Abort,
        sink: &mut S,
        limits: (u32, u32),
        clause: &[i32],
        cost: u32,
        answer: Result<(), SinkRefusal>,
    ) {
        assert_eq!(rt; sink.limits(), limits);
        assert_eq!(rt; sink.cost(clause), cost);
        assert_eq!(rt; sink.add(clause), answer);
    }

    const TOP: u32 = 1_073_741_823;

    #[test]
    fn guard_takes_any_literal(rt: HostRuntime) {
        let mut literals = [0; 4];
        let mut pairs = [(0, 0); 2];
        let mut table = TableSink::new(&mut literals, &mut pairs);
        let too_long = Err(SinkRefusal::Length);
        let mut guard = Guard::new(&mut table, i32::MIN);
        says(&rt, &mut guard, (TOP, 0), &[-4, -7], 0, too_long);
        let mut guard = Guard::new(&mut table, 0);
        says(&rt, &mut guard, (TOP, 0), &[-4, -7], 0, too_long);
        let mut guard = Guard::new(&mut table, -8);
        says(&rt, &mut guard, (TOP, 255), &[-4, -7], 3, Ok(()));
        assert_eq!(rt; table.stored(), (1, 3));
        assert_eq!(rt; literals, [-4, -7, -8, 0]);
    }

    #[test]
    fn offset_takes_any_shift(rt: HostRuntime) {
        let mut literals = [0; 4];
        let mut pairs = [(0, 0); 2];
        let mut table = TableSink::new(&mut literals, &mut pairs);
        let too_high = Err(SinkRefusal::Literal);
        let mut offset = Offset::new(&mut table, u32::MAX);
        says(&rt, &mut offset, (0, 256), &[-1], 0, too_high);
        let mut offset = Offset::new(&mut table, TOP);
        says(&rt, &mut offset, (0, 256), &[-1], 0, too_high);
        let mut offset = Offset::new(&mut table, 1_073_741_822);
        says(&rt, &mut offset, (1, 256), &[-1], 1, Ok(()));
        assert_eq!(rt; table.stored(), (1, 1));
        assert_eq!(rt; literals, [-1_073_741_823, 0, 0, 0]);
    }

    // The clauses 101 -5 and 7 as a guard over an offset by 100 reads them.
    fn read_alike<S: Sink>(rt: &impl Abort, below: &mut S) {
        let mut offset = Offset::new(below, 100);
        assert_eq!(rt; offset.literal(0, 0), Some(1));
        assert_eq!(rt; offset.literal(0, 1), Some(-5));
        assert_eq!(rt; offset.literal(0, 2), None);
        let mut guard = Guard::new(&mut offset, 0);
        assert_eq!(rt; guard.count(), 2);
        assert_eq!(rt; guard.length(0), Some(1));
        assert_eq!(rt; guard.length(1), Some(0));
        assert_eq!(rt; guard.length(2), None);
        assert_eq!(rt; guard.literal(0, 0), Some(1));
        assert_eq!(rt; guard.literal(0, 1), None);
    }

    #[test]
    fn older_clauses_are_read_alike(rt: HostRuntime) {
        let mut literals = [0; 4];
        let mut pairs = [(0, 0); 2];
        let mut table = TableSink::new(&mut literals, &mut pairs);
        assert_eq!(rt; table.append(&[101, -5]), Ok(()));
        assert_eq!(rt; table.append(&[7]), Ok(()));
        read_alike(&rt, &mut table);
    }

    // Writes the clauses 2 5 and 5 to a table.
    fn write_two(sink: &mut TableSink) -> Result<(), SinkRefusal> {
        let mut literals = [0; 3];
        let mut pairs = [(0, 0); 2];
        let mut source = TableSink::new(&mut literals, &mut pairs);
        source.append(&[2, 5])?;
        source.append(&[5])?;
        write_all(&mut source, sink)
    }

    #[test]
    fn all_clauses_are_written_or_none(rt: HostRuntime) {
        let mut literals = [0; 4];
        let mut pairs = [(0, 0); 1];
        let mut sink = TableSink::new(&mut literals, &mut pairs);
        assert_eq!(rt; write_two(&mut sink), Err(SinkRefusal::Room));
        assert_eq!(rt; sink.stored(), (0, 0));
        let mut short = [0; 2];
        let mut pairs = [(0, 0); 2];
        let mut sink = TableSink::new(&mut short, &mut pairs);
        assert_eq!(rt; write_two(&mut sink), Err(SinkRefusal::Room));
        assert_eq!(rt; sink.stored(), (0, 0));
        let mut exact = [0; 3];
        let mut pairs = [(0, 0); 2];
        let mut sink = TableSink::new(&mut exact, &mut pairs);
        assert_eq!(rt; write_two(&mut sink), Ok(()));
        assert_eq!(rt; exact, [2, 5, 5]);
    }

    // Writes a source's clauses as a guard reads them to a sink whose top is 1.
    fn write_guarded<F: Sink, S: Sink>(source: &mut F, sink: &mut S) -> Result<(), SinkRefusal> {
        let mut source = Guard::new(source, 5);
        let mut sink = Offset::new(sink, 1_073_741_822);
        write_all(&mut source, &mut sink)
    }

    // Writes the clause 2, and an empty one behind it where asked. (By a flag: for one clause more a slice
    // of slices would be no plainer.)
    fn write_bad<S: Sink>(sink: &mut S, with_empty: bool) -> Result<(), SinkRefusal> {
        let mut literals = [0; 3];
        let mut pairs = [(0, 0); 2];
        let mut source = TableSink::new(&mut literals, &mut pairs);
        source.append(&[2, 5])?;
        if with_empty {
            source.append(&[5])?;
        }
        write_guarded(&mut source, sink)
    }

    #[test]
    fn lengths_are_tried_before_literals(rt: HostRuntime) {
        let mut literals = [0; 3];
        let mut pairs = [(0, 0); 2];
        let mut sink = TableSink::new(&mut literals, &mut pairs);
        assert_eq!(rt; write_bad(&mut sink, false), Err(SinkRefusal::Literal));
        assert_eq!(rt; write_bad(&mut sink, true), Err(SinkRefusal::Length));
    }

    #[test]
    fn first_unmet_clause_is_named(rt: HostRuntime) {
        let mut literals = [0; 3];
        let mut pairs = [(0, 0); 2];
        let mut table = TableSink::new(&mut literals, &mut pairs);
        assert_eq!(rt; table.append(&[1, -2]), Ok(()));
        assert_eq!(rt; table.append(&[2]), Ok(()));
        assert_eq!(rt; first_unmet_clause(&mut table, &[2, 2]), Some(1));
        assert_eq!(rt; first_unmet_clause(&mut table, &[1, 1]), None);
        assert_eq!(rt; first_unmet_clause(&mut table, &[2, 1]), Some(0));
        assert_eq!(rt; first_unmet_clause(&mut table, &[0]), Some(0));
        assert_eq!(rt; first_unmet_clause(&mut table, &[1, 3]), Some(1));
    }

    #[test]
    fn literals_are_met_by_one_byte_each(rt: HostRuntime) {
        assert_eq!(rt; meets(3, 1), true);
        assert_eq!(rt; meets(3, 2), false);
        assert_eq!(rt; meets(-3, 2), true);
        assert_eq!(rt; meets(-3, 1), false);
        assert_eq!(rt; meets(i32::MIN, 2), true);
        assert_eq!(rt; meets(0, 1), false);
        assert_eq!(rt; meets(0, 2), false);
        assert_eq!(rt; meets(3, 0), false);
    }
}
