// Cases of reading and writing: each refusal at the lowest and at the highest place where it can stand, and round trips.
#![tactic(auto)]

#[cfg(test)]
mod tests {
    use refusals::{Reason, Told};
    use saved::{read_plan, save_plan};
    use std::test::Fail;
    use tables::{Table, read_table, write_table};

    // The number, the layer and the place that an answer tells where it is a fault.
    fn told<T: Drop, F: Into<Told>>(answer: Result<T, F>) -> Option<(u8, u8, usize)> {
        let told: Told = answer.err()?.into();
        Some(told.numbers())
    }

    // A table of 64 rows, all stored, whose last row is written with one byte all over.
    fn full(columns: u8, last: u8) -> [u8; 522] {
        let mut bytes = [1; 522];
        bytes[0] = 64;
        bytes[1] = columns;
        bytes[2..10].fill(255);
        bytes[514..522].fill(last);
        bytes
    }

    #[test]
    fn table_counts_and_map(rt: HostRuntime) {
        assert_eq!(rt; told(read_table(&[], 0)), Some((11, 1, 0)));
        assert_eq!(rt; told(read_table(&[65], 0)), Some((13, 1, 0)));
        assert_eq!(rt; told(read_table(&[64], 0)), Some((11, 1, 1)));
        assert_eq!(rt; told(read_table(&[64, 65], 0)), Some((13, 1, 1)));
        assert_eq!(rt; told(read_table(&[0, 0, 1], 0)), Some((11, 1, 3)));
        assert_eq!(rt;
            told(read_table(&[0, 0, 1, 0, 0, 0, 0, 0, 0, 0], 0)),
            Some((14, 1, 2))
        );
        assert_eq!(rt;
            told(read_table(&[63, 64, 1, 0, 0, 0, 0, 0, 0, 128], 0)),
            Some((14, 1, 9))
        );
        assert_eq!(rt; told(read_table(&[9, 9, 7, 64], 2)), Some((11, 1, 4)));
        assert_eq!(rt; told(read_table(&[9, 9, 7, 65], 3)), Some((13, 1, 3)));
        assert_eq!(rt; told(read_table(&[9, 9], 7)), Some((11, 1, 2)));
    }

    #[test]
    fn table_rows(rt: HostRuntime) {
        let zero = [1, 1, 1, 0, 0, 0, 0, 0, 0, 0, 0, 0, 0, 0, 0, 0, 0, 0];
        assert_eq!(rt; told(read_table(&zero, 0)), Some((15, 1, 10)));
        let past = [1, 0, 1, 0, 0, 0, 0, 0, 0, 0, 1, 0, 0, 0, 0, 0, 0, 0];
        assert_eq!(rt; told(read_table(&past, 0)), Some((16, 1, 10)));
        assert_eq!(rt; told(read_table(&full(64, 1), 0)), None);
        assert_eq!(rt;
            told(read_table(&full(64, 1)[0..521], 0)),
            Some((11, 1, 521))
        );
        assert_eq!(rt; told(read_table(&full(63, 128), 0)), Some((16, 1, 521)));
        assert_eq!(rt; told(read_table(&full(63, 0), 0)), Some((15, 1, 514)));
    }

    #[test]
    fn plans(rt: HostRuntime) {
        assert_eq!(rt; told(read_plan(&[], 0)), Some((11, 2, 0)));
        assert_eq!(rt; told(read_plan(&[3], 0)), Some((12, 2, 0)));
        assert_eq!(rt; told(read_plan(&[2], 0)), Some((11, 1, 1)));
        assert_eq!(rt; told(read_plan(&[2, 65], 0)), Some((13, 1, 1)));
        assert_eq!(rt;
            told(read_plan(&[2, 0, 1, 0, 0, 0, 0, 0, 0, 0, 0, 9], 0)),
            Some((1, 2, 1))
        );
        assert_eq!(rt;
            told(read_plan(&[2, 25, 1, 0, 0, 0, 0, 0, 0, 0, 0], 0)),
            Some((1, 2, 1))
        );
        assert_eq!(rt;
            told(read_plan(&[7, 2, 1, 0, 0, 0, 0, 0, 0, 0, 0, 0], 1)),
            Some((1, 2, 2))
        );
        assert_eq!(rt;
            told(read_plan(&[2, 1, 1, 0, 0, 0, 0, 0, 0, 0, 0, 9], 0)),
            Some((17, 2, 11))
        );
        assert_eq!(rt;
            told(read_plan(&[2, 1, 1, 0, 0, 0, 0, 0, 0, 0, 0], 0)),
            None
        );
    }

    #[test]
    fn round_trips(rt: HostRuntime) -> Result<(), Fail> {
        let struck = Table::from_rows(9, &[0, 1023, 0, 256]);
        let mut out = [7; 40];
        assert_eq!(rt; write_table(&struck, &mut out[0..25]).ok(), None);
        assert_eq!(rt; out[0], 7);
        let short = write_table(&struck, &mut out[0..25]).err();
        assert_eq!(rt; short.map(Reason::from), Some(Reason::NoRoom));
        assert_eq!(rt; write_table(&struck, &mut out).ok(), Some(26));
        assert_eq!(rt; out[26], 7);
        let (back, next) = read_table(&out, 0)?;
        assert!(rt; next == 26);
        assert!(rt; back.columns() == 9);
        let rows = back.rows();
        assert!(rt; rows.len() == 4);
        assert_eq!(rt; rows[1], 511);
        assert_eq!(rt; rows[3], 256);
        assert_eq!(rt; save_plan(&struck, &mut out).ok(), Some(27));
        let plan = read_plan(&out[0..27], 0)?;
        assert!(rt; plan.rows().len() == 4);
        assert_eq!(rt; out[27], 7);
        Ok(())
    }
}
