// The same edits and reads on every store there is.
#![tactic(auto)]

ghost use Rattle.std.specs.Prelude.{◌<◌};

#[cfg(test)]
mod tests {
    use gap_store::GapStore;
    use line::{LINE_LIMIT, LineBuffer, LineStore, StoreFault};
    use slot_store::SlotStore;
    use std::process::Abort;
    use std::test::Fail;
    use vec_store::VecStore;

    // Numbers that look like chance, from one seed.
    #[derive(Drop)]
    struct Dice(u32);

    impl Dice {
        // A number below the number of sides, and 0 where there are none.
        fn roll(&mut self, sides: usize) -> usize
            ensures { 0 < sides → result < sides }
        {
            self.0 = self.0.wrapping_mul(1_664_525).wrapping_add(1_013_904_223);
            let high = (self.0 >> 8) as usize;
            if sides == 0 { 0 } else { high % sides }
        }
    }

    // A line, now and then too long or with a bad byte.
    fn any_line<'a>(dice: &mut Dice, line: &'a mut [u8; 130]) -> &'a [u8] {
        let first = dice.roll(95);
        for (i, byte) in line.iter_mut().enumerate() {
            *byte = (32 + first.wrapping_add(i) % 95) as u8;
        }
        if dice.roll(9) == 0 {
            line[3] = 31;
        }
        let length = match dice.roll(5) {
            0 => 0,
            1 => LINE_LIMIT,
            2 => dice.roll(130),
            _ => dice.roll(20),
        };
        &line[0..length]
    }

    // One refusal: whole, but for the charges and capacity of a full store.
    fn agree(a: Result<(), StoreFault>, b: Result<(), StoreFault>) -> bool {
        match (a, b) {
            (Err(StoreFault::Full { .. }), Err(StoreFault::Full { .. })) => true,
            _ => a == b,
        }
    }

    fn same_line<A: LineStore, B: LineStore>(a: &A, b: &B, at: usize) -> bool {
        let mut left: LineBuffer = [7; LINE_LIMIT];
        let mut right: LineBuffer = [7; LINE_LIMIT];
        a.read(at, &mut left) == b.read(at, &mut right) && left == right
    }

    // All lines, and one place behind them.
    fn same_lines<A: LineStore, B: LineStore>(a: &A, b: &B) -> bool {
        a.count() == b.count() && (0..=a.count()).all(|at| same_line(a, b, at))
    }

    fn one_edit<A: LineStore, B: LineStore>(
        dice: &mut Dice,
        grows: usize,
        a: &mut A,
        b: &mut B,
    ) -> bool {
        let mut bytes = [0u8; 130];
        let line = any_line(dice, &mut bytes);
        let at = match dice.roll(6) {
            0 => 0,
            1 => a.count(),
            _ => dice.roll(a.count().saturating_add(2)),
        };
        if dice.roll(10) < grows {
            return agree(a.insert(at, line), b.insert(at, line));
        }
        if dice.roll(2) == 0 {
            return agree(a.remove(at), b.remove(at));
        }
        agree(a.replace(at, line), b.replace(at, line))
    }

    // Many edits: the stores agree after each on its answer and a line, and now and then on all lines.
    fn play<A: LineStore, B: LineStore>(
        rt: &impl Abort,
        seed: u32,
        turns: usize,
        grows: usize,
        a: &mut A,
        b: &mut B,
    ) {
        let mut dice = Dice(seed);
        for turn in 0..turns {
            assert!(rt; one_edit(&mut dice, grows, a, b));
            assert!(rt; same_line(a, b, dice.roll(a.count().saturating_add(2))));
            if turn % 50 == 0 {
                assert!(rt; same_lines(a, b));
            }
        }
        assert!(rt; same_lines(a, b));
    }

    #[test]
    fn slots_and_gap(rt: HostRuntime) -> Result<(), Fail> {
        let mut slots = SlotStore::new(rt.alloc(), 4096)?;
        let mut gap = GapStore::new(rt.alloc(), 524_288)?;
        assert!(rt; same_lines(&slots, &gap));
        play(&rt, 1, 3000, 7, &mut slots, &mut gap);
        play(&rt, 2, 3000, 3, &mut slots, &mut gap);
        Ok(())
    }

    #[test]
    fn slots_and_records(rt: HostRuntime) -> Result<(), Fail> {
        let mut slots = SlotStore::new(rt.alloc(), 40)?;
        let mut records = VecStore::new(rt.alloc(), 40)?;
        assert!(rt; same_lines(&slots, &records));
        play(&rt, 3, 3000, 7, &mut slots, &mut records);
        play(&rt, 4, 3000, 2, &mut slots, &mut records);
        Ok(())
    }

    // Fills a store to 4,096 lines, and says what the next line is refused with.
    fn filled<S: LineStore>(rt: &impl Abort, store: &mut S) -> Result<StoreFault, Fail> {
        for at in 0..4096 {
            store.insert(at / 2, b"X")?;
        }
        assert_eq!(rt; store.count(), 4096);
        match store.insert(4096, b"Y") {
            Ok(()) => Err(Fail::new("one line too many")),
            Err(fault) => {
                store.replace(4095, b"last")?;
                store.remove(0)?;
                store.insert(4095, b"again")?;
                Ok(fault)
            }
        }
    }

    #[test]
    fn four_thousand_lines(rt: HostRuntime) -> Result<(), Fail> {
        let mut slots = SlotStore::new(rt.alloc(), 5000)?;
        let mut gap = GapStore::new(rt.alloc(), 600_000)?;
        let mut records = VecStore::new(rt.alloc(), 4096)?;
        let full = StoreFault::Full {
            charges: 4096,
            capacity: 4096,
        };
        assert_eq!(rt; filled(&rt, &mut slots)?, full);
        assert_eq!(rt; filled(&rt, &mut records)?, full);
        let full = StoreFault::Full {
            charges: 12_288,
            capacity: 524_288,
        };
        assert_eq!(rt; filled(&rt, &mut gap)?, full);
        assert!(rt; same_lines(&slots, &gap));
        assert!(rt; same_lines(&slots, &records));
        Ok(())
    }

    #[test]
    fn ten_bytes(rt: HostRuntime) -> Result<(), Fail> {
        let mut gap = GapStore::new(rt.alloc(), 10)?;
        gap.insert(0, b"abc")?;
        gap.insert(1, b"xyz")?;
        let full = StoreFault::Full {
            charges: 10,
            capacity: 10,
        };
        assert_eq!(rt; gap.insert(2, b""), Err(full));
        assert_eq!(rt; gap.replace(0, b"abcd"), Err(full));
        gap.replace(0, b"")?;
        gap.insert(0, b"z")?;
        assert_eq!(rt;
            gap.remove(3),
            Err(StoreFault::NoLine { line: 3, count: 3 })
        );
        Ok(())
    }

    #[test]
    fn two_slots(rt: HostRuntime) -> Result<(), Fail> {
        let long = [b'x'; 121];
        let mut slots = SlotStore::new(rt.alloc(), 2)?;
        slots.insert(0, b"a")?;
        slots.insert(1, b"b")?;
        assert_eq!(rt;
            slots.replace(2, b"c"),
            Err(StoreFault::NoLine { line: 2, count: 2 })
        );
        assert_eq!(rt;
            slots.insert(3, &long),
            Err(StoreFault::NoLine { line: 3, count: 2 })
        );
        assert_eq!(rt;
            slots.insert(2, &long),
            Err(StoreFault::TooLong { length: 121 })
        );
        assert_eq!(rt;
            slots.insert(2, &[65, 9, 10]),
            Err(StoreFault::BadByte { column: 1 })
        );
        assert_eq!(rt;
            slots.insert(2, b"c"),
            Err(StoreFault::Full {
                charges: 2,
                capacity: 2,
            })
        );
        slots.replace(1, b"c")?;
        slots.remove(0)?;
        let mut line: LineBuffer = [b'.'; LINE_LIMIT];
        assert_eq!(rt; slots.read(0, &mut line)?, 1);
        assert_eq!(rt; line[0], b'c');
        assert_eq!(rt; line[1], b'.');
        Ok(())
    }
}
