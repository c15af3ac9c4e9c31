// Sheets changed, refused and written, by example. Each expected answer is worked out by hand.
#![tactic(auto)]

#[cfg(test)]
mod tests {
    use paper::combination::write_combination;
    use paper::page::write_page;
    use rules::refusal::Refusal;
    use rules::setting::Setting;
    use sheet::draft::{Closed, Draft};
    use std::alloc::{AllocError, Global};
    use std::test::Fail;

    // The page of the theme's tests too: a crate that has only tests lends nothing.
    const TWO: &[u8] = b"   2   2\n   0   7 p\n   1   8 p\n";

    const THREE: &[u8] = b"   3   1\n   0  23 p\n   1  23 b\n   2   0 p\n";

    // A draft with the theme of two places loaded.
    fn two_places(heap: Global) -> Result<Draft, AllocError> {
        let mut draft = Draft::blank(heap)?;
        let _ = draft.load(TWO);
        Ok(draft)
    }

    // A setting, by its two numbers.
    fn at(jv: i32, entry: i32) -> Setting {
        Setting { jv, entry }
    }

    // The number of a refusal, if there is one.
    fn number<T: Drop>(answer: Result<T, Refusal>) -> Option<u32> {
        answer.err().map(u32::from)
    }

    // The place that the refusal of a line names.
    fn wrong_place(answer: Result<usize, Refusal>) -> Option<usize> {
        match answer {
            Err(Refusal::NotALine { place }) => Some(place),
            _ => None,
        }
    }

    // The combination with this number, if it is listed.
    fn listed(sheet: &Closed, number: usize) -> Option<(i32, usize)> {
        let combination = sheet.combinations().get(number)?;
        Some((combination.jv, combination.entry))
    }

    // The key fixed at a place, if there is one.
    fn fixed(sheet: &Closed, place: usize) -> Option<u8> {
        *sheet.fixings().get(place)?
    }

    #[test]
    fn a_blank_sheet_has_no_theme(rt: HostRuntime) -> Result<(), Fail> {
        let mut draft = Draft::blank(rt.alloc())?;
        assert_eq!(rt; number(draft.add(at(24, -1))), Some(12));
        assert_eq!(rt; number(draft.drop(at(24, -1))), Some(12));
        assert_eq!(rt; number(draft.fix(64, 24)), Some(12));
        assert_eq!(rt; number(draft.free(64)), Some(12));
        let sheet = draft.close();
        let mut out = [b'.'; 2];
        assert_eq!(rt; number(write_page(&sheet, &mut out)), Some(12));
        assert_eq!(rt;
            number(write_combination(&sheet, &[48], 1, &mut out)),
            Some(12)
        );
        assert!(rt; out == *b"..");
        Ok(())
    }

    #[test]
    fn combinations_out_of_range(rt: HostRuntime) -> Result<(), Fail> {
        let mut draft = two_places(rt.alloc())?;
        assert_eq!(rt; number(draft.add(at(-24, -1))), Some(13));
        assert_eq!(rt; number(draft.add(at(24, 0))), Some(13));
        assert_eq!(rt; number(draft.add(at(-23, -1))), Some(14));
        assert_eq!(rt; number(draft.add(at(23, 2))), Some(14));
        assert_eq!(rt; number(draft.drop(at(24, 0))), Some(13));
        assert_eq!(rt; number(draft.drop(at(0, 2))), Some(14));
        assert_eq!(rt; number(draft.add(at(-23, 1))), None);
        assert_eq!(rt; number(draft.add(at(23, 0))), None);
        Ok(())
    }

    #[test]
    fn a_ninth_combination(rt: HostRuntime) -> Result<(), Fail> {
        let mut draft = two_places(rt.alloc())?;
        assert_eq!(rt; number(draft.add(at(0, 0))), Some(15));
        for jv in 1..8i32 {
            assert_eq!(rt; number(draft.add(at(jv, 1))), None);
        }
        assert_eq!(rt; number(draft.add(at(8, 1))), Some(16));
        assert_eq!(rt; number(draft.add(at(7, 1))), Some(15));
        assert_eq!(rt; number(draft.drop(at(8, 1))), Some(17));
        assert_eq!(rt; number(draft.drop(at(0, 0))), Some(17));
        assert_eq!(rt; number(draft.drop(at(7, 1))), None);
        assert_eq!(rt; number(draft.add(at(8, 1))), None);
        Ok(())
    }

    #[test]
    fn a_dropped_combination_closes_the_gap(rt: HostRuntime) -> Result<(), Fail> {
        let mut draft = two_places(rt.alloc())?;
        assert_eq!(rt; number(draft.add(at(-7, 0))), None);
        assert_eq!(rt; number(draft.add(at(0, 1))), None);
        assert_eq!(rt; number(draft.add(at(2, 1))), None);
        assert_eq!(rt; number(draft.drop(at(0, 1))), None);
        let sheet = draft.close();
        assert_eq!(rt; sheet.combinations().len(), 3);
        assert_eq!(rt; listed(&sheet, 0), Some((0, 0)));
        assert_eq!(rt; listed(&sheet, 1), Some((-7, 0)));
        assert_eq!(rt; listed(&sheet, 2), Some((2, 1)));
        let mut again = sheet.reopen();
        assert_eq!(rt; number(again.add(at(0, 1))), None);
        assert_eq!(rt; listed(&again.close(), 3), Some((0, 1)));
        Ok(())
    }

    #[test]
    fn fixed_and_freed(rt: HostRuntime) -> Result<(), Fail> {
        let mut draft = two_places(rt.alloc())?;
        assert_eq!(rt; number(draft.fix(2, 24)), Some(18));
        assert_eq!(rt; number(draft.fix(1, 24)), Some(19));
        assert_eq!(rt; number(draft.free(2)), Some(18));
        assert_eq!(rt; number(draft.fix(0, 3)), None);
        assert_eq!(rt; number(draft.fix(0, 23)), None);
        assert_eq!(rt; number(draft.fix(1, 5)), None);
        assert_eq!(rt; number(draft.free(1)), None);
        assert_eq!(rt; number(draft.free(1)), None);
        let sheet = draft.close();
        assert_eq!(rt; fixed(&sheet, 0), Some(23));
        assert_eq!(rt; fixed(&sheet, 1), None);
        Ok(())
    }

    #[test]
    fn a_page_replaces_all(rt: HostRuntime) -> Result<(), Fail> {
        let mut draft = two_places(rt.alloc())?;
        assert_eq!(rt; number(draft.add(at(-7, 0))), None);
        assert_eq!(rt; number(draft.fix(0, 5)), None);
        assert!(rt; draft.load(&TWO[0..30]).is_err());
        assert!(rt; draft.load(THREE).is_ok());
        let sheet = draft.close();
        assert_eq!(rt; sheet.theme().len(), 3);
        assert_eq!(rt; sheet.theme().bar(), 1);
        assert_eq!(rt; sheet.combinations().len(), 1);
        assert_eq!(rt; listed(&sheet, 0), Some((0, 0)));
        assert_eq!(rt; sheet.fixings().len(), 3);
        assert_eq!(rt; fixed(&sheet, 0), None);
        Ok(())
    }

    #[test]
    fn a_page_written(rt: HostRuntime) -> Result<(), Fail> {
        let sheet = two_places(rt.alloc())?.close();
        let mut out = [b'.'; 33];
        assert_eq!(rt; number(write_page(&sheet, &mut out[0..30])), Some(37));
        assert!(rt; out == [b'.'; 33]);
        assert_eq!(rt; write_page(&sheet, &mut out).ok(), Some(31));
        assert!(rt; out == *b"   2   2\n   0   7 p\n   1   8 p\n..");
        Ok(())
    }

    #[test]
    fn combinations_written(rt: HostRuntime) -> Result<(), Fail> {
        let mut draft = two_places(rt.alloc())?;
        assert_eq!(rt; number(draft.add(at(-7, 0))), None);
        assert_eq!(rt; number(draft.add(at(23, 1))), None);
        let sheet = draft.close();
        let mut out = [b'.'; 49];
        assert_eq!(rt;
            write_combination(&sheet, &[0, 1], 0, &mut out).ok(),
            Some(47)
        );
        assert!(rt; out == *b"   0   0   0\n   0   0   7  -7\n   1   0   8  -8\n..");
        assert_eq!(rt;
            write_combination(&sheet, &[0, 1], 1, &mut out).ok(),
            Some(47)
        );
        assert!(rt; out == *b"   1  -7   0\n   0  -7   7 -14\n   1  -7   8 -15\n..");
        assert_eq!(rt;
            write_combination(&sheet, &[46, 12], 2, &mut out).ok(),
            Some(47)
        );
        assert!(rt; out == *b"   2  23   1\n   0  46   8  38\n   1  29   7  22\n..");
        Ok(())
    }

    #[test]
    fn combinations_not_written(rt: HostRuntime) -> Result<(), Fail> {
        let sheet = two_places(rt.alloc())?.close();
        let mut out = [b'.'; 46];
        assert_eq!(rt;
            number(write_combination(&sheet, &[48], 1, &mut out)),
            Some(25)
        );
        assert_eq!(rt;
            number(write_combination(&sheet, &[0, 1, 1], 0, &mut out)),
            Some(25)
        );
        assert_eq!(rt;
            number(write_combination(&sheet, &[48, 0], 1, &mut out)),
            Some(27)
        );
        assert_eq!(rt;
            wrong_place(write_combination(&sheet, &[1, 1], 1, &mut out)),
            Some(0)
        );
        assert_eq!(rt;
            wrong_place(write_combination(&sheet, &[0, 48], 1, &mut out)),
            Some(1)
        );
        assert_eq!(rt;
            wrong_place(write_combination(&sheet, &[0, 3], 1, &mut out)),
            Some(1)
        );
        assert_eq!(rt;
            number(write_combination(&sheet, &[0, 1], 1, &mut out)),
            Some(17)
        );
        assert_eq!(rt;
            number(write_combination(&sheet, &[0, 1], 0, &mut out)),
            Some(37)
        );
        assert!(rt; out == [b'.'; 46]);
        Ok(())
    }
}
