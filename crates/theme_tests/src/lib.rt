// Pages that are read, refused and written, by example. Each expected answer is worked out by hand.
#![tactic(auto)]

#[cfg(test)]
mod tests {
    use std::alloc::{AllocError, Global};
    use std::fmt::Write;
    use std::test::Fail;
    use theme::theme::Theme;

    // A page and the refusal that it gets: its number, line and column.
    #[derive(Clone, Copy)]
    struct Refusal {
        page: &'static [u8],
        number: u32,
        line: usize,
        column: usize,
    }

    // The answer to a page: nothing where it is accepted, else number, line and column.
    fn answer(theme: &mut Theme, page: &[u8]) -> Option<(u32, usize, usize)> {
        match theme.read(page) {
            Ok(()) => None,
            Err(refusal) => Some((u32::from(refusal), refusal.at.line, refusal.at.column)),
        }
    }

    // The page of so many pins, all at key 12, in one bar.
    fn pins(heap: Global, count: u8) -> Result<String, AllocError> {
        let mut page = format!(in heap; "{count:>4}{count:>4}\n")?;
        for place in 0..count {
            writeln!(page, "{place:>4}  12 p")?;
        }
        Ok(page)
    }

    const TWO: &[u8] = b"   2   2\n   0   7 p\n   1   8 p\n";

    // each refusal at least once, with every place where it can be given
    const REFUSALS: [Refusal; 29] = [
        Refusal {
            page: b"   2   2",
            number: 1,
            line: 1,
            column: 1,
        },
        Refusal {
            page: b"   2   2 \n",
            number: 1,
            line: 1,
            column: 1,
        },
        Refusal {
            page: b"       2\n",
            number: 2,
            line: 1,
            column: 1,
        },
        Refusal {
            page: b"  02   2\n",
            number: 2,
            line: 1,
            column: 1,
        },
        Refusal {
            page: b"  -2   2\n",
            number: 2,
            line: 1,
            column: 1,
        },
        Refusal {
            page: b"2      2\n",
            number: 2,
            line: 1,
            column: 1,
        },
        Refusal {
            page: b"   2    \n",
            number: 2,
            line: 1,
            column: 5,
        },
        Refusal {
            page: b"   2  +2\n",
            number: 2,
            line: 1,
            column: 5,
        },
        Refusal {
            page: b"   0   1\n",
            number: 3,
            line: 1,
            column: 1,
        },
        Refusal {
            page: b"  65  65\n",
            number: 3,
            line: 1,
            column: 1,
        },
        Refusal {
            page: b"9999   1\n",
            number: 3,
            line: 1,
            column: 1,
        },
        Refusal {
            page: b"   2   0\n",
            number: 4,
            line: 1,
            column: 5,
        },
        Refusal {
            page: b"   2   3\n",
            number: 4,
            line: 1,
            column: 5,
        },
        Refusal {
            page: b"   4   3\n",
            number: 4,
            line: 1,
            column: 5,
        },
        Refusal {
            page: b"   2   2\n   0   7 p\n",
            number: 5,
            line: 1,
            column: 1,
        },
        Refusal {
            page: b"   1   1\n   0   7 p\n\n",
            number: 5,
            line: 1,
            column: 1,
        },
        Refusal {
            page: b"   2   2\n   0   7 p\n   1   8-p\n",
            number: 6,
            line: 3,
            column: 9,
        },
        Refusal {
            page: b"   1   1\n   0   7 p ",
            number: 6,
            line: 2,
            column: 11,
        },
        Refusal {
            page: b"   1   1\n   0   7-p ",
            number: 6,
            line: 2,
            column: 9,
        },
        Refusal {
            page: b"   2   2\n   0   7 p\n   2   8 p\n",
            number: 7,
            line: 3,
            column: 1,
        },
        Refusal {
            page: b"   1   1\n  00   7 p\n",
            number: 7,
            line: 2,
            column: 1,
        },
        Refusal {
            page: b"   1   1\n   0     p\n",
            number: 8,
            line: 2,
            column: 5,
        },
        Refusal {
            page: b"   1   1\n   0  07 p\n",
            number: 8,
            line: 2,
            column: 5,
        },
        Refusal {
            page: b"   1   1\n   0  24 p\n",
            number: 9,
            line: 2,
            column: 5,
        },
        Refusal {
            page: b"   1   1\n   0   7 r\n",
            number: 10,
            line: 2,
            column: 10,
        },
        Refusal {
            page: b"   1   1\n   0   7 P\n",
            number: 10,
            line: 2,
            column: 10,
        },
        Refusal {
            page: b"   1   1\n   0   7 b\n",
            number: 11,
            line: 2,
            column: 10,
        },
        Refusal {
            page: b"   2   2\n   0   7 p\n   1   8 b\n",
            number: 11,
            line: 3,
            column: 10,
        },
        Refusal {
            page: b"   1   1\n   1  24 x\n",
            number: 7,
            line: 2,
            column: 1,
        },
    ];

    #[test]
    fn each_refusal_with_line_and_column(rt: HostRuntime) -> Result<(), Fail> {
        let mut theme = Theme::blank(rt.alloc())?;
        for case in REFUSALS.iter() {
            assert_eq!(rt;
                answer(&mut theme, case.page),
                Some((case.number, case.line, case.column))
            );
        }
        assert_eq!(rt; theme.len(), 0);
        Ok(())
    }

    #[test]
    fn pages_cut_short(rt: HostRuntime) -> Result<(), Fail> {
        let mut theme = Theme::blank(rt.alloc())?;
        for length in 0..21usize {
            let number = if length < 9 { 1 } else { 5 };
            assert_eq!(rt; answer(&mut theme, &TWO[..length]), Some((number, 1, 1)));
        }
        assert_eq!(rt; answer(&mut theme, TWO), None);
        assert_eq!(rt; theme.len(), 2);
        Ok(())
    }

    #[test]
    fn one_to_sixty_four_places(rt: HostRuntime) -> Result<(), Fail> {
        let mut theme = Theme::blank(rt.alloc())?;
        for count in 1..65u8 {
            let page = pins(rt.alloc(), count)?;
            assert_eq!(rt; answer(&mut theme, page.as_bytes()), None);
            assert_eq!(rt; theme.len(), count as usize);
        }
        let page = pins(rt.alloc(), 65)?;
        assert_eq!(rt; answer(&mut theme, page.as_bytes()), Some((3, 1, 1)));
        assert_eq!(rt; theme.len(), 64);
        Ok(())
    }

    #[test]
    fn a_refused_page_leaves_the_theme(rt: HostRuntime) -> Result<(), Fail> {
        let mut theme = Theme::blank(rt.alloc())?;
        assert_eq!(rt;
            answer(
                &mut theme,
                b"   3   1\n   0   7 p\n   1   7 b\n   2  23 p\n",
            ),
            None
        );
        assert_eq!(rt;
            answer(&mut theme, b"   1   1\n   0  24 p\n"),
            Some((9, 2, 5))
        );
        let mut out = [b'.'; 45];
        assert_eq!(rt; theme.write(&mut out).ok(), Some(42));
        assert!(rt; out == *b"   3   1\n   0   7 p\n   1   7 b\n   2  23 p\n...");
        Ok(())
    }

    #[test]
    fn a_short_buffer_is_left_alone(rt: HostRuntime) -> Result<(), Fail> {
        let mut theme = Theme::blank(rt.alloc())?;
        let mut out = [b'.'; 30];
        assert!(rt; theme.write(&mut out).is_err());
        assert_eq!(rt; answer(&mut theme, TWO), None);
        assert!(rt; theme.write(&mut out).is_err());
        assert!(rt; out == [b'.'; 30]);
        Ok(())
    }
}
