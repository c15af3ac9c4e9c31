// Intervals and books at the ends of their ranges, and the books beside each other.
#![tactic(auto)]

#[cfg(test)]
mod tests {
    use books::free::Free;
    use books::strict::Strict;
    use books::vertical::Vertical;
    use counterpoint::book::Book;
    use counterpoint::kinds::{IntervalKind, kind};
    use counterpoint::moments::{Accent, Moment, Succession, Voice};
    use counterpoint::refusal::Refusal;
    use std::test::Fail;

    // Both voices struck on a weak place; the worked examples of the crate itself are on strong ones.
    fn struck(interval: i32) -> Moment {
        Moment {
            interval,
            line: Voice::Struck,
            theme: Voice::Struck,
            accent: Accent::Weak,
        }
    }

    // Both voices struck twice on weak places.
    fn steps(interval: i32, dx: i32, dc: i32) -> Succession {
        Succession {
            first: struck(interval),
            dx,
            dc,
            line: Voice::Struck,
            theme: Voice::Struck,
            accent: Accent::Weak,
        }
    }

    #[test]
    fn the_ends_of_the_range(rt: HostRuntime) {
        assert_eq!(rt; kind(23, 100), Ok(IntervalKind::FixedConsonance));
        assert_eq!(rt; kind(i32::MIN, i32::MIN), Err(Refusal::ShiftOutOfRange));
        assert_eq!(rt; kind(0, i32::MIN), Err(Refusal::IntervalOutOfRange));
        assert!(rt; !Strict.admits(struck(i32::MIN)));
        assert!(rt; !Free.admits(struck(i32::MAX)));
        assert!(rt; !Free.allows(steps(i32::MAX, i32::MAX, i32::MIN)));
        assert!(rt; !Strict.allows(steps(0, i32::MIN, i32::MIN)));
    }

    #[test]
    fn free_beside_strict(rt: HostRuntime) {
        assert!(rt; Free.admits(struck(3)));
        assert!(rt; !Strict.admits(struck(3)));
        assert!(rt; Free.allows(steps(2, 3, 1)));
        assert!(rt; !Free.allows(steps(4, 1, 1)));
        assert!(rt; Free.allows(steps(2, 9, 0)));
        assert!(rt; !Free.allows(steps(2, 10, 0)));
    }

    #[test]
    fn a_layer_asks_twice(rt: HostRuntime) -> Result<(), Fail> {
        let octave_below = Vertical::new(Strict, -7)?;
        assert!(rt; octave_below.admits(struck(2)));
        assert!(rt; octave_below.allows(steps(2, 1, 1)));
        let step_above = Vertical::new(Strict, 1)?;
        assert!(rt; !step_above.admits(struck(2)));
        assert!(rt; !step_above.allows(steps(2, 1, 1)));
        Ok(())
    }
}
