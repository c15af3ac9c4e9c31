// Tests of the engine: small passages whose lines are listed by hand, and a measure that does not commute.
// Knows nothing of books, themes or sheets.
#![tactic(auto)]

pub mod examples;
pub mod listed;
pub mod triangle;

#[cfg(test)]
mod tests {
    use crate::listed::*;
    use crate::triangle::*;
    use engine::picking::pick;
    use engine::tracing::first;
    use engine::unfit::*;
    use engine::weighing::weigh;
    use measure::movement::Movement;
    use measure::number::Number;
    use measure::possible::*;
    use std::test::Fail;

    // the lines of three places: 0 2 0, 0 2 6, 0 4 0 and 0 4 6
    #[test]
    fn counts_and_picks(rt: HostRuntime) -> Result<(), Fail> {
        let mut memory = [Number { value: 0 }; 144];
        let mut line = [99; 4];
        assert_eq!(rt; weigh(&Three, 3, &mut memory)?.value, 4);
        assert!(rt; pick(&Three, 3, &mut memory, &mut line, 2)?);
        assert!(rt; line == [0, 4, 0, 99]);
        assert!(rt; !pick(&Three, 3, &mut memory, &mut line, 4)?);
        assert!(rt; line == [0, 4, 0, 99]);
        Ok(())
    }

    #[test]
    fn least_and_first(rt: HostRuntime) -> Result<(), Fail> {
        let mut memory = [Movement { sum: 0 }; 144];
        let mut line = [99; 3];
        assert!(rt; first(&Three, 3, &mut memory, &mut line)?);
        assert!(rt; line == [0, 2, 0]);
        assert_eq!(rt; weigh(&Three, 3, &mut memory)?.sum, 2);
        Ok(())
    }

    #[test]
    fn none_and_one_place(rt: HostRuntime) -> Result<(), Fail> {
        let mut line = [99; 3];
        let mut bits = [Possible { found: true }; 144];
        assert!(rt; !first(&Always(false), 3, &mut bits, &mut line)?);
        assert!(rt; first(&Always(true), 1, &mut bits, &mut line)?);
        assert!(rt; line == [0, 99, 99]);
        Ok(())
    }

    // the steps of the four lines are 1 1 0, 1 2 3, 2 2 0 and 2 1 3
    #[test]
    fn chains_in_order(rt: HostRuntime) -> Result<(), Fail> {
        let mut memory = [Triangle {
            near: false,
            cross: false,
            far: false,
        }; 144];
        let joined = weigh(&Three, 3, &mut memory)?;
        assert!(rt; joined.near && joined.cross && !joined.far);
        Ok(())
    }

    #[test]
    fn refuses(rt: HostRuntime) -> Result<(), Fail> {
        let mut memory = [Number { value: 7 }; 48];
        let mut line = [99; 1];
        assert_eq!(rt; weigh(&Always(true), 1, &mut memory)?.value, 48);
        assert_eq!(rt;
            pick(&Always(true), 1, &mut memory, &mut line, 1_000_000_000).err(),
            Some(Unfit::Number)
        );
        assert_eq!(rt;
            pick(&Always(true), 2, &mut memory, &mut line, 0).err(),
            Some(Unfit::Memory)
        );
        assert_eq!(rt;
            pick(&Always(true), 0, &mut memory, &mut line, 0).err(),
            Some(Unfit::Places)
        );
        Ok(())
    }

    #[test]
    fn counts_to_the_cap(rt: HostRuntime) -> Result<(), Fail> {
        let mut memory = [Number { value: 0 }; 384];
        let mut line = [0; 8];
        assert_eq!(rt; weigh(&Always(true), 8, &mut memory)?.value, 1_000_000_000);
        assert!(rt; pick(&Always(true), 8, &mut memory, &mut line, 49)?);
        assert!(rt; line == [0, 0, 0, 0, 0, 0, 1, 1]);
        Ok(())
    }
}
