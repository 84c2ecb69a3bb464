// Tests of the rules on small sheets, by the numbers that their calls answer.
#![tactic(auto)]

#[cfg(test)]
mod tests {
    use drying::Drying;
    use forbid_all::ForbidAll;
    use route::Route;
    use rule::both::Both;
    use rule::narrowing::Rule;
    use rule::standstill::Standstill;
    use rule::verdict;
    use sheet::records::Window;
    use sheet::refusal::Refusal;
    use sheet::table::Sheet;
    use std::test::Fail;

    // Three jobs of 5 minutes at stations 0, 1 and 2, with no link.
    fn three_jobs() -> Result<Sheet, Refusal> {
        let mut sheet = Sheet::new();
        sheet.enter(0, 5, 0, 100)?;
        sheet.enter(1, 5, 0, 100)?;
        sheet.enter(2, 5, 0, 100)?;
        Ok(sheet)
    }

    // The number that a rule's call answers.
    fn number<R: Rule>(rule: &R, sheet: &Sheet, windows: &mut [Window]) -> u32 {
        match rule.narrow(sheet, windows) {
            Ok(verdict) => verdict::number(verdict),
            Err(refusal) => u32::from(refusal),
        }
    }

    fn from_to(lo: u32, hi: u32) -> Window {
        Window { lo, hi }
    }

    #[test]
    fn malformed_windows_are_refused_and_left(rt: HostRuntime) -> Result<(), Fail> {
        let sheet = three_jobs()?;
        let mut few = [from_to(0, 9), from_to(0, 9)];
        assert_eq!(rt; number(&Route, &sheet, &mut few), 13);
        assert_eq!(rt; few, [from_to(0, 9), from_to(0, 9)]);
        let mut turned = [from_to(0, 9), from_to(10, 9), from_to(0, 9)];
        assert_eq!(rt; number(&Standstill(Route), &sheet, &mut turned), 13);
        assert_eq!(rt; turned, [from_to(0, 9), from_to(10, 9), from_to(0, 9)]);
        let mut late = [from_to(0, 9), from_to(0, 9), from_to(0, 40_001)];
        assert_eq!(rt; number(&Both(Route, ForbidAll), &sheet, &mut late), 13);
        assert_eq!(rt; late, [from_to(0, 9), from_to(0, 9), from_to(0, 40_001)]);
        Ok(())
    }

    #[test]
    fn route_sets_all_bounds_together(rt: HostRuntime) -> Result<(), Fail> {
        let mut sheet = three_jobs()?;
        sheet.link(0, 1, 2)?;
        sheet.link(1, 2, 0)?;
        let mut once = [from_to(0, 50); 3];
        assert_eq!(rt; number(&Route, &sheet, &mut once), 0);
        assert_eq!(rt; once, [from_to(0, 43), from_to(7, 45), from_to(5, 50)]);
        let mut still = [from_to(0, 50); 3];
        assert_eq!(rt; number(&Standstill(Route), &sheet, &mut still), 0);
        assert_eq!(rt; still, [from_to(0, 38), from_to(7, 45), from_to(12, 50)]);
        Ok(())
    }

    #[test]
    fn a_bound_below_zero_is_dead(rt: HostRuntime) -> Result<(), Fail> {
        let mut sheet = three_jobs()?;
        sheet.link(0, 1, 2)?;
        let mut below = [from_to(0, 50), from_to(0, 6), from_to(0, 50)];
        assert_eq!(rt; number(&Route, &sheet, &mut below), 1);
        assert_eq!(rt; below, [from_to(0, 50), from_to(0, 6), from_to(0, 50)]);
        let mut zero = [from_to(0, 50), from_to(0, 7), from_to(0, 50)];
        assert_eq!(rt; number(&Route, &sheet, &mut zero), 0);
        assert_eq!(rt; zero, [from_to(0, 0), from_to(7, 7), from_to(0, 50)]);
        Ok(())
    }

    #[test]
    fn a_circle_of_links_comes_to_dead(rt: HostRuntime) -> Result<(), Fail> {
        let mut sheet = three_jobs()?;
        sheet.link(0, 1, 0)?;
        sheet.link(1, 2, 0)?;
        sheet.link(2, 0, 0)?;
        let mut windows = [from_to(0, 50); 3];
        assert_eq!(rt; number(&Standstill(Route), &sheet, &mut windows), 1);
        assert_eq!(rt; windows, [from_to(0, 50); 3]);
        assert_eq!(rt; number(&Route, &sheet, &mut windows), 0);
        assert_eq!(rt; windows, [from_to(5, 45); 3]);
        Ok(())
    }

    #[test]
    fn forbid_all_notices_single_starts(rt: HostRuntime) -> Result<(), Fail> {
        let mut sheet = three_jobs()?;
        sheet.link(0, 1, 2)?;
        let mut windows = [from_to(0, 1), from_to(0, 8), from_to(0, 0)];
        assert_eq!(rt; number(&Both(Route, ForbidAll), &sheet, &mut windows), 0);
        assert_eq!(rt; windows, [from_to(0, 1), from_to(7, 8), from_to(0, 0)]);
        let mut single = [from_to(0, 0), from_to(0, 7), from_to(0, 0)];
        assert_eq!(rt; number(&Both(Route, ForbidAll), &sheet, &mut single), 1);
        assert_eq!(rt; single, [from_to(0, 0), from_to(0, 7), from_to(0, 0)]);
        Ok(())
    }

    #[test]
    fn glue_dries_between_its_stations(rt: HostRuntime) -> Result<(), Fail> {
        let mut sheet = three_jobs()?;
        sheet.link(0, 1, 0)?;
        sheet.link(1, 2, 0)?;
        let glue = Drying {
            glue: 0,
            next: 1,
            minutes: 30,
        };
        let mut windows = [from_to(0, 50); 3];
        assert_eq!(rt; number(&glue, &sheet, &mut windows), 0);
        assert_eq!(rt; windows, [from_to(0, 50), from_to(35, 50), from_to(0, 50)]);
        let never = Drying {
            glue: 1,
            next: 2,
            minutes: u32::MAX,
        };
        assert_eq!(rt; number(&never, &sheet, &mut windows), 1);
        assert_eq!(rt; windows, [from_to(0, 50), from_to(35, 50), from_to(0, 50)]);
        Ok(())
    }
}
