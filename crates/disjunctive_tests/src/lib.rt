// Tests of Pairs, Edges and Not-first on small sheets.
#![tactic(auto)]

#[cfg(test)]
mod tests {
    use disjunctive::rules::{EDGES, NOT_FIRST, PAIRS};
    use rule::narrowing::Rule;
    use rule::verdict;
    use sheet::records::Window;
    use sheet::refusal::Refusal;
    use sheet::table::Sheet;
    use std::process::Abort;
    use std::test::Fail;

    // A sheet with three jobs, of these stations and durations.
    fn three_jobs(stations: [u32; 3], durations: [u32; 3]) -> Result<Sheet, Refusal> {
        let mut sheet = Sheet::new();
        sheet.enter(stations[0], durations[0], 0, 40_000)?;
        sheet.enter(stations[1], durations[1], 0, 40_000)?;
        sheet.enter(stations[2], durations[2], 0, 40_000)?;
        Ok(sheet)
    }

    fn from_to(lo: u32, hi: u32) -> Window {
        Window { lo, hi }
    }

    // Has a rule narrow the windows, and checks the number that it answers and what the windows then are.
    fn check_rule<R: Rule>(
        rt: &impl Abort,
        rule: &R,
        sheet: &Sheet,
        windows: [Window; 3],
        number: u32,
        after: [Window; 3],
    ) -> Result<(), Fail> {
        let mut narrowed = windows;
        let verdict = rule.narrow(sheet, &mut narrowed)?;
        assert_eq!(rt; verdict::number(verdict), number);
        assert_eq!(rt; narrowed, after);
        Ok(())
    }

    #[test]
    fn pairs_holds_two_jobs_against_each_other(rt: HostRuntime) -> Result<(), Fail> {
        let sheet = three_jobs([0, 0, 1], [4, 3, 3])?;
        let tight = [from_to(2, 6), from_to(0, 4), from_to(2, 3)];
        let after = [from_to(3, 6), from_to(0, 3), from_to(2, 3)];
        check_rule(&rt, &PAIRS, &sheet, tight, 0, after)?;
        let loose = [from_to(2, 6), from_to(0, 6), from_to(2, 3)];
        check_rule(&rt, &PAIRS, &sheet, loose, 0, loose)
    }

    #[test]
    fn edges_finds_who_comes_last(rt: HostRuntime) -> Result<(), Fail> {
        let sheet = three_jobs([0, 0, 0], [4, 3, 3])?;
        let tight = [from_to(0, 16), from_to(0, 4), from_to(1, 4)];
        let after = [from_to(6, 16), from_to(0, 4), from_to(1, 4)];
        check_rule(&rt, &EDGES, &sheet, tight, 0, after)?;
        let loose = [from_to(0, 16), from_to(0, 7), from_to(1, 7)];
        check_rule(&rt, &EDGES, &sheet, loose, 0, loose)
    }

    #[test]
    fn edges_finds_who_comes_first(rt: HostRuntime) -> Result<(), Fail> {
        let sheet = three_jobs([7, 7, 7], [4, 3, 3])?;
        let tight = [from_to(0, 16), from_to(13, 17), from_to(13, 16)];
        let after = [from_to(0, 10), from_to(13, 17), from_to(13, 16)];
        check_rule(&rt, &EDGES, &sheet, tight, 0, after)
    }

    #[test]
    fn not_first_comes_after_one_of_them(rt: HostRuntime) -> Result<(), Fail> {
        let sheet = three_jobs([0, 0, 0], [4, 3, 3])?;
        let tight = [from_to(2, 16), from_to(0, 6), from_to(1, 6)];
        let after = [from_to(3, 16), from_to(0, 6), from_to(1, 6)];
        check_rule(&rt, &NOT_FIRST, &sheet, tight, 0, after)?;
        let loose = [from_to(2, 16), from_to(0, 9), from_to(1, 9)];
        check_rule(&rt, &NOT_FIRST, &sheet, loose, 0, loose)
    }

    #[test]
    fn three_long_jobs_are_seen_together_only(rt: HostRuntime) -> Result<(), Fail> {
        let sheet = three_jobs([2, 2, 2], [8, 8, 8])?;
        let windows = [from_to(1, 10); 3];
        check_rule(&rt, &PAIRS, &sheet, windows, 0, windows)?;
        check_rule(&rt, &EDGES, &sheet, windows, 1, windows)
    }

    #[test]
    fn a_last_start_below_zero_is_dead(rt: HostRuntime) -> Result<(), Fail> {
        let sheet = three_jobs([0, 0, 1], [5, 5, 5])?;
        let windows = [from_to(0, 4), from_to(0, 4), from_to(0, 4)];
        check_rule(&rt, &PAIRS, &sheet, windows, 1, windows)
    }
}
