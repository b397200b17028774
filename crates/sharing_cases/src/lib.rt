// Cases at the edges of the sharing rules and of the program `share`.
#![tactic(auto)]

#[cfg(test)]
mod tests {
    use share_report::report::{report_on, report_owned};
    use share_report::{ErrorLine, Misread, OwnedShareError, ShareError};
    use sharing::{Division, Down, Running, SharingRule, divide};
    use std::alloc::AllocError;
    use std::test::Fail;
    use tariff::Refusal;
    use text::WordFault;

    const LIMIT: u32 = 2_147_483_647;

    // A rule with a state: it counts its calls, which changes nothing of what it means.
    #[derive(Drop)]
    struct Counted<R> {
        rule: R,
        calls: u32,
    }

    impl<R: SharingRule> SharingRule for Counted<R> {
        ghost meaning = { λ s. R.meaning s.rule };

        ghost lawful = { λ s. R.lawful s.rule };

        fn share(&mut self, pool: u32, units: &[u32], column: &mut [u32]) -> Result<(), Refusal> {
            self.calls = self.calls.saturating_add(1);
            self.rule.share(pool, units, column)
        }
    }

    #[test]
    fn as_many_as_256_customers(rt: HostRuntime) -> Result<(), Fail> {
        let mut column = [9; 257];
        Running.share(512, &[1; 256], &mut column[0..256])?;
        assert_eq!(rt; column[0], 2);
        assert_eq!(rt; column[255], 2);
        assert_eq!(rt; column[256], 9);
        assert_eq!(rt;
            Running.share(512, &[1; 257], &mut column),
            Err(Refusal::RuleInput)
        );
        assert_eq!(rt;
            Down.share(512, &[1; 257], &mut column),
            Err(Refusal::RuleInput)
        );
        assert_eq!(rt; column[0], 2);
        assert_eq!(rt; column[256], 9);
        Ok(())
    }

    #[test]
    fn pool_at_the_limit(rt: HostRuntime) -> Result<(), Fail> {
        let mut column = [9; 2];
        Down.share(LIMIT, &[1, 1], &mut column)?;
        assert_eq!(rt; column, [1_073_741_823, 1_073_741_823]);
        Running.share(LIMIT, &[1, 1], &mut column)?;
        assert_eq!(rt; column, [1_073_741_823, 1_073_741_824]);
        assert_eq!(rt;
            Running.share(LIMIT + 1, &[1, 1], &mut column),
            Err(Refusal::RuleInput)
        );
        assert_eq!(rt;
            Down.share(LIMIT + 1, &[1, 1], &mut column),
            Err(Refusal::RuleInput)
        );
        assert_eq!(rt; column, [1_073_741_823, 1_073_741_824]);
        Ok(())
    }

    #[test]
    fn units_at_the_limit(rt: HostRuntime) -> Result<(), Fail> {
        let mut column = [9; 2];
        Running.share(LIMIT, &[LIMIT - 1, 1], &mut column)?;
        assert_eq!(rt; column, [LIMIT - 1, 1]);
        assert_eq!(rt;
            Running.share(1, &[LIMIT, 1], &mut column),
            Err(Refusal::RuleInput)
        );
        assert_eq!(rt;
            Down.share(1, &[LIMIT, 1], &mut column),
            Err(Refusal::RuleInput)
        );
        assert_eq!(rt;
            Down.share(1, &[4_294_967_295, 4_294_967_295], &mut column),
            Err(Refusal::RuleInput)
        );
        assert_eq!(rt; column, [LIMIT - 1, 1]);
        Ok(())
    }

    #[test]
    fn lists_of_unlike_length(rt: HostRuntime) -> Result<(), Fail> {
        let mut column = [9; 2];
        assert_eq!(rt;
            Running.share(5, &[0, 7, 0], &mut column),
            Err(Refusal::RuleInput)
        );
        assert_eq!(rt; Down.share(5, &[7], &mut column), Err(Refusal::RuleInput));
        assert_eq!(rt; column, [9, 9]);
        Down.share(5, &[], &mut column[0..0])?;
        assert_eq!(rt; column, [9, 9]);
        Ok(())
    }

    #[test]
    fn no_units_no_shares(rt: HostRuntime) -> Result<(), Fail> {
        let mut column = [9; 3];
        Down.share(LIMIT, &[0, 0, 0], &mut column)?;
        assert_eq!(rt; column, [0, 0, 0]);
        column = [9; 3];
        Running.share(LIMIT, &[0, 0, 0], &mut column)?;
        assert_eq!(rt; column, [0, 0, 0]);
        Ok(())
    }

    #[test]
    fn one_customer_takes_all(rt: HostRuntime) -> Result<(), Fail> {
        let mut column = [9];
        Down.share(LIMIT, &[LIMIT], &mut column)?;
        assert_eq!(rt; column, [LIMIT]);
        let division = divide(&mut Running, 12, &[5], &mut column)?;
        assert_eq!(rt; column, [12]);
        assert_eq!(rt;
            division,
            Division {
                units: 5,
                shares: 12,
                left: 0,
            }
        );
        Ok(())
    }

    #[test]
    fn a_second_call_gives_the_same(rt: HostRuntime) -> Result<(), Fail> {
        let mut rule = Counted {
            rule: Running,
            calls: 0,
        };
        let mut first = [0; 3];
        let mut second = [9; 3];
        rule.share(100, &[1, 1, 1], &mut first)?;
        assert_eq!(rt;
            rule.share(100, &[1, 1], &mut second),
            Err(Refusal::RuleInput)
        );
        rule.share(100, &[1, 1, 1], &mut second)?;
        assert_eq!(rt; rule.calls, 3);
        assert_eq!(rt; first, second);
        Ok(())
    }

    #[test]
    fn a_table_is_answered(rt: HostRuntime) -> Result<(), Fail> {
        let told =
            "pool 100\ncustomer units down running\n0 100 33 33\n1 100 33 33\n2 100 33 34\nsum 300 99 100\nleft over 1 0\n";
        let table = report_on(rt.alloc(), b"100\n100 100 100")?;
        assert_eq!(rt; table.as_str(), told);
        let owned = report_owned(rt.alloc(), b"100\n100 100 100")?;
        assert_eq!(rt; owned.as_str(), told);
        Ok(())
    }

    // Texts that have no table, and the line that says why.
    const REFUSED: [(&[u8], &str); 7] = [
        (
            b"",
            "share: word 1 is missing: the pool in cents, and after it the units of each customer\n",
        ),
        (
            b" \n\t",
            "share: word 1 is missing: the pool in cents, and after it the units of each customer\n",
        ),
        (b"100 x1", "share: word 2, \"x1\", is not a whole number\n"),
        (b"-1", "share: word 1, \"-1\", is not a whole number\n"),
        (
            b"1 2 4294967296",
            "share: word 3, \"4294967296\", is above 4294967295\n",
        ),
        (
            b"1\t\xff\x07",
            "share: word 2, \"??\", is not a whole number\n",
        ),
        (
            b"2147483648 1",
            "share: refusal 15: a sharing rule takes at most 256 customers, one place a customer, and a pool and a sum of units of at most 2147483647\n",
        ),
    ];

    #[test]
    fn the_shell_is_told_why(rt: HostRuntime) -> Result<(), Fail> {
        let heap = rt.alloc();
        for (input, line) in REFUSED {
            let error = report_owned(heap, input).expect_err(&rt, "a line that says why");
            let error_line = ErrorLine(error);
            let told = format!(in heap; "{error_line}")?;
            assert_eq!(rt; told.as_str(), line);
        }
        Ok(())
    }

    #[test]
    fn an_error_that_borrows_the_text_says_the_same(rt: HostRuntime) -> Result<(), Fail> {
        let heap = rt.alloc();
        for (input, line) in REFUSED {
            let error = report_on(heap, input).expect_err(&rt, "a line that says why");
            let told = format!(in heap; "{error}\n")?;
            assert_eq!(rt; told.as_str(), line);
        }
        Ok(())
    }

    #[test]
    fn a_long_bad_word_is_held_whole_and_shown_in_part(rt: HostRuntime) -> Result<(), Fail> {
        let heap = rt.alloc();
        let text = b"7 12345678901234567890123456789012345678901x3";
        let error = report_on(heap, text).expect_err(&rt, "a bad word");
        let misread = Misread {
            place: 2,
            word: b"12345678901234567890123456789012345678901x3",
            fault: WordFault::NotANumber,
        };
        assert_eq!(rt; error, ShareError::Misread(misread));
        let word = format!(in heap; "{misread}")?;
        assert_eq!(rt;
            word.as_str(),
            "word 2, \"1234567890123456789012345678901234567890\", is not a whole number"
        );
        let owned = report_owned(heap, text).expect_err(&rt, "a bad word");
        assert_eq!(rt; owned, OwnedShareError::from(error));
        let told = format!(in heap; "{owned}")?;
        assert_eq!(rt;
            told.as_str(),
            "share: word 2, \"1234567890123456789012345678901234567890\", is not a whole number"
        );
        Ok(())
    }

    #[test]
    fn an_owned_error_is_made_of_what_went_wrong(rt: HostRuntime) -> Result<(), Fail> {
        assert_eq!(rt;
            OwnedShareError::from(Refusal::RuleInput),
            OwnedShareError::Refused(Refusal::RuleInput)
        );
        assert_eq!(rt;
            OwnedShareError::from(AllocError),
            OwnedShareError::OutOfMemory
        );
        Ok(())
    }
}
