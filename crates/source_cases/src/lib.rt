#![tactic(auto)]

// Cases of raw bytes, hex text and load, each with the whole buffer that they leave.
#[cfg(test)]
mod tests {
    use bytecode::refusal::Report;
    use source::Source;
    use source::hex::{HexText, Position, TextFault};
    use source::loader::{LoadFault, load};
    use source::raw::Raw;
    use std::process::Abort;
    use std::test::Fail;

    // Loads `text` over eight bytes of AA, and compares how many were loaded and what the buffer holds then.
    fn loads(rt: &impl Abort, case: &str, text: &[u8], count: usize, after: [u8; 8]) {
        let mut buffer = [0xAA; 8];
        let answer = load(&mut HexText::new(text), &mut buffer).map_err(|fault| Report::from(
            &fault,
        ));
        assert_eq!(rt; (answer, buffer), (Ok(count), after), "{case}");
    }

    // The same where the text is refused: its number, line and column, and a buffer that is all zero.
    fn refuses(rt: &impl Abort, case: &str, text: &[u8], number: u8, line: usize, column: usize) {
        let mut buffer = [0xAA; 8];
        let answer = load(&mut HexText::new(text), &mut buffer).map_err(|fault| Report::from(
            &fault,
        ));
        let report = report(number, line, column);
        assert_eq!(rt; (answer, buffer), (Err(report), [0; 8]), "{case}");
    }

    fn report(number: u8, first: usize, second: usize) -> Report {
        Report {
            number,
            first,
            second,
        }
    }

    #[test]
    fn texts_that_load(rt: HostRuntime) {
        loads(&rt, "empty", b"", 0, [0xAA; 8]);
        loads(&rt, "blanks alone", b" \t\r\n", 0, [0xAA; 8]);
        loads(
            &rt,
            "a comment that ends with the text",
            b"# nothing",
            0,
            [0xAA; 8],
        );
        loads(
            &rt,
            "both cases",
            b"C0c0fFEe",
            4,
            [0xC0, 0xC0, 0xFF, 0xEE, 0xAA, 0xAA, 0xAA, 0xAA],
        );
        loads(
            &rt,
            "first and last digits",
            b"09 AF\taf",
            3,
            [0x09, 0xAF, 0xAF, 0xAA, 0xAA, 0xAA, 0xAA, 0xAA],
        );
        loads(
            &rt,
            "0D 0A",
            b"12\r\n34\r\n",
            2,
            [0x12, 0x34, 0xAA, 0xAA, 0xAA, 0xAA, 0xAA, 0xAA],
        );
        loads(
            &rt,
            "only 0A ends a comment",
            b"12# 34\r56\n78#",
            2,
            [0x12, 0x78, 0xAA, 0xAA, 0xAA, 0xAA, 0xAA, 0xAA],
        );
        loads(
            &rt,
            "full",
            b"0102030405060708",
            8,
            [1, 2, 3, 4, 5, 6, 7, 8],
        );
        loads(
            &rt,
            "full, then blanks and a comment",
            b"0102030405060708 \t# full\n",
            8,
            [1, 2, 3, 4, 5, 6, 7, 8],
        );
    }

    #[test]
    fn texts_that_are_refused(rt: HostRuntime) {
        refuses(&rt, "a digit before a blank", b"12 C 0", 2, 1, 4);
        refuses(&rt, "before a comment", b"12 C#0", 2, 1, 4);
        refuses(&rt, "before a bad character", b"12 CG", 2, 1, 4);
        refuses(&rt, "at the end", b"12C", 2, 1, 3);
        refuses(&rt, "before a line's end", b"12\nC\n0", 2, 2, 1);
        refuses(&rt, "a bad character", b"12\r\n# x\n\t:", 1, 3, 2);
        refuses(&rt, "0D ends no line", b"12\r34\rx", 1, 1, 7);
        refuses(&rt, "a byte past ASCII", b"\x80", 1, 1, 1);
        refuses(&rt, "full, then a byte", b"0102030405060708\n 09", 3, 2, 2);
        refuses(&rt, "full, then a digit", b"0102030405060708 9", 2, 1, 18);
        refuses(
            &rt,
            "full, then a bad character",
            b"0102030405060708 x",
            1,
            1,
            18,
        );
    }

    #[test]
    fn sources_step_by_step(rt: HostRuntime) {
        let mut text = HexText::new(b"# a\n 0A z");
        assert!(rt; matches!(text.place(), Some(Position { line: 2, column: 2 })));
        assert!(rt; matches!(text.next(), Ok(Some(10))));
        assert!(rt; matches!(text.place(), None));
        assert!(rt;
            matches!(
                text.next(),
                Err(TextFault::BadCharacter(Position { line: 2, column: 5 }))
            )
        );
        assert!(rt;
            matches!(
                text.next(),
                Err(TextFault::BadCharacter(Position { line: 2, column: 5 }))
            )
        );
        let mut raw = Raw::new(&[7, 8]);
        assert!(rt; matches!(raw.next(), Ok(Some(7))));
        assert!(rt; matches!(raw.place(), Some(1)));
        assert!(rt; matches!(raw.next(), Ok(Some(8))));
        assert!(rt; matches!(raw.place(), None));
        assert!(rt; matches!(raw.next(), Ok(None)));
        assert!(rt; matches!(raw.next(), Ok(None)));
    }

    #[test]
    fn raw_bytes(rt: HostRuntime) {
        let mut buffer = [0xAA; 3];
        assert!(rt; matches!(load(&mut Raw::new(&[1, 2]), &mut buffer), Ok(2)));
        assert_eq!(rt; buffer, [1, 2, 0xAA]);
        let answer = load(&mut Raw::new(&[1, 2, 3, 4]), &mut buffer).map_err(|fault| Report::from(
            &fault,
        ));
        assert_eq!(rt; (answer, buffer), (Err(report(3, 0, 3)), [0; 3]));
    }

    fn filled_with(bytes: &[u8], value: u8) -> bool {
        bytes.iter().all(|b| *b == value)
    }

    // A text of `digits` digits 1 over a buffer of `size` bytes AA: how many bytes of 11, or the fault with a zero buffer.
    fn many(
        rt: &(impl Abort + AllocGlobal),
        case: &str,
        digits: usize,
        size: usize,
        loaded: Result<usize, Report>,
    ) -> Result<(), Fail> {
        let text = vec![in rt.alloc(); b'1'; digits]?;
        let mut buffer = vec![in rt.alloc(); 0xAAu8; size]?;
        let bytes = buffer.as_mut_slice();
        let answer = load(&mut HexText::new(&text), bytes).map_err(|fault| Report::from(&fault));
        assert_eq!(rt; answer, loaded, "{case}");
        match answer {
            Ok(n) => {
                assert!(rt; n <= bytes.len(), "{case}");
                assert!(rt; filled_with(&bytes[..n], 0x11), "{case}");
                assert!(rt; filled_with(&bytes[n..], 0xAA), "{case}");
            }
            Err(_) => assert!(rt; filled_with(bytes, 0), "{case}"),
        }
        Ok(())
    }

    #[test]
    fn limits(rt: HostRuntime) -> Result<(), Fail> {
        many(&rt, "no buffer", 0, 0, Ok(0))?;
        many(&rt, "no buffer, a byte", 2, 0, Err(report(3, 1, 1)))?;
        many(&rt, "a short buffer, full", 200, 100, Ok(100))?;
        many(
            &rt,
            "a short buffer, one too many",
            202,
            100,
            Err(report(3, 1, 201)),
        )?;
        many(&rt, "the limit", 32768, 16384, Ok(16384))?;
        many(&rt, "the limit in a longer buffer", 32768, 16400, Ok(16384))?;
        many(
            &rt,
            "the limit, then a digit",
            32769,
            16400,
            Err(report(2, 1, 32769)),
        )?;
        many(
            &rt,
            "one past the limit",
            32770,
            16400,
            Err(report(3, 1, 32769)),
        )
    }
}
