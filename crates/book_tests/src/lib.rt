//! Books and what reading them answers: a table of texts, and some books that are too long to write out; and books as
//! files.
#![tactic(auto)]

#[cfg(test)]
mod files;

#[cfg(test)]
mod tests {
    use book::{Board, Book, BookFault, Unknown};
    use std::process::Abort;
    use std::test::Fail;

    // Nothing where the book is accepted, or the number and the line of its fault.
    type Judged = Result<(), (u8, usize)>;

    fn judge(text: &[u8]) -> Judged {
        Book::read(text)
            .map(|_| ())
            .map_err(|fault| (fault.number(), fault.line()))
    }

    // a text, the number of its fault, and the line
    type Case = (&'static [u8], u8, usize);

    fn run(rt: &impl Abort, cases: &[Case]) {
        for (text, number, line) in cases {
            assert_eq!(rt; judge(text), Err((*number, *line)));
        }
    }

    #[test]
    fn good_books(rt: HostRuntime) {
        let texts: [&'static [u8]; 12] = [
            b"",
            b"\n",
            b"\n\n\n",
            b"(keys 0 0)\n",
            b"(keys 15 128)\n(rank 15 128)\n",
            b"(keys 3 61)\n(rank 3 61)\n",
            b"(knob 0 2 0)\n(knob 63 16 15)\n",
            b"(piston 0 0 0)\n(piston 39 0 63)\n",
            b"(piston 1 63 63)\n",
            b"(wire 1 0 0 0 0 0 0 0)\n",
            b"(wire 2 9999 9999 9999 9999 -9999 9999 9999)\n",
            b"\n(keys 0 61)\n\n(rank 0 73)\n\n",
        ];
        for text in texts {
            assert_eq!(rt; judge(text), Ok(()));
        }
    }

    // A byte that no book holds comes before everything else in its line.
    #[test]
    fn bytes(rt: HostRuntime) {
        let cases: [Case; 10] = [
            (b"K", 32, 1),
            (b"(keys 0 61)\r\n", 32, 1),
            (b"\r\n", 32, 1),
            (b"(Keys 0 61)\n", 32, 1),
            (b"(keys 0\t61)\n", 32, 1),
            (b"(keys 0 61)#\n", 32, 1),
            (b"\n\n; a note\n", 32, 3),
            (b"(keys 99 61 1 -0  \xff\n", 32, 1),
            (b"(keys 0 61)\n(keys 0 61)\n(keys +1 61)", 36, 2),
            (b"(keys 0 61)\n(keys +1 61)", 32, 2),
        ];
        run(&rt, &cases);
    }

    // It is said where in its line the first such byte stands.
    #[test]
    fn places(rt: HostRuntime) {
        let cases: [(&'static [u8], usize, usize); 4] = [
            (b"K", 1, 0),
            (b"(keys 0 61)\r\n", 1, 11),
            (b"\n\n; a note\n", 3, 0),
            (b"(keys 0 61)\n(knob\t#", 2, 5),
        ];
        for (text, line, at) in cases {
            assert_eq!(rt; Book::read(text).err(), Some(BookFault::Byte { line, at }));
        }
    }

    #[test]
    fn shapes(rt: HostRuntime) {
        let cases: [Case; 24] = [
            (b"(keys 0 61)", 33, 1),
            (b"\n(keys 0 61)\n ", 33, 3),
            (b" \n", 33, 1),
            (b"keys 0 61\n", 33, 1),
            (b"(keys 0 61\n", 33, 1),
            (b"keys 0 61)\n", 33, 1),
            (b"()\n", 33, 1),
            (b"(0 61)\n", 33, 1),
            (b"( keys 0 61)\n", 33, 1),
            (b"(keys  0 61)\n", 33, 1),
            (b"(keys 0  61)\n", 33, 1),
            (b"(keys 0 61 )\n", 33, 1),
            (b"(keys 0 61) \n", 33, 1),
            (b" (keys 0 61)\n", 33, 1),
            (b"(keys 0 61))\n", 33, 1),
            (b"(keys 0 61)(keys 1 61)\n", 33, 1),
            (b"(keys -0 61)\n", 33, 1),
            (b"(keys 00 61)\n", 33, 1),
            (b"(keys 0 061)\n", 33, 1),
            (b"(keys 0 10000)\n", 33, 1),
            (b"(keys 0 -)\n", 33, 1),
            (b"(keys 0 6-1)\n", 33, 1),
            (b"(keys 0 --61)\n", 33, 1),
            (b"(keys 0 six)\n", 33, 1),
        ];
        run(&rt, &cases);
    }

    #[test]
    fn forms(rt: HostRuntime) {
        let cases: [Case; 12] = [
            (b"(key 0 61)\n", 34, 1),
            (b"(keyss 0 61)\n", 34, 1),
            (b"(stop 0 61)\n", 34, 1),
            (b"(keys)\n", 34, 1),
            (b"(keys 0)\n", 34, 1),
            (b"(keys 0 61 1)\n", 34, 1),
            (b"(rank 0)\n", 34, 1),
            (b"(knob 0 2)\n", 34, 1),
            (b"(piston 0 0 0 0)\n", 34, 1),
            (b"(wire 1 0 0 0 0 0 0)\n", 34, 1),
            (b"(wire 1 0 0 0 0 0 0 0 0)\n", 34, 1),
            (b"(keys 9999 -9999 0 0 0 0 0 0 0 0 0 0)\n", 34, 1),
        ];
        run(&rt, &cases);
    }

    #[test]
    fn ranges(rt: HostRuntime) {
        let cases: [Case; 24] = [
            (b"(keys 16 61)\n", 35, 1),
            (b"(keys 0 129)\n", 35, 1),
            (b"(keys -1 61)\n", 35, 1),
            (b"(keys 0 -1)\n", 35, 1),
            (b"(rank 16 0)\n", 35, 1),
            (b"(rank 0 129)\n", 35, 1),
            (b"(knob 64 2 0)\n", 35, 1),
            (b"(knob 0 1 0)\n", 35, 1),
            (b"(knob 0 17 0)\n", 35, 1),
            (b"(knob 0 2 2)\n", 35, 1),
            (b"(knob 0 2 -1)\n", 35, 1),
            (b"(piston 40 0 0)\n", 35, 1),
            (b"(piston 0 1 0)\n", 35, 1),
            (b"(piston 0 0 64)\n", 35, 1),
            (b"(piston 0 -1 0)\n", 35, 1),
            (b"(wire 0 0 0 0 0 0 0 0)\n", 35, 1),
            (b"(wire 3 0 0 0 0 0 0 0)\n", 35, 1),
            (b"(wire 1 -1 0 0 0 0 0 0)\n", 35, 1),
            (b"(wire 1 0 -1 0 0 0 0 0)\n", 35, 1),
            (b"(wire 1 0 0 -1 0 0 0 0)\n", 35, 1),
            (b"(wire 1 0 0 0 -1 0 0 0)\n", 35, 1),
            (b"(wire 1 0 0 0 0 0 -1 0)\n", 35, 1),
            (b"(wire 1 0 0 0 0 0 0 -1)\n", 35, 1),
            (b"(keys 0 61)\n(keys 0 129)\n", 35, 2),
        ];
        run(&rt, &cases);
    }

    // A row that is given with reach 0 is given too. The first faulty line decides.
    #[test]
    fn repeats(rt: HostRuntime) {
        let cases: [Case; 9] = [
            (b"(keys 0 61)\n(keys 0 61)\n", 36, 2),
            (b"(keys 0 0)\n(keys 0 61)\n", 36, 2),
            (b"(rank 3 61)\n\n(rank 3 0)\n", 36, 3),
            (b"(keys 0 61)\n(rank 0 61)\n(keys 0 1)\n", 36, 3),
            (b"(knob 5 2 0)\n(knob 5 3 1)\n", 36, 2),
            (b"(piston 7 0 0)\n(piston 7 1 1)\n", 36, 2),
            (b"(keys 0 61)\n(keys 0 61)\n(key)\n", 36, 2),
            (b"(keys 16 61)\n(keys 0 61\n", 35, 1),
            (b"(key 16 61)\n(KEYS)\n", 34, 1),
        ];
        run(&rt, &cases);
    }

    #[test]
    fn long_books(rt: HostRuntime) -> Result<(), Fail> {
        let heap = rt.alloc();
        let full = b"\n".repeat(heap, 65536)?;
        assert_eq!(rt; judge(full.as_slice()), Ok(()));
        let more = b"\n".repeat(heap, 65537)?;
        assert_eq!(rt; judge(more.as_slice()), Err((31, 0)));
        let bad = b"?".repeat(heap, 65537)?;
        assert_eq!(rt; judge(bad.as_slice()), Err((31, 0)));
        let mut late = b"\n".repeat(heap, 65535)?;
        late.push(b'?')?;
        assert_eq!(rt; judge(late.as_slice()), Err((32, 65536)));
        Ok(())
    }

    #[test]
    fn many_wires(rt: HostRuntime) -> Result<(), Fail> {
        let heap = rt.alloc();
        let full = b"(wire 1 0 0 0 0 0 0 0)\n".repeat(heap, 256)?;
        assert_eq!(rt; judge(full.as_slice()), Ok(()));
        let more = b"(wire 2 0 0 0 0 0 0 0)\n".repeat(heap, 257)?;
        assert_eq!(rt; judge(more.as_slice()), Err((36, 257)));
        Ok(())
    }

    #[test]
    fn boards(rt: HostRuntime) {
        assert_eq!(rt; Board::try_from(1), Ok(Board::Coupler));
        assert_eq!(rt; Board::try_from(2), Ok(Board::Stop));
        assert_eq!(rt; Board::try_from(3), Err(Unknown));
    }

    #[test]
    fn a_record(rt: HostRuntime) -> Result<(), Fail> {
        let text =
            b"(keys 1 61)\n(rank 2 73)\n(knob 4 3 1)\n(piston 5 1 4)\n\n(wire 2 1 0 60 2 -12 4 2)\n";
        let book = Book::read(text)?;
        assert_eq!(rt; book.keys(1), 61);
        assert_eq!(rt; book.keys(2), 0);
        assert_eq!(rt; book.keys(16), 0);
        assert_eq!(rt; book.pipes(2), 73);
        assert_eq!(rt; book.pipes(1), 0);
        assert!(rt; book.knob(0).is_none());
        assert_eq!(rt; book.knob(4).ok_or("no knob")?.home, 1);
        assert_eq!(rt; book.scope(5).ok_or("no piston")?.highest, 4);
        assert_eq!(rt; book.wires_on(Board::Coupler), 0);
        assert_eq!(rt; book.wires_on(Board::Stop), 1);
        let wire = *book.wires().first().ok_or("no wire")?;
        assert_eq!(rt; wire.line, 6);
        assert_eq!(rt; wire.board, Board::Stop);
        assert_eq!(rt; wire.wire.shift, -12);
        assert_eq!(rt; wire.wire.highest, 60);
        Ok(())
    }
}
