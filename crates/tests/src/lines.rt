// Tests of the crate `text`.
#[cfg(test)]
mod tests {
    use std::alloc::{AllocError, Global};
    use std::test::Fail;
    use text::{
        Command, LineError, Lines, append_bytes, append_chain, append_element, append_ill,
        append_none, append_rejection, append_unreadable, read_line,
    };

    // A command in words.
    fn describe(heap: Global, line: &[u8]) -> Result<Vec<u8>, AllocError> {
        let mut out = Vec::new(heap);
        match read_line(heap, line) {
            Err(LineError::Unreadable) => append_none(&mut out)?,
            Err(LineError::Memory(error)) => return Err(error),
            Ok(Command::Nothing) => out.extend_from_slice(b"nothing\n")?,
            Ok(Command::Paper(bytes)) => {
                out.extend_from_slice(b"paper ")?;
                append_bytes(&mut out, bytes.as_slice())?;
            }
            Ok(Command::Seals(marks)) => {
                out.extend_from_slice(b"seals ")?;
                append_bytes(&mut out, marks.as_slice())?;
            }
            Ok(Command::Trusted(marks)) => {
                out.extend_from_slice(b"trusted ")?;
                append_bytes(&mut out, marks.as_slice())?;
            }
            Ok(Command::Piece { paper, path }) => {
                out.extend_from_slice(b"piece\n")?;
                append_ill(&mut out, paper)?;
                for w in path.iter() {
                    append_ill(&mut out, *w)?;
                }
            }
            Ok(Command::Chain { first, day }) => append_rejection(&mut out, first, day)?,
        }
        Ok(out)
    }

    #[test]
    fn lines_say(rt: HostRuntime) -> Result<(), Fail> {
        let table: [(&[u8], &[u8]); 36] = [
            (b"", b"nothing\n"),
            (b" \t\r", b"nothing\n"),
            (b"# chain 1 day 2", b"nothing\n"),
            (b"  #\xff", b"nothing\n"),
            (b"paper", b"paper \n"),
            (b"paper 80 0A\t0b\r", b"paper 80 0a 0b\n"),
            (b"paper 800aFf", b"paper 80 0a ff\n"),
            (b"paper 800 a", b"none\n"),
            (b"paper 8", b"none\n"),
            (b"paper 0g", b"none\n"),
            (b"paper g0", b"none\n"),
            (b"paper 0/ 0: 0@ 0` 0G", b"none\n"),
            (b"\tpaper 00", b"paper 00\n"),
            (b"Paper 00", b"none\n"),
            (b"papers 00", b"none\n"),
            (b"pape", b"none\n"),
            (b"seals", b"seals \n"),
            (b"seals 0 1 255 0001", b"seals 00 01 ff 01\n"),
            (b"seals 256", b"none\n"),
            (b"seals 1 -1", b"none\n"),
            (b"seals 1 0x1", b"none\n"),
            (b"trusted 1 0", b"trusted 01 00\n"),
            (b"trusted 99999999999999999999999999", b"none\n"),
            (b"piece 7", b"piece\nill at 7\n"),
            (b"piece 7 0 3", b"piece\nill at 7\nill at 0\nill at 3\n"),
            (b"piece", b"none\n"),
            (
                b"piece 18446744073709551615",
                b"piece\nill at 18446744073709551615\n",
            ),
            (b"piece 18446744073709551616", b"none\n"),
            (b"piece 184467440737095516150", b"none\n"),
            (b"piece 1 x", b"none\n"),
            (b"chain 3 day 20000", b"refused 3 at 20000\n"),
            (b"chain 3 day", b"none\n"),
            (b"chain 3 days 1", b"none\n"),
            (b"chain 3 day 1 1", b"none\n"),
            (b"chain day 1", b"none\n"),
            (b"\xff\xfe", b"none\n"),
        ];
        for (line, says) in table {
            let out = describe(rt.alloc(), line)?;
            assert_eq!(rt; out.as_slice(), says);
        }
        Ok(())
    }

    // The lines of a text, each in base sixteen.
    fn cut(heap: Global, text: &[u8]) -> Result<Vec<u8>, AllocError> {
        let mut out = Vec::new(heap);
        for line in Lines::new(text) {
            append_bytes(&mut out, line)?;
        }
        Ok(out)
    }

    #[test]
    fn texts_are_cut(rt: HostRuntime) -> Result<(), Fail> {
        let table: [(&[u8], &[u8]); 6] = [
            (b"", b""),
            (b"\n", b"\n"),
            (b"a", b"61\n"),
            (b"a\n", b"61\n"),
            (b"a\n\nb", b"61\n\n62\n"),
            (b"\na\r\n", b"\n61 0d\n"),
        ];
        for (text, lines) in table {
            let out = cut(rt.alloc(), text)?;
            assert_eq!(rt; out.as_slice(), lines);
        }
        Ok(())
    }

    #[test]
    fn answers_are_written(rt: HostRuntime) -> Result<(), Fail> {
        let mut out = Vec::new(rt.alloc());
        append_chain(&mut out, &[0, 2, 3])?;
        append_chain(&mut out, &[65535])?;
        append_none(&mut out)?;
        append_rejection(&mut out, 3, 7)?;
        append_unreadable(&mut out, 12)?;
        append_ill(&mut out, 0)?;
        append_ill(&mut out, 18446744073709551615)?;
        append_bytes(&mut out, &[2, 0, 255])?;
        append_element(&mut out, 0, 128, None)?;
        append_element(&mut out, 1, 1, Some(&[65, 171]))?;
        append_element(&mut out, 2, 2, Some(&[]))?;
        assert_eq!(rt;
            out.as_slice(),
            b"0 2 3\n65535\nnone\nrefused 3 at 7\nrefused 5 at 12\nill at 0\nill at 18446744073709551615\n02 00 ff\n80\n  01 41 ab\n    02\n".as_slice()
        );
        Ok(())
    }
}
