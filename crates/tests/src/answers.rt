// Tests of the crate `session`: a paper that is asked about many times, and writers that take little, are interrupted and fail. Whole texts are in tests/texts.
#[cfg(test)]
mod tests {
    use session::{AnswerError, answer_text};
    use std::alloc::Global;
    use std::io::{self, ErrorKind, Write};
    use std::test::Fail;

    // A writer that takes one byte a write, is interrupted before each, and fails when `room` bytes are taken.
    #[derive(Drop)]
    struct Narrow {
        taken: Vec<u8>,
        room: usize,
        interrupted: bool,
    }

    impl Write for Narrow {
        fn write(&mut self, bytes: &[u8]) -> io::Result<usize> {
            self.interrupted = !self.interrupted;
            if self.interrupted {
                return Err(io::Error::from(ErrorKind::Interrupted));
            }
            if self.taken.len() >= self.room {
                return Err(io::Error::from(ErrorKind::StorageFull));
            }
            match bytes {
                [] => Ok(0),
                [first, ..] => {
                    self.taken.push(*first)?;
                    Ok(1)
                }
            }
        }

        fn flush(&mut self) -> io::Result<()> {
            Ok(())
        }
    }

    // The answer of a text.
    fn answers(heap: Global, text: &[u8]) -> Result<Vec<u8>, AnswerError> {
        let mut out = Vec::new(heap);
        answer_text(heap, text, &mut out)?;
        Ok(out)
    }

    #[test]
    fn a_paper_asked_about_many_times(rt: HostRuntime) -> Result<(), Fail> {
        let heap = rt.alloc();
        let mut text = Vec::new(heap);
        let mut whole = Vec::new(heap);
        text.extend_from_slice(b"paper ")?;
        for _ in 0..150 {
            text.extend_from_slice(b"01020708")?;
            whole.extend_from_slice(b"01 07 08\n")?;
        }
        text.push(b'\n')?;
        for _ in 0..60 {
            text.extend_from_slice(b"piece 0 149\n")?;
            whole.extend_from_slice(b"01 02 07 08\n")?;
        }
        let said = answers(heap, &text)?;
        assert!(rt; said.as_slice() == whole.as_slice());
        Ok(())
    }

    #[test]
    fn each_paper_asked_about_many_times(rt: HostRuntime) -> Result<(), Fail> {
        let heap = rt.alloc();
        let mut text = Vec::new(heap);
        let mut whole = Vec::new(heap);
        for _ in 0..2 {
            text.extend_from_slice(b"paper ")?;
            for _ in 0..150 {
                text.extend_from_slice(b"01020708")?;
                whole.extend_from_slice(b"01 07 08\n")?;
            }
            text.push(b'\n')?;
        }
        for _ in 0..200 {
            text.extend_from_slice(b"piece 0 149\npiece 1 149\n")?;
            whole.extend_from_slice(b"01 02 07 08\n01 02 07 08\n")?;
        }
        text.extend_from_slice(b"trusted 1\nnonsense\npiece 0 150\npiece 2 0\nchain 0 day 1\n")?;
        whole.extend_from_slice(b"refused 5 at 403\nnone\nrefused 3 at 2\nrefused 1 at 0\n")?;
        let said = answers(heap, &text)?;
        assert!(rt; said.as_slice() == whole.as_slice());
        Ok(())
    }

    #[test]
    fn a_writer_that_fails(rt: HostRuntime) -> Result<(), Fail> {
        let heap = rt.alloc();
        let text = b"paper 010141\nseals 2\nchain 0 day 1\npiece 0 0\npiece 1 0\nnonsense\n";
        let whole = answers(heap, text)?;
        assert!(rt;
            whole.as_slice()
                == b"01 41\nrefused 1 at 0\n01 01 41\nrefused 3 at 1\nrefused 5 at 5\n".as_slice()
        );
        for room in 0..=whole.len() {
            let mut out = Narrow {
                taken: Vec::new(heap),
                room,
                interrupted: false,
            };
            match answer_text(heap, text, &mut out) {
                Ok(()) => assert!(rt; room == whole.len()),
                Err(AnswerError::Write(error)) => {
                    assert!(rt; error.kind() == ErrorKind::StorageFull);
                    assert!(rt; room < whole.len());
                }
                Err(AnswerError::Memory(_)) => assert!(rt; false),
            }
            assert!(rt; whole.as_slice().starts_with(out.taken.as_slice()));
            assert!(rt; out.taken.len() == room);
        }
        Ok(())
    }
}
