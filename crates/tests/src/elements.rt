// Elements, tried out: judged, found by paths, walked along and written.
#[cfg(test)]
mod tests {
    use element::{
        Cursor, Verdict, WriteError, append_constructed, append_primitive, judge, locate, piece,
    };
    use std::alloc::{AllocError, Global};
    use std::test::Fail;

    const LAST: u64 = 18_446_744_073_709_551_615;

    // A row of two elements: one with two within, and one of two bytes.
    const ROW: [u8; 11] = [128, 5, 1, 1, 65, 2, 0, 5, 2, 7, 8];

    // A tag, the bytes of a length, and contents.
    fn element(heap: Global, front: &[u8], contents: usize) -> Result<Vec<u8>, AllocError> {
        let mut bytes = Vec::from_slice(heap, front)?;
        bytes.resize(front.len().saturating_add(contents), 7)?;
        Ok(bytes)
    }

    // Constructed elements within one another, `depth` deep, and a primitive within the innermost.
    fn nested(heap: Global, depth: usize) -> Result<Vec<u8>, Fail> {
        let mut bytes = vec![in heap; 1, 0]?;
        for _ in 0..depth {
            let mut outer = vec![in heap; 200, (bytes.len() % 128) as u8]?;
            outer.extend_from_slice(&bytes)?;
            bytes = outer;
        }
        Ok(bytes)
    }

    #[test]
    fn judged(rt: HostRuntime) {
        let table: [(&[u8], Option<usize>); 20] = [
            (&[], None),
            (&ROW, None),
            (&[5, 0], None),
            (&[128, 0], None),
            (&[128, 3, 1, 1, 65], None),
            (&[255, 2, 127, 0], None),
            (&[5], Some(1)),
            (&[130], Some(1)),
            (&[128, 1], Some(1)),
            (&[128, 3, 128], Some(2)),
            (&[5, 129, 2, 7, 8], Some(2)),
            (&[5, 3, 7, 8], Some(4)),
            (&[5, 0, 5], Some(3)),
            (&[128, 1, 5], Some(1)),
            (&[128, 3, 1, 5, 65], Some(3)),
            (&[128, 3, 1, 1, 65, 9], Some(6)),
            (&[128, 4, 1, 1, 65, 9], Some(3)),
            (&[5, 131, 0, 0, 0], Some(1)),
            (&[5, 130, 0, 255], Some(2)),
            (&[5, 128], Some(1)),
        ];
        for (bytes, ill) in table {
            let verdict = ill.map_or(Verdict::Well, |at| Verdict::Ill { at });
            assert!(rt; judge(bytes) == verdict);
        }
    }

    #[test]
    fn lengths(rt: HostRuntime) -> Result<(), Fail> {
        let heap = rt.alloc();
        let table: [(&[u8], usize, bool); 14] = [
            (&[5, 0], 0, true),
            (&[5, 127], 127, true),
            (&[5, 128], 128, false),
            (&[5, 129, 127], 127, false),
            (&[5, 129, 128], 128, true),
            (&[5, 129, 255], 255, true),
            (&[5, 255], 255, false),
            (&[5, 130, 0, 255], 255, false),
            (&[5, 130, 1, 0], 256, true),
            (&[5, 130, 255, 255], 65_535, true),
            (&[5, 130, 255, 255], 65_534, false),
            (&[5, 130, 255, 255], 65_536, false),
            (&[5, 131, 1, 0, 0], 65_536, false),
            (&[5, 129], 0, false),
        ];
        for (front, contents, well) in table {
            let bytes = element(heap, front, contents)?;
            assert!(rt; (judge(bytes.as_slice()) == Verdict::Well) == well);
        }
        Ok(())
    }

    #[test]
    fn depths(rt: HostRuntime) -> Result<(), Fail> {
        let heap = rt.alloc();
        assert!(rt; judge(nested(heap, 0)?.as_slice()) == Verdict::Well);
        assert!(rt; judge(nested(heap, 8)?.as_slice()) == Verdict::Well);
        assert!(rt; judge(nested(heap, 9)?.as_slice()) != Verdict::Well);
        Ok(())
    }

    #[test]
    fn paths(rt: HostRuntime) {
        let malformed: &[u8] = &[128, 5, 1, 1, 65, 2, 0, 5, 2, 7];
        // The part, and where it begins, or nothing.
        let table: [(&[u8], &[u64], Option<(&[u8], usize)>); 9] = [
            (&ROW, &[0, 1], Some((&[2, 0], 5))),
            (&ROW, &[0], Some((&[128, 5, 1, 1, 65, 2, 0], 0))),
            (&ROW, &[1], Some((&[5, 2, 7, 8], 7))),
            (&ROW, &[1, 0], None),
            (&ROW, &[], None),
            (&ROW, &[2], None),
            (&ROW, &[LAST], None),
            (&ROW, &[0, LAST], None),
            (malformed, &[0], None),
        ];
        for (bytes, path, expected) in table {
            assert!(rt; piece(bytes, path) == expected.map(|(part, _)| part));
            let span = locate(bytes, path).map(|span| (span.at, span.len));
            assert!(rt; span == expected.map(|(part, at)| (at, part.len())));
        }
    }

    #[test]
    fn walked(rt: HostRuntime) {
        let elements = Cursor::new(&ROW).map(|element| (
            element.tag,
            element.at,
            element.row().map(|row| row.is_empty()),
        ));
        assert!(rt; elements.eq([(128, 0, Some(false)), (5, 7, None)]));
    }

    #[test]
    fn written(rt: HostRuntime) -> Result<(), Fail> {
        let heap = rt.alloc();
        let mut row = Vec::new(heap);
        append_primitive(&mut row, 1, &[65])?;
        append_primitive(&mut row, 2, &[])?;
        let mut out = Vec::new(heap);
        append_constructed(&mut out, 128, &row)?;
        append_primitive(&mut out, 5, &[7, 8])?;
        let other = append_primitive(&mut out, 128, &[]);
        assert!(rt; other == Err(WriteError::Tag));
        let plain = append_constructed(&mut out, 5, &[]);
        assert!(rt; plain == Err(WriteError::Tag));
        let short = append_constructed(&mut out, 128, &[5, 3, 7]);
        assert!(rt; short == Err(WriteError::Contents));
        let deep = append_constructed(&mut out, 128, nested(heap, 8)?.as_slice());
        assert!(rt; deep == Err(WriteError::Contents));
        let long = append_primitive(&mut out, 5, element(heap, &[], 65_536)?.as_slice());
        assert!(rt; long == Err(WriteError::Length));
        assert!(rt; out.as_slice() == ROW.as_slice());
        Ok(())
    }
}
