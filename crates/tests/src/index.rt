// The index of bytes: each path leads to what it leads to in the bytes.
#[cfg(test)]
mod tests {
    use element::{Index, Span, judge, locate};
    use std::alloc::AllocError;

    const NUMBERS: [u64; 4] = [0, 1, 2, 18_446_744_073_709_551_615];

    fn place_and_size(span: Option<Span>) -> Option<(usize, usize)> {
        span.map(|span| (span.at, span.len))
    }

    #[test]
    fn every_path(rt: HostRuntime) -> Result<(), AllocError> {
        let table: [&[u8]; 6] = [
            &[],
            &[128, 0, 5, 0],
            &[128, 5, 1, 1, 65, 2, 0, 5, 2, 7, 8],
            &[128, 8, 129, 4, 1, 0, 2, 0, 6, 0, 130, 2, 3, 0, 4, 0],
            &[128, 5, 1, 1, 65, 2, 0, 5, 2, 7],
            &[5, 0, 128, 1, 0],
        ];
        for bytes in table {
            let index = Index::new(rt.alloc(), bytes)?;
            assert!(rt; index.verdict() == judge(bytes));
            for first in NUMBERS {
                for second in NUMBERS {
                    for third in NUMBERS {
                        let path = [first, second, third];
                        for size in 0..=path.len() {
                            let path = &path[..size];
                            let there = place_and_size(locate(bytes, path));
                            assert!(rt; place_and_size(index.locate(path)) == there);
                        }
                    }
                }
            }
        }
        Ok(())
    }

    #[test]
    fn found(rt: HostRuntime) -> Result<(), AllocError> {
        let bytes: &[u8] = &[128, 8, 129, 4, 1, 0, 2, 0, 6, 0, 130, 2, 3, 0, 4, 0];
        let index = Index::new(rt.alloc(), bytes)?;
        let table: [(&[u64], Option<(usize, usize)>); 6] = [
            (&[0], Some((0, 10))),
            (&[0, 0, 1], Some((6, 2))),
            (&[0, 1], Some((8, 2))),
            (&[1, 0], Some((12, 2))),
            (&[2], Some((14, 2))),
            (&[2, 0], None),
        ];
        for (path, there) in table {
            assert!(rt; place_and_size(index.locate(path)) == there);
        }
        Ok(())
    }
}
