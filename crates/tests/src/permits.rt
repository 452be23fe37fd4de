// Permits, tried out: decoded and encoded.
#[cfg(test)]
mod tests {
    use certificate::{Certificate, decode, encode};
    use std::test::Fail;

    const SAMPLE: Certificate = Certificate {
        subject: 1,
        issuer: 2,
        not_before: 100,
        not_after: 200,
        may_issue: false,
        path_len: 0,
    };

    const ISSUING: Certificate = Certificate {
        subject: 256,
        issuer: 4_294_967_295,
        not_before: 0,
        not_after: 16_777_216,
        may_issue: true,
        path_len: 65_535,
    };

    #[test]
    fn decoded(rt: HostRuntime) {
        let table: [(&[u8], Option<Certificate>); 17] = [
            (
                b"\x80\x12\x01\x01\x01\x02\x01\x02\x03\x01\x64\x04\x01\xc8\x05\x01\x00\x06\x01\x00",
                Some(SAMPLE),
            ),
            (
                b"\x80\x1a\x01\x02\x01\x00\x02\x04\xff\xff\xff\xff\x03\x01\x00\x04\x04\x01\x00\x00\x00\x05\x01\x01\x06\x02\xff\xff",
                Some(ISSUING),
            ),
            // No bytes, and an end too soon.
            (b"", None),
            (
                b"\x80\x12\x01\x01\x01\x02\x01\x02\x03\x01\x64\x04\x01\xc8\x05\x01\x00\x06\x01",
                None,
            ),
            // A leading zero, no byte and five bytes for a number.
            (
                b"\x80\x13\x01\x02\x00\x01\x02\x01\x02\x03\x01\x64\x04\x01\xc8\x05\x01\x00\x06\x01\x00",
                None,
            ),
            (
                b"\x80\x11\x01\x00\x02\x01\x02\x03\x01\x64\x04\x01\xc8\x05\x01\x00\x06\x01\x00",
                None,
            ),
            (
                b"\x80\x16\x01\x05\x01\x00\x00\x00\x00\x02\x01\x02\x03\x01\x64\x04\x01\xc8\x05\x01\x00\x06\x01\x00",
                None,
            ),
            // A field is missing, stands twice, or before another.
            (
                b"\x80\x0f\x01\x01\x01\x02\x01\x02\x03\x01\x64\x04\x01\xc8\x05\x01\x00",
                None,
            ),
            (
                b"\x80\x0f\x02\x01\x02\x03\x01\x64\x04\x01\xc8\x05\x01\x00\x06\x01\x00",
                None,
            ),
            (
                b"\x80\x15\x01\x01\x01\x01\x01\x01\x02\x01\x02\x03\x01\x64\x04\x01\xc8\x05\x01\x00\x06\x01\x00",
                None,
            ),
            (
                b"\x80\x15\x01\x01\x01\x02\x01\x02\x03\x01\x64\x04\x01\xc8\x05\x01\x00\x06\x01\x00\x06\x01\x00",
                None,
            ),
            (
                b"\x80\x12\x01\x01\x01\x02\x01\x02\x04\x01\xc8\x03\x01\x64\x05\x01\x00\x06\x01\x00",
                None,
            ),
            // A flag above 1, and one of two bytes.
            (
                b"\x80\x12\x01\x01\x01\x02\x01\x02\x03\x01\x64\x04\x01\xc8\x05\x01\x02\x06\x01\x00",
                None,
            ),
            (
                b"\x80\x13\x01\x01\x01\x02\x01\x02\x03\x01\x64\x04\x01\xc8\x05\x02\x00\x01\x06\x01\x00",
                None,
            ),
            // Another tag, a byte behind, an element behind.
            (
                b"\x81\x12\x01\x01\x01\x02\x01\x02\x03\x01\x64\x04\x01\xc8\x05\x01\x00\x06\x01\x00",
                None,
            ),
            (
                b"\x80\x12\x01\x01\x01\x02\x01\x02\x03\x01\x64\x04\x01\xc8\x05\x01\x00\x06\x01\x00\x00",
                None,
            ),
            (
                b"\x80\x12\x01\x01\x01\x02\x01\x02\x03\x01\x64\x04\x01\xc8\x05\x01\x00\x06\x01\x00\x07\x00",
                None,
            ),
        ];
        for (bytes, answer) in table {
            assert!(rt; decode(bytes) == answer);
        }
    }

    #[test]
    fn encoded(rt: HostRuntime) -> Result<(), Fail> {
        let heap = rt.alloc();
        let sample = encode(heap, &SAMPLE)?;
        assert!(rt;
            (sample.as_slice())
                == b"\x80\x12\x01\x01\x01\x02\x01\x02\x03\x01\x64\x04\x01\xc8\x05\x01\x00\x06\x01\x00".as_slice()
        );
        for number in [0, 255, 256, 65_535, 65_536, 16_777_216, 4_294_967_295] {
            let certificate = Certificate {
                subject: number,
                issuer: 1,
                not_before: number,
                not_after: number,
                may_issue: true,
                path_len: number,
            };
            let bytes = encode(heap, &certificate)?;
            assert!(rt; decode(bytes.as_slice()) == Some(certificate));
        }
        Ok(())
    }
}
