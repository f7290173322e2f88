//! Run files with the listings that they come to.

#![tactic(auto)]

#[cfg(test)]
mod tests {
    use report::report;
    use std::alloc::Global;
    use std::process::Abort;
    use std::test::Fail;

    // A name, the file's bytes, and its listing.
    type Case = (&'static str, &'static [u8], &'static str);

    fn check_all(rt: &impl Abort, alloc: Global, cases: &[Case]) -> Result<(), Fail> {
        for (name, file, listing) in cases {
            let text = report(alloc, file)?;
            assert_eq!(rt; text.as_slice(), listing.as_bytes(), "{}", name);
        }
        Ok(())
    }

    #[test]
    fn runs_of_one_core(rt: HostRuntime) -> Result<(), Fail> {
        let cases: [Case; 7] = [
            (
                "example",
                b"\x01\0\0\0\0\0\0\0\0\0\0\0\0\0\0\0\0\0\x05b\0s\0s\0s\0s\0s\0s\0s\0s\0s\0s\0s\0c\0\0\x13\0\x02\x01\0\0\0\0\0\0\x01",
                "o 0\nb 0 1\ns 0 0\ns 0 0\ns 0 0\ns 0 0\ns 0 0\ns 0 0\ns 0 0\ns 0 0\ns 0 0\ns 0 0\ns 0 1\nc 0 0\nw 5 0\n",
            ),
            (
                "eight entries greatest value",
                b"\x08\0\0\0\0\0\0\0\0\0\0\x1f\xff\xff\xff\xff\xff\xff\xff\0\x01\0\0\0\0\0\0\0\0\x1f\xff\xff\xff\xff\xff\xff\xfe\0\x02\0\0\0\0\0\0\0\0\x1f\xff\xff\xff\xff\xff\xff\xfd\0\x03\0\0\0\0\0\0\0\0\x1f\xff\xff\xff\xff\xff\xff\xfc\0\x04\0\0\0\0\0\0\0\0\x1f\xff\xff\xff\xff\xff\xff\xfb\0\x05\0\0\0\0\0\0\0\0\x1f\xff\xff\xff\xff\xff\xff\xfa\0\x06\0\0\0\0\0\0\0\0\x1f\xff\xff\xff\xff\xff\xff\xf9\0\x07\0\0\0\0\0\0\0\0\x1f\xff\xff\xff\xff\xff\xff\xf8b\0s\0s\0s\0s\0s\0s\0s\0s\0s\0s\0s\0s\0s\0s\0s\0s\0s\0s\0s\0s\0s\0s\0s\0s\0s\0s\0s\0s\0s\0s\0s\0s\0s\0s\0s\0s\0s\0s\0s\0s\0s\0s\0s\0s\0s\0s\0s\0s\0s\0s\0s\0s\0s\0s\0s\0s\0s\0s\0s\0s\0s\0s\0s\0s\0s\0s\0s\0s\0s\0s\0s\0s\0s\0s\0c\0\0\x91\0\x08\x01\0\0\0\0\0\0\x01",
                "o 0\nb 0 1\ns 0 0\ns 0 0\ns 0 0\ns 0 0\ns 0 0\ns 0 0\ns 0 0\ns 0 0\ns 0 0\ns 0 0\ns 0 0\ns 0 0\ns 0 0\ns 0 0\ns 0 0\ns 0 0\ns 0 0\ns 0 0\ns 0 0\ns 0 0\ns 0 0\ns 0 0\ns 0 0\ns 0 0\ns 0 0\ns 0 0\ns 0 0\ns 0 0\ns 0 0\ns 0 0\ns 0 0\ns 0 0\ns 0 0\ns 0 0\ns 0 0\ns 0 0\ns 0 0\ns 0 0\ns 0 0\ns 0 0\ns 0 0\ns 0 0\ns 0 0\ns 0 0\ns 0 0\ns 0 0\ns 0 0\ns 0 0\ns 0 0\ns 0 0\ns 0 0\ns 0 0\ns 0 0\ns 0 0\ns 0 0\ns 0 0\ns 0 0\ns 0 0\ns 0 0\ns 0 0\ns 0 0\ns 0 0\ns 0 0\ns 0 0\ns 0 0\ns 0 0\ns 0 0\ns 0 0\ns 0 0\ns 0 0\ns 0 0\ns 0 0\ns 0 0\ns 0 1\nc 0 0\nw 2305843009213693951 2305843009213693950 2305843009213693949 2305843009213693948 2305843009213693947 2305843009213693946 2305843009213693945 2305843009213693944\n",
            ),
            (
                "differs at entry 2",
                b"\x02\0\0\0\0\0\0\0\0\0\0\0\0\0\0\0\0\0\x05\0\x01\0\0\0\0\0\0\0\x07\0\0\0\0\0\0\0\x08b\0s\0s\0s\0s\0s\0s\0s\0s\0s\0s\0s\0s\0s\0s\0s\0s\0s\0c\0\0%\0\x02\x01\0\0\0\0\0\0\x01",
                "o 0\nb 0 1\ns 0 0\ns 0 0\ns 0 0\ns 0 0\ns 0 0\ns 0 0\ns 0 0\ns 0 0\ns 0 0\ns 0 0\ns 0 0\ns 0 0\ns 0 0\ns 0 0\ns 0 0\ns 0 0\ns 0 1\nc 0 2\nw 0 0\n",
            ),
            (
                "lists past 32 bits",
                b"\x01\0\0\0\0\0\0\0\0\0\0\0\0\0\0\0\0\0\x01\x01\0\0\0\0\0\0\0\0\0\x01\0\0\0\0\0\0\0\x02b\0s\0s\0s\0s\0s\0s\0s\0s\0s\0s\0s\0c\0b\0s\0s\0s\0s\0s\0s\0s\0s\0s\0s\0s\0c\0\0&\0\x01\x01\0\0\0\xff\xff\xff\xff",
                "o 0\nb 0 4294967295\ns 0 0\ns 0 0\ns 0 0\ns 0 0\ns 0 0\ns 0 0\ns 0 0\ns 0 0\ns 0 0\ns 0 0\ns 0 1\nc 0 0\nb 0 4294967296\ns 0 0\ns 0 0\ns 0 0\ns 0 0\ns 0 0\ns 0 0\ns 0 0\ns 0 0\ns 0 0\ns 0 0\ns 0 1\nc 0 0\nw 2\n",
            ),
            (
                "records left over",
                b"\0\0\0\x01\0\0\0\0\0\0\0\0\0\0\0\0\0\0\0\0\0\x05\0\x16\0\x01\x01\0\0\0\0\0\0\x01",
                "o 0\nw 0\n",
            ),
            (
                "closed under every mark",
                b"\x04\0\0\0\0\0\0\0\0\0\0\0\0\0\0\0\0\0\x05\0\x01\0\0\0\0\0\0\0\0\0\0\0\0\0\0\0\x06\0\x02\0\0\0\0\0\0\0\0\0\0\0\0\0\0\0\x07\0\x03\0\0\0\0\0\0\0\0\0\0\0\0\0\0\0\x08\x01\0\0\0\0\0\0\0\0\0\x05\0\0\0\0\0\0\02\x01\0\x01\0\0\0\0\0\0\0\x06\0\0\0\0\0\0\0<\x01\0\x02\0\0\0\0\0\0\0\x07\0\0\0\0\0\0\0F\x02\0\x03\0\0\0\0\0\0\0\x08\0\0\0\0\0\0\0P\0\x04\0\0\0\0\0\0\0\x01\0\0\0\0\0\0\0\x02b\0s\0s\0s\0s\0s\0s\0s\0s\0s\0s\0s\0s\0s\0s\0s\0s\0s\0s\0s\0s\0s\0s\0s\0s\0s\0s\0s\0s\0s\0s\0s\0s\0s\0s\0s\0s\0s\0s\0c\0b\0s\0s\0s\0s\0b\x01s\x01s\x01s\x01s\x01s\x01s\x01s\x01b\x02s\x02s\x02s\x02s\x02s\x02s\x02s\x02s\x02b\x03s\x03s\x03s\x03s\x03s\x03s\x03s\x03s\x03s\x03s\x03s\x03\0\xa7\0\x05\x04\0\0\0\0\0\0\x01",
                "o 0\nb 0 1\ns 0 0\ns 0 0\ns 0 0\ns 0 0\ns 0 0\ns 0 0\ns 0 0\ns 0 0\ns 0 0\ns 0 0\ns 0 0\ns 0 0\ns 0 0\ns 0 0\ns 0 0\ns 0 0\ns 0 0\ns 0 0\ns 0 0\ns 0 0\ns 0 0\ns 0 0\ns 0 0\ns 0 0\ns 0 0\ns 0 0\ns 0 0\ns 0 0\ns 0 0\ns 0 0\ns 0 0\ns 0 0\ns 0 0\ns 0 0\ns 0 0\ns 0 0\ns 0 0\ns 0 1\nc 0 0\nb 0 2\ns 0 0\ns 0 0\ns 0 0\ns 0 0\nb 1 1\ns 1 0\ns 1 0\ns 1 0\ns 1 0\ns 1 0\ns 1 0\ns 1 0\nb 2 1\ns 2 0\ns 2 0\ns 2 0\ns 2 0\ns 2 0\ns 2 0\ns 2 0\ns 2 0\nb 3 1\ns 3 0\ns 3 0\ns 3 0\ns 3 0\ns 3 0\ns 3 0\ns 3 0\ns 3 0\ns 3 0\ns 3 0\ns 3 0\nw 5 6 70 8 0\n",
            ),
            (
                "cores 6 and 7",
                b"\x01\0\0\0\0\0\0\0\0\0\0\0\0\0\0\0\0\0\x05\x01\0\0\0\0\0\0\0\0\0\x05\0\0\0\0\0\0\0\x06b\x07s\x07s\x07s\x07s\x07s\x07s\x07s\x07b\x06s\x06s\x06s\x06s\x06s\x06s\x06s\x06s\x06s\x06s\x06s\x06s\x06s\x06s\x06s\x06s\x06s\x06s\x06s\x06s\x06s\x06s\x06s\x06c\x06s\x07s\x07s\x07s\x07c\x07\0&\0\x01\x08\0\0\0\0\0\0\x01",
                "o 0\nb 7 1\ns 7 0\ns 7 0\ns 7 0\ns 7 0\ns 7 0\ns 7 0\ns 7 0\nb 6 1\ns 6 0\ns 6 0\ns 6 0\ns 6 0\ns 6 0\ns 6 0\ns 6 0\ns 6 0\ns 6 0\ns 6 0\ns 6 0\ns 6 0\ns 6 0\ns 6 0\ns 6 0\ns 6 0\ns 6 0\ns 6 0\ns 6 0\ns 6 0\ns 6 0\ns 6 0\ns 6 1\nc 6 0\ns 7 0\ns 7 0\ns 7 0\ns 7 1\nc 7 0\nw 6\n",
            ),
        ];
        check_all(&rt, rt.alloc(), &cases)
    }

    #[test]
    fn refused_openings(rt: HostRuntime) -> Result<(), Fail> {
        let cases: [Case; 6] = [
            (
                "no cores",
                b"\x01\0\0\0\0\0\0\0\0\0\0\0\0\0\0\0\0\0\x05b\0s\0s\0s\0s\0s\0s\0s\0s\0s\0s\0s\0c\0\0\x13\0\x01\0\0\0\0\0\0\0\x01",
                "o r3\n",
            ),
            ("nine cores", b"s\0\0\0\0\x01\x09\0\0\0\0\0\0\x01", "o r3\n"),
            (
                "first number 0",
                b"s\0\0\0\0\x01\x01\0\0\0\0\0\0\0",
                "o r3\n",
            ),
            ("no words", b"s\0\0\0\0\0\x01\0\0\0\0\0\0\x01", "o r3\n"),
            (
                "too much protected",
                b"s\0\0\0\0\x02\x01\0\0\x03\0\0\0\x01",
                "o r3\n",
            ),
            (
                "right of a core not there",
                b"s\0\0\0\0\x01\x01\x02\0\0\0\0\0\x01",
                "o r3\n",
            ),
        ];
        check_all(&rt, rt.alloc(), &cases)
    }

    #[test]
    fn refused_calls(rt: HostRuntime) -> Result<(), Fail> {
        let cases: [Case; 9] = [
            (
                "no core",
                b"\0\0\0\0\0\0s\x01c\x01h\x01b\x01s\xffb\0s\0c\0\0\x06\0\x01\x01\0\0\0\0\0\0\x01",
                "o 0\ns 1 r5\nc 1 r5\nh 1 r5\nb 1 r5\ns 255 r5\nb 0 1\ns 0 1\nc 0 0\nw 0\n",
            ),
            (
                "halted",
                b"\0\0\0\0\0\0h\0h\0s\0c\0b\0b\x01h\x01\0\x06\0\x01\x02\0\0\0\0\0\0\x01",
                "o 0\nh 0 0\nh 0 r6\ns 0 r6\nc 0 r6\nb 0 r6\nb 1 1\nh 1 0\nw 0\n",
            ),
            (
                "busy",
                b"\x01\0\0\0\0\0\0\0\0\0\0\0\0\0\0\0\0\0\x05\0\0\0\0\0\0\0\0\0b\0b\0s\0s\0s\0s\0s\0s\0s\0s\0s\0s\0s\0b\0c\0b\0\0\x1c\0\x01\x01\0\0\0\0\0\0\x01",
                "o 0\nb 0 1\nb 0 r7\ns 0 0\ns 0 0\ns 0 0\ns 0 0\ns 0 0\ns 0 0\ns 0 0\ns 0 0\ns 0 0\ns 0 0\ns 0 1\nb 0 r7\nc 0 0\nb 0 2\nw 5\n",
            ),
            (
                "at rest",
                b"\0\0\0s\0b\0s\0s\0c\0s\0\0\x03\0\x01\x01\0\0\0\0\0\0\x01",
                "o 0\ns 0 r8\nb 0 1\ns 0 1\ns 0 r8\nc 0 0\ns 0 r8\nw 0\n",
            ),
            (
                "unlawful lists",
                b"\x02\0\x02\0\0\0\0\0\0\0\0\0\0\0\0\0\0\0\0\0\x02\0\0\0\0\0\0\0\0\0\0\0\0\0\0\0\0\x02\0\x01\0\0\0\0\0\0\0\0\0\0\0\0\0\0\0\0\0\0\0\0\0\0\0\0\0\0\0\0\0\0\0\0\0\0\x01\0\0 \0\0\0\0\0\0\0\0\0\0\0\0\0\0\0\x01\0\0\0\0\0\0\0\0\0\0 \0\0\0\0\0\0\0\x02\0\0\0\0\0\0\0\0\0\0\0\0\0\0\0\0\0\0\0\x01\0\0\0\0\0\0\0\0\xff\xff\xff\xff\xff\xff\xff\xff\x01\0\0\0\0\0\0\0\0\0\0\0\0\0\0\0\0\0\x01b\0b\0b\0b\0b\0b\0\0\xa8\0\x03\x01\0\0\0\0\0\0\x01",
                "o 0\nb 0 r9\nb 0 r9\nb 0 r9\nb 0 r9\nb 0 r9\nb 0 1\nw 0 0 0\n",
            ),
            (
                "list before all else",
                b"\x01\0\x09 \0\0\0\0\0\0\0\0\0\0\0\0\0\0\0\0\0\0\x01\0\x09\0\0\0\0\0\0\0\0 \0\0\0\0\0\0\0\x01\0\0 \0\0\0\0\0\0\0\0\0\0\0\0\0\0\0b\x07b\0b\0h\0b\0\0<\0\x01\x01\x01\0\x01\0\0\0\x01",
                "o 0\nb 7 r9\nb 0 1\nb 0 r9\nh 0 0\nb 0 r9\nw 0\n",
            ),
            (
                "no word before no right",
                b"\x02\0\0\0\0\0\0\0\0\0\0\0\0\0\0\0\0\0\x01\0\x02\0\0\0\0\0\0\0\0\0\0\0\0\0\0\0\x01\x02\0\0\0\0\0\0\0\0\0\0\0\0\0\0\0\0\0\x01\0\x01\0\0\0\0\0\0\0\0\0\0\0\0\0\0\0\x01\0\0\0\0\0\x01b\0b\0b\0b\0\0P\0\x02\x01\0\0\x01\0\0\0\x01",
                "o 0\nb 0 r10\nb 0 r11\nb 0 r11\nb 0 1\nw 0 0\n",
            ),
            (
                "no right",
                b"\x01\0\0\0\0\0\0\0\0\0\0\0\0\0\0\0\0\0\x01\0\0\0\x01\0\0\0\0\0\0\0\0\0\0\0\0\0\0\0\0\0\x04\0\0\x01b\0b\0b\x01s\x01s\x01s\x01s\x01s\x01s\x01s\x01s\x01s\x01s\x01s\x01c\x01b\0\0,\0\x02\x02\x02\0\x01\0\0\0\x05",
                "o 0\nb 0 r11\nb 0 r11\nb 1 5\ns 1 0\ns 1 0\ns 1 0\ns 1 0\ns 1 0\ns 1 0\ns 1 0\ns 1 0\ns 1 0\ns 1 0\ns 1 1\nc 1 0\nb 0 5\nw 4 0\n",
            ),
            (
                "no answer",
                b"\x01\0\0\0\0\0\0\0\0\0\0\0\0\0\0\0\0\0\x05c\0b\0c\0s\0s\0s\0s\0s\0s\0s\0s\0s\0s\0c\0s\0c\0c\0\0\x13\0\x01\x01\0\0\0\0\0\0\x01",
                "o 0\nc 0 r13\nb 0 1\nc 0 r13\ns 0 0\ns 0 0\ns 0 0\ns 0 0\ns 0 0\ns 0 0\ns 0 0\ns 0 0\ns 0 0\ns 0 0\nc 0 r13\ns 0 1\nc 0 0\nc 0 r13\nw 5\n",
            ),
        ];
        check_all(&rt, rt.alloc(), &cases)
    }

    #[test]
    fn a_start_refused_while_a_helper_is_halfway(rt: HostRuntime) -> Result<(), Fail> {
        let cases: [Case; 4] = [
            (
                "helped through a refused start",
                b"\x01\0\0\0\0\0\0\0\0\0\0\0\0\0\0\0\0\0\x05\0\0\0\0\0\0\x01\0\0\0\0\0\0\0\0\0\0\0\0\0\0\0\0\0\x07\0\0\0\0\0\0b\0s\0s\0s\0s\0s\0s\0s\0b\x01s\x01s\x01s\x01s\x01h\x01b\0b\0b\x02s\x02s\x02s\x02s\x02s\x02s\x02s\x02s\x02s\x02s\x02c\x02s\0s\0s\0s\0c\0b\0s\0c\0\02\0\x01\x03\0\0\0\0\0\0\x01",
                "o 0\nb 0 1\ns 0 0\ns 0 0\ns 0 0\ns 0 0\ns 0 0\ns 0 0\ns 0 0\nb 1 1\ns 1 0\ns 1 0\ns 1 0\ns 1 0\nh 1 0\nb 0 r7\nb 0 r7\nb 2 1\ns 2 0\ns 2 0\ns 2 0\ns 2 0\ns 2 0\ns 2 0\ns 2 0\ns 2 0\ns 2 0\ns 2 1\nc 2 5\ns 0 0\ns 0 0\ns 0 0\ns 0 1\nc 0 0\nb 0 2\ns 0 1\nc 0 5\nw 5\n",
            ),
            (
                "helper goes on through a refused start",
                b"\x01\0\0\0\0\0\0\0\0\0\0\0\0\0\0\0\0\0\x05\0\0\0\0\0\0\x01\0\0\0\0\0\0\0\0\0\x05\0\0\0\0\0\0\0\x06b\0s\0s\0s\0s\0s\0s\0s\0b\x01s\x01s\x01s\x01s\x01b\0s\x01s\x01s\x01s\x01s\x01s\x01c\x01s\0s\0s\0s\0c\0b\0\0,\0\x01\x02\0\0\0\0\0\0\x01",
                "o 0\nb 0 1\ns 0 0\ns 0 0\ns 0 0\ns 0 0\ns 0 0\ns 0 0\ns 0 0\nb 1 1\ns 1 0\ns 1 0\ns 1 0\ns 1 0\nb 0 r7\ns 1 0\ns 1 0\ns 1 0\ns 1 0\ns 1 0\ns 1 1\nc 1 5\ns 0 0\ns 0 0\ns 0 0\ns 0 1\nc 0 0\nb 0 2\nw 5\n",
            ),
            (
                "busy helper start refused",
                b"\x01\0\0\0\0\0\0\0\0\0\0\0\0\0\0\0\0\0\x05\0\0\0\x01\0\0\0\0\0\0\0\0\0\x05\0\0\0\0\0\0\0\x06\0\0\0b\0s\0s\0s\0s\0s\0s\0s\0b\x01s\x01s\x01s\x01s\x01b\x01s\x01s\x01s\x01s\x01s\x01s\x01c\x01b\x01s\x01c\x01s\0s\0s\0s\0c\0\0,\0\x01\x02\0\0\0\0\0\0\x01",
                "o 0\nb 0 1\ns 0 0\ns 0 0\ns 0 0\ns 0 0\ns 0 0\ns 0 0\ns 0 0\nb 1 1\ns 1 0\ns 1 0\ns 1 0\ns 1 0\nb 1 r7\ns 1 0\ns 1 0\ns 1 0\ns 1 0\ns 1 0\ns 1 1\nc 1 5\nb 1 2\ns 1 1\nc 1 5\ns 0 0\ns 0 0\ns 0 0\ns 0 1\nc 0 0\nw 5\n",
            ),
            (
                "halted helper leaves its placing",
                b"\x02\0\0\0\0\0\0\0\0\0\0\0\0\0\0\0\0\0\x05\0\x01\0\0\0\0\0\0\0\0\0\0\0\0\0\0\0\x06\0\0\0\0\0\0\0\0\0b\0s\0s\0s\0s\0s\0s\0s\0b\x01s\x01s\x01s\x01s\x01s\x01s\x01s\x01s\x01h\x01b\0b\x01s\0s\0s\0s\0s\0s\0s\0s\0s\0s\0s\0s\0s\0s\0c\0\0.\0\x02\x02\0\0\0\0\0\0\x01",
                "o 0\nb 0 1\ns 0 0\ns 0 0\ns 0 0\ns 0 0\ns 0 0\ns 0 0\ns 0 0\nb 1 1\ns 1 0\ns 1 0\ns 1 0\ns 1 0\ns 1 0\ns 1 0\ns 1 0\ns 1 0\nh 1 0\nb 0 r7\nb 1 r6\ns 0 0\ns 0 0\ns 0 0\ns 0 0\ns 0 0\ns 0 0\ns 0 0\ns 0 0\ns 0 0\ns 0 0\ns 0 0\ns 0 0\ns 0 0\ns 0 1\nc 0 0\nw 5 6\n",
            ),
        ];
        check_all(&rt, rt.alloc(), &cases)
    }

    #[test]
    fn cores_help_each_other(rt: HostRuntime) -> Result<(), Fail> {
        let cases: [Case; 6] = [
            (
                "step by step in turn",
                b"\x01\0\0\0\0\0\0\0\0\0\0\0\0\0\0\0\0\0\x05\x01\0\0\0\0\0\0\0\0\0\0\0\0\0\0\0\0\0\x07b\0b\x01s\0s\x01s\0s\x01s\0s\x01s\0s\x01s\0s\x01s\0s\x01s\0s\x01s\0s\x01s\0s\x01s\0s\x01s\0s\x01s\x01s\x01s\x01s\x01s\x01s\x01s\x01s\x01s\x01c\0c\x01\0&\0\x01\x02\0\0\0\0\0\0\x01",
                "o 0\nb 0 1\nb 1 1\ns 0 0\ns 1 0\ns 0 0\ns 1 0\ns 0 0\ns 1 0\ns 0 0\ns 1 0\ns 0 0\ns 1 0\ns 0 0\ns 1 0\ns 0 0\ns 1 0\ns 0 0\ns 1 0\ns 0 0\ns 1 0\ns 0 0\ns 1 0\ns 0 1\ns 1 0\ns 1 0\ns 1 0\ns 1 0\ns 1 0\ns 1 0\ns 1 0\ns 1 0\ns 1 0\ns 1 1\nc 0 0\nc 1 1\nw 5\n",
            ),
            (
                "list helps",
                b"\x02\0\0\0\0\0\0\0\0\0\0\0\0\0\0\0\0\0\x05\0\x01\0\0\0\0\0\0\0\0\0\0\0\0\0\0\0\x06\x01\0\0\0\0\0\0\0\0\0\0\0\0\0\0\0\0\0\x07b\0s\0s\0s\0s\0s\0s\0s\0b\x01s\x01s\x01s\x01s\x01s\x01s\x01s\x01s\x01s\x01s\x01s\x01s\x01s\x01s\x01s\x01s\x01s\x01s\x01s\x01s\x01s\x01s\x01s\x01s\x01s\x01s\x01s\x01s\x01s\x01c\x01s\0s\0s\0s\0s\0s\0s\0s\0s\0s\0c\0\08\0\x02\x02\0\0\0\0\0\0\x01",
                "o 0\nb 0 1\ns 0 0\ns 0 0\ns 0 0\ns 0 0\ns 0 0\ns 0 0\ns 0 0\nb 1 1\ns 1 0\ns 1 0\ns 1 0\ns 1 0\ns 1 0\ns 1 0\ns 1 0\ns 1 0\ns 1 0\ns 1 0\ns 1 0\ns 1 0\ns 1 0\ns 1 0\ns 1 0\ns 1 0\ns 1 0\ns 1 0\ns 1 0\ns 1 0\ns 1 0\ns 1 0\ns 1 0\ns 1 0\ns 1 0\ns 1 0\ns 1 0\ns 1 0\ns 1 1\nc 1 1\ns 0 0\ns 0 0\ns 0 0\ns 0 0\ns 0 0\ns 0 0\ns 0 0\ns 0 0\ns 0 0\ns 0 1\nc 0 0\nw 5 6\n",
            ),
            (
                "read settles and helps",
                b"\x01\0\0\0\0\0\0\0\0\0\0\0\0\0\0\0\0\0\x05\0\0\0b\0s\0s\0s\0s\0b\x01s\x01s\x01s\x01s\x01s\x01s\x01s\x01s\x01s\x01s\x01s\x01s\x01s\x01s\x01c\x01s\0s\0s\0s\0s\0s\0s\0c\0\0\x16\0\x01\x02\0\0\0\0\0\0\x01",
                "o 0\nb 0 1\ns 0 0\ns 0 0\ns 0 0\ns 0 0\nb 1 1\ns 1 0\ns 1 0\ns 1 0\ns 1 0\ns 1 0\ns 1 0\ns 1 0\ns 1 0\ns 1 0\ns 1 0\ns 1 0\ns 1 0\ns 1 0\ns 1 1\nc 1 5\ns 0 0\ns 0 0\ns 0 0\ns 0 0\ns 0 0\ns 0 0\ns 0 1\nc 0 0\nw 5\n",
            ),
            (
                "help needs no right",
                b"\x02\0\0\0\0\0\0\0\0\0\0\0\0\0\0\0\0\0\x05\0\x01\0\0\0\0\0\0\0\0\0\0\0\0\0\0\0\x06\0\0\0\0\0\x01b\0s\0s\0s\0s\0s\0s\0s\0s\0s\0s\0s\0s\0s\0b\x01b\x01s\x01s\x01s\x01s\x01s\x01s\x01s\x01s\x01s\x01s\x01s\x01s\x01s\x01s\x01s\x01s\x01c\x01s\0s\0s\0s\0s\0s\0s\0c\0\0+\0\x02\x02\x01\0\x01\0\0\0\x01",
                "o 0\nb 0 1\ns 0 0\ns 0 0\ns 0 0\ns 0 0\ns 0 0\ns 0 0\ns 0 0\ns 0 0\ns 0 0\ns 0 0\ns 0 0\ns 0 0\ns 0 0\nb 1 r11\nb 1 1\ns 1 0\ns 1 0\ns 1 0\ns 1 0\ns 1 0\ns 1 0\ns 1 0\ns 1 0\ns 1 0\ns 1 0\ns 1 0\ns 1 0\ns 1 0\ns 1 0\ns 1 0\ns 1 1\nc 1 6\ns 0 0\ns 0 0\ns 0 0\ns 0 0\ns 0 0\ns 0 0\ns 0 1\nc 0 0\nw 5 6\n",
            ),
            (
                "first decision stays",
                b"\x01\0\x01\0\0\0\0\0\0\0\0\0\0\0\0\0\0\0\x09\x02\0\0\0\0\0\0\0\0\0\0\0\0\0\0\0\0\0\x05\0\x01\0\0\0\0\0\0\0\0\0\0\0\0\0\0\0\x06\x01\0\x01\0\0\0\0\0\0\0\x09\0\0\0\0\0\0\0\0\0\0\0b\x02s\x02s\x02s\x02s\x02s\x02s\x02s\x02s\x02s\x02s\x02s\x02c\x02b\0s\0s\0s\0s\0s\0s\0s\0s\0s\0s\0b\x02s\x02s\x02s\x02s\x02s\x02s\x02s\x02s\x02s\x02s\x02s\x02c\x02b\x01s\x01s\x01s\x01s\x01s\x01s\x01s\x01s\x01s\x01s\x01s\x01s\x01s\x01s\x01s\x01s\x01s\x01s\x01s\x01c\x01s\0s\0s\0s\0s\0s\0s\0c\0\0N\0\x02\x03\0\0\0\0\0\0\x01",
                "o 0\nb 2 1\ns 2 0\ns 2 0\ns 2 0\ns 2 0\ns 2 0\ns 2 0\ns 2 0\ns 2 0\ns 2 0\ns 2 0\ns 2 1\nc 2 0\nb 0 1\ns 0 0\ns 0 0\ns 0 0\ns 0 0\ns 0 0\ns 0 0\ns 0 0\ns 0 0\ns 0 0\ns 0 0\nb 2 2\ns 2 0\ns 2 0\ns 2 0\ns 2 0\ns 2 0\ns 2 0\ns 2 0\ns 2 0\ns 2 0\ns 2 0\ns 2 1\nc 2 0\nb 1 1\ns 1 0\ns 1 0\ns 1 0\ns 1 0\ns 1 0\ns 1 0\ns 1 0\ns 1 0\ns 1 0\ns 1 0\ns 1 0\ns 1 0\ns 1 0\ns 1 0\ns 1 0\ns 1 0\ns 1 0\ns 1 0\ns 1 1\nc 1 5\ns 0 0\ns 0 0\ns 0 0\ns 0 0\ns 0 0\ns 0 0\ns 0 1\nc 0 0\nw 5 6\n",
            ),
            (
                "halted operation is finished",
                b"\x01\0\0\0\0\0\0\0\0\0\0\0\0\0\0\0\0\0\x05\0\0\0b\0s\0s\0s\0s\0s\0s\0s\0h\0b\x01s\x01s\x01s\x01s\x01s\x01s\x01s\x01s\x01s\x01s\x01c\x01c\0\0\x16\0\x01\x02\0\0\0\0\0\0\x01",
                "o 0\nb 0 1\ns 0 0\ns 0 0\ns 0 0\ns 0 0\ns 0 0\ns 0 0\ns 0 0\nh 0 0\nb 1 1\ns 1 0\ns 1 0\ns 1 0\ns 1 0\ns 1 0\ns 1 0\ns 1 0\ns 1 0\ns 1 0\ns 1 1\nc 1 5\nc 0 r6\nw 5\n",
            ),
        ];
        check_all(&rt, rt.alloc(), &cases)
    }

    #[test]
    fn late_helpers(rt: HostRuntime) -> Result<(), Fail> {
        let cases: [Case; 7] = [
            (
                "late helper",
                b"\x01\0\x01\0\0\0\0\0\0\0\0\0\0\0\0\0\0\0\x09\x02\0\0\0\0\0\0\0\0\0\0\0\0\0\0\0\0\0\x05\0\x01\0\0\0\0\0\0\0\0\0\0\0\0\0\0\0\x06\x01\0\x01\0\0\0\0\0\0\0\x09\0\0\0\0\0\0\0\0\0\0\0b\x02s\x02s\x02s\x02s\x02s\x02s\x02s\x02s\x02s\x02s\x02s\x02c\x02b\0s\0s\0s\0s\0s\0s\0s\0s\0s\0s\0b\x02s\x02s\x02s\x02s\x02s\x02s\x02s\x02s\x02s\x02s\x02s\x02c\x02b\x01s\x01s\x01s\x01s\x01s\x01s\x01s\x01s\x01s\x01s\x01s\0s\0s\0s\0s\0s\0s\0s\0s\0s\0c\0s\x01s\x01s\x01s\x01s\x01s\x01s\x01s\x01s\x01c\x01\0N\0\x02\x03\0\0\0\0\0\0\x01",
                "o 0\nb 2 1\ns 2 0\ns 2 0\ns 2 0\ns 2 0\ns 2 0\ns 2 0\ns 2 0\ns 2 0\ns 2 0\ns 2 0\ns 2 1\nc 2 0\nb 0 1\ns 0 0\ns 0 0\ns 0 0\ns 0 0\ns 0 0\ns 0 0\ns 0 0\ns 0 0\ns 0 0\ns 0 0\nb 2 2\ns 2 0\ns 2 0\ns 2 0\ns 2 0\ns 2 0\ns 2 0\ns 2 0\ns 2 0\ns 2 0\ns 2 0\ns 2 1\nc 2 0\nb 1 1\ns 1 0\ns 1 0\ns 1 0\ns 1 0\ns 1 0\ns 1 0\ns 1 0\ns 1 0\ns 1 0\ns 1 0\ns 0 0\ns 0 0\ns 0 0\ns 0 0\ns 0 0\ns 0 0\ns 0 0\ns 0 0\ns 0 0\ns 0 1\nc 0 2\ns 1 0\ns 1 0\ns 1 0\ns 1 0\ns 1 0\ns 1 0\ns 1 0\ns 1 0\ns 1 1\nc 1 0\nw 0 0\n",
            ),
            (
                "late placing of an overtaken operation",
                b"\x01\0\x01\0\0\0\0\0\0\0\0\0\0\0\0\0\0\0\x09\x02\0\0\0\0\0\0\0\0\0\0\0\0\0\0\0\0\0\x05\0\x01\0\0\0\0\0\0\0\0\0\0\0\0\0\0\0\x06\0\0\0\0\0\x01\x01\0\x01\0\0\0\0\0\0\0\x09\0\0\0\0\0\0\0\0b\x02s\x02s\x02s\x02s\x02s\x02s\x02s\x02s\x02s\x02s\x02s\x02c\x02b\0s\0s\0s\0s\0s\0s\0s\0s\0s\0s\0b\x01s\x01s\x01s\x01s\x01s\x01s\x01s\x01s\0s\0s\0s\0s\0s\0s\0c\0b\0b\x02s\x02s\x02s\x02s\x02s\x02s\x02s\x02s\x02s\x02s\x02s\x02c\x02s\x01s\0s\0s\0s\0s\0c\0s\x01s\x01s\x01s\x01s\x01c\x01\0Q\0\x02\x03\0\0\0\0\0\0\x01",
                "o 0\nb 2 1\ns 2 0\ns 2 0\ns 2 0\ns 2 0\ns 2 0\ns 2 0\ns 2 0\ns 2 0\ns 2 0\ns 2 0\ns 2 1\nc 2 0\nb 0 1\ns 0 0\ns 0 0\ns 0 0\ns 0 0\ns 0 0\ns 0 0\ns 0 0\ns 0 0\ns 0 0\ns 0 0\nb 1 1\ns 1 0\ns 1 0\ns 1 0\ns 1 0\ns 1 0\ns 1 0\ns 1 0\ns 0 0\ns 0 0\ns 0 0\ns 0 0\ns 0 0\ns 0 0\ns 0 1\nc 0 2\nb 0 2\nb 2 2\ns 2 0\ns 2 0\ns 2 0\ns 2 0\ns 2 0\ns 2 0\ns 2 0\ns 2 0\ns 2 0\ns 2 0\ns 2 1\nc 2 0\ns 1 0\ns 0 0\ns 0 0\ns 0 0\ns 0 0\ns 0 1\nc 0 0\ns 1 0\ns 1 0\ns 1 0\ns 1 0\ns 1 1\nc 1 0\nw 0 0\n",
            ),
            (
                "overtaken at begin",
                b"\x01\0\0\0\0\0\0\0\0\0\0\0\0\0\0\0\0\0\x05\0\0\0\x01\0\0\0\0\0\0\0\0\0\x05\0\0\0\0\0\0\0\x06b\0s\0s\0s\0s\0s\0s\0s\0b\x01s\x01s\0s\0s\0s\0c\0b\0s\x01s\x01c\x01s\0s\0s\0s\0s\0s\0s\0s\0s\0s\0s\0\0)\0\x01\x02\0\0\0\0\0\0\x01",
                "o 0\nb 0 1\ns 0 0\ns 0 0\ns 0 0\ns 0 0\ns 0 0\ns 0 0\ns 0 0\nb 1 1\ns 1 0\ns 0 0\ns 0 0\ns 0 0\ns 0 1\nc 0 0\nb 0 2\ns 1 0\ns 1 1\nc 1 5\ns 0 0\ns 0 0\ns 0 0\ns 0 0\ns 0 0\ns 0 0\ns 0 0\ns 0 0\ns 0 0\ns 0 0\ns 0 1\nw 6\n",
            ),
            (
                "overtaken at fetch",
                b"\x01\0\0\0\0\0\0\0\0\0\0\0\0\0\0\0\0\0\x05\0\0\0\x01\0\0\0\0\0\0\0\0\0\x05\0\0\0\0\0\0\0\x06b\0s\0s\0s\0s\0s\0s\0s\0b\x01s\x01s\x01s\0s\0s\0s\0c\0b\0s\x01s\x01c\x01s\0s\0s\0s\0s\0s\0s\0s\0s\0s\0s\0\0)\0\x01\x02\0\0\0\0\0\0\x01",
                "o 0\nb 0 1\ns 0 0\ns 0 0\ns 0 0\ns 0 0\ns 0 0\ns 0 0\ns 0 0\nb 1 1\ns 1 0\ns 1 0\ns 0 0\ns 0 0\ns 0 0\ns 0 1\nc 0 0\nb 0 2\ns 1 0\ns 1 1\nc 1 5\ns 0 0\ns 0 0\ns 0 0\ns 0 0\ns 0 0\ns 0 0\ns 0 0\ns 0 0\ns 0 0\ns 0 0\ns 0 1\nw 6\n",
            ),
            (
                "overtaken at decide",
                b"\x01\0\0\0\0\0\0\0\0\0\0\0\0\0\0\0\0\0\x05\0\0\0\x01\0\0\0\0\0\0\0\0\0\x05\0\0\0\0\0\0\0\x06b\0s\0s\0s\0s\0s\0s\0s\0b\x01s\x01s\x01s\x01s\x01s\x01s\0s\0s\0s\0c\0b\0s\x01s\x01c\x01s\0s\0s\0s\0s\0s\0s\0s\0s\0s\0s\0\0)\0\x01\x02\0\0\0\0\0\0\x01",
                "o 0\nb 0 1\ns 0 0\ns 0 0\ns 0 0\ns 0 0\ns 0 0\ns 0 0\ns 0 0\nb 1 1\ns 1 0\ns 1 0\ns 1 0\ns 1 0\ns 1 0\ns 0 0\ns 0 0\ns 0 0\ns 0 1\nc 0 0\nb 0 2\ns 1 0\ns 1 1\nc 1 5\ns 0 0\ns 0 0\ns 0 0\ns 0 0\ns 0 0\ns 0 0\ns 0 0\ns 0 0\ns 0 0\ns 0 0\ns 0 1\nw 6\n",
            ),
            (
                "overtaken at clear",
                b"\x01\0\0\0\0\0\0\0\0\0\0\0\0\0\0\0\0\0\x05\0\0\0\x01\0\0\0\0\0\0\0\0\0\x05\0\0\0\0\0\0\0\x06b\0s\0s\0s\0s\0s\0s\0s\0s\0b\x01s\x01s\x01s\0s\0s\0c\0b\0s\x01s\x01c\x01s\0s\0s\0s\0s\0s\0s\0s\0s\0s\0s\0\0)\0\x01\x02\0\0\0\0\0\0\x01",
                "o 0\nb 0 1\ns 0 0\ns 0 0\ns 0 0\ns 0 0\ns 0 0\ns 0 0\ns 0 0\ns 0 0\nb 1 1\ns 1 0\ns 1 0\ns 0 0\ns 0 0\ns 0 1\nc 0 0\nb 0 2\ns 1 0\ns 1 1\nc 1 5\ns 0 0\ns 0 0\ns 0 0\ns 0 0\ns 0 0\ns 0 0\ns 0 0\ns 0 0\ns 0 0\ns 0 0\ns 0 1\nw 6\n",
            ),
            (
                "overtaken placing ends a settle",
                b"\x01\0\0\0\0\0\0\0\0\0\0\0\0\0\0\0\0\0\x05\0\0\0\x01\0\0\0\0\0\0\0\0\0\x05\0\0\0\0\0\0\0\x06b\0s\0s\0s\0s\0b\x01s\x01s\0s\0s\0s\0s\0s\0s\0c\0b\0s\0s\0s\0s\x01s\x01c\x01s\0s\0s\0s\0s\0s\0s\0s\0\0)\0\x01\x02\0\0\0\0\0\0\x01",
                "o 0\nb 0 1\ns 0 0\ns 0 0\ns 0 0\ns 0 0\nb 1 1\ns 1 0\ns 0 0\ns 0 0\ns 0 0\ns 0 0\ns 0 0\ns 0 0\ns 0 1\nc 0 0\nb 0 2\ns 0 0\ns 0 0\ns 0 0\ns 1 0\ns 1 1\nc 1 5\ns 0 0\ns 0 0\ns 0 0\ns 0 0\ns 0 0\ns 0 0\ns 0 0\ns 0 1\nw 6\n",
            ),
        ];
        check_all(&rt, rt.alloc(), &cases)
    }

    #[test]
    fn faults(rt: HostRuntime) -> Result<(), Fail> {
        let cases: [Case; 9] = [
            ("empty", b"", "f 0\n"),
            (
                "trailer words",
                b"s\0\0\0\x01\x01\x01\0\0\0\0\0\0\x01",
                "f 2\n",
            ),
            (
                "trailer first call",
                b"s\0\0\x03\0\x01\x01\0\0\0\0\0\0\x01",
                "f 2\n",
            ),
            (
                "nine entries",
                b"\0\0\0\x09\0\0\0\0\0\0\0\0\0\0\0\0\0\0\0\0\0\0\0\0\0\0\0\0\0\0\0\0\0\0\0\0\0\0\0\0\0\0\0\0\0\0\0\0\0\0\0\0\0\0\0\0\0\0\0\0\0\0\0\0\0\0\0\0\0\0\0\0\0\0\0\0\0\0\0\0\0\0\0\0\0\0\0\0\0\0\0\0\0\0\0\0\0\0\0\0\0\0\0\0\0\0\0\0\0\0\0\0\0\0\0\0\0\0\0\0\0\0\0\0\0\0\0\0\0\0\0\0\0\0\0\0\0\0\0\0\0\0\0\0\0\0\0\0\0\0\0\0\0\0\0\0\0\0\0\0\0\0\0\0\0\0s\0\0\xa6\0\x01\x01\0\0\0\0\0\0\x01",
                "f 3\n",
            ),
            (
                "list cut short",
                b"\0\0\0\x01\0\0\0\0\0\0\0\0\0\0\0\0\0\0\0\0\0\x05b\0s\0\0\x15\0\x01\x01\0\0\0\0\0\0\x01",
                "f 3\n",
            ),
            (
                "call cut short",
                b"s\0s\0s\0\0\0\x01\x01\0\0\0\0\0\0\x01",
                "f 4\n",
            ),
            (
                "other letter",
                b"\0\0\0b\0s\0x\0y\0\0\x03\0\x01\x01\0\0\0\0\0\0\x01",
                "f 7\n",
            ),
            (
                "no record left",
                b"\0\0\0b\0s\0b\0s\0\0\x03\0\x01\x01\0\0\0\0\0\0\x01",
                "f 7\n",
            ),
            (
                "fault before refused opening",
                b"x\0\0\0\0\x01\0\0\0\0\0\0\0\x01",
                "f 0\n",
            ),
        ];
        check_all(&rt, rt.alloc(), &cases)
    }
}
