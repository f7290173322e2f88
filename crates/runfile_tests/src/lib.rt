//! Examples and edges of the run file's format.

#![tactic(auto)]

#[cfg(test)]
mod tests {
    use runfile::file::{Action, Fault, Record};
    use runfile::input::bytes_of;
    use runfile::reader::{MOST_BYTES, read};
    use std::alloc::Global;
    use std::test::Fail;

    /// The place of the fault, or nothing where the file is sound.
    fn fault(alloc: Global, bytes: &[u8]) -> Result<Option<usize>, Fault> {
        match read(alloc, bytes) {
            Ok(_) => Ok(None),
            Err(Fault::At(place)) => Ok(Some(place)),
            Err(fault) => Err(fault),
        }
    }

    #[test]
    fn faults_of_length_and_trailer(rt: HostRuntime) -> Result<(), Fail> {
        let table: [(&[u8], Option<usize>); 6] = [
            (b"", Some(0)),
            (&[0; 11], Some(0)),
            (&[0; 12], None),
            (b"\0\0\x01\0\0\0\0\0\0\0\0\0", None),
            (b"\0\0\x01\x01\0\0\0\0\0\0\0\0", Some(0)),
            (b"s\0\0\x03\0\0\0\0\0\0\0\0\0\0", Some(2)),
        ];
        for (bytes, place) in table {
            assert_eq!(rt; fault(rt.alloc(), bytes)?, place);
        }
        let longest = vec![in rt.alloc(); 0u8; 65536]?;
        assert_eq!(rt;
            fault(rt.alloc(), longest.as_slice())?,
            Some(0),
            "not too long: its first call is unknown"
        );
        let longer = vec![in rt.alloc(); 0u8; 65537]?;
        assert_eq!(rt; fault(rt.alloc(), longer.as_slice())?, Some(65536));
        Ok(())
    }

    #[test]
    fn faults_of_records_and_calls(rt: HostRuntime) -> Result<(), Fail> {
        let table: [(&[u8], Option<usize>); 9] = [
            // a read; one cut short; a count above 8; a list cut short after a sound read
            (b"\0\0\x07\0\x03\0\x01\0\0\0\0\0\0\0\0", None),
            (b"\0\0\0\x02\0\x01\0\0\0\0\0\0\0\0", Some(0)),
            (b"\x09\0\x01\0\x01\0\0\0\0\0\0\0\0", Some(0)),
            (b"\0\0\x07\x01\0\0\x05\0\x01\0\0\0\0\0\0\0\0", Some(3)),
            // calls: all but a start; cut short; unknown; no record left
            (b"s\0c\x01h\x02\0\0\0\x01\0\0\0\0\0\0\0\0", None),
            (b"s\0c\0\0\0\x01\0\0\0\0\0\0\0\0", Some(2)),
            (b"s\0B\0\0\0\0\x01\0\0\0\0\0\0\0\0", Some(2)),
            (b"b\0\0\0\0\x01\0\0\0\0\0\0\0\0", Some(0)),
            (b"\0\0\x07b\0s\0b\0\0\x03\0\x01\0\0\0\0\0\0\0\0", Some(7)),
        ];
        for (bytes, place) in table {
            assert_eq!(rt; fault(rt.alloc(), bytes)?, place);
        }
        Ok(())
    }

    // One list (word 0, 0 to 5), a read of word 258, calls b, s, c and h on cores 0 to 3, and a trailer with a number in each field.
    const EXAMPLE: &[u8] =
        b"\x01\0\0\0\0\0\0\0\0\0\0\0\0\0\0\0\0\0\x05\0\x01\x02b\0s\x01c\x02h\x03\0\x16\x01\0\x02\x03\x04\x05\x06\x07\x08\x09";

    #[test]
    fn the_example_is_read(rt: HostRuntime) -> Result<(), Fail> {
        let file = read(rt.alloc(), EXAMPLE)?;
        assert_eq!(rt; (file.records.len(), file.calls.len()), (2, 4));
        match file.records.get(0) {
            Some(Record::List(list)) => assert_eq!(rt; list.len(), 1),
            _ => return Err(Fail::new("no list")),
        }
        match file.records.get(1) {
            Some(Record::Read(word)) => assert_eq!(rt; *word, 258),
            _ => return Err(Fail::new("no read")),
        }
        match file.calls.get(3) {
            Some(call) => assert_eq!(rt; (call.action, call.core), (Action::Halt, 3)),
            None => return Err(Fail::new("no call")),
        }
        assert_eq!(rt;
            (file.setting.words, file.setting.cores, file.setting.rights),
            (256, 2, 3)
        );
        assert_eq!(rt;
            (file.setting.protected, file.setting.first),
            (1029, 101124105)
        );
        Ok(())
    }

    #[test]
    fn letters_and_texts(rt: HostRuntime) -> Result<(), Fail> {
        for letter in *b"bsch" {
            assert_eq!(rt; u8::from(Action::try_from(letter)?), letter);
        }
        assert!(rt; Action::try_from(b'B').is_err());
        let table = [
            (Fault::At(65536), "f 65536"),
            (Fault::Memory, "no memory for the run file"),
        ];
        for (fault, text) in table {
            assert_eq!(rt; fault.to_string(rt.alloc())?.as_str(), text);
        }
        Ok(())
    }

    #[test]
    fn one_byte_too_many_is_taken(rt: HostRuntime) -> Result<(), Fail> {
        let bytes = bytes_of(rt.alloc(), b"b\0".as_slice())?;
        assert_eq!(rt; bytes.as_slice(), b"b\0".as_slice());
        let longer = vec![in rt.alloc(); 0u8; 70000]?;
        let bytes = bytes_of(rt.alloc(), longer.as_slice())?;
        assert_eq!(rt; bytes.len(), MOST_BYTES + 1);
        Ok(())
    }
}
