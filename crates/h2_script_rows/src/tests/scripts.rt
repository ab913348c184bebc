use h2_command::{Command, Payload};
use h2_script::{LineFault, ParseFault, Script, parse};
use std::alloc::{AllocError, Global};
use std::test::Fail;

// Lines and their first fault, each from a sentence of the grammar. Some have two faults, of which the
// first is told.
const FAULTY: [(&[u8], LineFault); 129] = [
    (b"\xff", LineFault::Utf8),
    (b"0 mkdir ROOT:/\xc3", LineFault::Utf8),
    (b"# \x80", LineFault::Utf8),
    (b"0 mkdir ROOT:/\xed\xa0\x80", LineFault::Utf8),
    (b"8 \xff", LineFault::Utf8),
    (b"0 mk \xfe", LineFault::Utf8),
    (b"\xc0\xaf", LineFault::Utf8),
    (b"8 sync", LineFault::Client),
    (b"9 sync", LineFault::Client),
    (b"a sync", LineFault::Client),
    (b" ", LineFault::Client),
    (b" 0 sync", LineFault::Client),
    (b"00 sync", LineFault::Client),
    (b"sync", LineFault::Client),
    (b"-1 sync", LineFault::Client),
    (b"0sync", LineFault::Client),
    (b"--", LineFault::Client),
    (b"----", LineFault::Client),
    (b"--- ", LineFault::Client),
    (b" # comment", LineFault::Client),
    (b"\t0 sync", LineFault::Client),
    (b"8 mk", LineFault::Client),
    (b"x read a b c", LineFault::Client),
    (b"8 read 0 0 1 1 1 1 1 1", LineFault::Client),
    (b"\r\r", LineFault::Client),
    (b"0", LineFault::Word),
    (b"0 ", LineFault::Word),
    (b"0  sync", LineFault::Word),
    (b"0 sync ", LineFault::Word),
    (b"0 sync now", LineFault::Word),
    (b"0 mk", LineFault::Word),
    (b"0 Mkdir ROOT:/a", LineFault::Word),
    (b"0 mkdir", LineFault::Word),
    (b"0 mkdir ROOT:/a ROOT:/b", LineFault::Word),
    (b"0 mkdir ROOT:/a ", LineFault::Word),
    (b"0 link ROOT:/a", LineFault::Word),
    (b"0 read 0 0", LineFault::Word),
    (b"0 read 0 0 1 1", LineFault::Word),
    (b"0 write 0 0", LineFault::Word),
    (b"0 pfs-list ROOT", LineFault::Word),
    (b"0 snapshot ROOT", LineFault::Word),
    (b"0 cut 0", LineFault::Word),
    (b"0 bulkfree 1", LineFault::Word),
    (b"0 sync\r ", LineFault::Word),
    (b"0 syn\rc", LineFault::Word),
    (b"0 open", LineFault::Word),
    (b"0 close", LineFault::Word),
    (b"0 mkdir bad extra", LineFault::Word),
    (b"0 foo ROOT", LineFault::Word),
    (b"0 read x 0", LineFault::Word),
    (b"0 #", LineFault::Word),
    (b"0 mkdir ROOT:/a b c d e f g", LineFault::Word),
    (b"0 write 0 0 x:00 1 2 3 4 5", LineFault::Word),
    (b"0 mk a b c d e f g", LineFault::Word),
    (b"0 mkdir ROOT", LineFault::Path),
    (b"0 mkdir ROOT:", LineFault::Path),
    (b"0 mkdir ROOT:a", LineFault::Path),
    (b"0 mkdir ROOT:/", LineFault::Path),
    (b"0 create ROOT:/", LineFault::Path),
    (b"0 ls /a", LineFault::Path),
    (b"0 ls :/a", LineFault::Path),
    (b"0 ls R$T:/a", LineFault::Path),
    (b"0 stat ROOT:/a/", LineFault::Path),
    (b"0 stat ROOT://a", LineFault::Path),
    (b"0 stat ROOT:/a//b", LineFault::Path),
    (b"0 open ROOT:/.", LineFault::Path),
    (b"0 open ROOT:/a/..", LineFault::Path),
    (b"0 rm ROOT:/a\x7fb", LineFault::Path),
    (b"0 rm ROOT:/a\tb", LineFault::Path),
    (b"0 rmdir ROOT:/a\rb", LineFault::Path),
    (b"0 pfs-create a/b", LineFault::Path),
    (b"0 pfs-create ", LineFault::Path),
    (b"0 pfs-delete a:b", LineFault::Path),
    (b"0 snapshot RO+T NEW", LineFault::Path),
    (b"0 snapshot ROOT NE+W", LineFault::Path),
    (b"0 link ROOT:/a DATA:/b", LineFault::Path),
    (b"0 mv ROOT:/a DATA:/b", LineFault::Path),
    (b"0 link ROOT:/a ROOT:/", LineFault::Path),
    (b"0 link ROOT ROOT:/", LineFault::Path),
    (
        b"0 pfs-create aaaaaaaaaaaaaaaaaaaaaaaaaaaaaaaaaaaaaaaaaaaaaaaaaaaaaaaaaaaaaaaaa",
        LineFault::Path,
    ),
    (
        b"0 create ROOT:/cccccccccccccccccccccccccccccccccccccccccccccccccccccccccccccccccccccccccccccccccccccccccccccccccccccccccccccccccccccccccccccccccccccccccccccccccccccccccccccccccccccccccccccccccccccccccccccccccccccccccccccccccccccccccccccccccccccccccccccccccccccccccccccccc",
        LineFault::Path,
    ),
    (b"0 close x", LineFault::Number),
    (b"0 close 01", LineFault::Number),
    (b"0 close +1", LineFault::Number),
    (b"0 close -1", LineFault::Number),
    (b"0 close ", LineFault::Number),
    (b"0 close 4294967296", LineFault::Number),
    (b"0 close 1.0", LineFault::Number),
    (b"0 cut 0 18446744073709551616", LineFault::Number),
    (b"0 cut 4294967296 0", LineFault::Number),
    (b"0 cut 0 00", LineFault::Number),
    (b"0 read 0 0 x", LineFault::Number),
    (b"0 read 0 0 01", LineFault::Number),
    (b"0 read 0 x 1", LineFault::Number),
    (b"0 read x 0 1", LineFault::Number),
    (b"0 read 0 18446744073709551616 1", LineFault::Number),
    (b"0 write x 0 x:00", LineFault::Number),
    (b"0 write 0 01 x:00", LineFault::Number),
    (b"0 write 4294967296 0 x:1", LineFault::Number),
    (b"0 read 0 x 1048577", LineFault::Number),
    (b"0 write 0 x r:1048577:0", LineFault::Number),
    (b"0 cut 0 ", LineFault::Number),
    (b"0 read 0 0 1048577a", LineFault::Number),
    (b"0 write 0 0 x:123", LineFault::Payload),
    (b"0 write 0 0 x:0g", LineFault::Payload),
    (b"0 write 0 0 x", LineFault::Payload),
    (b"0 write 0 0 X:00", LineFault::Payload),
    (b"0 write 0 0 :00", LineFault::Payload),
    (b"0 write 0 0 r:1", LineFault::Payload),
    (b"0 write 0 0 r:1:256", LineFault::Payload),
    (b"0 write 0 0 r:1:-1", LineFault::Payload),
    (b"0 write 0 0 r:01:0", LineFault::Payload),
    (b"0 write 0 0 r:1:00", LineFault::Payload),
    (b"0 write 0 0 r::0", LineFault::Payload),
    (b"0 write 0 0 r:1:", LineFault::Payload),
    (b"0 write 0 0 r:1:1:1", LineFault::Payload),
    (b"0 write 0 0 ", LineFault::Payload),
    (b"0 write 0 0 r:x:1", LineFault::Payload),
    (b"0 write 0 0 r:9999999999:256", LineFault::Payload),
    (b"0 write 0 0 r:99999999999999999999:x", LineFault::Payload),
    (b"0 write 0 0 y:00", LineFault::Payload),
    (b"0 write 0 0 x:00:", LineFault::Payload),
    (b"0 read 0 0 1048577", LineFault::TooLong),
    (b"0 read 0 0 18446744073709551616", LineFault::TooLong),
    (b"0 read 0 0 99999999999999999999999999", LineFault::TooLong),
    (b"0 write 0 0 r:1048577:0", LineFault::TooLong),
    (b"0 write 0 0 r:4294967296:1", LineFault::TooLong),
    (
        b"0 write 0 0 r:18446744073709551616:255",
        LineFault::TooLong,
    ),
    (b"0 read 9 9 4294967296", LineFault::TooLong),
];

#[test]
fn lines_have_their_first_fault(rt: HostRuntime) -> Result<(), Fail> {
    for (line, why) in &FAULTY {
        let refused = parse(rt.alloc(), line).err();
        assert_eq!(rt; refused, Some(ParseFault::Script { line: 1, why: *why }));
    }
    Ok(())
}

#[test]
fn faults_are_printed(rt: HostRuntime) -> Result<(), Fail> {
    let words = [
        (LineFault::Utf8, "utf8"),
        (LineFault::Client, "client"),
        (LineFault::Word, "word"),
        (LineFault::Path, "path"),
        (LineFault::Number, "number"),
        (LineFault::Payload, "data"),
        (LineFault::TooLong, "too-long"),
    ];
    for (why, word) in &words {
        let text = format!(in rt.alloc(); "{why}").ok().ok_or("memory")?;
        assert_eq!(rt; text.as_str(), *word);
    }
    Ok(())
}

// The text, so many times.
fn times(alloc: Global, text: &[u8], count: usize) -> Result<Vec<u8>, AllocError> {
    let mut all = Vec::new(alloc);
    for _ in 0..count {
        all.extend_from_slice(text)?;
    }
    Ok(all)
}

#[test]
fn scripts_are_read(rt: HostRuntime) -> Result<(), Fail> {
    let text = b"0 mkdir ROOT:/a\r\n# c\n\n---\n1 read 0 3 5\n7 write 1 2 r:512:7";
    let mut script = parse(rt.alloc(), text).ok().ok_or("refused")?;
    if script.phases() != 2 {
        return Err("two phases".into());
    }
    assert_eq!(rt; script.len(0), 1);
    if script.len(1) != 2 {
        return Err("two commands".into());
    }
    let (client, _) = script.at(1, 1);
    assert_eq!(rt; client, 7);
    let command = script.take(1, 1);
    let Command::WriteAt {
        handle,
        off,
        payload,
    } = command
    else {
        return Err("no write".into());
    };
    assert_eq!(rt; (handle, off), (1, 2));
    let Payload::Repeat { count, byte } = payload else {
        return Err("no repeat".into());
    };
    assert_eq!(rt; (count, byte), (512, 7));
    Ok(())
}

#[test]
fn later_lines_are_counted(rt: HostRuntime) -> Result<(), Fail> {
    let faulty = [
        ("0 mkdir ROOT:/a\n0 mk", 2, LineFault::Word),
        ("#\n\n---\n0 sync\n8 sync\n9 sync", 5, LineFault::Client),
        ("0 write 0 0 x:123\n", 1, LineFault::Payload),
    ];
    for (text, line, why) in &faulty {
        let refused = parse(rt.alloc(), text.as_bytes()).err();
        assert_eq!(rt;
            refused,
            Some(ParseFault::Script {
                line: *line,
                why: *why
            })
        );
    }
    Ok(())
}

#[test]
fn limits_are_exact(rt: HostRuntime) -> Result<(), Fail> {
    let repeated = [
        ("0 ls ROOT:/\n", 256, 257, 257),
        ("0 bulkfree\n", 1024, 1025, 1025),
        ("0 sync\n", 65_536, 65_537, 65_537),
        ("0 read 0 0 1048576\n", 64, 65, 65),
        ("#", 4_194_304, 4_194_305, 0),
        ("\n", 4_194_304, 4_194_305, 0),
    ];
    for (text, most, more, line) in &repeated {
        let fits = times(rt.alloc(), text.as_bytes(), *most)
            .ok()
            .ok_or("memory")?;
        assert!(rt; parse(rt.alloc(), &fits).is_ok());
        let over = times(rt.alloc(), text.as_bytes(), *more)
            .ok()
            .ok_or("memory")?;
        let refused = parse(rt.alloc(), &over).err();
        assert_eq!(rt;
            refused,
            Some(ParseFault::Script {
                line: *line,
                why: LineFault::TooLong
            })
        );
    }
    Ok(())
}
