// Pins, texts, files and sinks by examples that were worked by hand.
use kc_base::{
    FILE_LIMIT, FileFault, Files, HostDiagnostics, HostFiles, HostOut, Image, MemFiles, MemSink,
    PIN_COUNT, Pin, Sink, Text, after, first_line, prefix, put_all,
};
use std::alloc::{AllocError, Global};
use std::io::ErrorKind;
use std::process;
use std::test::Fail;

// Whether a file is read, and holds these bytes.
fn holds<F: Files>(alloc: Global, files: &mut F, name: &str, bytes: &[u8]) -> bool {
    match files.read(alloc, name) {
        Ok(held) => held.as_slice() == bytes,
        Err(_) => false,
    }
}

fn numbers(alloc: Global, items: &[u64]) -> Result<Vec<u64>, AllocError> {
    Vec::from_slice(alloc, items)
}

#[test]
fn pins_have_names(rt: HostRuntime) {
    for (number, name) in [
        (0u8, "HSO0"),
        (5, "HSO5"),
        (6, "P10"),
        (13, "P17"),
        (14, "P20"),
        (15, "P25"),
        (17, "P27"),
        (18, "HSI0"),
        (22, "T2CLK"),
        (24, "EXTINT"),
        (28, "P00"),
        (35, "P07"),
        (36, "TXD"),
        (37, "RXD"),
        (40, "PWM2"),
    ] {
        assert!(rt; number < PIN_COUNT);
        assert!(rt; Pin(number).name() == name, "pin {number}");
    }
}

#[test]
fn memory_files_hold_what_was_put_and_fail_when_reported(rt: HostRuntime) -> Result<(), Fail> {
    let a = rt.alloc();
    let mut files = MemFiles::new(a, numbers(a, &[3])?, numbers(a, &[1])?);
    files.put(a, "a", b"one")?;
    assert!(rt; holds(a, &mut files, "a", b"one"));
    assert!(rt; files.read(a, "b").err() == Some(FileFault::Missing));
    assert!(rt; files.read(a, "a").err() == Some(FileFault::Failed));
    assert!(rt; files.write(a, "b", b"two") == Err(FileFault::Failed));
    assert!(rt; files.write(a, "b", b"two") == Ok(()));
    assert!(rt; holds(a, &mut files, "b", b"two"));
    let mut long = vec![in a; 0u8; FILE_LIMIT]?;
    files.put(a, "long", &long)?;
    assert!(rt; holds(a, &mut files, "long", &long));
    long.push(0)?;
    files.put(a, "long", &long)?;
    assert!(rt; files.read(a, "long").err() == Some(FileFault::TooLong));
    Ok(())
}

#[test]
fn memory_sink_takes_what_fits(rt: HostRuntime) -> Result<(), Fail> {
    let a = rt.alloc();
    let mut sink = MemSink::new(a, 5, numbers(a, &[2])?)?;
    assert!(rt; sink.write(b"abc") == Ok(3));
    assert!(rt; put_all(&mut sink, b"x").is_err());
    assert!(rt; put_all(&mut sink, b"defg").is_err());
    assert!(rt; sink.written() == b"abcde".as_slice());
    let mut wide = MemSink::new(a, 8, Vec::new(a))?;
    assert!(rt; put_all(&mut wide, b"abcdefg").is_ok());
    assert!(rt; wide.written() == b"abcdefg".as_slice());
    Ok(())
}

#[test]
fn texts_have_lines(rt: HostRuntime) -> Result<(), Fail> {
    let a = rt.alloc();
    for (text, line, whole) in [("ab\r\nc", 2, 4), ("\nc", 0, 1), ("a\rb", 3, 3)] {
        assert!(rt; !text.is_empty());
        assert!(rt; first_line(text.as_bytes()) == (line, whole), "{text:?}");
    }
    let text = Text::of(a, b"abc")?;
    assert!(rt; text.as_slice() == b"abc".as_slice());
    assert!(rt; prefix(b"abc", 2) == b"ab".as_slice());
    assert!(rt; after(b"abc", 2) == b"c".as_slice());
    let again = Text::from_vec(text.into_vec()?);
    assert!(rt; again.as_slice() == b"abc".as_slice());
    Ok(())
}

#[test]
fn an_image_keeps_its_bytes(rt: HostRuntime) -> Result<(), Fail> {
    let mut image = Image::blank(rt.alloc())?;
    image.set(0x2080, 0xfd);
    image.put(0x82, &[1, 2]);
    assert!(rt; image.byte(0x2080) == 0xfd);
    assert!(rt; image.byte(0x2081) == 0xff);
    assert!(rt; image.byte(0x2083) == 2);
    assert!(rt; image.as_slice().len() == 57_344);
    Ok(())
}

#[test]
fn host_files_are_read_and_written(rt: HostRuntime) -> Result<(), Fail> {
    let a = rt.alloc();
    let mut files = HostFiles::new(&rt, process::id(rt.process()));
    assert!(rt; files.write(a, "kc_base_host.tmp", b"bytes") == Ok(()));
    assert!(rt; holds(a, &mut files, "kc_base_host.tmp", b"bytes"));
    assert!(rt; files.read(a, "kc_base_none.tmp").err() == Some(FileFault::Missing));
    assert!(rt; files.read(a, ".").err() == Some(FileFault::Missing));
    assert!(rt; files.read(a, "kc_base_host.tmp/x").err() == Some(FileFault::Missing));
    assert!(rt; files.read(a, "/dev/zero").err() == Some(FileFault::Missing));
    assert!(rt; files.hindrance().is_none());
    assert!(rt; files.write(a, "kc_base_none/x", b"lost") == Err(FileFault::Failed));
    assert!(rt; files.hindrance().map(|e| e.kind()) == Some(ErrorKind::NotFound));
    assert!(rt; files.write(a, "kc_base_host.tmp", b"new") == Ok(()));
    assert!(rt; holds(a, &mut files, "kc_base_host.tmp", b"new"));
    std::fs::remove_file(&rt, "kc_base_host.tmp")?;
    Ok(())
}

#[test]
fn host_output_takes_bytes(rt: HostRuntime) {
    let mut out = HostOut::new(&rt);
    assert!(rt; put_all(&mut out, b"kc_base\n").is_ok());
    assert!(rt; !out.is_unread());
    let mut diagnostics = HostDiagnostics::new(rt.alloc(), &rt);
    assert!(rt; put_all(&mut diagnostics, b"kc_base\n").is_ok());
    diagnostics.show();
}
