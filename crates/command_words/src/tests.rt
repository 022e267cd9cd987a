use crate::{Command, ServeWords, read_command, serve_words};
use gs1_keys::Text20;
use std::alloc::Global;
use std::test::Fail;

/// The words of a line, parted by spaces.
fn words(alloc: Global, line: &str) -> Result<Vec<String>, Fail> {
    let mut words = Vec::new(alloc);
    for word in line.split(' ') {
        words.push(String::from_str(alloc, word)?)?;
    }
    Ok(words)
}

/// The command of the words of a line.
fn command(alloc: Global, line: &str) -> Result<Option<Command>, Fail> {
    let words = words(alloc, line)?;
    match read_command(alloc, words.as_slice()) {
        Ok(command) => Ok(command),
        Err(_) => Err(Fail::from("want of memory")),
    }
}

#[test]
fn commands_are_read(rt: HostRuntime) -> Result<(), Fail> {
    let alloc = rt.alloc();
    let Ok(batch) = Text20::read(b"B7") else {
        return Err(Fail::from("no name"));
    };
    for (line, wanted) in [
        ("init e1.toml", Command::Init),
        ("run", Command::Run),
        ("report B7", Command::Report { batch }),
        (
            "export B7 1 10000",
            Command::Export {
                batch,
                from: 1,
                count: 10_000,
            },
        ),
        ("check", Command::Check),
        (
            "log 4294967295 1",
            Command::Log {
                from: 4_294_967_295,
                count: 1,
            },
        ),
        ("sim 007 1", Command::Simulate { seed: 7, count: 1 }),
        (
            "serve 8080 1 5",
            Command::Serve(ServeWords {
                port: 8080,
                workers: 1,
                connections: 5,
            }),
        ),
    ] {
        assert!(rt; command(alloc, line)? == Some(wanted));
    }
    Ok(())
}

#[test]
fn other_words_are_no_command(rt: HostRuntime) -> Result<(), Fail> {
    let alloc = rt.alloc();
    for line in [
        "",
        "sim 7",
        "sim 7 0",
        "sim 7 200001",
        "sim +7 10",
        "sim 00000000007 10",
        "sim -- 7 10",
        "sim 7 10 10",
        "init",
        "init e1.toml e1.toml",
        "run run",
        "report",
        "report B7-is-longer-than-20-characters",
        "export B7 0 1",
        "export B7 1 10001",
        "log 4294967296 1",
        "serve 0 1 5",
        "serve 8080 65 5",
        "serve 8080 1 1000001",
        "serve 8080 1 5 6 7",
        "help",
        "--help",
        "-V",
    ] {
        assert!(rt; command(alloc, line)?.is_none());
    }
    assert!(rt; matches!(read_command(alloc, &[]), Ok(None)));
    Ok(())
}

#[test]
fn the_words_of_serve(rt: HostRuntime) -> Result<(), Fail> {
    let alloc = rt.alloc();
    for (line, wanted) in [
        (
            "serve 8080 1 5",
            Some(ServeWords {
                port: 8080,
                workers: 1,
                connections: 5,
            }),
        ),
        ("serve 0 1 5", None),
        ("run", None),
    ] {
        let words = words(alloc, line)?;
        match serve_words(alloc, words.as_slice()) {
            Ok(numbers) => assert!(rt; numbers == wanted),
            Err(_) => return Err(Fail::from("want of memory")),
        }
    }
    Ok(())
}
