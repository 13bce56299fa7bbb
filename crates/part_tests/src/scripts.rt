//! script_text: which texts are scripts and which line of the others is bad, what a script asks for, and the program's words.

use page_ids::{Bytes, Config, PageId, PageSize};
use script_text::{
    Command, Program, Script, ScriptErr, WordsErr, command_of, print_script, read_script,
};
use std::alloc::{AllocError, Global};
use std::process::Abort;
use std::test::Fail;

/// A text, and the line that is bad; none where the text is a script.
type Row = (&'static [u8], Option<u32>);

/// Blanks, comments, words and how lines are counted.
const LINES: [Row; 19] = [
    (b"", None),
    (b"\n\n", None),
    (b"#", None),
    (b"# \xff\r\t any bytes\n", None),
    (b"thread 1", None),
    (b"\n#\nthread 1\n\n# commands\nunfix 0:1\n#", None),
    (b" ", Some(1)),
    (b" #", Some(1)),
    (b" thread 1", Some(1)),
    (b"thread 1 ", Some(1)),
    (b"thread  1", Some(1)),
    (b"thread\t1", Some(1)),
    (b"thread 1\r\nunfix 0:0", Some(1)),
    (b"Thread 1", Some(1)),
    (b"threads 1", Some(1)),
    (b"thread", Some(1)),
    (b"thread 1 1", Some(1)),
    (b"#\n\nwhat\nthread 9", Some(3)),
    (b"\n\n\n.", Some(4)),
];

/// Numbers, and the page ids made of them.
const NUMBERS: [Row; 18] = [
    (b"thread 1\nfix 0:0 0", None),
    (b"thread 1\nfix 0:0 18446744073709551615", None),
    (b"thread 1\nfix 4294967295:4294967295 10", None),
    (b"thread 1\nfix 0:0 18446744073709551616", Some(2)),
    (b"thread 1\nfix 0:0 00", Some(2)),
    (b"thread 1\nfix 0:0 01", Some(2)),
    (b"thread 1\nfix 0:0 +1", Some(2)),
    (b"thread 1\nfix 0:0 -1", Some(2)),
    (b"thread 1\nfix 0:0 1x", Some(2)),
    (b"thread 1\nfix 0:0 0x1", Some(2)),
    (b"thread 1\nfix 4294967296:0 1", Some(2)),
    (b"thread 1\nfix 0:4294967296 1", Some(2)),
    (b"thread 1\nfix 00:0 1", Some(2)),
    (b"thread 1\nfix 0:01 1", Some(2)),
    (b"thread 1\nfix :0 1", Some(2)),
    (b"thread 1\nfix 0: 1", Some(2)),
    (b"thread 1\nfix 0 1", Some(2)),
    (b"thread 1\nfix 0:0:0 1", Some(2)),
];

/// Bytes in hexadecimal.
const BYTES: [Row; 15] = [
    (b"thread 1\nput 0:0 38 0123456789abcdef", None),
    (b"thread 1\nput 0:0 38", Some(2)),
    (b"thread 1\nput 0:0 38 ", Some(2)),
    (b"thread 1\nput 0:0 38 a", Some(2)),
    (b"thread 1\nput 0:0 38 abc", Some(2)),
    (b"thread 1\nput 0:0 38 AB", Some(2)),
    (b"thread 1\nput 0:0 38 ag", Some(2)),
    (b"thread 1\nput 0:0 38 0/", Some(2)),
    (b"thread 1\nput 0:0 38 0:", Some(2)),
    (b"thread 1\nput 0:0 38 0`", Some(2)),
    (b"thread 1\nput 0:0 38 0xab", Some(2)),
    (b"thread 1\nput 0:0 38 +1", Some(2)),
    (b"thread 1\nput 0:0 38 ab cd", Some(2)),
    (b"thread 1\nput 0:0 38 ab,cd", Some(2)),
    (b"thread 1\nput 0:0 38 \xab", Some(2)),
];

/// The settings' ranges, each at its ends and beyond.
const SETTINGS: [Row; 40] = [
    (b"page 4096\nsize 1", None),
    (b"page 8192\nsize 1", None),
    (b"page 16384", None),
    (b"frames 1\nsize 1", None),
    (b"frames 8192", None),
    (b"size 1", None),
    (b"size 134217728", None),
    (b"max 1", None),
    (b"frames 1024\nmax 16\nsize 1", None),
    (b"old_pct 5", None),
    (b"old_pct 95", None),
    (b"old_time 0", None),
    (b"old_time 4294967295", None),
    (b"old_min 1", None),
    (b"old_min 16384", None),
    (b"lsn 1", None),
    (b"lsn 9223372036854775807", None),
    (b"page 4095", Some(1)),
    (b"page 32768", Some(1)),
    (b"frames 0", Some(1)),
    (b"frames 8193", Some(1)),
    (b"frames 4294967297", Some(1)),
    (b"size 0", Some(1)),
    (b"size 2147483649", Some(1)),
    (b"max 0", Some(1)),
    (b"max 17", Some(1)),
    (b"old_pct 4", Some(1)),
    (b"old_pct 96", Some(1)),
    (b"old_pct 4294967333", Some(1)),
    (b"old_time 4294967296", Some(1)),
    (b"old_min 0", Some(1)),
    (b"old_min 16385", Some(1)),
    (b"lsn 0", Some(1)),
    (b"lsn 9223372036854775808", Some(1)),
    (b"lsn 18446744073709551617", Some(1)),
    (b"instances 1", None),
    (b"instances 0", Some(1)),
    (b"instances 17", Some(1)),
    (b"first 0", None),
    (b"first 281474976677888", Some(1)),
];

/// Settings in any order, each at most once, then the thread, then commands.
const ORDER: [Row; 14] = [
    (
        b"lsn 1\nold_min 512\nold_time 1000\nold_pct 37\nmax 2\nsize 1\nframes 4\npage 4096\nthread 1",
        None,
    ),
    (b"max 2\nmax 2", Some(2)),
    (b"lsn 8192\nmax 2\nlsn 8192", Some(3)),
    (b"page", Some(1)),
    (b"page 4096 4096", Some(1)),
    (b"first 0\ninstances 1\nfirst 0", Some(3)),
    (b"thread 1\nmax 2", Some(2)),
    (b"thread 1\nlsn 8192", Some(2)),
    (b"fix 0:0 1", Some(1)),
    (b"max 2\nunfix 0:0\nthread 1", Some(2)),
    (b"thread 0", Some(1)),
    (b"thread 2", Some(1)),
    (b"thread 1\nthread 1", Some(2)),
    (b"thread 1\nthread 2", Some(2)),
];

/// The commands' values, each at its ends and beyond, and how many there are.
const COMMANDS: [Row; 46] = [
    (b"thread 1\nread 0:0 38 1", None),
    (b"thread 1\nread 0:0 38 256", None),
    (b"thread 1\nread 0:0 16375 1", None),
    (b"thread 1\nread 0:0 16120 256", None),
    (b"thread 1\nput 0:0 38 ab", None),
    (b"thread 1\nput 0:0 16374 abcd", None),
    (b"thread 1\nclean 0", None),
    (b"thread 1\nclean 16384", None),
    (b"thread 1\ncheckpoint", None),
    (b"thread 1\ncreate 0:2 1", None),
    (b"thread 1\nunfix 0:0", None),
    (b"thread 1\nread 0:0 37 1", Some(2)),
    (b"thread 1\nread 0:0 38 0", Some(2)),
    (b"thread 1\nread 0:0 38 257", Some(2)),
    (b"thread 1\nread 0:0 16376 1", Some(2)),
    (b"thread 1\nread 0:0 16121 256", Some(2)),
    (b"thread 1\nread 0:0 4294967334 1", Some(2)),
    (b"thread 1\nput 0:0 37 ab", Some(2)),
    (b"thread 1\nput 0:0 16375 abcd", Some(2)),
    (b"thread 1\nput 0:0 16376 ab", Some(2)),
    (b"thread 1\nput 0:0 4294967334 ab", Some(2)),
    (b"thread 1\nclean 16385", Some(2)),
    (b"thread 1\nclean 4294967297", Some(2)),
    (b"thread 1\nclean", Some(2)),
    (b"thread 1\ncheckpoint 0", Some(2)),
    (b"thread 1\ncreate 0:2", Some(2)),
    (b"thread 1\ncreate 0:2 1 1", Some(2)),
    (b"thread 1\nunfix 0:0 1", Some(2)),
    (b"thread 1\nfix 0:0", Some(2)),
    (b"thread 1\nread 0:0 38", Some(2)),
    (b"thread 1\nguess 0:0", Some(2)),
    (b"thread 1\nscan 0:0-0 1", None),
    (b"thread 1\nscan 0:7-4102 1", None),
    (
        b"thread 1\nscan 4294967295:4294967295-4294967295 18446744073709551615",
        None,
    ),
    (b"thread 1\nscan 0:5-4 1", Some(2)),
    (b"thread 1\nscan 0:7-4103 1", Some(2)),
    (b"thread 1\nscan 0:0-4294967295 1", Some(2)),
    (b"thread 1\nscan 0:1-0:2 1", Some(2)),
    (b"thread 1\nscan 0:1 1", Some(2)),
    (b"thread 1\nscan 0:1- 1", Some(2)),
    (b"thread 1\nscan 0:1-02 1", Some(2)),
    (b"thread 1\nscan 0:1-2", Some(2)),
    (b"page 8192\nsize 1\nthread 1\nread 0:0 8183 1", None),
    (b"page 8192\nsize 1\nthread 1\nread 0:0 8184 1", Some(4)),
    (b"size 1\npage 4096\nthread 1\nput 0:0 4087 ab", None),
    (b"size 1\npage 4096\nthread 1\nput 0:0 4088 ab", Some(4)),
];

/// What is asked of the whole, and which line is told.
const WHOLE: [Row; 14] = [
    (b"frames 2\nsize 32768", None),
    (b"max 16", Some(0)),
    (b"frames 1025\nmax 16\nsize 1", Some(0)),
    (b"size 2147483648", Some(0)),
    (b"instances 16\nsize 1", Some(0)),
    (b"frames 1\nsize 1\ninstances 2", Some(0)),
    (b"first 1", Some(0)),
    (b"first 281474976677887", Some(0)),
    (b"frames 2\nsize 32769", Some(0)),
    (b"page 4096\nframes 2\nsize 16384\nmax 2", Some(0)),
    (b"max 16\nthread 2", Some(2)),
    (b"max 17\nmax 0", Some(1)),
    (
        b"frames 1\nsize 1\nthread 1\nfix 0:0 1\nfix 0:1 1\nfix 9:9 1",
        None,
    ),
    (
        b"page 4096\nframes 4\nsize 16384\nmax 2\nthread 1\nfix 0:0 5\nresize 8192 1\nread 0:0 38 4",
        Some(7),
    ),
];

/// A text, so many times a line behind it, the end, and the line that is bad.
type Long = (
    &'static [u8],
    &'static [u8],
    u32,
    &'static [u8],
    Option<u32>,
);

/// The most bytes of a put, the most calls and the longest scripts, and one more of each.
const LONG: [Long; 11] = [
    (b"thread 1\nput 0:0 16120 ", b"5a", 256, b"", None),
    (b"thread 1\nput 0:0 38 ", b"5a", 257, b"", Some(2)),
    (b"thread 1\n", b"clean 0\n", 65536, b"# no call\n", None),
    (
        b"max 16\nthread 1\n",
        b"unfix 0:0\n",
        65536,
        b"#\ncheckpoint\nwhat",
        Some(65540),
    ),
    (
        b"thread 1\n",
        b"scan 0:0-4095 1\n",
        5,
        b"scan 1:0-1364 1\nclean 0\n",
        None,
    ),
    (
        b"thread 1\n",
        b"scan 0:0-4095 1\n",
        5,
        b"scan 1:0-1364 1\nclean 0\ncheckpoint\nscan",
        Some(9),
    ),
    (
        b"instances 2\nthread 1\n",
        b"clean 0\n",
        32767,
        b"checkpoint\ncheckpoint\n",
        Some(32771),
    ),
    (b"", b"# fifteen bytes\n", 65536, b"", None),
    (b"", b"# fifteen bytes\n", 65536, b"\n", Some(0)),
    (b"bad\n", b"\n", 1048573, b"", Some(0)),
    (b"", b"\n", 1048576, b"", None),
];

/// The text is a script, or this line of it is bad.
fn check(rt: &impl Abort, alloc: Global, text: &[u8], line: Option<u32>) -> Result<(), AllocError> {
    let found = match read_script(alloc, text) {
        Ok(_) => None,
        Err(ScriptErr::BadLine { line }) => Some(line),
        Err(ScriptErr::OutOfMemory) => return Err(AllocError),
    };
    assert_eq!(rt; found, line);
    Ok(())
}

fn check_rows(rt: &impl Abort, alloc: Global, rows: &[Row]) -> Result<(), AllocError> {
    for (text, line) in rows {
        check(rt, alloc, text, *line)?;
    }
    Ok(())
}

fn repeated(alloc: Global, text: &[u8], line: &[u8], times: u32) -> Result<Vec<u8>, AllocError> {
    let mut all = Vec::from_slice(alloc, text)?;
    for _ in 0..times {
        all.extend_from_slice(line)?;
    }
    Ok(all)
}

#[test]
fn which_texts_are_scripts(rt: HostRuntime) -> Result<(), Fail> {
    let alloc = rt.alloc();
    check_rows(&rt, alloc, &LINES)?;
    check_rows(&rt, alloc, &NUMBERS)?;
    check_rows(&rt, alloc, &BYTES)?;
    check_rows(&rt, alloc, &SETTINGS)?;
    check_rows(&rt, alloc, &ORDER)?;
    check_rows(&rt, alloc, &COMMANDS)?;
    check_rows(&rt, alloc, &WHOLE)?;
    for (head, line, times, end, bad) in LONG {
        let mut text = repeated(alloc, head, line, times)?;
        text.extend_from_slice(end)?;
        check(&rt, alloc, text.as_slice(), bad)?;
    }
    Ok(())
}

/// Each setting and each command.
const SCRIPT: &[u8] =
    b"page 4096\nframes 8\nsize 16385\nmax 3\nold_pct 5\nold_time 6\nold_min 7\nlsn 9\n\
    thread 1\nfix 7:9 5\nread 7:9 38 4\nput 7:9 39 00ff\nunfix 7:9\ncreate 0:2 8\nscan 7:9-11 12\nclean 16384\ncheckpoint\n";

const CONFIG: Config = Config {
    page: PageSize::Kib4,
    instances: 1,
    frames: 8,
    size: 16385,
    max: 3,
    old_pct: 5,
    old_time: 6,
    old_min: 7,
    lsn: 9,
    first: 0,
};

#[test]
fn what_a_script_asks_for(rt: HostRuntime) -> Result<(), Fail> {
    let alloc = rt.alloc();
    let script = read_script(alloc, SCRIPT)?;
    let page = PageId { space: 7, page: 9 };
    let commands = [
        Command::Fix { page, now: 5 },
        Command::Read {
            page,
            at: 38,
            len: 4,
        },
        Command::Put {
            page,
            at: 39,
            bytes: Bytes::of(vec![in alloc; 0, 255]?),
        },
        Command::Unfix { page },
        Command::Create {
            page: PageId { space: 0, page: 2 },
            now: 8,
        },
        Command::Scan {
            from: page,
            last: 11,
            now: 12,
        },
        Command::Clean { bound: 16384 },
        Command::Checkpoint,
    ];
    assert_eq!(rt;
        (*script.config(), script.commands()),
        (CONFIG, commands.as_slice())
    );
    Ok(())
}

/// Texts, and the printed forms of the scripts that they are: all settings, then the threads, without comments.
const PRINTED: [(&[u8], &[u8]); 3] = [
    (
        b"thread 1\nunfix 0:1",
        b"page 16384\ninstances 1\nframes 8192\nsize 134217728\nmax 2\nold_pct 37\nold_time 1000\nold_min 512\nlsn 8192\nfirst 0\n\
        thread 1\nunfix 0:1\n",
    ),
    (
        b"# nothing\n\nfirst 0\nmax 1\n#\n\n",
        b"page 16384\ninstances 1\nframes 8192\nsize 134217728\nmax 1\nold_pct 37\nold_time 1000\nold_min 512\nlsn 8192\nfirst 0\n",
    ),
    (
        SCRIPT,
        b"page 4096\ninstances 1\nframes 8\nsize 16385\nmax 3\nold_pct 5\nold_time 6\nold_min 7\nlsn 9\nfirst 0\n\
        thread 1\nfix 7:9 5\nread 7:9 38 4\nput 7:9 39 00ff\nunfix 7:9\ncreate 0:2 8\nscan 7:9-11 12\nclean 16384\ncheckpoint\n",
    ),
];

/// The printed form of the script that a text is, behind a byte that stands there before.
fn printed(alloc: Global, text: &[u8]) -> Result<Vec<u8>, Fail> {
    let script = read_script(alloc, text)?;
    let mut out = vec![in alloc; b'.'; 1]?;
    print_script(&script, &mut out)?;
    Ok(out)
}

#[test]
fn what_is_printed(rt: HostRuntime) -> Result<(), Fail> {
    let alloc = rt.alloc();
    for (text, want) in PRINTED {
        let mut all = Vec::from_slice(alloc, b".".as_slice())?;
        all.extend_from_slice(want)?;
        let once = printed(alloc, text)?;
        assert_eq!(rt; once.as_slice(), all.as_slice());
        let twice = printed(alloc, want)?;
        assert_eq!(rt; twice.as_slice(), all.as_slice());
    }
    Ok(())
}

/// The printed form of a script of two threads.
const TWO_THREADS: &[u8] =
    b".page 4096\ninstances 1\nframes 8\nsize 16385\nmax 3\nold_pct 5\nold_time 6\nold_min 7\nlsn 9\nfirst 0\n\
    thread 1\nclean 7\nthread 2\ncheckpoint\nunfix 0:2\n";

#[test]
fn how_two_threads_are_printed(rt: HostRuntime) -> Result<(), Fail> {
    let alloc = rt.alloc();
    let page = PageId { space: 0, page: 2 };
    let mut first = Vec::new(alloc);
    first.push(Command::Clean { bound: 7 })?;
    let mut second = Vec::new(alloc);
    second.push(Command::Checkpoint)?;
    second.push(Command::Unfix { page })?;
    let mut threads = Vec::new(alloc);
    threads.push(first)?;
    threads.push(second)?;
    let mut out = vec![in alloc; b'.'; 1]?;
    print_script(&Script::of(CONFIG, threads), &mut out)?;
    assert_eq!(rt; out.as_slice(), TWO_THREADS);
    Ok(())
}

/// Words, and what they call for.
const WORDS: [(&[&str], &str); 20] = [
    (&["run", "0", "a", "b-"], "run 0 a b-"),
    (
        &["run", "4294967295", "file", "log"],
        "run 4294967295 file log",
    ),
    (&[], "usage"),
    (&["run"], "usage"),
    (&["run", "0", "a"], "usage"),
    (&["run", "0", "a", "b", "c"], "usage"),
    (&["Run", "0", "a", "b"], "usage"),
    (&["check"], "check"),
    (&["check", "0"], "usage"),
    (&["check", ""], "usage"),
    (&["Check"], "usage"),
    (&["-x", "check"], "usage"),
    (&["run", "", "a", "b"], "usage"),
    (&["run", "00", "a", "b"], "usage"),
    (&["run", "+1", "a", "b"], "usage"),
    (&["run", "4294967296", "a", "b"], "usage"),
    (&["run", "0", "", "b"], "usage"),
    (&["run", "0", "a", ""], "usage"),
    (&["run", "0", "-a", "b"], "usage"),
    (&["run", "0", "a", "-"], "usage"),
];

fn strings(alloc: Global, texts: &[&str]) -> Result<Vec<String>, AllocError> {
    let mut words = Vec::new(alloc);
    for text in texts {
        words.push(String::from_str(alloc, text)?)?;
    }
    Ok(words)
}

/// What the words call for, as a text.
fn called(alloc: Global, texts: &[&str]) -> Result<String, AllocError> {
    let words = strings(alloc, texts)?;
    match command_of(alloc, words.as_slice()) {
        Ok(Program::Run { space, file, log }) => {
            let (file, log) = (file.as_str(), log.as_str());
            format!(in alloc; "run {space} {file} {log}")
        }
        Ok(Program::Check) => String::from_str(alloc, "check"),
        Err(WordsErr::Usage) => String::from_str(alloc, "usage"),
        Err(WordsErr::OutOfMemory) => Err(AllocError),
    }
}

#[test]
fn what_the_words_call_for(rt: HostRuntime) -> Result<(), Fail> {
    for (texts, want) in WORDS {
        let found = called(rt.alloc(), texts)?;
        assert_eq!(rt; found.as_str(), want);
    }
    Ok(())
}
