//! Rows over the objects in memory: what no clause can say is that memory does not run out.

ghost use Rattle.std.specs.Prelude.{◌≡◌, ◌<◌, [], IfOk};

use crate::{Answer, harec, status};
use hx_base::{Bytes, Text};
use hx_io::{Calls, MemFiles, MemSink, MemSource};
use std::alloc::{AllocError, Global};
use std::test::Fail;

/// What a call is given.
#[derive(Clone, Copy)]
struct Given<'a> {
    /// The words, apart by spaces.
    words: &'a str,
    /// The files, each a path with its content.
    files: &'a [(&'a str, &'a str)],
    /// What the input has left.
    input: &'a str,
    /// The numbers of the calls that fail.
    file_fails: &'a [u64],
    input_fails: &'a [u64],
    out_fails: &'a [u64],
    log_fails: &'a [u64],
    /// The most bytes that the output takes in one call.
    most: usize,
}

/// A call on these files, in which nothing fails.
fn on<'a>(words: &'a str, files: &'a [(&'a str, &'a str)]) -> Given<'a> {
    Given {
        words,
        files,
        input: "",
        file_fails: &[],
        input_fails: &[],
        out_fails: &[],
        log_fails: &[],
        most: 4096,
    }
}

fn words_of(alloc: Global, line: &str) -> Result<Vec<Text>, AllocError> {
    let mut words = Vec::new(alloc);
    for word in line.split_ascii_whitespace() {
        words.push(Text::copy(alloc, word)?)?;
    }
    Ok(words)
}

fn bytes(alloc: Global, content: &str) -> Result<Bytes, AllocError> {
    let mut bytes = Bytes::new(alloc);
    bytes.extend(content.as_bytes())?;
    Ok(bytes)
}

fn calls(alloc: Global, numbers: &[u64]) -> Result<Calls, AllocError> {
    let mut calls = Calls::new(alloc);
    for number in numbers {
        calls.push(*number)?;
    }
    Ok(calls)
}

/// Files with these contents, of which no read has failed yet.
fn held(alloc: Global, files: &[(&str, &str)], fails: &[u64]) -> Result<MemFiles, AllocError>
    ensures { IfOk result (λ held. held.tally.failed ≡ 0) }
{
    let mut held = MemFiles::new(alloc, calls(alloc, fails)?);
    for file in files {
        let (path, content) = *file;
        held.add(Text::copy(alloc, path)?, bytes(alloc, content)?)?;
    }
    Ok(held)
}

/// An output, of which no write has failed yet.
fn sink(alloc: Global, fails: &[u64], most: usize) -> Result<MemSink, AllocError>
    requires { 0 < most }
    ensures { IfOk result (λ sink. sink.tally.failed ≡ 0) }
{
    MemSink::new(alloc, calls(alloc, fails)?, most, 4096)
}

/// An input, of which no read has failed yet.
fn source(alloc: Global, content: &str, fails: &[u64]) -> Result<MemSource, AllocError>
    ensures { IfOk result (λ source. source.tally.failed ≡ 0) }
{
    let content = bytes(alloc, content)?;
    Ok(MemSource::new(alloc, content, calls(alloc, fails)?))
}

/// The answer to these words.
fn answer_to(
    alloc: Global,
    words: &[Text],
    files: &mut MemFiles,
    input: &mut MemSource,
    out: &mut MemSink,
    log: &mut MemSink,
) -> Answer
    requires files { files.old.tally.failed ≡ 0 }
    requires input { input.old.tally.failed ≡ 0 }
    requires out { out.old.tally.failed ≡ 0 }
    requires log { log.old.tally.failed ≡ 0 }
{
    let mut text = Bytes::new(alloc);
    harec(alloc, words, files, input, out, log, 165, &mut text)
}

/// The status, the output and the log of a call, apart by bars. Each of the five functions here makes one thing that the call is given, so
/// that none holds two: a function is proved to give up what it holds on each way out of it.
fn outcome(alloc: Global, given: Given) -> Result<String, AllocError> {
    let words = words_of(alloc, given.words)?;
    outcome_of(alloc, given, words.as_slice())
}

fn outcome_of(alloc: Global, given: Given, words: &[Text]) -> Result<String, AllocError> {
    let mut files = held(alloc, given.files, given.file_fails)?;
    outcome_on(alloc, given, words, &mut files)
}

fn outcome_on(
    alloc: Global,
    given: Given,
    words: &[Text],
    files: &mut MemFiles,
) -> Result<String, AllocError>
    requires { files.old.tally.failed ≡ 0 }
{
    let mut input = source(alloc, given.input, given.input_fails)?;
    outcome_with(alloc, given, words, files, &mut input)
}

fn outcome_with(
    alloc: Global,
    given: Given,
    words: &[Text],
    files: &mut MemFiles,
    input: &mut MemSource,
) -> Result<String, AllocError>
    requires files { files.old.tally.failed ≡ 0 }
    requires input { input.old.tally.failed ≡ 0 }
{
    let mut out = sink(alloc, given.out_fails, given.most.max(1))?;
    outcome_to(alloc, given, words, files, input, &mut out)
}

fn outcome_to(
    alloc: Global,
    given: Given,
    words: &[Text],
    files: &mut MemFiles,
    input: &mut MemSource,
    out: &mut MemSink,
) -> Result<String, AllocError>
    requires files { files.old.tally.failed ≡ 0 }
    requires input { input.old.tally.failed ≡ 0 }
    requires out { out.old.tally.failed ≡ 0 }
{
    let mut log = sink(alloc, given.log_fails, 5)?;
    let answer = answer_to(alloc, words, files, input, out, &mut log);
    told(alloc, status(&answer), out, &log)
}

fn told(alloc: Global, status: u8, out: &MemSink, log: &MemSink) -> Result<String, AllocError> {
    let out = text_of(out.written());
    let log = text_of(log.written());
    format!(in alloc; "{status}|{out}|{log}")
}

fn text_of(bytes: &[u8]) -> &str {
    std::str::from_utf8(bytes).unwrap_or("no text")
}

/// So many copies of a text behind another.
fn behind(alloc: Global, front: &str, piece: &str, count: u32) -> Result<String, AllocError> {
    let mut all = String::from_str(alloc, front)?;
    for _copy in 0..count {
        all.push_str(piece)?;
    }
    Ok(all)
}

const MAIN: &str = "export fn main() void = {};\n";

const THREE: &str =
    "fn f(x: (int | str | !void)) void = match (x) { case int => void; case str => void; };\nexport fn main() void = void;\n";

const ALL_THREE: &str =
    "fn f(x: (int | str | !void)) void = match (x) { case int => void; case str => void; case => void; };\nexport fn main() void = void;\n";

#[test]
fn checks_of_one_file(rt: HostRuntime) -> Result<(), Fail> {
    let deep = behind(rt.alloc(), "export fn main() void = ", "(", 300)?;
    for (source, expected) in [
        (MAIN, "0||"),
        ("", "65||main.ha:1:1: E46 MainShape\n"),
        ("export fn main() void = {", "65||main.ha:1:26: E8 Syntax\n"),
        (
            "let x: u8 = 255 + 1; export fn main() void = {};",
            "65||main.ha:1:17: E25 NotAssignable\n",
        ),
        ("let x: u8 = 255; export fn main() void = {};", "0||"),
        (THREE, "65||main.ha:1:37: E37 NotExhaustive\n"),
        (ALL_THREE, "0||"),
        (
            "def a: int = b; def b: int = a;",
            "65||main.ha:1:5: E23 ConstantCycle\n",
        ),
        ("let s: str = \"ab", "65||main.ha:1:14: E6 Unterminated\n"),
        // What the call makes is dropped, so that the fault stands at its `(`.
        (
            "fn f() (int | !void) = 1;\nexport fn main() void = { f(); };",
            "65||main.ha:2:28: E44 ErrorDropped\n",
        ),
        (deep.as_str(), "65||main.ha:1:281: E9 TooDeep\n"),
        (
            "use rt;\nexport fn main() void = {\n\tlet a: []u8 = alloc([65], 1);\n};",
            "65||main.ha:3:16: E25 NotAssignable\n",
        ),
        (
            "use rt; export fn main() void = { let s: []u8 = []; append(s, 1); };",
            "65||main.ha:1:53: E44 ErrorDropped\n",
        ),
    ] {
        let files = [("main.ha", source)];
        let outcome = outcome(rt.alloc(), on("check main.ha", &files))?;
        assert_eq!(rt; outcome.as_str(), expected, "{source}");
    }
    Ok(())
}

#[test]
fn checks_of_several_files(rt: HostRuntime) -> Result<(), Fail> {
    let user = "use m;\nexport fn main() void = m::f();";
    for (words, first, second, expected) in [
        (
            "check main.ha m/x.ha",
            ("main.ha", user),
            ("m/x.ha", "fn f() void = void;"),
            "65||main.ha:2:25: E14 NotExported\n",
        ),
        (
            "check main.ha m/x.ha",
            ("main.ha", user),
            ("m/x.ha", "export fn f() void = void;"),
            "0||",
        ),
        (
            "check ./main.ha m/x.ha",
            ("./main.ha", user),
            ("m/x.ha", "fn f() void = void;"),
            "65||./main.ha:2:25: E14 NotExported\n",
        ),
        (
            "check a.ha b.ha",
            ("a.ha", MAIN),
            ("b.ha", "let y: u8 = 300;"),
            "65||b.ha:1:13: E25 NotAssignable\n",
        ),
        (
            "emit a.ha b.ha",
            ("a.ha", MAIN),
            ("b.ha", "let y: u8 = 30;"),
            "65||a.ha:1:1: E49 NotBuilt\n",
        ),
        (
            "check a.ha b.ha",
            ("a.ha", ""),
            ("b.ha", "let x: u8 = 256;"),
            "65||b.ha:1:13: E25 NotAssignable\n",
        ),
        (
            "check a.ha missing.ha",
            ("a.ha", MAIN),
            ("b.ha", ""),
            "66||missing.ha: file fault\n",
        ),
        (
            "check missing.ha",
            ("a.ha", MAIN),
            ("b.ha", ""),
            "66||missing.ha: file fault\n",
        ),
    ] {
        let files = [first, second];
        let outcome = outcome(rt.alloc(), on(words, &files))?;
        assert_eq!(rt; outcome.as_str(), expected, "{words}");
    }
    Ok(())
}

const GREETS: &str = "use rt;export fn main()void={rt::puts(\"a\");// x\n};";

const GREETS_LAID: &str = "0|use rt;\nexport fn main() void = {\n\trt::puts(\"a\"); // x\n};\n|";

#[test]
fn layouts(rt: HostRuntime) -> Result<(), Fail> {
    let most = behind(rt.alloc(), "", " ", 1_048_576)?;
    let more = behind(rt.alloc(), most.as_str(), " ", 1)?;
    for (source, expected) in [
        (GREETS, GREETS_LAID),
        (
            "let a: [2]int = [1, 2,];",
            "0|let a: [2]int = [\n\t1,\n\t2,\n];\n|",
        ),
        ("export fn main() void = {", "65||main.ha:1:26: E8 Syntax\n"),
        ("let s: str = \"ab", "65||main.ha:1:14: E6 Unterminated\n"),
        // No name and no type is looked at.
        ("let x: u8 = y+300;", "0|let x: u8 = y + 300;\n|"),
        ("", "0||"),
        (
            "// none\n\n\n// but these\n",
            "0|// none\n\n// but these\n|",
        ),
        (most.as_str(), "0||"),
        (more.as_str(), "65||main.ha:1:1: E1 FileTooLarge\n"),
    ] {
        let files = [("main.ha", source)];
        let outcome = outcome(rt.alloc(), on("fmt main.ha", &files))?;
        assert_eq!(rt; outcome.as_str(), expected);
    }
    Ok(())
}

#[test]
fn words_that_ask_for_nothing(rt: HostRuntime) -> Result<(), Fail> {
    let files = [("main.ha", MAIN), ("b.ha", MAIN)];
    for words in [
        "",
        "check",
        "fmt",
        "fmt main.ha b.ha",
        "fmt main",
        "fmt a/../main.ha",
        "emit main.ha --",
        "run --units 0 main.ha",
        "exec",
        "exec --main.il",
        "exec --units 0 main.il",
        "exec main.il b.il",
    ] {
        let outcome = outcome(rt.alloc(), on(words, &files))?;
        assert_eq!(rt; outcome.as_str(), "64||harec: usage\n", "{words}");
    }
    Ok(())
}

const COUNTS: &str = "use rt;\nexport fn main() void = rt::exit((rt::nargs() * 3z + 1z): u8);\n";

const LOOPS: &str =
    "use rt; export fn main() void = { let i = 0z; for (i < rt::nargs()) { rt::puts(\"ab\"); i = i + 1z; }; rt::exit((i * 2z): u8); };";

#[test]
fn calls_that_fail(rt: HostRuntime) -> Result<(), Fail> {
    let check = on("check main.ha", &[("main.ha", "")]);
    let emit = on("emit main.ha", &[("main.ha", COUNTS)]);
    let run = on("run main.ha -- a b c", &[("main.ha", LOOPS)]);
    let fmt = on("fmt main.ha", &[("main.ha", GREETS)]);
    let faulty = on("fmt main.ha", &[("main.ha", "export fn main() void = {")]);
    for (given, expected) in [
        (run, "6|ababab|"),
        (
            Given {
                file_fails: &[1],
                ..check
            },
            "66||main.ha: file fault\n",
        ),
        (
            Given {
                file_fails: &[1],
                ..fmt
            },
            "66||main.ha: file fault\n",
        ),
        (
            Given {
                out_fails: &[2],
                most: 6,
                ..emit
            },
            "74|export|harec: write fault\n",
        ),
        (
            Given {
                out_fails: &[2],
                ..run
            },
            "74|ab|harec: write fault\n",
        ),
        (
            Given {
                out_fails: &[3],
                most: 5,
                ..fmt
            },
            "74|use rt;\nex|harec: write fault\n",
        ),
        (
            Given {
                out_fails: &[1],
                ..fmt
            },
            "74||harec: write fault\n",
        ),
        // Both fail. A log takes at most five bytes in one call.
        (
            Given {
                out_fails: &[1],
                log_fails: &[1],
                ..run
            },
            "74||",
        ),
        (
            Given {
                log_fails: &[2],
                ..faulty
            },
            "74||main.",
        ),
        (
            Given {
                words: "",
                log_fails: &[2],
                ..run
            },
            "74||harec",
        ),
        // A layout that was written has no line.
        (
            Given {
                log_fails: &[1],
                ..fmt
            },
            GREETS_LAID,
        ),
    ] {
        let outcome = outcome(rt.alloc(), given)?;
        assert_eq!(rt; outcome.as_str(), expected);
    }
    Ok(())
}

const SWAP: &str = "export function w $main() {
@start
@loop
\t%a =w phi @start 1, @loop %b
\t%b =w phi @start 2, @loop %a
\t%i =w phi @start 0, @loop %j
\t%j =w add %i, 1
\t%c =w csltw %j, 2
\tjnz %c, @loop, @done
@done
\tret %b
}
";

/// Writes what it reads, four bytes at a time.
const ECHO: &str = "export function w $main() {
@start
\t%b =l alloc8 4
@more
\t%n =l call $rt.read(l %b, l 4)
\tcall $rt.write(l %b, l %n)
\t%c =w cnel %n, 0
\tjnz %c, @more, @done
@done
\tret 0
}
";

/// Writes `ab`, and aborts with `gave up`.
const ABORTS: &str = "data $t = align 1 { b \"abgave up\" }
export function $main() {
@s
\t%t =l add $t, 2
\tcall $rt.puts(l $t, l 2)
\tcall $rt.abort(l %t, l 7)
\tret
}
";

/// Writes `a`, and then takes a block of the heap, four bytes of the stack and a call.
const TAKES: &str = "data $t = align 1 { b \"a\" }
function l $f(l %p) {
@s
\t%a =l alloc4 4
\tstorew 7, %a
\tstorel %p, %p
\tret %p
}
export function w $main() {
@s
\tcall $rt.puts(l $t, l 1)
\t%h =l call $rt.malloc(l 8)
\t%r =l call $f(l %h)
\t%x =w ceql %r, %h
\tret %x
}
";

#[test]
fn runs_of_texts(rt: HostRuntime) -> Result<(), Fail> {
    let commented = behind(rt.alloc(), "# swap\n", SWAP, 1)?;
    for (words, text, expected) in [
        ("exec x.ssa", SWAP, "1||"),
        ("exec --units 13 x.ssa", SWAP, "1||"),
        ("exec --units 12 x.ssa", SWAP, "75||harec: spent 12 units\n"),
        (
            "exec x.ssa",
            commented.as_str(),
            "65||x.ssa:1:1: I13 NotPrinted\n",
        ),
        ("exec x.ssa", "", "65||x.ssa:1:1: I13 NotPrinted\n"),
        ("exec x.ssa", ECHO, "0|to be or|"),
        (
            "exec --units 3 x.ssa -- a",
            ECHO,
            "75|to b|harec: spent 3 units\n",
        ),
        ("exec x.ssa", ABORTS, "134|ab|gave up\n"),
        ("exec x.ssa", TAKES, "1|a|"),
        ("exec y.ssa", SWAP, "66||y.ssa: file fault\n"),
    ] {
        let files = [("x.ssa", text)];
        let given = Given {
            input: "to be or",
            ..on(words, &files)
        };
        let outcome = outcome(rt.alloc(), given)?;
        assert_eq!(rt; outcome.as_str(), expected, "{words}");
    }
    Ok(())
}

#[test]
fn runs_that_fail(rt: HostRuntime) -> Result<(), Fail> {
    let files = [("x.ssa", ECHO)];
    let echo = Given {
        input: "to be or",
        ..on("exec x.ssa", &files)
    };
    let aborts = on("exec x.ssa", &[("x.ssa", ABORTS)]);
    for (given, expected) in [
        (
            Given {
                file_fails: &[1],
                ..echo
            },
            "66||x.ssa: file fault\n",
        ),
        (
            Given {
                input_fails: &[1],
                ..echo
            },
            "74||harec: read fault\n",
        ),
        (
            Given {
                input_fails: &[2],
                ..echo
            },
            "74|to b|harec: read fault\n",
        ),
        (
            Given {
                out_fails: &[2],
                ..echo
            },
            "74|to b|harec: write fault\n",
        ),
        (
            Given {
                out_fails: &[2],
                most: 3,
                ..echo
            },
            "74|to |harec: write fault\n",
        ),
        // A log takes at most five bytes in one call.
        (
            Given {
                log_fails: &[2],
                ..aborts
            },
            "74|ab|gave ",
        ),
        (
            Given {
                log_fails: &[3],
                ..aborts
            },
            "74|ab|gave up",
        ),
    ] {
        let outcome = outcome(rt.alloc(), given)?;
        assert_eq!(rt; outcome.as_str(), expected);
    }
    Ok(())
}
