// Where inputs are divided, and in which order they are refused.
use sg_top::{NoMemory, Read, cut, one_cut, one_input, read_input};
use std::alloc::Global;
use std::test::Fail;

// An input, and the texts before and after its first divider.
static CUTS: [(&[u8], &[u8], &[u8]); 15] = [
    (b"a\n%%\nb", b"a\n", b"b"),
    (b"%%\nb\n", b"", b"b\n"),
    (b"\n\n%%\n\n", b"\n\n", b"\n"),
    // CR LF
    (b"a\r\n%%\r\nb\r\n", b"a\r\n", b"b\r\n"),
    (b"%%\r\n", b"", b""),
    // at the end of the input
    (b"a\n%%", b"a\n", b""),
    (b"%%", b"", b""),
    // twice
    (b"a\n%%\nb\n%%\nc\n", b"a\n", b"b\n%%\nc\n"),
    (b"%%\n%%\n", b"", b"%%\n"),
    (b"%%\r\n%%", b"", b"%%"),
    // within a comment and within a text
    (b"/* a\n%%\nb */", b"/* a\n", b"b */"),
    (b"\"a\n%%\nb\"", b"\"a\n", b"b\""),
    // after lines that aren't dividers
    (b"%%%\n %%\n%% \n%%\nb", b"%%%\n %%\n%% \n", b"b"),
    (b"%%\r\r\n%\n%%\r\nb", b"%%\r\r\n%\n", b"b"),
    (b"//%%\n%%b\n%%\n", b"//%%\n%%b\n", b""),
];

// Inputs that no line divides.
static UNCUT: [&[u8]; 23] = [
    b"",
    b"\n",
    b"a\nb\n",
    b"----\n",
    b"%",
    b"%\n%\n",
    b"% %\n",
    b"%%%",
    b"%%%\n",
    b"%%%%\n",
    b" %%",
    b" %%\n",
    b"\t%%\n",
    b"%% ",
    b"%% \n",
    b"a%%\n",
    b"%%a\n",
    b"//%%\n",
    b"/*%%*/\n",
    // a CR that no LF follows, and one before the divider
    b"%%\r",
    b"%%\ra\n",
    b"a\r%%\n",
    b"%%\0\n",
];

// Whether an input is divided into these two texts.
fn is_cut(input: &[u8], before: &[u8], behind: &[u8]) -> bool {
    match cut(input) {
        Some((front, rest)) => front == before && rest == behind,
        None => false,
    }
}

#[test]
fn divides_at_the_first_divider(rt: HostRuntime) {
    one_cut();
    for (input, before, behind) in &CUTS {
        assert!(rt; is_cut(input, before, behind), "on {input:?}");
    }
    for input in &UNCUT {
        assert!(rt; cut(input).is_none(), "on {input:?}");
    }
}

// Whether an input is refused with this line, where no service is known.
fn is_refused(alloc: Global, input: &[u8], line: &[u8]) -> Result<bool, NoMemory> {
    match read_input(alloc, input, &[])? {
        Read::Refused(said) => Ok(said.as_slice() == line),
        Read::Ready(_) => Ok(false),
    }
}

static REFUSED: [(&[u8], &[u8]); 5] = [
    (b"", b"input refused: NoDivider\n"),
    (b"service_global_info = #", b"input refused: NoDivider\n"),
    (b"%%\n#", b"interface refused at 1:1: Syntax\n"),
    (
        b"service_global_info = #\n%%\n%%",
        b"interface refused at 1:23: Lex\n",
    ),
    (b"/* a\n%%\nb */", b"interface refused at 1:1: Lex\n"),
];

#[test]
fn refuses_inputs_in_order(rt: HostRuntime) -> Result<(), Fail> {
    one_input();
    for (input, line) in &REFUSED {
        assert!(rt; is_refused(rt.alloc(), input, line)?, "on {input:?}");
    }
    Ok(())
}
