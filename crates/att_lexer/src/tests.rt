ghost use Rattle.std.specs.Prelude.{◌≤◌, length};

use super::*;
use std::process::Abort;
use std::test::Fail;

// The pieces of a text, joined by `|`.
fn shown(rt: &(impl Abort + AllocGlobal), text: &[u8]) -> Result<Vec<u8>, Fail>
    requires { length text.now ≤ MAX_BYTES }
{
    let cut = cut_pieces(rt.alloc(), text)?;
    let mut all = Vec::new(rt.alloc());
    for span in cut.spans.as_slice() {
        let start = span.start as usize;
        let end = start + span.len as usize;
        assert!(rt; end <= text.len());
        all.extend_from_slice(&text[start..end])?;
        all.push(b'|')?;
    }
    Ok(all)
}

#[test]
fn cuts_pieces(rt: HostRuntime) -> Result<(), Fail> {
    let got = shown(&rt, b"\tnop; nop; ret\nf:g: x:\n")?;
    assert_eq!(rt;
        got.as_slice(),
        b"\tnop;| nop;| ret\n|f:|g:| x:|\n|".as_slice()
    );
    let got = shown(&rt, b" 12: a:b \"x;\\\";\" ; # c;\n#;:")?;
    assert_eq!(rt;
        got.as_slice(),
        b" 12:| a:|b \"x;\\\";\" ;| # c;\n|#;:|".as_slice()
    );
    Ok(())
}

#[test]
fn finds_freeze_bytes(rt: HostRuntime) -> Result<(), Fail> {
    for (text, serial, byte) in [
        (b"a\n# / '\nb \"/\" /\n".as_slice(), 3, b'/'),
        (b"a\n\"open\n/".as_slice(), 2, b'"'),
    ] {
        let cut = cut_pieces(rt.alloc(), text)?;
        assert_eq!(rt; cut.freeze, Some(CutFreeze { serial, byte }));
    }
    Ok(())
}

// Kind, start, length and value of each token.
type Said<'a> = &'a [(TokenKind, u32, u32, u64)];

#[test]
fn reads_tokens(rt: HostRuntime) -> Result<(), Fail> {
    use TokenKind::{Mark, Number, Odd, Text, Word};
    let cases: [(&[u8], Said); 26] = [
        (b"0", &[(Number, 0, 1, 0)]),
        (b"00", &[(Number, 0, 2, 0)]),
        (b"08", &[(Odd, 0, 2, 0)]),
        (b"0x", &[(Odd, 0, 2, 0)]),
        (b"0b2", &[(Odd, 0, 3, 0)]),
        (b"0B101", &[(Number, 0, 5, 5)]),
        (
            b"18446744073709551615",
            &[(Number, 0, 20, 18_446_744_073_709_551_615)],
        ),
        (b"18446744073709551616", &[(Odd, 0, 20, 0)]),
        (
            b"0xffffffffffffffff",
            &[(Number, 0, 18, 18_446_744_073_709_551_615)],
        ),
        (b"0x10000000000000000", &[(Odd, 0, 19, 0)]),
        (b"010", &[(Number, 0, 3, 8)]),
        (b"0X1F", &[(Number, 0, 4, 31)]),
        (b"1f", &[(Odd, 0, 2, 0)]),
        (b"$$a", &[(Mark, 0, 1, 0), (Mark, 1, 1, 0), (Word, 2, 1, 0)]),
        (b"a$b", &[(Word, 0, 3, 0)]),
        (b"\"a\\\"b\"", &[(Text, 0, 6, 0)]),
        (b"\"a;b\" c", &[(Text, 0, 5, 0), (Word, 6, 1, 0)]),
        (b"\"ab", &[(Text, 0, 3, 0)]),
        (b"\"ab\n\"", &[(Text, 0, 3, 0)]),
        (b"\tret\r\n", &[(Word, 1, 3, 0)]),
        (b"\x80\xff 1", &[(Word, 0, 2, 0), (Number, 3, 1, 1)]),
        (b".L2:", &[(Word, 0, 3, 0)]),
        (b" 12:", &[(Number, 1, 2, 12)]),
        (b"f:\n", &[(Word, 0, 1, 0), (Mark, 1, 1, 0)]),
        (b"a# b;c", &[(Word, 0, 1, 0)]),
        (b"a;b", &[(Word, 0, 1, 0)]),
    ];
    for (piece, wanted) in cases {
        assert!(rt; piece.len() < 100);
        let found = tokens(rt.alloc(), piece)?;
        assert_eq!(rt; found.as_slice().len(), wanted.len(), "{piece:?}");
        for (token, said) in found.as_slice().iter().zip(wanted) {
            assert_eq!(rt;
                (token.kind, token.start, token.len, token.value),
                *said,
                "{piece:?}"
            );
        }
    }
    Ok(())
}
