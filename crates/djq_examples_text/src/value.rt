use bytes::BytesMut;
use djq_model::{Operator, Value, ValueRef};
use djq_value::{Lexer, Token, ValueRefusal, print_cell, read_value};
use std::alloc::{AllocError, Global};
use std::test::Fail;

#[test]
fn prints_integers(rt: HostRuntime) {
    let cases: [(i64, &[u8]); 8] = [
        (i64::MIN, b" -9223372036854775808"),
        (-7, b" -7"),
        (0, b" 0"),
        (99, b" 99"),
        (100, b" 100"),
        (9999, b" 9999"),
        (10_000, b" 10000"),
        (i64::MAX, b" 9223372036854775807"),
    ];
    for (number, want) in cases {
        let mut out = BytesMut::new(rt.alloc());
        assert!(rt; print_cell(ValueRef::Int(number), &mut out) == Ok(()));
        assert!(rt; out.as_slice() == want);
    }
}

#[test]
fn prints_texts_with_their_escapes(rt: HostRuntime) -> Result<(), Fail> {
    let cases: [(&[u8], &[u8]); 3] = [
        (b"", b" \"\""),
        (b"a b", b" \"a b\""),
        (b"b\"\\\n", b" \"b\\\"\\\\\\n\""),
    ];
    for (text, want) in cases {
        let mut out = BytesMut::new(rt.alloc());
        assert!(rt; print_cell(ValueRef::Text(text), &mut out) == Ok(()));
        assert!(rt; out.as_slice() == want);
    }
    Ok(())
}

/// A text of so many bytes, in quotes.
fn quoted(alloc: Global, count: usize) -> Result<Vec<u8>, AllocError> {
    let mut bytes = Vec::from_slice(alloc, b"\"")?;
    for _ in 0..count {
        bytes.push(b'a')?;
    }
    bytes.push(b'"')?;
    Ok(bytes)
}

#[test]
fn values_are_read_back_as_printed(rt: HostRuntime) -> Result<(), Fail> {
    let long = quoted(rt.alloc(), 255)?;
    let cases: [&[u8]; 11] = [
        b"-9223372036854775808",
        b"-999999999999999999",
        b"1000000000000000000",
        b"-1",
        b"0",
        b"9223372036854775807",
        b"\"\"",
        b"\"a b\"",
        b"\"b\\\"\\\\\\n\"",
        b"\"\xc3\xa9\xe2\x82\xac\xf0\x9f\x98\x80\"",
        long.as_slice(),
    ];
    for text in cases {
        let mut out = BytesMut::new(rt.alloc());
        match read_value(rt.alloc(), text) {
            Ok((value, used)) => {
                assert!(rt; used == text.len());
                print_cell(value.lend(), &mut out)?;
            }
            Err(refusal) => panic!(rt; "{refusal}"),
        }
        assert!(rt; &out.as_slice()[1..] == text);
    }
    Ok(())
}

#[test]
fn says_why_no_value_is_read(rt: HostRuntime) -> Result<(), Fail> {
    let long = quoted(rt.alloc(), 256)?;
    let cases: [(&[u8], ValueRefusal); 10] = [
        (b"", ValueRefusal::Syntax { at: 0 }),
        (b"  ", ValueRefusal::Syntax { at: 2 }),
        (b" -", ValueRefusal::Syntax { at: 1 }),
        (b"x", ValueRefusal::Syntax { at: 0 }),
        (b"--1", ValueRefusal::Syntax { at: 0 }),
        (b"\"a", ValueRefusal::Syntax { at: 0 }),
        (b"\"\\t\"", ValueRefusal::Syntax { at: 0 }),
        (b"\"a\"1", ValueRefusal::Syntax { at: 0 }),
        (b" 9223372036854775808", ValueRefusal::IntRange { at: 1 }),
        (long.as_slice(), ValueRefusal::TextLong { at: 0 }),
    ];
    for (text, want) in cases {
        match read_value(rt.alloc(), text) {
            Ok(_) => panic!(rt; "no value stands there"),
            Err(refusal) => assert!(rt; refusal == want),
        }
    }
    Ok(())
}

#[test]
fn reads_the_tokens_of_a_line(rt: HostRuntime) {
    let mut lexer = Lexer::new(b" q( x,_ )<-\"a\\n\" ! 07");
    let mut kinds: u64 = 0;
    for _ in 0..10 {
        let kind = match lexer.next() {
            Some(Token::Word(_)) => 1,
            Some(Token::Text(text)) => text.len() as u64,
            Some(Token::Open) => 3,
            Some(Token::Close) => 4,
            Some(Token::Comma) => 5,
            Some(Token::Arrow) => 6,
            Some(Token::Stray) => 7,
            Some(Token::Operator(_)) => 0,
            None => 0,
        };
        kinds = kinds.wrapping_mul(8).wrapping_add(kind);
    }
    assert!(rt; kinds == 0o1315146271);
    assert!(rt; lexer.is_done());
}

/// Signs are read as long as they can be.
#[test]
fn reads_the_signs_of_comparisons(rt: HostRuntime) {
    let mut lexer = Lexer::new(b"x<=1>=y!==<-2>");
    let mut kinds: u64 = 0;
    for _ in 0..10 {
        let kind = match lexer.next() {
            Some(Token::Operator(Operator::Less)) => 2,
            Some(Token::Operator(Operator::LessOrEqual)) => 3,
            Some(Token::Operator(Operator::Greater)) => 4,
            Some(Token::Operator(Operator::GreaterOrEqual)) => 5,
            Some(Token::Operator(Operator::Equal)) => 6,
            Some(Token::Operator(Operator::NotEqual)) => 7,
            Some(Token::Arrow) => 8,
            Some(_) => 1,
            None => 0,
        };
        kinds = kinds.wrapping_mul(10).wrapping_add(kind);
    }
    assert!(rt; kinds == 1_315_176_814);
    assert!(rt; lexer.is_done());
}

/// Integers of few digits are read without a token, and nothing else is.
#[test]
fn reads_small_integers(rt: HostRuntime) {
    let mut lexer = Lexer::new(b" 7  -007 -999999999999999999 1000000000000000000 ");
    assert!(rt; lexer.next_small() == Some(7));
    assert!(rt; lexer.next_small() == Some(-7));
    assert!(rt; lexer.next_small() == Some(-999_999_999_999_999_999));
    assert!(rt; lexer.next_small() == None);
    assert!(rt; matches!(lexer.next(), Some(Token::Word(_))));
    assert!(rt; lexer.next_small() == None);
    assert!(rt; lexer.is_done());
    let others: [&[u8]; 6] = [b"", b"-", b"--1", b"1x", b"1\"a\"", b"\"1\""];
    for line in others {
        assert!(rt; Lexer::new(line).next_small() == None);
    }
}
