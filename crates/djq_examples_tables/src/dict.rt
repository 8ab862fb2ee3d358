use djq_dictionary::Dict;
use std::test::Fail;

#[test]
fn numbers_texts_in_order(rt: HostRuntime) -> Result<(), Fail> {
    let mut dict = Dict::new(rt.alloc())?;
    assert!(rt; dict.is_empty());
    assert!(rt; dict.intern(b"one")? == 0);
    assert!(rt; dict.intern(b"")? == 1);
    assert!(rt; dict.intern(b"one")? == 0);
    assert!(rt; dict.len() == 2);
    assert!(rt; dict.find(b"on") == None);
    assert!(rt; dict.text(1) == b"".as_slice());
    Ok(())
}

/// With so many texts the buffers and the buckets grow several times.
#[test]
fn keeps_numbers_while_it_grows(rt: HostRuntime) -> Result<(), Fail> {
    let mut dict = Dict::new(rt.alloc())?;
    for number in 0..5000u32 {
        assert!(rt; dict.intern(&number.to_be_bytes())? == number);
    }
    assert!(rt; dict.len() == 5000);
    for number in 0..5000u32 {
        assert!(rt; dict.find(&number.to_be_bytes()) == Some(number));
        assert!(rt; dict.text(number) == number.to_be_bytes().as_slice());
    }
    Ok(())
}
