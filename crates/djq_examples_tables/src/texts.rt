use djq_texts::Texts;
use std::test::Fail;

#[test]
fn forgets_a_text_with_its_last_use(rt: HostRuntime) -> Result<(), Fail> {
    let mut texts = Texts::new(rt.alloc())?;
    assert!(rt; texts.take_use(b"ab")? == 0);
    assert!(rt; texts.take_use(b"ab")? == 0);
    let number = texts.take_use(b"cde")?;
    assert!(rt; number == 1);
    assert!(rt; texts.len() == 2);
    texts.give_back(number);
    assert!(rt; texts.len() == 1);
    assert!(rt; texts.find(b"cde") == None);
    assert!(rt; texts.find(b"ab") == Some(0));
    assert!(rt; texts.take_use(b"f")? == 1);
    Ok(())
}

#[test]
fn counts_uses(rt: HostRuntime) -> Result<(), Fail> {
    let mut texts = Texts::new(rt.alloc())?;
    assert!(rt; texts.take_use(b"ab")? == 0);
    let number = texts.take_use(b"ab")?;
    assert!(rt; texts.uses(number) == 2);
    assert!(rt; texts.text(number) == b"ab".as_slice());
    Ok(())
}

/// With so many texts the buckets grow several times, and shrink again.
#[test]
fn becomes_smaller_again(rt: HostRuntime) -> Result<(), Fail> {
    let mut texts = Texts::new(rt.alloc())?;
    for number in 0..500u32 {
        assert!(rt; texts.take_use(&number.to_be_bytes())? == number);
    }
    for number in 1..500u32 {
        if let Some(found) = texts.find(&number.to_be_bytes()) {
            texts.give_back(found);
        }
    }
    assert!(rt; texts.len() == 1);
    assert!(rt; texts.find(&0u32.to_be_bytes()) == Some(0));
    assert!(rt; texts.take_use(b"ab")? < 16);
    Ok(())
}
