ghost use Rattle.std.specs.Prelude.{◌≡◌};

use djq_cli::{Asked, MOST_TURNS, read_words};
use std::test::Fail;

#[test]
fn commands_without_words_are_read(rt: HostRuntime) -> Result<(), Fail> {
    let run = read_words(rt.alloc(), &["djq", "run"])?;
    assert!(rt; matches!(run, Some(Asked::Run)));
    let replay = read_words(rt.alloc(), &["djq", "replay"])?;
    assert!(rt; matches!(replay, Some(Asked::Replay(None))));
    Ok(())
}

#[test]
fn a_log_is_told_by_its_path(rt: HostRuntime) -> Result<(), Fail> {
    let asked = read_words(rt.alloc(), &["djq", "serve", "a:1", "--log", "j"])?;
    assert!(rt; matches!(asked, Some(Asked::Serve("a:1", MOST_TURNS, Some("j")))));
    let asked = read_words(
        rt.alloc(),
        &["djq", "serve", "--log", "j", "--turns", "7", "a:1"],
    )?;
    assert!(rt; matches!(asked, Some(Asked::Serve("a:1", 7, Some("j")))));
    let asked = read_words(rt.alloc(), &["djq", "replay", "--log", "j"])?;
    assert!(rt; matches!(asked, Some(Asked::Replay(Some("j")))));
    Ok(())
}

#[test]
fn serve_has_an_address_and_turns(rt: HostRuntime) -> Result<(), Fail> {
    let asked = read_words(rt.alloc(), &["djq", "serve", "a:1", "--turns", "7"])?;
    assert!(rt; matches!(asked, Some(Asked::Serve("a:1", 7, None))));
    let asked = read_words(rt.alloc(), &["djq", "serve", "a:1"])?;
    assert!(rt; matches!(asked, Some(Asked::Serve("a:1", MOST_TURNS, None))));
    Ok(())
}

#[test]
fn gen_has_a_number_and_a_seed(rt: HostRuntime) -> Result<(), Fail> {
    let asked = read_words(rt.alloc(), &["djq", "gen", "1000000", "0"])?;
    assert!(rt; matches!(asked, Some(Asked::Gen(1_000_000, 0))));
    let asked = read_words(rt.alloc(), &["djq", "gen", "1", "2147483647"])?;
    assert!(rt; matches!(asked, Some(Asked::Gen(1, 2_147_483_647))));
    Ok(())
}

#[test]
fn a_mirror_has_the_name_of_a_query(rt: HostRuntime) -> Result<(), Fail> {
    let asked = read_words(rt.alloc(), &["djq", "mirror", "q1"])?;
    assert!(rt; matches!(asked, Some(Asked::Mirror("q1"))));
    Ok(())
}

#[test]
fn other_words_are_no_command(rt: HostRuntime) -> Result<(), Fail> {
    let lists = [
        [].as_slice(),
        &["djq"],
        &["djq", "help"],
        &["djq", "--help"],
        &["djq", "-V"],
        &["djq", "run", "--help"],
        &["djq", "serve"],
        &["djq", "serve", "a:1", "--turns", "0"],
        &["djq", "serve", "a:1", "--turns", "+7"],
        &["djq", "serve", "a:1", "--turns", "01"],
        &["djq", "mirror"],
        &["djq", "mirror", "Q"],
        &["djq", "mirror", "q", "r"],
        &["djq", "replay", "file"],
        &["djq", "replay", "--log"],
        &["djq", "replay", "--log", "j", "--log", "k"],
        &["djq", "serve", "--log", "j"],
        &["djq", "run", "--log", "j"],
        &["djq", "gen"],
        &["djq", "gen", "5"],
        &["djq", "gen", "0", "1"],
        &["djq", "gen", "1000001", "1"],
        &["djq", "gen", "5", "2147483648"],
        &["djq", "gen", "5", "1", "1"],
        &["djq", "gen", "+5", "7"],
        &["djq", "gen", "05", "7"],
        &["djq", "gen", "5", "007"],
        &["djq", "gen", "5", "00"],
        &["djq", "gen", "5", "-0"],
    ];
    for words in lists {
        let asked = read_words(rt.alloc(), words)?;
        assert!(rt; asked.is_none());
    }
    Ok(())
}
