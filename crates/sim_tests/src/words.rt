//! What words ask for, and what `show` writes.
use crate::runs::{DIRECTION, SAVE, two_commands};
use am32sim::{Status, Words, sim_main};
use esc_base::{FileFlash, FlashDev, FlashOp, MemFlash, MemSink, MemSource};
use settings_block::default_block;
use std::alloc::Global;
use std::fs;
use std::test::Fail;
use trace_runner::Room;

/// How the command of these words ends, which stand between spaces, with an empty trace, and what it writes.
fn commanded<F: FlashDev>(
    alloc: Global,
    texts: &str,
    puts: &[u64],
    flash: &mut F,
) -> Result<(Status, String), Fail> {
    commanded_on(alloc, texts, "0 END\n", puts, flash)
}

/// The same with a trace.
fn commanded_on<F: FlashDev>(
    alloc: Global,
    texts: &str,
    trace: &str,
    puts: &[u64],
    flash: &mut F,
) -> Result<(Status, String), Fail> {
    let mut words = Words::new(alloc);
    for text in texts.split_whitespace() {
        words.push(text)?;
    }
    let mut src = MemSource::new(alloc, trace.as_bytes(), 7, &[])?;
    let mut out = MemSink::new(alloc, 16384, puts)?;
    let status = sim_main(&words, &mut src, &mut out, flash, Room::new(alloc)?);
    Ok((status, String::from_utf8_lossy(alloc, out.given())?))
}

#[test]
fn words_that_ask_for_nothing_are_refused(rt: HostRuntime) -> Result<(), Fail> {
    let mut flash = MemFlash::new(rt.alloc())?;
    flash.fail(FlashOp::Attach, 1)?;
    for words in [
        "",
        "fly",
        "run fly",
        "run --cost 0",
        "run --cost=17",
        "run --cost=02",
        "run --cost",
        "run --cost 2 --cost=2",
        "run --nest 3",
        "run --seed 1",
        "run --flash=",
        "run --flash -x",
        "show --cost 2",
        "show --help",
    ] {
        let (status, written) = commanded(rt.alloc(), words, &[], &mut flash)?;
        assert_eq!(rt; status, Status::Usage);
        assert!(rt; written.is_empty());
    }
    Ok(())
}

#[test]
fn a_path_has_at_most_255_bytes(rt: HostRuntime) -> Result<(), Fail> {
    let mut words = String::new(rt.alloc());
    words.push_str("show --flash=")?;
    for _ in 0..255 {
        words.push('a')?;
    }
    let mut flash = MemFlash::new(rt.alloc())?;
    let (status, _) = commanded(rt.alloc(), words.as_str(), &[], &mut flash)?;
    assert_eq!(rt; status, Status::Done);
    words.push('a')?;
    let (status, _) = commanded(rt.alloc(), words.as_str(), &[], &mut flash)?;
    assert_eq!(rt; status, Status::Usage);
    Ok(())
}

#[test]
fn options_come_in_any_order_and_both_forms(rt: HostRuntime) -> Result<(), Fail> {
    let mut flash = MemFlash::new(rt.alloc())?;
    for words in [
        "run --cost=16 --nest 1",
        "run --nest=7 --flash=a=b --cost 1",
    ] {
        let (status, written) = commanded(rt.alloc(), words, &[], &mut flash)?;
        assert_eq!(rt; status, Status::Done);
        assert_eq!(rt; written.as_str(), "U 0 1\nW 0 0\n");
    }
    Ok(())
}

const DEFAULTS: &str =
    "direction 0\nthree_d 0\ncomplementary 0\nadvance 1\npoles 14\nservo_low 1006\nservo_high 2006\nneutral 1502\ndead_band 50\ninput 0\n";

#[test]
fn show_tells_the_block_and_the_settings(rt: HostRuntime) -> Result<(), Fail> {
    for (at, byte, first) in [
        (0, 255, "block marker\n"),
        (1, 2, "block version\n"),
        (27, 13, "block range 27\n"),
        (2, 7, "block ok\n"),
    ] {
        let mut block = default_block();
        if at < 48 {
            block.0[at] = byte;
        }
        let mut flash = MemFlash::new(rt.alloc())?;
        flash.set(0x7C00, &block.0);
        let (status, written) = commanded(rt.alloc(), "show", &[], &mut flash)?;
        assert_eq!(rt; status, Status::Done);
        assert_eq!(rt; written.as_str().strip_prefix(first), Some(DEFAULTS));
    }
    let mut flash = MemFlash::new(rt.alloc())?;
    let (status, written) = commanded(rt.alloc(), "show", &[1], &mut flash)?;
    assert_eq!(rt; status, Status::WriteFault);
    assert!(rt; written.is_empty());
    Ok(())
}

#[test]
fn an_image_is_a_whole_file(rt: HostRuntime) -> Result<(), Fail> {
    let mut cells = Vec::new(rt.alloc());
    for _ in 0..32768 {
        cells.push(255u8)?;
    }
    fs::write(&rt, "words.img", cells.as_slice())?;
    fs::write(&rt, "words_short.img", b"short".as_slice())?;
    for (words, want) in [
        ("show --flash words.img", Status::Done),
        ("show --flash words_short.img", Status::AttachFault),
        ("show --flash words_missing.img", Status::AttachFault),
        ("show --flash .", Status::AttachFault),
    ] {
        let mut flash = FileFlash::new(&rt, rt.alloc())?;
        let (status, written) = commanded(rt.alloc(), words, &[], &mut flash)?;
        assert_eq!(rt; status, want, "at {words}");
        assert_eq!(rt; written.is_empty(), want != Status::Done, "at {words}");
    }
    fs::remove_file(&rt, "words.img")?;
    fs::remove_file(&rt, "words_short.img")?;
    Ok(())
}

#[test]
fn a_save_reaches_the_image_and_the_next_command(rt: HostRuntime) -> Result<(), Fail> {
    let mut cells = Vec::new(rt.alloc());
    for _ in 0..32768 {
        cells.push(255u8)?;
    }
    fs::write(&rt, "words_saved.img", cells.as_slice())?;
    let trace = two_commands(rt.alloc(), DIRECTION, SAVE)?;
    let mut flash = FileFlash::new(&rt, rt.alloc())?;
    let words = "run --flash words_saved.img";
    let (status, journal) = commanded_on(rt.alloc(), words, trace.as_str(), &[], &mut flash)?;
    assert_eq!(rt; status, Status::Done);
    assert!(rt; journal.as_str().starts_with("U 0 1\n"));
    let mut flash = FileFlash::new(&rt, rt.alloc())?;
    let words = "show --flash words_saved.img";
    let (status, shown) = commanded(rt.alloc(), words, &[], &mut flash)?;
    assert_eq!(rt; status, Status::Done);
    assert!(rt; shown.as_str().starts_with("block ok\ndirection 1\n"));
    fs::remove_file(&rt, "words_saved.img")?;
    Ok(())
}
